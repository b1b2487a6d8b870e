use engine_base::Fault;

/// Why a row page wasn't loaded.
#[derive(Clone, Copy, Debug, PartialEq, Eq)]
pub enum DirError {
    /// The device failed, or the page is no row page that can stand behind those loaded so far. The
    /// row pages are as before; of the page's documents some may have been entered.
    Fault(Fault),
    /// There was no memory for as many rows as a page may have. The directory says what it said.
    Memory,
}
