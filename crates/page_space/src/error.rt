use engine_base::Fault;

/// Why pages weren't reserved.
#[derive(Clone, Copy, Debug, PartialEq, Eq)]
pub enum SpaceError {
    /// More pages are needed than are free and not reserved. Nothing is changed.
    Full { need: u32, free: u32 },
    /// The pages gave up, or the count of free pages is above the pages.
    Fault(Fault),
}
