// What of the grammar a program takes.

/// A line of any other form is bad with the cause `Word`, and a session past the last with the
/// cause `Session`.
#[derive(Clone, Copy, Debug, PartialEq, Eq)]
pub struct Built {
    /// The greatest session.
    pub sessions: u8,
    /// `s2& ..`
    pub marks: bool,
    /// `begin`, `commit`, `rollback`
    pub transactions: bool,
    pub steps: bool,
    pub purges: bool,
    pub checkpoints: bool,
    pub audits: bool,
    pub restarts: bool,
}
