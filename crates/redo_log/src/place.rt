// Where a scan of a log region stands.

/// What stands at a gate.
#[derive(Clone, Copy, Debug, PartialEq, Eq)]
pub(crate) enum Gate {
    /// The log ends here.
    Closed,
    /// The gate is open, and its block with the next gate passes the region.
    Early,
    /// A block whose frames have so many bytes.
    Open(u64),
}

/// What stands at a gate, and where: in bytes from the first gate on.
#[derive(Clone, Copy, Debug, PartialEq, Eq)]
pub(crate) struct Found {
    pub(crate) at: u64,
    pub(crate) gate: Gate,
}

/// A place in the blocks of a region.
#[derive(Clone, Copy, Debug, PartialEq, Eq)]
pub(crate) struct Place {
    /// In bytes from the first gate on.
    pub(crate) at: u64,
    /// How many bytes of a block's frames are left there; at a gate 0.
    pub(crate) left: u64,
    /// Whether the log ends there.
    pub(crate) ended: bool,
}
