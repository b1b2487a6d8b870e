// The numbers that a LOB's pages hold, each a type of its own.

/// A transaction, from 1. A page has 48 bits for it.
#[derive(Clone, Copy, Debug, PartialEq, Eq, PartialOrd, Ord)]
pub struct TrxId(pub u64);

/// A change of a transaction, from 0.
#[derive(Clone, Copy, Debug, PartialEq, Eq, PartialOrd, Ord)]
pub struct UndoNo(pub u32);

/// A version of a LOB, from 1.
#[derive(Clone, Copy, Debug, PartialEq, Eq, PartialOrd, Ord)]
pub struct LobVersion(pub u32);
