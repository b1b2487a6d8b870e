// A roll pointer as a number of its own type.

/// Where the undo record of a row's last change stands: an insert bit, seven zero bits, the page in
/// 32 bits and the offset in 16; 0 where there is none.
#[derive(Clone, Copy, Debug, PartialEq, Eq)]
pub struct RollPtr(pub u64);
