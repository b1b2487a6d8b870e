//! Where the fields of a list's base and of a node stand, from its first byte on. Each number is
//! big-endian, and an address is a page in four bytes and an offset in two.
//!
//! | Offset | Bytes | Field of a base | Offset | Bytes | Field of a node |
//! |---|---|---|---|---|---|
//! | 0 | 4 | length | 0 | 6 | address of the node before |
//! | 4 | 6 | address of the first node | 6 | 6 | address of the node behind |
//! | 10 | 6 | address of the last node | | | |

use engine_base::PAGE_BYTES;

pub const FIRST: u16 = 4;

pub const FIRST_AT: u16 = FIRST + 4;

pub const LAST: u16 = FIRST_AT + 2;

pub const LAST_AT: u16 = LAST + 4;

pub const BASE_SIZE: u16 = LAST_AT + 2;

pub const NEXT: u16 = 6;

pub const NODE_SIZE: u16 = NEXT + 6;

const _: () = prove!(LAST == 10);

const _: () = prove!(BASE_SIZE == 16);

const _: () = prove!(NODE_SIZE == 12);

/// The last place in a page at which a node fits.
pub const MAX_PLACE: u16 = PAGE_BYTES as u16 - NODE_SIZE;

/// The length of a list that takes no further node.
pub const MAX_LENGTH: u64 = 0xffff_ffff;
