//! Where the addresses of a list's base and of a node stand, from its first byte on, and the ends
//! of a first page's entries.
//!
//! | Offset | Bytes | Field of a base | Offset | Bytes | Field of a node |
//! |---|---|---|---|---|---|
//! | 0 | 4 | length | 0 | 6 | address of the node before |
//! | 4 | 6 | address of the first node | 6 | 6 | address of the node behind |
//! | 10 | 6 | address of the last node | | | |

use engine_base::PAGE_BYTES;
use lob_model::layout::{ENTRY, FIRST_COUNT, FIRST_ENTRIES};

pub const FIRST: u16 = 4;

pub const FIRST_AT: u16 = FIRST + 4;

pub const LAST: u16 = FIRST_AT + 2;

pub const LAST_AT: u16 = LAST + 4;

pub const NEXT: u16 = 6;

pub const NEXT_AT: u16 = NEXT + 4;

const _: () = prove!(LAST_AT + 2 == 16);

const _: () = prove!(NEXT_AT + 2 == 12);

/// The last place in a page at which an entry fits.
pub const LAST_PLACE: u16 = PAGE_BYTES as u16 - ENTRY;

/// Where the tenth entry of a first page stands.
pub const LAST_ENTRY: u16 = FIRST_ENTRIES + ENTRY * (FIRST_COUNT - 1);

const _: () = prove!(LAST_ENTRY == 636);
