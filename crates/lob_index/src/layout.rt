//! Where the addresses of a list's base and of a node stand, from its first byte on, and what
//! stands before the data of a data page.
//!
//! | Offset | Bytes | Field of a base | Offset | Bytes | Field of a node |
//! |---|---|---|---|---|---|
//! | 0 | 4 | length | 0 | 6 | address of the node before |
//! | 4 | 6 | address of the first node | 6 | 6 | address of the node behind |
//! | 10 | 6 | address of the last node | | | |

use engine_base::{HEADER_BYTES, PAGE_BYTES};
use lob_model::layout::{DATA, ENTRY, INDEX_COUNT, INDEX_ENTRIES};

pub const FIRST: u16 = 4;

pub const FIRST_AT: u16 = FIRST + 4;

pub const LAST: u16 = FIRST_AT + 2;

pub const LAST_AT: u16 = LAST + 4;

pub const BASE_SIZE: u16 = LAST_AT + 2;

pub const NEXT: u16 = 6;

pub const NEXT_AT: u16 = NEXT + 4;

const _: () = prove!(BASE_SIZE == 16);

const _: () = prove!(NEXT_AT + 2 == 12);

/// The last place in a page at which an entry fits.
pub const LAST_PLACE: u16 = PAGE_BYTES as u16 - ENTRY;

/// The last entry of an index page.
pub const LAST_NODE: u16 = INDEX_COUNT - 1;

const _: () = prove!(INDEX_ENTRIES + ENTRY * LAST_NODE == 16_299);

/// Where the length of the data of a data page stands.
pub const DATA_LENGTH: u16 = HEADER_BYTES + 1;

/// Where the transaction stands that made it.
pub const DATA_TRX: u16 = DATA_LENGTH + 4;

const _: () = prove!(DATA_LENGTH == 39);

const _: () = prove!(DATA_TRX + 6 == DATA);
