//! Where the fields of a log's pages stand. Each number is big-endian.
//!
//! | Offset | Bytes | Field of every page of a log |
//! |---|---|---|
//! | 0 | 38 | header of a page, of type 3 |
//! | 38 | 12 | node of the log's list of pages |
//! | 50 | 2 | end of the used part |
//!
//! | Offset | Bytes | Field of a first page |
//! |---|---|---|
//! | 52 | 1 | state: 1 active, 2 committed, 3 committed with its purge begun |
//! | 53 | 6 | transaction id |
//! | 59 | 8 | commit number |
//! | 67 | 12 | node of the list of active or of committed logs |
//! | 79 | 16 | base of the log's list of pages |
//! | 95 | 6 | address of the last record |
//! | 101 | 6 | address of the next record to purge |
//! | 107 | | records |
//!
//! | Offset | Bytes | Field of another page |
//! |---|---|---|
//! | 52 | 4 | the log's first page |
//! | 56 | | records |

use engine_base::{HEADER_BYTES, PAGE_BYTES};

pub const PAGE_NODE: u16 = HEADER_BYTES;

pub const END: u16 = PAGE_NODE + 12;

pub const STATE: u16 = END + 2;

pub const TRX: u16 = STATE + 1;

pub const COMMIT: u16 = TRX + 6;

pub const LOG_NODE: u16 = COMMIT + 8;

pub const PAGES_BASE: u16 = LOG_NODE + 12;

pub const LAST: u16 = PAGES_BASE + 16;

pub const NEXT: u16 = LAST + 6;

pub const FIRST_START: u16 = NEXT + 6;

pub const OWNER: u16 = END + 2;

pub const OTHER_START: u16 = OWNER + 4;

const _: () = prove!(PAGE_NODE == 38);

const _: () = prove!(LOG_NODE == 67);

const _: () = prove!(LAST == 95);

const _: () = prove!(FIRST_START == 107);

const _: () = prove!(OTHER_START == 56);

/// Where the trailer begins, before which records end.
pub const RECORD_END: u16 = PAGE_BYTES as u16 - 8;

const _: () = prove!(RECORD_END == 16_376);

/// Where a record has the address of the one before it, from its first byte on.
pub const PREVIOUS: u16 = 45;

/// The states of a log, by number.
pub const ACTIVE: u8 = 1;

pub const COMMITTED: u8 = 2;

pub const PURGING: u8 = 3;
