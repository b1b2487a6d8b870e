//! Where the fields of the system page, page 0, stand. Each number is big-endian. What the table
//! doesn't name is zero.
//!
//! | Offset | Bytes | Field |
//! |---|---|---|
//! | 0 | 38 | header of a page by itself, of number 0 and type 1 |
//! | 38 | 8 | next transaction id |
//! | 46 | 8 | commits |
//! | 54 | 8 | purged commits |
//! | 62 | 4 | free pages |
//! | 66 | 16 | base of the list of row pages |
//! | 82 | 16 | base of the list of active undo logs |
//! | 98 | 16 | base of the list of committed undo logs |
//! | 128 | 4,096 | map of used pages: page k is bit k mod 8, lowest first, of byte k / 8 |

use engine_base::{HEADER_BYTES, PageNo, PageType};

pub const SYSTEM: PageNo = PageNo(0);

pub const NEXT_TRX_ID: u16 = HEADER_BYTES;

pub const COMMITS: u16 = NEXT_TRX_ID + 8;

pub const PURGED_COMMITS: u16 = COMMITS + 8;

pub const FREE_PAGES: u16 = PURGED_COMMITS + 8;

pub const ROW_PAGES: u16 = FREE_PAGES + 4;

pub const ACTIVE_LOGS: u16 = ROW_PAGES + 16;

pub const COMMITTED_LOGS: u16 = ACTIVE_LOGS + 16;

pub const MAP: u16 = COMMITTED_LOGS + 30;

pub const MAP_BYTES: usize = 4_096;

const _: () = prove!(NEXT_TRX_ID == 38);

const _: () = prove!(FREE_PAGES == 62);

const _: () = prove!(ROW_PAGES == 66);

const _: () = prove!(ACTIVE_LOGS == 82);

const _: () = prove!(COMMITTED_LOGS == 98);

const _: () = prove!(MAP == 128);

const _: () = prove!(MAP as usize + MAP_BYTES == 4_224);

/// The type of the system page.
pub const SYSTEM_TYPE: u16 = PageType::System as u16;

const _: () = prove!(SYSTEM_TYPE == 1);

/// Where the addresses of a base's first and last node stand, page and then offset, from the base
/// on.
pub const FIRST: u16 = 4;

pub const FIRST_AT: u16 = FIRST + 4;

pub const LAST: u16 = FIRST_AT + 2;

pub const LAST_AT: u16 = LAST + 4;

const _: () = prove!(LAST_AT + 2 == 16);
