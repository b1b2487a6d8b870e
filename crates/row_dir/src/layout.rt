//! Where the fields of a row page stand. Each number is big-endian.
//!
//! | Offset | Bytes | Field of a row page |
//! |---|---|---|
//! | 0 | 38 | header of a page, of type 2 |
//! | 38 | 12 | node of the list of row pages |
//! | 50 | 2 | how many rows it has |
//! | 52 | 16,320 | 408 slots of 40 bytes |
//!
//! | Offset | Bytes | Field of a slot |
//! |---|---|---|
//! | 0 | 1 | state: 0 free, 1 live, 2 deleted |
//! | 1 | 4 | document |
//! | 5 | 6 | transaction id |
//! | 11 | 7 | roll pointer |
//! | 18 | 20 | reference to a LOB |
//! | 38 | 2 | zero |

use engine_base::HEADER_BYTES;

pub const NODE: u16 = HEADER_BYTES;

pub const COUNT: u16 = NODE + 12;

pub const FIRST_SLOT: u16 = COUNT + 2;

pub const SLOT_BYTES: u16 = 40;

pub const MAX_SLOTS: u16 = 408;

/// Where the last slot ends.
pub const SLOTS_END: u16 = FIRST_SLOT + MAX_SLOTS * SLOT_BYTES;

const _: () = prove!(FIRST_SLOT == 52);

const _: () = prove!(SLOTS_END == 16_372);

/// Where a slot's fields stand, from its first byte on.
pub const DOC: u16 = 1;

pub const TRX: u16 = DOC + 4;

pub const ROLL: u16 = TRX + 6;

pub const LOB: u16 = ROLL + 7;

const _: () = prove!(LOB == 18);
