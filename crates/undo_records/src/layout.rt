//! Where the fields of an undo record stand, from its first byte on. Each number is big-endian.
//!
//! | Offset | Bytes | Field |
//! |---|---|---|
//! | 0 | 2 | length of the record |
//! | 2 | 1 | kind: 1 Insert, 2 Full, 3 Versioned, 4 Patched, 5 Removed |
//! | 3 | 4 | undo number |
//! | 7 | 4 | document |
//! | 11 | 34 | the row before: state 1, transaction id 6, roll pointer 7, LOB reference 20 |
//! | 45 | 6 | address of the record before in the log: page 4, offset 2 |
//! | 51 | | body |

use engine_base::PAGE_BYTES;

pub(crate) const KIND: usize = 2;

pub(crate) const NUMBER: usize = KIND + 1;

pub(crate) const DOC: usize = NUMBER + 4;

pub(crate) const BEFORE: usize = DOC + 4;

pub(crate) const PREVIOUS: usize = BEFORE + 34;

/// How many bytes stand before the body.
pub(crate) const HEAD: usize = PREVIOUS + 6;

/// How many bytes a run has before its old bytes: page 4, offset 2, length 1.
pub(crate) const RUN_HEAD: usize = 7;

/// How many runs a record has at most.
pub(crate) const MAX_RUNS: usize = 100;

/// How many old bytes the runs of a record have at most, all together.
pub(crate) const MAX_OLD: usize = 100;

/// How many pieces a LOB has at most.
pub(crate) const MAX_PIECES: u32 = 1_032;

/// How many bytes a document has at most.
pub(crate) const MAX_LENGTH: u32 = 16_777_216;

/// How many bytes a record has at most: those of a head, a count, and the most runs with the most
/// old bytes.
pub(crate) const MAX_RECORD: usize = HEAD + 1 + MAX_RUNS * RUN_HEAD + MAX_OLD;

/// Records end at or before the trailer of their page.
pub(crate) const RECORD_END: usize = PAGE_BYTES - 8;

const _: () = prove!(HEAD == 51);

const _: () = prove!(MAX_RECORD == 852);
