//! The links of an entry, where `lob_model::layout` names the node and the version list as wholes.
//! Each number is big-endian, and an address is a page (4 bytes) and an offset (2).
//!
//! | Offset in an entry | Bytes | Field |
//! |---|---|---|
//! | 0 | 6 | the node before |
//! | 6 | 6 | the node behind |
//! | 12 | 4 | length of the version list |
//! | 16 | 6 | its first node |
//! | 22 | 6 | its last node |

use lob_model::layout::{CREATOR, VERSIONS};

pub const PREVIOUS: u16 = 0;

pub const NEXT: u16 = PREVIOUS + 6;

pub const FIRST_VERSION: u16 = VERSIONS + 4;

pub const LAST_VERSION: u16 = FIRST_VERSION + 6;

const _: () = prove!(NEXT + 6 == VERSIONS);

const _: () = prove!(LAST_VERSION + 6 == CREATOR);
