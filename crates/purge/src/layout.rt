//! Where a field of a log's first page stands, whose table is that of `undo_logs`.
//!
//! | Offset | Bytes | Field |
//! |---|---|---|
//! | 52 | 1 | state |
//! | 53 | 6 | transaction id |

use engine_base::HEADER_BYTES;

pub const STATE: u16 = HEADER_BYTES + 14;

pub const TRX: u16 = STATE + 1;

const _: () = prove!(TRX == 53);
