//! Where the parts of a store's file stand, in bytes from its front. Numbers in it are big-endian.
//!
//! | Offset | Bytes | Contents |
//! |---|---|---|
//! | 0 | 4,096 | control block: `LOBSTORE`, version 4, pages 4, log_kib 4; at 512 the live byte |
//! | 4,096 | 4,096 | doublewrite header: the armed byte; at 4,608 the count 4 and the page numbers,
//! 4 each |
//! | 8,192 | 32 × 16,384 | the images of a batch |
//! | 532,480 | 2 × 1,024 × log_kib | log regions 0 and 1 |
//! | behind them | 16,384 × pages | the pages at their homes |

/// How many bytes the control block has.
pub const CONTROL_BYTES: u64 = 4_096;

/// The byte whose lowest bit is the live log region.
pub const LIVE: u64 = 512;

/// The byte whose lowest bit says that a doublewrite batch is armed.
pub const ARMED: u64 = CONTROL_BYTES;

/// The count of a batch, and behind it its page numbers.
pub const COUNT: u64 = ARMED + 512;

/// The images of a batch.
pub const IMAGES: u64 = ARMED + 4_096;

/// How many bytes a page and its image have.
pub const PAGE_BYTES: u64 = 16_384;

/// The two log regions.
pub const LOGS: u64 = IMAGES + 32 * PAGE_BYTES;

const _: () = prove!(LOGS == 532_480);
