//! Undo logs: lists of undo records in pages, each log with its own list of pages, in the list of
//! active or of committed logs.
#![tactic(auto)]

mod appending;
mod beginning;
mod committed;
mod committing;
mod cutting;
mod dropping;
mod forward;
mod layout;
mod opening;
mod popping;
mod purged;
mod put;
mod reads;

pub use appending::{append, pointer};
pub use beginning::begin_log;
pub use committed::{begin_purge, purged_one};
pub use committing::commit;
pub use dropping::drop_page;
pub use popping::pop_last;
pub use purged::is_purged;
pub use reads::{at, last, next_to_purge, oldest_committed, purge_begun};

#[cfg(test)]
mod tests;
