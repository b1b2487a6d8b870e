//! A transaction's log begun and committed, and a change recorded: its undo record and its row.
#![tactic(auto)]

mod beginning;
mod changing;
mod committing;
mod keeping;
mod trx;

pub use beginning::begin;
pub use changing::record_change;
pub use committing::commit;
pub use trx::Trx;

#[cfg(test)]
mod tests;
