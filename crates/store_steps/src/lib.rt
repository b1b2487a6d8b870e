//! What the events of changes, rollback and purge share: a LOB of a store that goes, part by part,
//! the pieces that a change gave a new version, runs of bytes in place, where roll pointers lead.
#![tactic(auto)]

mod lob;
mod places;
mod reached;
mod runs;
mod touched;

pub use lob::{Left, free_part, free_rest};
pub use places::{leads, record_place};
pub use reached::{Reached, next_behind, reach};
pub use runs::{lay_runs, page_count};
pub use touched::touched_behind;

#[cfg(test)]
mod tests;
