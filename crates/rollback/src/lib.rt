//! The undoing of an active log, event by event, over pages.
#![tactic(auto)]

mod ending;
mod flights;
mod job;
mod kinds;
mod laws;
mod newest;
mod popping;
mod raised;
mod record;
mod rows;
mod runs;
mod versions;

pub use job::{Step, Undoing, undo_step};
pub use laws::{changes_stay_undoable, record_may_end, undoing_begins};

#[cfg(test)]
mod log_tests;
#[cfg(test)]
mod tests;
