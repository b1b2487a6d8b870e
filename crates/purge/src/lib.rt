//! The purge of the first committed log, event by event, over pages.
#![tactic(auto)]

mod dropped;
mod due;
mod job;
mod kinds;
mod layout;
mod log;
mod record;
mod rows;
mod versions;

pub use job::{Purging, Step, purge_step};

#[cfg(test)]
mod log_tests;
#[cfg(test)]
mod tests;
