//! Which store these pages hold, and what a call says of the rest of a store that it keeps.
#![tactic(auto)]

mod rows;
mod steps;

pub use rows::{row_led, row_log, row_touched};
pub use steps::{bytes_written, calls_follow, page_given, page_taken, rest_kept};
