//! The definition of a path's text that contracts of every crate cite, and worked texts.
#![tactic(auto)]

mod texts;

pub use texts::{faults_in_quotes, row_faults, row_printed};
