//! Lines of a script, each with what the grammar reads it as.
#![tactic(auto)]

mod good;
mod long;
mod numbers;
mod paths;
mod values;
mod words;

pub use good::{other_lines, statements};
pub use long::long_lines;
pub use numbers::{document_numbers, session_numbers};
pub use paths::{bad_paths, wildcards_and_ranges};
pub use values::{edit_arguments, json_numbers, json_texts};
pub use words::{dotted_words, single_spaces, step_counts, unknown_words, words_behind};
