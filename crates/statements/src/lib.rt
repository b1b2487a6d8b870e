//! The script of a run and its journal, as text: from bytes to statements, and from entries to the
//! lines of the transcript.
#![tactic(auto)]

mod arguments;
mod built;
mod cause;
mod draft;
mod entry;
mod error;
mod journal;
mod limits;
mod line;
mod lines;
mod mode;
mod print;
#[cfg(test)]
mod print_tests;
mod reading;
mod reply;
mod script;
mod statement;
#[cfg(test)]
mod tests;
mod words;

pub use built::Built;
pub use cause::Cause;
pub use entry::{Audit, Entry, Undoer, Who};
pub use journal::Journal;
pub use limits::{MAX_PAIRS, MAX_SESSIONS, MAX_STATEMENTS, MAX_STEPS, limits_are_defined};
pub use mode::Mode;
pub use print::entry_text;
pub use reading::{ScriptError, read_script};
pub use reply::{Circle, Reply, Text};
pub use script::{Line, Script};
pub use statement::{Call, Level, Question, Statement};
