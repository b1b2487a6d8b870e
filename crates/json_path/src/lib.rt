//! Paths into JSON trees: MySQL's path expressions whose legs lead to one place, their text, and
//! each fault of a text with its place.
#![tactic(auto)]

mod error;
mod index;
mod key;
mod limits;
mod parse;
mod path;
mod print;
mod strings;
#[cfg(test)]
mod tests;

pub use error::PathError;
pub use limits::{MAX_LEGS, limit_is_defined};
pub use path::{Leg, Path};
