//! The versions of a LOB's pieces: found by their numbers, counted, pushed, popped and
//! dropped.
#![tactic(auto)]

mod drops;
mod links;
mod pops;
mod pushes;
mod release;
mod search;

pub use drops::drop_oldest;
pub use pops::pop_version;
pub use pushes::push_version;
pub use search::{Found, count, find_version};

#[cfg(test)]
mod tests;
