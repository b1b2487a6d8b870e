//! Documents that get a new LOB, and deletions: the planning event of each, and the further pieces.
#![tactic(auto)]

mod adding;
mod deleting;
mod new_lob;
mod planning;
mod rows;

pub use adding::add;
pub use deleting::delete;
pub use planning::{insert, rebuild};

#[cfg(test)]
mod tests;
