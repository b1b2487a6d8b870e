//! Read views, and reads under way: what each keeps between two events, and what undoing a change
//! does to it.
#![tactic(auto)]

mod flight;
mod laws;
mod pieces;
mod places;
mod steps;
mod views;

pub use flight::{Flight, Phase};
pub use laws::{view_sees_first_commits, view_stays_the_first_commits};
pub use places::place_of;
pub use views::{MAX_VIEWS, Views};

#[cfg(test)]
mod tests;
