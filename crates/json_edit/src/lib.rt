//! Finding in trees by a path, and MySQL's JSON_SET, JSON_REPLACE and JSON_REMOVE of one pair
//! on a tree in memory.
#![tactic(auto)]

mod action;
mod children;
mod edit;
mod lookup;
mod pairs;
mod statement;
#[cfg(test)]
mod tests;

pub use children::{is_itself, place_in_list};
pub use edit::{remove, replace, set};
pub use lookup::find;
pub use pairs::{Edit, Pair, Pairs, Paths};
pub use statement::edit_all;
