//! Doubly linked lists of nodes in pages: a base has the length and both ends, and a node the
//! addresses before and behind it. A list is its nodes' addresses, from the first to the last.
#![tactic(auto)]

mod bases;
mod changes;
mod layout;
mod links;
mod reads;

pub use bases::make_base;
pub use changes::{add_first, add_last, remove, remove_first, remove_last};
pub use reads::{first, last, len, next};

#[cfg(test)]
mod tests;
