//! Record locks: which session holds which document, and the circles of waits.
#![tactic(auto)]

mod asked;
mod chain;
mod locks;
mod others;

pub use asked::{Asked, Circle};
pub use locks::Locks;

#[cfg(test)]
mod tests;
