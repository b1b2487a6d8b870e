//! The events of changes in place over the pages of a store: a LOB's version raised, a version of a
//! piece pushed, bytes patched.
#![tactic(auto)]

mod old_bytes;
mod patching;
mod pushing;
mod raising;
mod rows;

pub use patching::patch;
pub use pushing::push;
pub use raising::raise;

#[cfg(test)]
mod tests;
