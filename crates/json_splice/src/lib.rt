//! A new encoding of a document with one value made another, from its bytes and without its tree:
//! the containers on the way to the value are laid anew, and what stands canonically is copied.
#![tactic(auto)]

mod canonical;
mod entry;
mod keys;
mod lay;
mod parts;
mod scalars;
mod shape;
mod write;

pub use canonical::canonical_size;
pub use lay::laid;

#[cfg(test)]
mod tests;
