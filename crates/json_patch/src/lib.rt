//! The stored change: which bytes of a stored document an edit touches, or the new encoding where
//! it can't be made in place.
#![tactic(auto)]

mod draft;
mod error;
mod lead;
mod pair;
mod parts;
mod planning;
mod removal;
mod restored;
mod room;
mod spans;
mod spliced;
#[cfg(test)]
mod tests;
mod touched;
mod writes;

pub use error::PlanError;
pub use parts::{Parts, Patch, apply, unapply};
pub use planning::{Planned, plan};
