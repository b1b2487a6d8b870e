//! Batches of up to 32 pages: their images are written beside and armed before they go home, so
//! that a crash can't tear a page.
#![tactic(auto)]

mod area;
mod batch;
mod buffer;
mod header;
mod home;
mod laws;
mod recovery;

pub use batch::{Armed, Filling, Homed};
pub use recovery::repair;
