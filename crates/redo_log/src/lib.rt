//! The redo log of a store: groups of writes in blocks behind gates.
#![tactic(auto)]

mod block;
mod buffer;
mod frames;
mod gates;
mod laws;
mod log;
mod lsn;
mod place;
mod scan;
mod switch;

pub use laws::{flush_recovers, switch_recovers};
pub use log::Log;
pub use lsn::Lsn;
pub use scan::Scan;
