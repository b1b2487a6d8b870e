//! Undo records in pages: what a change did, the row before it, and the bytes that it wrote over.
#![tactic(auto)]

mod apply;
mod decode;
mod encode;
mod ids;
mod laws;
mod layout;
mod old_bytes;
mod pages;
mod record_type;
mod runs;
mod size;
mod touched;

pub use apply::apply_old;
pub use decode::{is_place, is_previous};
pub use ids::RollPtr;
pub use laws::record_is_read;
pub use old_bytes::OldBytes;
pub use pages::{RecordError, read, write};
pub use record_type::{Body, Row, RowState, UndoRecord};
pub use runs::{Run, Runs};
pub use touched::{Bits, Touched};

#[cfg(test)]
mod tests;
