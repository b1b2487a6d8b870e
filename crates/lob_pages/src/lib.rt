//! The fields of a LOB's first page and of an index entry, read and written, and a row's reference
//! to a LOB.
#![tactic(auto)]

mod bytes;
mod entry;
mod first;
mod ids;
mod layout;
mod lob_ref;

pub use entry::{Base, Entry, read_entry, write_entry, write_fields};
pub use first::{FirstFields, read_first, set_version};
pub use ids::{LobVersion, TrxId, UndoNo};
pub use lob_ref::{LobRef, REFERENCE_BYTES};

#[cfg(test)]
mod tests;
