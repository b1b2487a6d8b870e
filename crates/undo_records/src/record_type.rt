//! Undo records, and the rows that they keep.

use crate::{RollPtr, Runs, Touched};
use engine_base::{DocId, PageNo};
use lob_pages::{LobRef, TrxId, UndoNo};

/// Whether a row's document is there. An absent row stands in no row page: it is the row before an
/// insert.
#[derive(Clone, Copy, Debug, PartialEq, Eq)]
pub enum RowState {
    Absent,
    Live,
    Deleted,
}

/// A document's row: who changed it last, and where the record of that change stands.
#[derive(Clone, Copy, Debug, PartialEq, Eq)]
pub struct Row {
    pub doc: DocId,
    pub state: RowState,
    pub trx: TrxId,
    pub roll: RollPtr,
    pub lob: LobRef,
}

/// What a change did, and so what undoing it and purging it have to do.
#[derive(Drop)]
pub enum Body {
    /// A document was inserted, with the LOB of that first page.
    Insert(PageNo),
    /// The document got another LOB, of that first page.
    Full(PageNo),
    /// These pieces got a new version.
    Versioned(Touched),
    /// Pages were changed in place, and this is what stood there.
    Patched(Runs),
    /// The row was marked as deleted.
    Removed,
}

/// The record of one change, with the row as it was before, which is of the same document.
#[derive(Drop)]
pub struct UndoRecord {
    pub number: UndoNo,
    pub doc: DocId,
    pub before: Row,
    pub body: Body,
}
