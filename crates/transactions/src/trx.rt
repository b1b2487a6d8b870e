//! A transaction at work.

use engine_base::PageNo;
use lob_pages::{TrxId, UndoNo};

/// A transaction at work: its id, the first page of its undo log, and how many records that has.
#[derive(Clone, Copy, Debug, PartialEq, Eq)]
pub struct Trx {
    pub id: TrxId,
    pub log: PageNo,
    pub records: UndoNo,
}
