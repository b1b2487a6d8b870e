//! The row that a document has before a change.
ghost use Rattle.std.specs.Prelude.{◌≡◌, true, [], List, Some, IfOk};
ghost use Rattle.page_model.specs.Pages.{Pages};
ghost use Rattle.page_model.specs.Steps.{MayUse, Uses};
ghost use Rattle.engine_base.specs.Faults.{HasCause, FailsPlainly};
ghost use Rattle.store_data.specs.Store.{live, Store};
ghost use Rattle.undo_model.specs.Rows.{RowPage};
ghost use Rattle.store_model.specs.History.{absent_row, row_before};
ghost use Rattle.store_parts.specs.Shows.{row_of};
ghost use Rattle.undo_records.specs.Records.{row_of as row_there, state_of};
ghost use Rattle.row_dir.specs.Directory.{IsDirectory, IsBelow};
ghost use Rattle.store_steps.specs.Standing.{StandsOn};

use engine_base::{DocId, Fault, PageNo, Pages};
use lob_pages::{LobRef, LobVersion, TrxId};
use row_dir::RowDir;
use undo_records::{RollPtr, Row, RowState};

/// Whether the row is live.
pub(crate) fn is_live(row: &Row) -> bool
    ensures yes { result ≡ true → state_of row.now.state ≡ live }
    ensures no { state_of row.now.state ≡ live → result ≡ true }
{
    match row.state {
        RowState::Live => true,
        RowState::Absent | RowState::Deleted => false,
    }
}

// The row of a document that has none.
fn absent(doc: DocId) -> Row
    ensures doc { result.doc ≡ doc }
    ensures shows { row_of (row_there result) ≡ absent_row }
{
    Row {
        doc,
        state: RowState::Absent,
        trx: TrxId(0),
        roll: RollPtr(0),
        lob: LobRef {
            space: 0,
            page: PageNo(0),
            version: LobVersion(0),
            length: 0,
        },
    }
}

/// The document's row, an absent one where it has none. Touches the page of its slot.
pub(crate) fn row_now<P: Pages>(p: &mut P, rows: &RowDir, doc: DocId) -> Result<Row, Fault>
    requires below { IsBelow (P.state p.old).count rows.now }
    requires may { MayUse [] 1 0 (P.state p.old) }
    ensures value { (there : List RowPage) (pages : Pages) (store : Store)
        → (P.state p.old).told ≡ Some pages → StandsOn there pages store
        → IsDirectory rows.now there
        → IfOk result (λ r. row_of (row_there r) ≡ row_before store doc.0) }
    ensures doc { IfOk result (λ r. r.doc ≡ doc) }
    ensures never { (there : List RowPage) (pages : Pages) (store : Store)
        → (P.state p.old).told ≡ Some pages → StandsOn there pages store
        → IsDirectory rows.now there → FailsPlainly result }
    ensures told { (P.state p.new).told ≡ (P.state p.old).told }
    ensures cause { HasCause (P.state p.old).faults (P.state p.new).faults result }
    ensures uses { Uses P.state P.stays [] 1 0 p.old p.new }
{
    match rows.get(p, doc)? {
        Some(row) => Ok(row),
        None => Ok(absent(doc)),
    }
}
