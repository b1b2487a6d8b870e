//! The row that a document has at present.
ghost use Rattle.std.specs.Prelude.{◌≡◌, [], Some, IfOk};
ghost use Rattle.page_model.specs.Pages.{Pages};
ghost use Rattle.page_model.specs.Steps.{MayUse, Uses};
ghost use Rattle.engine_base.specs.Faults.{HasCause, FailsPlainly};
ghost use Rattle.store_data.specs.Store.{Store};
ghost use Rattle.store_model.specs.History.{row_before};
ghost use Rattle.store_parts.specs.Shows.{IsStore};
ghost use Rattle.row_dir.specs.Directory.{IsBelow, IsDirectory};
ghost use Rattle.read_views.specs.Flights.{row_in, row_read};

use engine_base::{DocId, Fault, PageNo, Pages};
use lob_pages::{LobRef, LobVersion, TrxId};
use row_dir::RowDir;
use undo_records::{RollPtr, Row, RowState};

// The document's row, an absent one where it has none.
pub(crate) fn row_now<P: Pages>(p: &mut P, rows: &RowDir, doc: DocId) -> Result<Row, Fault>
    requires below { IsBelow (P.state p.old).count rows.now }
    requires may { MayUse [] 1 0 (P.state p.old) }
    ensures value { (pages : Pages) (store : Store) → (P.state p.old).told ≡ Some pages
        → (is : IsStore pages store) → IsDirectory rows.now is.stored.rows
        → IfOk result (λ r. row_in r ≡ row_before store doc.0) }
    ensures never { (pages : Pages) (store : Store) → (P.state p.old).told ≡ Some pages
        → (is : IsStore pages store) → IsDirectory rows.now is.stored.rows
        → FailsPlainly result }
    ensures cause { HasCause (P.state p.old).faults (P.state p.new).faults result }
    ensures told { (P.state p.new).told ≡ (P.state p.old).told }
    ensures uses { Uses P.state P.stays [] 1 0 p.old p.new }
{
    let row = rows.get(p, doc)?;
    Ok(present_row(row, doc))
}

// A document without a row has an absent one.
pub(crate) fn present_row(present: Option<Row>, doc: DocId) -> Row
    ensures { row_in result ≡ row_read present }
{
    match present {
        Some(row) => row,
        None => Row {
            doc,
            state: RowState::Absent,
            trx: TrxId(0),
            roll: RollPtr(0),
            lob: LobRef {
                space: 0,
                page: PageNo(0),
                version: LobVersion(0),
                length: 0,
            },
        },
    }
}
