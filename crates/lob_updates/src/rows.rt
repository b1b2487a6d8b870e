//! The row before a change in place.
ghost use Rattle.std.specs.Prelude.{◌≡◌, ◌≢◌, ◌<◌, true, nat_eq, List, [], Some, None, IfOk};
ghost use Rattle.indexmap.specs.IndexMap.{get};
ghost use Rattle.page_model.specs.Pages.{Pages};
ghost use Rattle.page_model.specs.Steps.{MayUse, Uses};
ghost use Rattle.engine_base.specs.Faults.{HasCause, FailsPlainly};
ghost use Rattle.store_data.specs.Store.{live, Store};
ghost use Rattle.undo_model.specs.Rows.{RowPage};
ghost use Rattle.store_model.specs.History.{row_before};
ghost use Rattle.store_parts.specs.Shows.{row_of};
ghost use Rattle.undo_records.specs.Records.{row_of as row_there, state_of};
ghost use Rattle.row_dir.specs.Directory.{IsDirectory, IsBelow};
ghost use Rattle.store_steps.specs.Standing.{StandsOn};

use engine_base::{DocId, Fault, PageNo, Pages, strange};
use row_dir::RowDir;
use undo_records::{Row, RowState};

// Whether the row is live.
fn is_live(row: &Row) -> bool
    ensures yes { result ≡ true → state_of row.now.state ≡ live }
    ensures no { state_of row.now.state ≡ live → result ≡ true }
{
    match row.state {
        RowState::Live => true,
        RowState::Absent | RowState::Deleted => false,
    }
}

/// The document's row, which is live, and whose LOB begins in one of the pages. Touches the page of
/// its slot. Strange names the log's first page, and the document, where it has no live row, or
/// the first page that the row names, where there is none.
pub(crate) fn live_row<P: Pages>(
    p: &mut P,
    rows: &RowDir,
    log: PageNo,
    doc: DocId,
) -> Result<Row, Fault>
    requires below { IsBelow (P.state p.old).count rows.now }
    requires may { MayUse [] 1 0 (P.state p.old) }
    ensures value { (there : List RowPage) (pages : Pages) (store : Store)
        → (P.state p.old).told ≡ Some pages → StandsOn there pages store
        → IsDirectory rows.now there
        → IfOk result (λ r. row_of (row_there r) ≡ row_before store doc.0) }
    ensures live { IfOk result (λ r. state_of r.state ≡ live) }
    ensures doc { IfOk result (λ r. r.doc ≡ doc) }
    ensures place { IfOk result (λ r. get nat_eq rows.now.places doc.0 ≢ None) }
    ensures first { IfOk result (λ r. r.lob.page.0 < (P.state p.old).count) }
    ensures never { (there : List RowPage) (pages : Pages) (store : Store)
        → (P.state p.old).told ≡ Some pages → StandsOn there pages store
        → IsDirectory rows.now there → (row_before store doc.0).state ≡ live
        → (row_before store doc.0).lob.page < (P.state p.old).count → FailsPlainly result }
    ensures told { (P.state p.new).told ≡ (P.state p.old).told }
    ensures cause { HasCause (P.state p.old).faults (P.state p.new).faults result }
    ensures uses { Uses P.state P.stays [] 1 0 p.old p.new }
{
    let count = p.count();
    let Some(row) = rows.get(p, doc)? else {
        return strange(log, 0, u64::from(doc.0));
    };
    if !is_live(&row) {
        return strange(log, 0, u64::from(doc.0));
    }
    if row.lob.page.0 >= count {
        return strange(log, 0, u64::from(row.lob.page.0));
    }
    Ok(row)
}
