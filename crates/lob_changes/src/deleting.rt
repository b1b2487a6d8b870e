//! A document deleted.
ghost use Rattle.std.specs.Prelude.{◌≡◌, ◌^◌, ◌+◌, ◌<◌, ◌≤◌, suc, List, [], ◌∷◌, OnOk};
ghost use Rattle.page_model.specs.Pages.{Pages};
ghost use Rattle.page_model.specs.Steps.{MayUse, Uses, Becomes};
ghost use Rattle.engine_base.specs.Faults.{HasCause, FailsPlainly};
ghost use Rattle.page_space.specs.Map.{IsSize, free_of};
ghost use Rattle.store_data.specs.Store.{live, removed, Log, Store};
ghost use Rattle.undo_model.specs.Rows.{RowPage};
ghost use Rattle.store_model.specs.History.{row_before};
ghost use Rattle.store_model.specs.Events.{delete_made};
ghost use Rattle.row_dir.specs.Directory.{IsBelow, HasRoom};
ghost use Rattle.transactions.specs.Keeping.{CanKeep};
ghost use Rattle.transactions.specs.Changes.{plan_by, change_room};
ghost use Rattle.transactions.specs.Plans.{PlansChange};
ghost use Rattle.lob_changes.specs.Planning.{MayPlan};

use crate::rows::{is_live, row_now};
use engine_base::{DocId, Fault, Pages, strange};
use page_space::Space;
use row_dir::RowDir;
use transactions::{Trx, record_change};
use undo_records::{Body, Row, RowState};

/// Deletes a document: its row is marked as deleted, and its LOB is left to purge. The conditions
/// are that two pages are reserved, for the record and the row, and that the directory has room.
/// Touches the log's first page, page 0 and six others, and writes what `record_change` does.
/// Strange names the log's first page, and the document where it has no live row.
pub fn delete<P: Pages>(
    p: &mut P,
    space: &mut Space,
    rows: &mut RowDir,
    trx: &mut Trx,
    doc: DocId,
) -> Result<(), Fault>
    requires two { 2 ≤ space.old }
    requires size { IsSize (P.state p.old).count }
    requires log { trx.old.log.0 < (P.state p.old).count }
    requires narrow { trx.old.id.0 < 2 ^ 48 }
    requires room { HasRoom rows.old }
    requires below { IsBelow (P.state p.old).count rows.old }
    requires may { MayUse (trx.old.log.0 ∷ 0 ∷ []) 6 change_room (P.state p.old) }
    ensures deletes { (there : List RowPage) (pages : Pages) (store : Store) (l : Log)
        → MayPlan (P.state p.old).told trx.old.id.0 trx.old.log.0 trx.old.records.0 doc.0 rows.old
        space.old there pages store l → (row_before store doc.0).state ≡ live
        → OnOk result (Becomes (P.state p.new).told (λ new.
        PlansChange l (plan_by trx.old.id.0 trx.old.records.0 doc.0) removed delete_made rows.new
        store new × (space.new ≤ free_of new))) }
    ensures records { OnOk result (trx.new.records.0 ≡ suc trx.old.records.0) }
    ensures same { (trx.new.id ≡ trx.old.id) × (trx.new.log ≡ trx.old.log) }
    ensures below { IsBelow (P.state p.old).count rows.new }
    ensures takes { OnOk result (space.old ≤ space.new + 2) }
    ensures never { (there : List RowPage) (pages : Pages) (store : Store) (l : Log)
        → MayPlan (P.state p.old).told trx.old.id.0 trx.old.log.0 trx.old.records.0 doc.0 rows.old
        space.old there pages store l → (row_before store doc.0).state ≡ live
        → CanKeep (P.state p.old).count (row_before store doc.0) → FailsPlainly result }
    ensures cause { HasCause (P.state p.old).faults (P.state p.new).faults result }
    ensures uses { Uses P.state P.stays (trx.old.log.0 ∷ 0 ∷ []) 6 change_room p.old p.new }
{
    let before = row_now(p, rows, doc)?;
    if !is_live(&before) {
        return strange(trx.log, 0, u64::from(doc.0));
    }
    let after = Row {
        doc,
        state: RowState::Deleted,
        trx: before.trx,
        roll: before.roll,
        lob: before.lob,
    };
    record_change(p, space, rows, trx, &before, &after, Body::Removed)
}
