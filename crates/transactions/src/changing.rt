//! A change recorded: its undo record, and its row.
ghost use Rattle.std.specs.Prelude.{◌≡◌, ◌^◌, ◌+◌, ◌<◌, ◌≤◌, nat_eq, suc, List, [], ◌∷◌, Some, None, OnOk};
ghost use Rattle.indexmap.specs.IndexMap.{get};
ghost use Rattle.page_model.specs.Pages.{Pages};
ghost use Rattle.page_model.specs.Steps.{MayUse, Uses, Becomes};
ghost use Rattle.engine_base.specs.Faults.{HasCause, FailsPlainly};
ghost use Rattle.page_space.specs.Map.{IsSize, free_of};
ghost use Rattle.store_data.specs.Store.{Log, Store};
ghost use Rattle.undo_model.specs.Reading.{IsSoundBody};
ghost use Rattle.undo_model.specs.Rows.{RowPage, IsPresent};
ghost use Rattle.store_model.specs.History.{row_before};
ghost use Rattle.store_parts.specs.Shows.{row_of, body_of};
ghost use Rattle.undo_records.specs.Records.{row_of as row_there, body_of as body_there, state_of};
ghost use Rattle.row_dir.specs.Directory.{IsDirectory, IsBelow, HasRoom};
ghost use Rattle.store_steps.specs.Standing.{StandsOn};
ghost use Rattle.transactions.specs.Standing.{IsAtWork};
ghost use Rattle.transactions.specs.Keeping.{CanKeep};
ghost use Rattle.transactions.specs.Changes.{Changes, plan_by, change_room};

use crate::Trx;
use crate::keeping::row_to_keep;
use engine_base::{DocId, Fault, Pages, strange};
use lob_pages::UndoNo;
use page_space::Space;
use row_dir::RowDir;
use undo_logs::append;
use undo_records::{Body, Row, UndoRecord};

// The record of a change.
fn record_with(number: UndoNo, doc: DocId, before: Row, body: Body) -> UndoRecord
    ensures number { result.number ≡ number }
    ensures doc { result.doc ≡ doc }
    ensures before { result.before ≡ before }
    ensures body { body_there result.body ≡ body_there body }
    ensures number_fits { number.0 < 256 ^ 4 }
    ensures doc_fits { doc.0 < 256 ^ 4 }
{
    UndoRecord {
        number,
        doc,
        before,
        body,
    }
}

/// Records a change of a document: its undo record, with the row before and the next number, is the
/// newest of the transaction's log, and the row behind it stands, which names the transaction and
/// leads to the record. Of `after` the document, the transaction and the pointer aren't looked at:
/// the document is that of `before`. The conditions are that two pages are reserved, one for the
/// record and one for the row, and for a document without a row that the directory has room.
/// Touches the log's first page, page 0 and five others: the log's newest page and, where one is
/// taken, that one and that of the node before it; the row's page, and where one is taken that of
/// the node before it. Writes at most 17,406 bytes in twenty writes. Strange names the log's first
/// page, and the number of its records where there can be no more, or a field of the row before
/// that no record has; then nothing is changed.
pub fn record_change<P: Pages>(
    p: &mut P,
    space: &mut Space,
    rows: &mut RowDir,
    trx: &mut Trx,
    before: &Row,
    after: &Row,
    body: Body,
) -> Result<(), Fault>
    requires two { 2 ≤ space.old }
    requires size { IsSize (P.state p.old).count }
    requires log { trx.old.log.0 < (P.state p.old).count }
    requires narrow { trx.old.id.0 < 2 ^ 48 }
    requires present { IsPresent (state_of after.now.state) }
    requires body { IsSoundBody (P.state p.old).count (body_there body) }
    requires room { get nat_eq rows.old.places before.now.doc.0 ≡ None → HasRoom rows.old }
    requires below { IsBelow (P.state p.old).count rows.old }
    requires may { MayUse (trx.old.log.0 ∷ 0 ∷ []) 5 change_room (P.state p.old) }
    ensures changes { (there : List RowPage) (pages : Pages) (store : Store) (l : Log)
        → (P.state p.old).told ≡ Some pages → StandsOn there pages store
        → IsAtWork trx.old.id.0 trx.old.log.0 trx.old.records.0 store l
        → row_of (row_there before.now) ≡ row_before store before.now.doc.0
        → IsDirectory rows.old there → space.old ≤ free_of pages
        → OnOk result (Becomes (P.state p.new).told (λ new. Changes l
        (plan_by trx.old.id.0 trx.old.records.0 before.now.doc.0) (row_of (row_there before.now))
        (row_of (row_there after.now)) (body_of (body_there body)) rows.new store new
        × (space.new ≤ free_of new))) }
    ensures records { OnOk result (trx.new.records.0 ≡ suc trx.old.records.0) }
    ensures same { (trx.new.id ≡ trx.old.id) × (trx.new.log ≡ trx.old.log) }
    ensures below { IsBelow (P.state p.old).count rows.new }
    ensures takes { OnOk result (space.old ≤ space.new + 2) }
    ensures never { (there : List RowPage) (pages : Pages) (store : Store) (l : Log)
        → (P.state p.old).told ≡ Some pages → StandsOn there pages store
        → IsAtWork trx.old.id.0 trx.old.log.0 trx.old.records.0 store l
        → row_of (row_there before.now) ≡ row_before store before.now.doc.0
        → CanKeep (P.state p.old).count (row_before store before.now.doc.0)
        → IsDirectory rows.old there → space.old ≤ free_of pages → FailsPlainly result }
    ensures cause { HasCause (P.state p.old).faults (P.state p.new).faults result }
    ensures uses { Uses P.state P.stays (trx.old.log.0 ∷ 0 ∷ []) 5 change_room p.old p.new }
{
    if trx.records.0 == u32::MAX {
        return strange(trx.log, 0, u64::from(trx.records.0));
    }
    let kept = row_to_keep(p.count(), trx.log, before)?;
    let rec = record_with(trx.records, before.doc, kept, body);
    let roll = append(p, space, trx.log, &rec)?;
    let row = Row {
        doc: before.doc,
        state: after.state,
        trx: trx.id,
        roll,
        lob: after.lob,
    };
    rows.put(p, space, &row)?;
    trx.records = UndoNo(trx.records.0 + 1);
    Ok(())
}
