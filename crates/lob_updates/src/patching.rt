//! A change of a few bytes of a document's LOB, made in place in one event.
ghost use Rattle.std.specs.Prelude.{◌≡◌, ◌^◌, ◌+◌, ◌<◌, ◌≤◌, nat_eq, suc, List, [], ◌∷◌, Some, None, OnOk};
ghost use Rattle.indexmap.specs.IndexMap.{get};
ghost use Rattle.page_model.specs.Pages.{Pages};
ghost use Rattle.page_model.specs.Steps.{MayUse, Uses, Becomes, different};
ghost use Rattle.engine_base.specs.Faults.{HasCause, FailsPlainly};
ghost use Rattle.page_space.specs.Map.{IsSize, free_of};
ghost use Rattle.store_data.specs.Store.{Lob, Log, Store};
ghost use Rattle.undo_model.specs.Reading.{RunsFit};
ghost use Rattle.undo_model.specs.Rows.{RowPage, IsPresent};
ghost use Rattle.store_model.specs.History.{row_before};
ghost use Rattle.store_parts.specs.Shows.{row_of};
ghost use Rattle.undo_records.specs.Records.{row_of as row_there, state_of};
ghost use Rattle.row_dir.specs.Directory.{IsBelow, HasRoom};
ghost use Rattle.store_steps.specs.Runs.{run_pages};
ghost use Rattle.transactions.specs.Keeping.{CanKeep};
ghost use Rattle.lob_updates.specs.Plans.{MayPlan};
ghost use Rattle.lob_updates.specs.Patches.{CanPatch, PatchesRuns, patch_room};

use crate::old_bytes::read_old;
use crate::rows::live_row;
use engine_base::{DocId, Fault, Pages, strange};
use page_space::Space;
use row_dir::RowDir;
use store_steps::{lay_runs, page_count};
use transactions::{Trx, record_change};
use undo_records::{Body, Row, Runs};

// On how many pages at most the runs of one change lie: it is of four pieces at most.
const MAX_PAGES: usize = 4;

// The event of a document with that row: its record has what stands where the runs are, and they
// are written.
fn patch_row<P: Pages>(
    p: &mut P,
    space: &mut Space,
    rows: &mut RowDir,
    trx: &mut Trx,
    before: &Row,
    runs: &Runs,
) -> Result<(), Fault>
    requires two { 2 ≤ space.old }
    requires size { IsSize (P.state p.old).count }
    requires log { trx.old.log.0 < (P.state p.old).count }
    requires narrow { trx.old.id.0 < 2 ^ 48 }
    requires present { IsPresent (state_of before.now.state) }
    requires fit { RunsFit (P.state p.old).count runs.now }
    requires few { different (run_pages runs.now) ≤ 4 }
    requires room { get nat_eq rows.old.places before.now.doc.0 ≡ None → HasRoom rows.old }
    requires below { IsBelow (P.state p.old).count rows.old }
    requires may { MayUse (trx.old.log.0 ∷ 0 ∷ []) 9 patch_room (P.state p.old) }
    ensures patches { (there : List RowPage) (pages : Pages) (store : Store) (l : Log) (m : Lob)
        → MayPlan (P.state p.old).told trx.old.id.0 trx.old.log.0 trx.old.records.0
        before.now.doc.0 rows.old space.old there pages store l
        → row_of (row_there before.now) ≡ row_before store before.now.doc.0
        → CanPatch before.now.doc.0 runs.now m store
        → OnOk result (Becomes (P.state p.new).told (λ new. PatchesRuns l trx.old.id.0
        trx.old.records.0 before.now.doc.0 runs.now rows.new store new
        × (space.new ≤ free_of new))) }
    ensures records { OnOk result (trx.new.records.0 ≡ suc trx.old.records.0) }
    ensures same { (trx.new.id ≡ trx.old.id) × (trx.new.log ≡ trx.old.log) }
    ensures below { IsBelow (P.state p.old).count rows.new }
    ensures takes { OnOk result (space.old ≤ space.new + 2) }
    ensures never { (there : List RowPage) (pages : Pages) (store : Store) (l : Log)
        → MayPlan (P.state p.old).told trx.old.id.0 trx.old.log.0 trx.old.records.0
        before.now.doc.0 rows.old space.old there pages store l
        → row_of (row_there before.now) ≡ row_before store before.now.doc.0
        → CanKeep (P.state p.old).count (row_before store before.now.doc.0)
        → FailsPlainly result }
    ensures cause { HasCause (P.state p.old).faults (P.state p.new).faults result }
    ensures uses { Uses P.state P.stays (trx.old.log.0 ∷ 0 ∷ []) 9 patch_room p.old p.new }
{
    let old = read_old(p, runs)?;
    record_change(p, space, rows, trx, before, before, Body::Patched(old))?;
    lay_runs(p, runs.as_slice())
}

/// The one event of a change that patches a few bytes: its record, the newest of the transaction's
/// log, has the bytes that stood where the runs are, the document's row leads to it with the
/// reference that it had, and the runs' bytes are written in their places. The condition is that
/// two pages are reserved, one for the record and one that the row never takes, since the document
/// has one. Touches the log's first page, page 0 and ten others: that of the row, five of the
/// record and the row as `record_change` says, and those of the runs, four at most. An `Err` leaves
/// the pages as the event left them, and the mini-transaction is to be abandoned. Strange names the
/// log's first page, and the document, where it has no live row, or a field of its row that no
/// record has, or on how many pages the runs lie, where these are more than four. Small changes
/// made in place, with the old bytes in the undo record, are InnoDB's (lob0undo.h).
pub fn patch<P: Pages>(
    p: &mut P,
    space: &mut Space,
    rows: &mut RowDir,
    trx: &mut Trx,
    doc: DocId,
    runs: &Runs,
) -> Result<(), Fault>
    requires two { 2 ≤ space.old }
    requires size { IsSize (P.state p.old).count }
    requires log { trx.old.log.0 < (P.state p.old).count }
    requires narrow { trx.old.id.0 < 2 ^ 48 }
    requires fit { RunsFit (P.state p.old).count runs.now }
    requires below { IsBelow (P.state p.old).count rows.old }
    requires may { MayUse (trx.old.log.0 ∷ 0 ∷ []) 10 patch_room (P.state p.old) }
    ensures patches { (there : List RowPage) (pages : Pages) (store : Store) (l : Log) (m : Lob)
        → MayPlan (P.state p.old).told trx.old.id.0 trx.old.log.0 trx.old.records.0 doc.0 rows.old
        space.old there pages store l → CanPatch doc.0 runs.now m store
        → OnOk result (Becomes (P.state p.new).told (λ new. PatchesRuns l trx.old.id.0
        trx.old.records.0 doc.0 runs.now rows.new store new × (space.new ≤ free_of new))) }
    ensures records { OnOk result (trx.new.records.0 ≡ suc trx.old.records.0) }
    ensures same { (trx.new.id ≡ trx.old.id) × (trx.new.log ≡ trx.old.log) }
    ensures below { IsBelow (P.state p.old).count rows.new }
    ensures takes { OnOk result (space.old ≤ space.new + 2) }
    ensures never { (there : List RowPage) (pages : Pages) (store : Store) (l : Log) (m : Lob)
        → MayPlan (P.state p.old).told trx.old.id.0 trx.old.log.0 trx.old.records.0 doc.0 rows.old
        space.old there pages store l → CanPatch doc.0 runs.now m store
        → CanKeep (P.state p.old).count (row_before store doc.0) → FailsPlainly result }
    ensures cause { HasCause (P.state p.old).faults (P.state p.new).faults result }
    ensures uses { Uses P.state P.stays (trx.old.log.0 ∷ 0 ∷ []) 10 patch_room p.old p.new }
{
    let before = live_row(p, rows, trx.log, doc)?;
    let pages = page_count(runs.as_slice());
    if pages > MAX_PAGES {
        return strange(trx.log, 0, pages as u64);
    }
    patch_row(p, space, rows, trx, &before, runs)
}
