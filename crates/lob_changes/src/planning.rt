//! A document that gets a new LOB: it is inserted, or its LOB is made anew.
ghost use Rattle.std.specs.Prelude.{◌≡◌, ◌≢◌, ◌^◌, ◌+◌, ◌<◌, ◌≤◌, suc, List, [], ◌∷◌, length, IfOk, OnOk};
ghost use Rattle.page_model.specs.Pages.{Pages};
ghost use Rattle.page_model.specs.Steps.{MayUse, Uses, Becomes};
ghost use Rattle.engine_base.specs.Faults.{HasCause, FailsPlainly};
ghost use Rattle.page_space.specs.Map.{IsSize, free_of};
ghost use Rattle.store_data.specs.Store.{live, Reference, Log, Store};
ghost use Rattle.undo_model.specs.Rows.{RowPage, IsPresent};
ghost use Rattle.lob_model.specs.declared.layout.TheConstants.{FIRST_ROOM};
ghost use Rattle.lob_pages.specs.References.{reference_of as reference_there};
ghost use Rattle.store_model.specs.History.{row_before};
ghost use Rattle.store_parts.specs.Shows.{reference_of};
ghost use Rattle.undo_records.specs.Records.{state_of};
ghost use Rattle.row_dir.specs.Directory.{IsBelow, HasRoom};
ghost use Rattle.transactions.specs.Keeping.{CanKeep};
ghost use Rattle.transactions.specs.Changes.{plan_by};
ghost use Rattle.lob_changes.specs.Planning.{MayPlan};
ghost use Rattle.lob_changes.specs.NewLobs.{Inserts, Rebuilds, new_reference, new_room};

use crate::new_lob::make_lob;
use crate::rows::{is_live, row_now};
use engine_base::{DocId, Fault, PageNo, Pages, strange};
use lob_pages::{LobRef, LobVersion, TrxId};
use page_space::Space;
use row_dir::RowDir;
use transactions::{Trx, record_change};
use undo_records::{Body, RollPtr, Row, RowState};

// The row of a document that has that LOB. Who changed it is written with the change.
fn row_with(doc: DocId, page: PageNo, size: u32) -> Row
    ensures live { state_of result.state ≡ live }
    ensures present { IsPresent (state_of result.state) }
    ensures lob { reference_of (reference_there result.lob) ≡ new_reference page.0 size }
{
    Row {
        doc,
        state: RowState::Live,
        trx: TrxId(0),
        roll: RollPtr(0),
        lob: LobRef {
            space: 0,
            page,
            version: LobVersion(1),
            length: size,
        },
    }
}

/// Inserts a document: a LOB of version 1 is begun with its first piece, and the document's row is
/// live and refers to it, with the length of the whole document in bytes. Answers the LOB's first
/// page. The conditions are that three pages are reserved, for the LOB, the record and the row, and
/// that the directory has room. Touches the log's first page, page 0 and twelve others: the page of
/// the row's slot, six of the LOB, and five of the change. Strange names the log's first page, and
/// the document where it has a live row, or how many pages are reserved where the LOB used up more
/// than one.
pub fn insert<P: Pages>(
    p: &mut P,
    space: &mut Space,
    rows: &mut RowDir,
    trx: &mut Trx,
    doc: DocId,
    first: &[u8],
    size: u32,
) -> Result<PageNo, Fault>
    requires three { 3 ≤ space.old }
    requires size { IsSize (P.state p.old).count }
    requires log { trx.old.log.0 < (P.state p.old).count }
    requires narrow { trx.old.id.0 < 2 ^ 48 }
    requires fits { length first.now ≤ FIRST_ROOM }
    requires room { HasRoom rows.old }
    requires below { IsBelow (P.state p.old).count rows.old }
    requires may { MayUse (trx.old.log.0 ∷ 0 ∷ []) 12 new_room (P.state p.old) }
    ensures inserts { (there : List RowPage) (pages : Pages) (store : Store) (l : Log)
        → MayPlan (P.state p.old).told trx.old.id.0 trx.old.log.0 trx.old.records.0 doc.0 rows.old
        space.old there pages store l → (row_before store doc.0).state ≢ live
        → IfOk result (λ page. Becomes (P.state p.new).told (λ new.
        Inserts l (plan_by trx.old.id.0 trx.old.records.0 doc.0) page.0 trx.old.id.0 size first.now
        rows.new store new × (space.new ≤ free_of new))) }
    ensures there { IfOk result (λ page. page.0 < (P.state p.old).count) }
    ensures records { OnOk result (trx.new.records.0 ≡ suc trx.old.records.0) }
    ensures same { (trx.new.id ≡ trx.old.id) × (trx.new.log ≡ trx.old.log) }
    ensures below { IsBelow (P.state p.old).count rows.new }
    ensures never { (there : List RowPage) (pages : Pages) (store : Store) (l : Log)
        → MayPlan (P.state p.old).told trx.old.id.0 trx.old.log.0 trx.old.records.0 doc.0 rows.old
        space.old there pages store l → (row_before store doc.0).state ≢ live
        → CanKeep (P.state p.old).count (row_before store doc.0) → FailsPlainly result }
    ensures cause { HasCause (P.state p.old).faults (P.state p.new).faults result }
    ensures uses { Uses P.state P.stays (trx.old.log.0 ∷ 0 ∷ []) 12 new_room p.old p.new }
{
    let before = row_now(p, rows, doc)?;
    if is_live(&before) {
        return strange(trx.log, 0, u64::from(doc.0));
    }
    let page = make_lob(p, space, trx.id, first)?;
    if space.reserved() < 2 {
        return strange(trx.log, 0, u64::from(space.reserved()));
    }
    let after = row_with(doc, page, size);
    record_change(p, space, rows, trx, &before, &after, Body::Insert(page))?;
    Ok(page)
}

/// Gives a document another LOB: the same, but that the document has a live row, whose LOB is left
/// to purge.
pub fn rebuild<P: Pages>(
    p: &mut P,
    space: &mut Space,
    rows: &mut RowDir,
    trx: &mut Trx,
    doc: DocId,
    first: &[u8],
    size: u32,
) -> Result<PageNo, Fault>
    requires three { 3 ≤ space.old }
    requires size { IsSize (P.state p.old).count }
    requires log { trx.old.log.0 < (P.state p.old).count }
    requires narrow { trx.old.id.0 < 2 ^ 48 }
    requires fits { length first.now ≤ FIRST_ROOM }
    requires room { HasRoom rows.old }
    requires below { IsBelow (P.state p.old).count rows.old }
    requires may { MayUse (trx.old.log.0 ∷ 0 ∷ []) 12 new_room (P.state p.old) }
    ensures rebuilds { (there : List RowPage) (pages : Pages) (store : Store) (l : Log)
        → MayPlan (P.state p.old).told trx.old.id.0 trx.old.log.0 trx.old.records.0 doc.0 rows.old
        space.old there pages store l → (row_before store doc.0).state ≡ live
        → IfOk result (λ page. Becomes (P.state p.new).told (λ new.
        Rebuilds l (plan_by trx.old.id.0 trx.old.records.0 doc.0) page.0 trx.old.id.0 size
        first.now rows.new store new × (space.new ≤ free_of new))) }
    ensures there { IfOk result (λ page. page.0 < (P.state p.old).count) }
    ensures records { OnOk result (trx.new.records.0 ≡ suc trx.old.records.0) }
    ensures same { (trx.new.id ≡ trx.old.id) × (trx.new.log ≡ trx.old.log) }
    ensures below { IsBelow (P.state p.old).count rows.new }
    ensures never { (there : List RowPage) (pages : Pages) (store : Store) (l : Log)
        → MayPlan (P.state p.old).told trx.old.id.0 trx.old.log.0 trx.old.records.0 doc.0 rows.old
        space.old there pages store l → (row_before store doc.0).state ≡ live
        → CanKeep (P.state p.old).count (row_before store doc.0) → FailsPlainly result }
    ensures cause { HasCause (P.state p.old).faults (P.state p.new).faults result }
    ensures uses { Uses P.state P.stays (trx.old.log.0 ∷ 0 ∷ []) 12 new_room p.old p.new }
{
    let before = row_now(p, rows, doc)?;
    if !is_live(&before) {
        return strange(trx.log, 0, u64::from(doc.0));
    }
    let page = make_lob(p, space, trx.id, first)?;
    if space.reserved() < 2 {
        return strange(trx.log, 0, u64::from(space.reserved()));
    }
    let after = row_with(doc, page, size);
    record_change(p, space, rows, trx, &before, &after, Body::Full(page))?;
    Ok(page)
}
