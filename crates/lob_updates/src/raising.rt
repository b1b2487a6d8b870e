//! The planning event of a change that makes versions: the LOB's version is raised.
ghost use Rattle.std.specs.Prelude.{◌≡◌, ◌≢◌, ◌^◌, ◌+◌, ◌<◌, ◌≤◌, suc, List, [], ◌∷◌, length, IfOk, IfErr, IsOk, OnOk};
ghost use Rattle.page_model.specs.Pages.{Pages};
ghost use Rattle.page_model.specs.Steps.{MayUse, Uses, Becomes};
ghost use Rattle.engine_base.specs.Faults.{HasCause, FailsPlainly};
ghost use Rattle.engine_base.specs.declared.fault.Fault.TheVariants.{Device};
ghost use Rattle.page_space.specs.Map.{IsSize, free_of};
ghost use Rattle.store_data.specs.Store.{versioned, Log, Store};
ghost use Rattle.undo_model.specs.Reading.{bitmap_size, max_pieces};
ghost use Rattle.undo_model.specs.Rows.{RowPage};
ghost use Rattle.store_model.specs.History.{row_before};
ghost use Rattle.store_model.specs.Events.{version_begun, raised};
ghost use Rattle.store_parts.specs.Shows.{reference_of, touched_from};
ghost use Rattle.lob_pages.specs.References.{reference_of as reference_there};
ghost use Rattle.row_dir.specs.Directory.{IsBelow};
ghost use Rattle.transactions.specs.Keeping.{CanKeep};
ghost use Rattle.transactions.specs.Changes.{plan_by};
ghost use Rattle.transactions.specs.Plans.{PlansChange};
ghost use Rattle.lob_updates.specs.Plans.{MayPlan};
ghost use Rattle.lob_updates.specs.Raises.{raise_room};

use crate::rows::live_row;
use engine_base::{DocId, Fault, PageNo, Pages, strange};
use lob_pages::{LobRef, LobVersion, set_version};
use page_space::Space;
use row_dir::RowDir;
use transactions::{Trx, record_change};
use undo_records::{Body, Row, Touched};

// The reference to the LOB's next version. Strange names the log's first page, and the version,
// behind which there is none.
fn next_version(lob: LobRef, log: PageNo) -> Result<LobRef, Fault>
    ensures raised { IfOk result (λ r. reference_of (reference_there r)
        ≡ raised (reference_of (reference_there lob))) }
    ensures page { IfOk result (λ r. r.page ≡ lob.page) }
    ensures strange { IfErr result (λ f. f ≢ Device) }
    ensures never { lob.version.0 + 1 < 2 ^ 32 → IsOk result }
{
    if lob.version.0 == u32::MAX {
        return strange(log, 0, u64::from(lob.version.0));
    }
    Ok(LobRef {
        version: LobVersion(lob.version.0 + 1),
        ..lob
    })
}

/// The planning event of a change that makes versions of the touched pieces: its record is the
/// newest of the transaction's log, the document's row has the reference with the next version,
/// which is answered, and the LOB's first page has that version. The pieces themselves are pushed
/// by further events. The condition is that two pages are reserved, one for the record and one that
/// the row never takes, since the document has one. Touches the log's first page, page 0 and seven
/// others: that of the row, five of the record and the row as `record_change` says, and the LOB's
/// first page. An `Err` leaves the pages as the event left them, and the mini-transaction is to be
/// abandoned. Strange names the log's first page, and the document, where it has no live row, or a
/// field of its row that no record has, or a version behind which there is none. The LOB's version
/// is that of lob0update.cc; that the row's reference tells which one it sees is ours.
pub fn raise<P: Pages>(
    p: &mut P,
    space: &mut Space,
    rows: &mut RowDir,
    trx: &mut Trx,
    doc: DocId,
    touched: Touched,
) -> Result<LobRef, Fault>
    requires two { 2 ≤ space.old }
    requires size { IsSize (P.state p.old).count }
    requires log { trx.old.log.0 < (P.state p.old).count }
    requires narrow { trx.old.id.0 < 2 ^ 48 }
    requires pieces { touched.pieces ≤ max_pieces }
    requires bits { length touched.bits ≡ bitmap_size touched.pieces }
    requires below { IsBelow (P.state p.old).count rows.old }
    requires may { MayUse (trx.old.log.0 ∷ 0 ∷ []) 7 raise_room (P.state p.old) }
    ensures raises { (there : List RowPage) (pages : Pages) (store : Store) (l : Log)
        → MayPlan (P.state p.old).told trx.old.id.0 trx.old.log.0 trx.old.records.0 doc.0 rows.old
        space.old there pages store l → OnOk result (Becomes (P.state p.new).told (λ new.
        PlansChange l (plan_by trx.old.id.0 trx.old.records.0 doc.0)
        (versioned touched.pieces (touched_from 0 touched.pieces touched.bits))
        (λ plan. version_begun plan touched.pieces (touched_from 0 touched.pieces touched.bits))
        rows.new store new × (space.new ≤ free_of new))) }
    ensures shows { (there : List RowPage) (pages : Pages) (store : Store) (l : Log)
        → MayPlan (P.state p.old).told trx.old.id.0 trx.old.log.0 trx.old.records.0 doc.0 rows.old
        space.old there pages store l → IfOk result (λ lob.
        reference_of (reference_there lob) ≡ raised (row_before store doc.0).lob) }
    ensures first { IfOk result (λ lob. lob.page.0 < (P.state p.old).count) }
    ensures records { OnOk result (trx.new.records.0 ≡ suc trx.old.records.0) }
    ensures same { (trx.new.id ≡ trx.old.id) × (trx.new.log ≡ trx.old.log) }
    ensures below { IsBelow (P.state p.old).count rows.new }
    ensures takes { OnOk result (space.old ≤ space.new + 2) }
    ensures never { (there : List RowPage) (pages : Pages) (store : Store) (l : Log)
        → MayPlan (P.state p.old).told trx.old.id.0 trx.old.log.0 trx.old.records.0 doc.0 rows.old
        space.old there pages store l → CanKeep (P.state p.old).count (row_before store doc.0)
        → suc (row_before store doc.0).lob.version < 2 ^ 32 → FailsPlainly result }
    ensures cause { HasCause (P.state p.old).faults (P.state p.new).faults result }
    ensures uses { Uses P.state P.stays (trx.old.log.0 ∷ 0 ∷ []) 7 raise_room p.old p.new }
{
    let before = live_row(p, rows, trx.log, doc)?;
    let lob = next_version(before.lob, trx.log)?;
    let after = Row { lob, ..before };
    record_change(
        p,
        space,
        rows,
        trx,
        &before,
        &after,
        Body::Versioned(touched),
    )?;
    set_version(p, lob.page, lob.version)?;
    Ok(lob)
}
