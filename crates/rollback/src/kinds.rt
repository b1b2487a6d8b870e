//! The events of a record's undoing, by its kind.
ghost use Rattle.std.specs.Prelude.{◌≡◌, true, ◌+◌, ◌*◌, ◌<◌, List, [], ◌∷◌, Some, IfOk, OnOk};
ghost use Rattle.page_model.specs.Steps.{MayUse, Uses, Becomes, write_head};
ghost use Rattle.engine_base.specs.Faults.{HasCause, FailsPlainly};
ghost use Rattle.engine_base.specs.Addresses.{address_of};
ghost use Rattle.page_space.specs.Map.{IsSize};
ghost use Rattle.store_data.specs.Store.{live, removed};
ghost use Rattle.undo_model.specs.Data.{led};
ghost use Rattle.undo_model.specs.Reading.{RunsFit};
ghost use Rattle.undo_model.specs.Rows.{IsPresent};
ghost use Rattle.undo_records.specs.Records.{state_of, IsNarrow};
ghost use Rattle.row_dir.specs.Directory.{IsDirectory, IsBelow};
ghost use Rattle.store_model.specs.Lobs.{lob_of};
ghost use Rattle.read_views.specs.Flights.{record_in};
ghost use Rattle.rollback.specs.Ends.{IsNewest, CanEnd};
ghost use Rattle.rollback.specs.Events.{ends, freeing_lob};
ghost use Rattle.rollback.specs.Flights.{AreTurned, handed};
ghost use Rattle.rollback.specs.Kinds.{CanFree, CanPatch, new_room, patched_room};
ghost use Rattle.rollback.specs.Made.{Made, goes_on, event_turn};
ghost use Rattle.rollback.specs.Records.{is_left};
ghost use Rattle.rollback.specs.Standing.{Scene, IsAt};

use crate::ending::{end_live, end_record};
use crate::newest::Newest;
use crate::runs::lay_old;
use engine_base::{Fault, PageNo, Pages, strange};
use page_space::Space;
use read_views::Flight;
use row_dir::RowDir;
use store_steps::{free_part, free_rest};
use undo_records::{Row, RowState, Runs};

/// An event of the undoing of a record that made a LOB: a part of the LOB goes, or where nothing is
/// left of it but its first page, that goes and the record ends. True while an event is left.
pub(crate) fn undo_new<P: Pages>(
    p: &mut P,
    space: &mut Space,
    rows: &mut RowDir,
    flights: &mut [Flight],
    log: PageNo,
    newest: &Newest,
    page: PageNo,
) -> Result<bool, Fault>
    requires size { IsSize (P.state p.old).count }
    requires log { log.0 < (P.state p.old).count }
    requires page { page.0 < (P.state p.old).count }
    requires below { IsBelow (P.state p.old).count rows.old }
    requires narrow { IsNarrow newest.now.rec.before }
    requires doc { newest.now.rec.before.doc ≡ newest.now.rec.doc }
    requires leads { led newest.now.roll.0 ≡ Some (address_of newest.now.place) }
    requires may { MayUse (page.0 ∷ log.0 ∷ 0 ∷ []) 9 new_room (P.state p.old) }
    ensures makes { (s : Scene) → IsAt (P.state p.old).told log.0 s → IsNewest newest.now s
        → IsDirectory rows.old s.there → CanFree page.0 s → CanEnd s
        → OnOk result (Becomes (P.state p.new).told
        (Made (freeing_lob page.0 (lob_of s.store.lobs page.0)) s rows.new)) }
    ensures left { (s : Scene) → IsAt (P.state p.old).told log.0 s → CanFree page.0 s
        → IfOk result (λ b. b ≡ goes_on (freeing_lob page.0 (lob_of s.store.lobs page.0)) s) }
    ensures turns { (s : Scene) → IsAt (P.state p.old).told log.0 s → IsNewest newest.now s
        → CanFree page.0 s → OnOk result (AreTurned
        (event_turn (freeing_lob page.0 (lob_of s.store.lobs page.0)) s) flights.old flights.new) }
    ensures below { IsBelow (P.state p.old).count rows.new }
    ensures reserved { space.new ≡ space.old }
    ensures never { (s : Scene) → IsAt (P.state p.old).told log.0 s → IsNewest newest.now s
        → IsDirectory rows.old s.there → CanFree page.0 s → CanEnd s → FailsPlainly result }
    ensures cause { HasCause (P.state p.old).faults (P.state p.new).faults result }
    ensures uses { Uses P.state P.stays (page.0 ∷ log.0 ∷ 0 ∷ []) 9 new_room p.old p.new }
{
    if free_part(p, space, page)? {
        return Ok(true);
    }
    free_rest(p, space, page)?;
    end_record(p, space, rows, flights, log, newest)
}

// Whether the row is live.
fn is_live(row: &Row) -> bool
    ensures present { result ≡ true → IsPresent (state_of row.now.state) }
    ensures live { state_of row.now.state ≡ live → result ≡ true }
{
    match row.state {
        RowState::Live => true,
        RowState::Absent | RowState::Deleted => false,
    }
}

/// The event of the undoing of a change in place: the old bytes are put back, and the record ends.
/// False exactly where no record is left. Strange names the record's place: and on how many pages its
/// runs lie, where these are more than four; or the document, where the row before isn't live or the
/// document has none.
pub(crate) fn undo_patched<P: Pages>(
    p: &mut P,
    space: &mut Space,
    rows: &RowDir,
    flights: &mut [Flight],
    log: PageNo,
    newest: &Newest,
    runs: &Runs,
) -> Result<bool, Fault>
    requires size { IsSize (P.state p.old).count }
    requires log { log.0 < (P.state p.old).count }
    requires fit { RunsFit (P.state p.old).count runs.now }
    requires below { IsBelow (P.state p.old).count rows.now }
    requires narrow { IsNarrow newest.now.rec.before }
    requires doc { newest.now.rec.before.doc ≡ newest.now.rec.doc }
    requires leads { led newest.now.roll.0 ≡ Some (address_of newest.now.place) }
    requires may { MayUse (log.0 ∷ 0 ∷ []) 8 patched_room (P.state p.old) }
    ensures makes { (s : Scene) → IsAt (P.state p.old).told log.0 s → IsNewest newest.now s
        → IsDirectory rows.now s.there → CanPatch runs.now s → CanEnd s
        → OnOk result (Becomes (P.state p.new).told (Made ends s rows.now)) }
    ensures left { (s : Scene) → IsAt (P.state p.old).told log.0 s → CanPatch runs.now s
        → IfOk result (λ b. b ≡ is_left s.rest) }
    ensures turns { OnOk result (AreTurned (handed (address_of newest.now.place)
        (record_in newest.now.rec)) flights.old flights.new) }
    ensures reserved { space.new ≡ space.old }
    ensures never { (s : Scene) → IsAt (P.state p.old).told log.0 s → IsNewest newest.now s
        → IsDirectory rows.now s.there → CanPatch runs.now s → CanEnd s → FailsPlainly result }
    ensures cause { HasCause (P.state p.old).faults (P.state p.new).faults result }
    ensures uses { Uses P.state P.stays (log.0 ∷ 0 ∷ []) 8 patched_room p.old p.new }
{
    if !is_live(&newest.rec.before) {
        let doc = newest.rec.doc;
        return strange(newest.place.page, newest.place.at, u64::from(doc.0));
    }
    lay_old(p, newest.place, runs)?;
    end_live(p, space, rows, flights, log, newest)
}

/// The event of the undoing of a deletion, which made nothing: the record ends. False exactly where
/// no record is left.
pub(crate) fn undo_removed<P: Pages>(
    p: &mut P,
    space: &mut Space,
    rows: &mut RowDir,
    flights: &mut [Flight],
    log: PageNo,
    newest: &Newest,
) -> Result<bool, Fault>
    requires size { IsSize (P.state p.old).count }
    requires log { log.0 < (P.state p.old).count }
    requires below { IsBelow (P.state p.old).count rows.old }
    requires narrow { IsNarrow newest.now.rec.before }
    requires doc { newest.now.rec.before.doc ≡ newest.now.rec.doc }
    requires leads { led newest.now.roll.0 ≡ Some (address_of newest.now.place) }
    requires may { MayUse (log.0 ∷ 0 ∷ []) 9 (47 + 12 * write_head) (P.state p.old) }
    ensures makes { (s : Scene) → IsAt (P.state p.old).told log.0 s → IsNewest newest.now s
        → IsDirectory rows.old s.there → s.undo.body ≡ removed → CanEnd s
        → OnOk result (Becomes (P.state p.new).told (Made ends s rows.new)) }
    ensures left { (s : Scene) → IsAt (P.state p.old).told log.0 s
        → IfOk result (λ b. b ≡ is_left s.rest) }
    ensures turns { OnOk result (AreTurned (handed (address_of newest.now.place)
        (record_in newest.now.rec)) flights.old flights.new) }
    ensures below { IsBelow (P.state p.old).count rows.new }
    ensures reserved { space.new ≡ space.old }
    ensures never { (s : Scene) → IsAt (P.state p.old).told log.0 s → IsNewest newest.now s
        → IsDirectory rows.old s.there → CanEnd s → FailsPlainly result }
    ensures cause { HasCause (P.state p.old).faults (P.state p.new).faults result }
    ensures uses { Uses P.state P.stays (log.0 ∷ 0 ∷ []) 9 (47 + 12 * write_head) p.old p.new }
{
    end_record(p, space, rows, flights, log, newest)
}
