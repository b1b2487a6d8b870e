//! One event of the undoing of the newest record, by its kind.
ghost use Rattle.std.specs.Prelude.{◌≡◌, ◌+◌, ◌*◌, ◌<◌, [], ◌∷◌, None, Some, IfOk, OnOk};
ghost use Rattle.page_model.specs.Steps.{MayUse, Uses, Becomes};
ghost use Rattle.engine_base.specs.Faults.{HasCause, FailsPlainly};
ghost use Rattle.engine_base.specs.Addresses.{address_of};
ghost use Rattle.page_space.specs.Map.{IsSize};
ghost use Rattle.undo_model.specs.Data.{led};
ghost use Rattle.undo_model.specs.Reading.{BodyFits};
ghost use Rattle.undo_records.specs.Records.{body_of, IsNarrow};
ghost use Rattle.row_dir.specs.Directory.{IsDirectory, IsBelow};
ghost use Rattle.store_steps.specs.Reached.{piece_in, IsFit};
ghost use Rattle.rollback.specs.Ends.{IsNewest, CanEnd};
ghost use Rattle.rollback.specs.Flights.{AreTurned};
ghost use Rattle.rollback.specs.Kinds.{CanUndo, IsHeadIn, patched_room};
ghost use Rattle.rollback.specs.Made.{Made, event_for, event_turn, goes_on, behind};
ghost use Rattle.rollback.specs.Standing.{Scene, IsAt};

use crate::kinds::{undo_new, undo_patched, undo_removed};
use crate::newest::Newest;
use crate::raised::{Left, undo_versions};
use engine_base::{Fault, PageNo, Pages, strange};
use page_space::Space;
use read_views::Flight;
use row_dir::RowDir;
use store_steps::Reached;
use undo_records::Body;

/// The event of the record's undoing that is due, by its kind. Strange further names the record's
/// place and the first page of the LOB whose versions it raised, where there is no such page.
pub(crate) fn undo_record<P: Pages>(
    p: &mut P,
    space: &mut Space,
    rows: &mut RowDir,
    flights: &mut [Flight],
    log: PageNo,
    newest: &Newest,
    last: Option<Reached>,
) -> Result<Left, Fault>
    requires size { IsSize (P.state p.old).count }
    requires log { log.0 < (P.state p.old).count }
    requires fit { IsFit (P.state p.old).count last }
    requires fits { BodyFits (P.state p.old).count (body_of newest.now.rec.body) }
    requires below { IsBelow (P.state p.old).count rows.old }
    requires narrow { IsNarrow newest.now.rec.before }
    requires doc { newest.now.rec.before.doc ≡ newest.now.rec.doc }
    requires leads { led newest.now.roll.0 ≡ Some (address_of newest.now.place) }
    requires may { MayUse (log.0 ∷ 0 ∷ []) 10 patched_room (P.state p.old) }
    ensures makes { (s : Scene) → IsAt (P.state p.old).told log.0 s → IsNewest newest.now s
        → IsDirectory rows.old s.there → CanEnd s → CanUndo last s
        → OnOk result (Becomes (P.state p.new).told (Made (event_for s (piece_in last)) s rows.new)) }
    ensures left { (s : Scene) → IsAt (P.state p.old).told log.0 s → IsNewest newest.now s
        → CanUndo last s → IfOk result (λ l. l.more ≡ goes_on (event_for s (piece_in last)) s) }
    ensures comes { (s : Scene) → IsAt (P.state p.old).told log.0 s → IsNewest newest.now s
        → CanUndo last s
        → IfOk result (λ l. piece_in l.reached ≡ behind (event_for s (piece_in last))) }
    ensures turns { (s : Scene) → IsAt (P.state p.old).told log.0 s → IsNewest newest.now s
        → CanUndo last s → OnOk result
        (AreTurned (event_turn (event_for s (piece_in last)) s) flights.old flights.new) }
    ensures head { (s : Scene) → IsAt (P.state p.old).told log.0 s → IsNewest newest.now s
        → CanUndo last s → IfOk result (λ l. IsHeadIn l.reached s) }
    ensures fit { IfOk result (λ l. IsFit (P.state p.old).count l.reached) }
    ensures below { IsBelow (P.state p.old).count rows.new }
    ensures reserved { space.new ≡ space.old }
    ensures never { (s : Scene) → IsAt (P.state p.old).told log.0 s → IsNewest newest.now s
        → IsDirectory rows.old s.there → CanEnd s → CanUndo last s → FailsPlainly result }
    ensures cause { HasCause (P.state p.old).faults (P.state p.new).faults result }
    ensures uses { Uses P.state P.stays (log.0 ∷ 0 ∷ []) 10 patched_room p.old p.new }
{
    match &newest.rec.body {
        Body::Insert(page) => {
            let more = undo_new(p, space, rows, flights, log, newest, *page)?;
            Ok(Left {
                more,
                reached: None,
            })
        }
        Body::Full(page) => {
            let more = undo_new(p, space, rows, flights, log, newest, *page)?;
            Ok(Left {
                more,
                reached: None,
            })
        }
        Body::Versioned(touched) => {
            let first = newest.rec.before.lob.page;
            if first.0 >= p.count() {
                return strange(newest.place.page, newest.place.at, u64::from(first.0));
            }
            undo_versions(p, space, rows, flights, log, newest, last, touched)
        }
        Body::Patched(runs) => {
            let more = undo_patched(p, space, rows, flights, log, newest, runs)?;
            Ok(Left {
                more,
                reached: None,
            })
        }
        Body::Removed => {
            let more = undo_removed(p, space, rows, flights, log, newest)?;
            Ok(Left {
                more,
                reached: None,
            })
        }
    }
}
