//! The events of the undoing of a record that made versions.
ghost use Rattle.std.specs.Prelude.{◌≡◌, ◌+◌, ◌*◌, ◌<◌, ◌≤◌, ℕ, List, [], ◌∷◌, Some, IfOk, OnOk};
ghost use Rattle.page_model.specs.Pages.{Pages};
ghost use Rattle.page_model.specs.Steps.{MayUse, Uses, Becomes, write_head};
ghost use Rattle.engine_base.specs.Faults.{HasCause, FailsPlainly};
ghost use Rattle.engine_base.specs.Addresses.{address_of};
ghost use Rattle.page_space.specs.Map.{IsSize};
ghost use Rattle.store_data.specs.Store.{Lob, Store};
ghost use Rattle.lob_model.specs.Pieces.{AreFalling};
ghost use Rattle.undo_model.specs.Data.{led};
ghost use Rattle.undo_model.specs.Rows.{RowPage};
ghost use Rattle.undo_records.specs.Records.{IsNarrow};
ghost use Rattle.store_model.specs.Lobs.{lob_of};
ghost use Rattle.store_model.specs.Steps.{on_lob, on_lobs, at_version};
ghost use Rattle.store_parts.specs.Shows.{touched_from};
ghost use Rattle.row_dir.specs.Directory.{IsDirectory, IsBelow};
ghost use Rattle.store_steps.specs.Standing.{StandsOn};
ghost use Rattle.store_steps.specs.Reached.{piece_in, IsFit, IsHeadAt};
ghost use Rattle.store_steps.specs.Touched.{next_touched};
ghost use Rattle.rollback.specs.Ends.{IsNewest, CanEnd};
ghost use Rattle.rollback.specs.Events.{popping};
ghost use Rattle.rollback.specs.Flights.{AreTurned};
ghost use Rattle.rollback.specs.Kinds.{CanLower, raised_room};
ghost use Rattle.rollback.specs.Made.{Made, goes_on, event_turn};
ghost use Rattle.rollback.specs.Standing.{Scene, IsAt};

use crate::ending::end_record;
use crate::newest::Newest;
use crate::versions::pop_raised;
use engine_base::{Fault, PageNo, Pages};
use lob_pages::{LobVersion, set_version};
use page_space::Space;
use read_views::Flight;
use row_dir::RowDir;
use store_steps::{Reached, next_behind, reach};
use undo_records::Touched;

/// What an event leaves to do: whether one is left behind it, and the touched piece whose version
/// went last, from which the next one goes on.
#[derive(Clone, Copy)]
pub(crate) struct Left {
    pub more: bool,
    pub reached: Option<Reached>,
}

// The LOB has that version again. One write of 4 bytes.
fn lower<P: Pages>(p: &mut P, first: PageNo, v: LobVersion) -> Result<(), Fault>
    requires first { first.0 < (P.state p.old).count }
    requires may { MayUse (first.0 ∷ []) 0 (4 + write_head) (P.state p.old) }
    ensures lowers { (there : List RowPage) (pages : Pages) (store : Store) (l : Lob)
        → (P.state p.old).told ≡ Some pages → StandsOn there pages store
        → lob_of store.lobs first.0 ≡ Some l → AreFalling (v.0 + 1) l.pieces
        → OnOk result (Becomes (P.state p.new).told
        (λ new. StandsOn there new (on_lobs (on_lob first.0 (at_version v.0)) store))) }
    ensures plain { FailsPlainly result }
    ensures cause { HasCause (P.state p.old).faults (P.state p.new).faults result }
    ensures uses { Uses P.state P.stays (first.0 ∷ []) 0 (4 + write_head) p.old p.new }
{
    set_version(p, first, v)
}

/// An event of the undoing of a record that made versions: of the next touched piece the newest
/// version goes, where it is the one that the record made, or behind the last piece the LOB has the
/// version before and the record ends.
pub(crate) fn undo_versions<P: Pages>(
    p: &mut P,
    space: &mut Space,
    rows: &mut RowDir,
    flights: &mut [Flight],
    log: PageNo,
    newest: &Newest,
    last: Option<Reached>,
    touched: &Touched,
) -> Result<Left, Fault>
    requires size { IsSize (P.state p.old).count }
    requires log { log.0 < (P.state p.old).count }
    requires first { newest.now.rec.before.lob.page.0 < (P.state p.old).count }
    requires fit { IsFit (P.state p.old).count last }
    requires pieces { touched.now.pieces ≤ 1_032 }
    requires below { IsBelow (P.state p.old).count rows.old }
    requires narrow { IsNarrow newest.now.rec.before }
    requires doc { newest.now.rec.before.doc ≡ newest.now.rec.doc }
    requires leads { led newest.now.roll.0 ≡ Some (address_of newest.now.place) }
    requires may { MayUse (newest.now.rec.before.lob.page.0 ∷ log.0 ∷ 0 ∷ []) 9 raised_room
        (P.state p.old) }
    ensures makes { (s : Scene) → IsAt (P.state p.old).told log.0 s → IsNewest newest.now s
        → IsDirectory rows.old s.there → CanEnd s
        → CanLower last (touched_from 0 touched.now.pieces touched.now.bits) s
        → OnOk result (Becomes (P.state p.new).told (Made (popping s.undo.before.lob.page
        s.undo.before.lob.version (next_touched (piece_in last)
        (touched_from 0 touched.now.pieces touched.now.bits))) s rows.new)) }
    ensures comes { IfOk result (λ l. piece_in l.reached ≡ next_touched (piece_in last)
        (touched_from 0 touched.now.pieces touched.now.bits)) }
    ensures left { (s : Scene) → IsAt (P.state p.old).told log.0 s → IsNewest newest.now s
        → CanLower last (touched_from 0 touched.now.pieces touched.now.bits) s
        → IfOk result (λ l. l.more ≡ goes_on (popping s.undo.before.lob.page
        s.undo.before.lob.version (next_touched (piece_in last)
        (touched_from 0 touched.now.pieces touched.now.bits))) s) }
    ensures turns { (s : Scene) → IsAt (P.state p.old).told log.0 s → IsNewest newest.now s
        → CanLower last (touched_from 0 touched.now.pieces touched.now.bits) s
        → OnOk result (AreTurned (event_turn (popping s.undo.before.lob.page
        s.undo.before.lob.version (next_touched (piece_in last)
        (touched_from 0 touched.now.pieces touched.now.bits))) s) flights.old flights.new) }
    ensures head { (s : Scene) → IsAt (P.state p.old).told log.0 s → IsNewest newest.now s
        → (can : CanLower last (touched_from 0 touched.now.pieces touched.now.bits) s)
        → IfOk result (λ l. IsHeadAt l.reached can.lob) }
    ensures fit { IfOk result (λ l. IsFit (P.state p.old).count l.reached) }
    ensures below { IsBelow (P.state p.old).count rows.new }
    ensures reserved { space.new ≡ space.old }
    ensures never { (s : Scene) → IsAt (P.state p.old).told log.0 s → IsNewest newest.now s
        → IsDirectory rows.old s.there → CanEnd s
        → CanLower last (touched_from 0 touched.now.pieces touched.now.bits) s
        → FailsPlainly result }
    ensures cause { HasCause (P.state p.old).faults (P.state p.new).faults result }
    ensures uses { Uses P.state P.stays (newest.now.rec.before.lob.page.0 ∷ log.0 ∷ 0 ∷ []) 9
        raised_room p.old p.new }
{
    let first = newest.rec.before.lob.page;
    let v = newest.rec.before.lob.version;
    let next = next_behind(touched, last);
    match next {
        Some(k) => {
            let head = reach(p, first, last, k)?;
            pop_raised(p, space, flights, first, head, v)?;
            Ok(Left {
                more: true,
                reached: Some(Reached { piece: k, head }),
            })
        }
        None => {
            lower(p, first, v)?;
            let more = end_record(p, space, rows, flights, log, newest)?;
            Ok(Left {
                more,
                reached: None,
            })
        }
    }
}
