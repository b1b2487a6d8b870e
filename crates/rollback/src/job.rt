//! The undoing of an active log, one event a call.
ghost use Rattle.std.specs.Prelude.{◌≡◌, ◌+◌, ◌<◌, [], ◌∷◌, None, IfOk, OnOk};
ghost use Rattle.page_model.specs.Steps.{MayUse, Uses, Becomes};
ghost use Rattle.engine_base.specs.Faults.{HasCause, FailsPlainly};
ghost use Rattle.page_space.specs.Map.{IsSize};
ghost use Rattle.store_model.specs.Consistent.{IsConsistent};
ghost use Rattle.row_dir.specs.Directory.{IsDirectory, IsBelow};
ghost use Rattle.store_steps.specs.Reached.{piece_in, IsFit};
ghost use Rattle.rollback.specs.Ends.{CanEnd};
ghost use Rattle.rollback.specs.Flights.{AreTurned};
ghost use Rattle.rollback.specs.Kinds.{CanUndo, IsHeadIn, patched_room};
ghost use Rattle.rollback.specs.Made.{Made, Steps, event_for, event_turn, step_if, step_behind, behind};
ghost use Rattle.rollback.specs.Next.{IsUndoing, GoesOn};
ghost use Rattle.rollback.specs.Standing.{Scene, IsAt};

use crate::newest::newest_record;
use crate::record::undo_record;
use engine_base::{Fault, PageNo, Pages};
use page_space::Space;
use read_views::Flight;
use row_dir::RowDir;
use store_steps::Reached;

/// The undoing of an active log: between two events it keeps how far its newest record has come.
#[derive(Drop)]
pub struct Undoing {
    pub(crate) log: PageNo,
    pub(crate) reached: Option<Reached>,
}

/// Whether an event is left behind the one that was made.
#[derive(Clone, Copy, Debug, PartialEq, Eq)]
pub enum Step {
    More,
    Done,
}

impl Undoing {
    /// The undoing of the log, which is active. It goes on where an earlier one stopped: a piece that
    /// lost its newest version then loses none.
    pub fn start(log: PageNo) -> Undoing
        ensures log { result.log ≡ log }
        ensures reached { result.reached ≡ None }
    {
        Undoing { log, reached: None }
    }
}

/// Makes the event of the undoing that is due, for the log's newest record: of a LOB that it made the
/// last piece goes, or the index page that was made last; of a touched piece the version that it
/// made; or it ends: what is left of its change is taken back, it goes out of its log, its row is the
/// one before, and each read whose next record it is takes its step. Done is answered exactly where
/// no record is left: the log is gone then, and the job isn't stepped again. No event takes memory or
/// pages; it touches page 0, the log's first page and at most twelve others. An `Err` leaves the pages
/// as the event left them, and the mini-transaction is to be abandoned; the job names the same log.
/// Strange names what a part found, the log's first page and a pointer that leads to no record's
/// place, or a record's place and what in it can't be undone: a first page that is none, a document
/// without a row, a row before that isn't live, runs on more than four pages. The order of the events
/// is that of InnoDB's rollback (row0undo.cc, trx0roll.cc); that each is a mini-transaction of its own
/// is ours.
pub fn undo_step<P: Pages>(
    job: &mut Undoing,
    p: &mut P,
    space: &mut Space,
    rows: &mut RowDir,
    flights: &mut [Flight],
) -> Result<Step, Fault>
    requires size { IsSize (P.state p.old).count }
    requires log { job.old.log.0 < (P.state p.old).count }
    requires fit { IsFit (P.state p.old).count job.old.reached }
    requires below { IsBelow (P.state p.old).count rows.old }
    requires may { MayUse (job.old.log.0 ∷ 0 ∷ []) 12 patched_room (P.state p.old) }
    ensures makes { (s : Scene) → IsAt (P.state p.old).told job.old.log.0 s
        → IsDirectory rows.old s.there → CanEnd s → CanUndo job.old.reached s
        → OnOk result (Becomes (P.state p.new).told
        (Made (event_for s (piece_in job.old.reached)) s rows.new)) }
    ensures stays { (s : Scene) → IsAt (P.state p.old).told job.old.log.0 s
        → IsDirectory rows.old s.there → IsConsistent s.store → CanUndo job.old.reached s
        → OnOk result (Becomes (P.state p.new).told
        (Steps (event_for s (piece_in job.old.reached)) s rows.new)) }
    ensures again { (s : Scene) → IsUndoing (P.state p.old).told job.old s
        → IsDirectory rows.old s.there → OnOk result (Becomes (P.state p.new).told
        (GoesOn (P.state p.new).told (event_for s (piece_in job.old.reached)) job.new s rows.new)) }
    ensures step { (s : Scene) → IsAt (P.state p.old).told job.old.log.0 s
        → CanUndo job.old.reached s
        → IfOk result (λ r. r ≡ step_behind (event_for s (piece_in job.old.reached)) s) }
    ensures turns { (s : Scene) → IsAt (P.state p.old).told job.old.log.0 s
        → CanUndo job.old.reached s → OnOk result
        (AreTurned (event_turn (event_for s (piece_in job.old.reached)) s) flights.old flights.new) }
    ensures comes { (s : Scene) → IsAt (P.state p.old).told job.old.log.0 s
        → CanUndo job.old.reached s → OnOk result
        (piece_in job.new.reached ≡ behind (event_for s (piece_in job.old.reached))) }
    ensures head { (s : Scene) → IsAt (P.state p.old).told job.old.log.0 s
        → CanUndo job.old.reached s → OnOk result (IsHeadIn job.new.reached s) }
    ensures log { job.new.log ≡ job.old.log }
    ensures fit { IsFit (P.state p.old).count job.new.reached }
    ensures below { IsBelow (P.state p.old).count rows.new }
    ensures reserved { space.new ≡ space.old }
    ensures never { (s : Scene) → IsAt (P.state p.old).told job.old.log.0 s
        → IsDirectory rows.old s.there → CanEnd s → CanUndo job.old.reached s
        → FailsPlainly result }
    ensures cause { HasCause (P.state p.old).faults (P.state p.new).faults result }
    ensures uses { Uses P.state P.stays (job.old.log.0 ∷ 0 ∷ []) 12 patched_room p.old p.new }
{
    let log = job.log;
    let newest = newest_record(p, log)?;
    let left = undo_record(p, space, rows, flights, log, &newest, job.reached)?;
    job.reached = left.reached;
    Ok(step_where(left.more))
}

// More where something is left.
fn step_where(left: bool) -> Step
    ensures { result ≡ step_if left }
{
    if left { Step::More } else { Step::Done }
}
