//! The purge of a log, one event a call.
ghost use Rattle.std.specs.Prelude.{◌≡◌, ◌+◌, ◌<◌, ℕ, List, [], ◌∷◌, None, IfOk, OnOk};
ghost use Rattle.page_model.specs.Pages.{Pages};
ghost use Rattle.page_model.specs.Steps.{MayUse, Uses, Becomes};
ghost use Rattle.engine_base.specs.Faults.{HasCause, FailsPlainly};
ghost use Rattle.page_space.specs.Map.{IsSize};
ghost use Rattle.store_data.specs.Store.{purging, Log, Store};
ghost use Rattle.undo_model.specs.Rows.{RowPage};
ghost use Rattle.store_model.specs.Steps.{last_in};
ghost use Rattle.row_dir.specs.Directory.{IsDirectory, IsBelow};
ghost use Rattle.purge.specs.Due.{due_entry};
ghost use Rattle.purge.specs.Events.{due, due_record, behind};
ghost use Rattle.store_steps.specs.Reached.{piece_in, IsFit};
ghost use Rattle.purge.specs.Job.{IsHeadIn, AllDue, IsJob};
ghost use Rattle.purge.specs.Next.{GoesOn};
ghost use Rattle.purge.specs.Made.{Made, Steps, step_if, step_behind, step_room};

use crate::due::{Due, record_due};
use crate::log::{begin, give_page};
use crate::record::purge_record;
use engine_base::{Fault, PageNo, Pages};
use page_space::Space;
use row_dir::RowDir;
use store_steps::Reached;
use undo_logs::purge_begun;

/// The purge of the first committed log: between two events it keeps how far the record that is due
/// has come. It walks no list that it has walked before.
#[derive(Drop)]
pub struct Purging {
    pub(crate) log: PageNo,
    pub(crate) dropped: Option<Reached>,
}

/// Whether an event is left behind the one that was made.
#[derive(Clone, Copy, Debug, PartialEq, Eq)]
pub enum Step {
    More,
    Done,
}

impl Purging {
    /// The purge of the log, which is the first committed one. It goes on where an earlier one
    /// stopped: a piece that lost its version then loses none.
    pub fn start(log: PageNo) -> Purging
        ensures log { result.log ≡ log }
        ensures dropped { result.dropped ≡ None }
    {
        Purging { log, dropped: None }
    }
}

/// Makes the event of the purge that is due: the first one writes that the purge has begun; then
/// for each record, the oldest first, a version of a touched piece goes, or a piece of the LOB
/// before, or an index page of it, or the record is passed with what is left of that LOB and with
/// its row; and behind the last record a page of the log goes. Done is answered in the event that
/// gives back the log's first page and counts it as purged. No event takes memory or pages. An `Err`
/// leaves the pages as the event left them, and the mini-transaction is to be abandoned; the job
/// names the same log. Strange names what a part found, the log's first page and a roll pointer that
/// leads to no record's place, a record's place and a first page that is none, or the length of a
/// LOB's list of heads and a touched piece that it doesn't have. The order of the events is that of
/// InnoDB's purge (row0purge.cc, trx0purge.cc); that each is a mini-transaction of its own is ours.
pub fn purge_step<P: Pages>(
    job: &mut Purging,
    p: &mut P,
    space: &mut Space,
    rows: &mut RowDir,
) -> Result<Step, Fault>
    requires size { IsSize (P.state p.old).count }
    requires log { job.old.log.0 < (P.state p.old).count }
    requires fit { IsFit (P.state p.old).count job.old.dropped }
    requires below { IsBelow (P.state p.old).count rows.old }
    requires may { MayUse (job.old.log.0 ∷ 0 ∷ []) 12 step_room (P.state p.old) }
    ensures makes { (there : List RowPage) (pages : Pages) (store : Store) (l : Log)
        (ls : List Log) → IsJob (P.state p.old).told job.old there pages store l ls
        → IsDirectory rows.old there → OnOk result (Becomes (P.state p.new).told
        (Steps (due store (piece_in job.old.dropped)) rows.new store)) }
    ensures again { (there : List RowPage) (pages : Pages) (store : Store) (l : Log)
        (ls : List Log) → IsJob (P.state p.old).told job.old there pages store l ls
        → IsDirectory rows.old there → OnOk result (Becomes (P.state p.new).told
        (GoesOn (P.state p.new).told (due store (piece_in job.old.dropped)) job.new rows.new
        store l ls)) }
    ensures ends { (there : List RowPage) (pages : Pages) (store : Store) (l : Log)
        (ls : List Log) → IsJob (P.state p.old).told job.old there pages store l ls
        → IsDirectory rows.old there → IfOk result
        (λ step. step ≡ step_behind (due store (piece_in job.old.dropped))) }
    ensures comes { (there : List RowPage) (pages : Pages) (store : Store) (l : Log)
        (ls : List Log) → IsJob (P.state p.old).told job.old there pages store l ls
        → IsDirectory rows.old there → OnOk result (piece_in job.new.dropped
        ≡ behind (due store (piece_in job.old.dropped))) }
    ensures head { (there : List RowPage) (pages : Pages) (store : Store) (l : Log)
        (ls : List Log) → IsJob (P.state p.old).told job.old there pages store l ls
        → OnOk result (AllDue (IsHeadIn job.new.dropped store.lobs) (last_in l.records)) }
    ensures log { job.new.log ≡ job.old.log }
    ensures fit { IsFit (P.state p.old).count job.new.dropped }
    ensures below { IsBelow (P.state p.old).count rows.new }
    ensures reserved { space.new ≡ space.old }
    ensures never { (there : List RowPage) (pages : Pages) (store : Store) (l : Log)
        (ls : List Log) → IsJob (P.state p.old).told job.old there pages store l ls
        → IsDirectory rows.old there → FailsPlainly result }
    ensures cause { HasCause (P.state p.old).faults (P.state p.new).faults result }
    ensures uses { Uses P.state P.stays (job.old.log.0 ∷ 0 ∷ []) 12 step_room p.old p.new }
{
    if !purge_begun(p, job.log)? {
        begin(p, job.log)?;
        job.dropped = None;
        return Ok(Step::More);
    }
    let due = record_due(p, job.log)?;
    go_on(job, p, space, rows, due)
}

// The event behind the first one: `due` is the record that is due, if any.
fn go_on<P: Pages>(
    job: &mut Purging,
    p: &mut P,
    space: &mut Space,
    rows: &mut RowDir,
    due: Option<Due>,
) -> Result<Step, Fault>
    requires size { IsSize (P.state p.old).count }
    requires log { job.old.log.0 < (P.state p.old).count }
    requires fit { IsFit (P.state p.old).count job.old.dropped }
    requires below { IsBelow (P.state p.old).count rows.old }
    requires may { MayUse (job.old.log.0 ∷ 0 ∷ []) 10 step_room (P.state p.old) }
    ensures makes { (there : List RowPage) (pages : Pages) (store : Store) (l : Log)
        (ls : List Log) → IsJob (P.state p.old).told job.old there pages store l ls
        → l.state ≡ purging → last_in l.records ≡ due_entry due → IsDirectory rows.old there
        → OnOk result (Becomes (P.state p.new).told (Made (due_record l store.lobs
        (piece_in job.old.dropped) (last_in l.records)) rows.new store)) }
    ensures ends { (there : List RowPage) (pages : Pages) (store : Store) (l : Log)
        (ls : List Log) → IsJob (P.state p.old).told job.old there pages store l ls
        → l.state ≡ purging → last_in l.records ≡ due_entry due → IsDirectory rows.old there
        → IfOk result (λ step. step ≡ step_behind (due_record l store.lobs
        (piece_in job.old.dropped) (last_in l.records))) }
    ensures comes { (there : List RowPage) (pages : Pages) (store : Store) (l : Log)
        (ls : List Log) → IsJob (P.state p.old).told job.old there pages store l ls
        → l.state ≡ purging → last_in l.records ≡ due_entry due → IsDirectory rows.old there
        → OnOk result (piece_in job.new.dropped ≡ behind (due_record l store.lobs
        (piece_in job.old.dropped) (last_in l.records))) }
    ensures head { (there : List RowPage) (pages : Pages) (store : Store) (l : Log)
        (ls : List Log) → IsJob (P.state p.old).told job.old there pages store l ls
        → last_in l.records ≡ due_entry due
        → OnOk result (AllDue (IsHeadIn job.new.dropped store.lobs) (last_in l.records)) }
    ensures log { job.new.log ≡ job.old.log }
    ensures fit { IsFit (P.state p.old).count job.new.dropped }
    ensures below { IsBelow (P.state p.old).count rows.new }
    ensures reserved { space.new ≡ space.old }
    ensures never { (there : List RowPage) (pages : Pages) (store : Store) (l : Log)
        (ls : List Log) → IsJob (P.state p.old).told job.old there pages store l ls
        → l.state ≡ purging → last_in l.records ≡ due_entry due → IsDirectory rows.old there
        → FailsPlainly result }
    ensures cause { HasCause (P.state p.old).faults (P.state p.new).faults result }
    ensures uses { Uses P.state P.stays (job.old.log.0 ∷ 0 ∷ []) 10 step_room p.old p.new }
{
    match due {
        Some(due) => {
            let dropped = purge_record(p, space, rows, job.log, job.dropped, &due)?;
            job.dropped = dropped;
            Ok(Step::More)
        }
        None => {
            let left = give_page(p, space, job.log)?;
            job.dropped = None;
            Ok(step_where(left))
        }
    }
}

// More where something is left.
fn step_where(left: bool) -> Step
    ensures { result ≡ step_if left }
{
    if left { Step::More } else { Step::Done }
}
