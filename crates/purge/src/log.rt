//! The events of purge that change the log alone: its first one, the end of a record, and the pages
//! given back.
ghost use Rattle.std.specs.Prelude.{◌≡◌, ◌≢◌, ◌+◌, ◌*◌, ◌<◌, ℕ, List, [], ◌∷◌, IfOk, OnOk};
ghost use Rattle.page_model.specs.Pages.{Pages, Address};
ghost use Rattle.page_model.specs.Steps.{MayUse, Uses, Becomes, write_head};
ghost use Rattle.engine_base.specs.Faults.{HasCause, FailsPlainly};
ghost use Rattle.page_space.specs.Map.{IsSize};
ghost use Rattle.store_data.specs.Store.{committed, purging, Log, Record, Store};
ghost use Rattle.store_data.specs.Logs.{passed};
ghost use Rattle.undo_model.specs.Rows.{RowPage};
ghost use Rattle.store_model.specs.Steps.{last_in};
ghost use Rattle.store_model.specs.Undo.{on_oldest, purge_begun};
ghost use Rattle.purge.specs.Events.{due_page, made, goes_on};
ghost use Rattle.store_steps.specs.Standing.{StandsOn};
ghost use Rattle.purge.specs.Standing.{IsAt};

use engine_base::{Fault, PageNo, Pages};
use page_space::Space;

/// The first event of a log's purge: its state says from then on that the purge has begun. One
/// write of a byte.
pub(crate) fn begin<P: Pages>(p: &mut P, log: PageNo) -> Result<(), Fault>
    requires log { log.0 < (P.state p.old).count }
    requires may { MayUse (log.0 ∷ []) 0 (1 + write_head) (P.state p.old) }
    ensures begins { (there : List RowPage) (pages : Pages) (store : Store) (l : Log)
        (ls : List Log) → IsAt (P.state p.old).told log.0 there pages store l ls
        → l.state ≡ committed → OnOk result (Becomes (P.state p.new).told
        (λ new. StandsOn there new (purge_begun store))) }
    ensures cause { HasCause (P.state p.old).faults (P.state p.new).faults result }
    ensures uses { Uses P.state P.stays (log.0 ∷ []) 0 (1 + write_head) p.old p.new }
    ensures plain { FailsPlainly result }
{
    undo_logs::begin_purge(p, log)
}

/// The end of a record in its log: the one made behind it is due from then on. Touches the log's
/// first page and that of the record, and writes 6 bytes in one write.
pub(crate) fn pass<P: Pages>(p: &mut P, log: PageNo) -> Result<(), Fault>
    requires log { log.0 < (P.state p.old).count }
    requires may { MayUse (log.0 ∷ []) 1 (6 + write_head) (P.state p.old) }
    ensures passes { (there : List RowPage) (pages : Pages) (store : Store) (l : Log)
        (ls : List Log) → IsAt (P.state p.old).told log.0 there pages store l ls
        → last_in l.records ≢ [] → OnOk result (Becomes (P.state p.new).told
        (λ new. StandsOn there new (on_oldest passed store))) }
    ensures never { (there : List RowPage) (pages : Pages) (store : Store) (l : Log)
        (ls : List Log) → IsAt (P.state p.old).told log.0 there pages store l ls
        → last_in l.records ≢ [] → FailsPlainly result }
    ensures cause { HasCause (P.state p.old).faults (P.state p.new).faults result }
    ensures uses { Uses P.state P.stays (log.0 ∷ []) 1 (6 + write_head) p.old p.new }
{
    undo_logs::purged_one(p, log)
}

/// Of a log whose records are passed the page that was made last is given back, and behind its
/// first page the log is gone. True while pages are left. Touches page 0, the log's first page and
/// two others, and writes 29 bytes at most in six writes.
pub(crate) fn give_page<P: Pages>(p: &mut P, space: &mut Space, log: PageNo) -> Result<bool, Fault>
    requires size { IsSize (P.state p.old).count }
    requires log { log.0 < (P.state p.old).count }
    requires may { MayUse (log.0 ∷ 0 ∷ []) 2 (29 + 6 * write_head) (P.state p.old) }
    ensures gives { (there : List RowPage) (pages : Pages) (store : Store) (l : Log)
        (ls : List Log) → IsAt (P.state p.old).told log.0 there pages store l ls
        → l.state ≡ purging → l.records ≡ [] → OnOk result (Becomes (P.state p.new).told
        (λ new. StandsOn there new (made (due_page l.pages) [] [] store)))
        × IfOk result (λ left. left ≡ goes_on (due_page l.pages)) }
    ensures reserved { space.new ≡ space.old }
    ensures never { (there : List RowPage) (pages : Pages) (store : Store) (l : Log)
        (ls : List Log) → IsAt (P.state p.old).told log.0 there pages store l ls
        → l.state ≡ purging → l.records ≡ [] → FailsPlainly result }
    ensures cause { HasCause (P.state p.old).faults (P.state p.new).faults result }
    ensures uses { Uses P.state P.stays (log.0 ∷ 0 ∷ []) 2 (29 + 6 * write_head) p.old p.new }
{
    undo_logs::drop_page(p, space, log)
}
