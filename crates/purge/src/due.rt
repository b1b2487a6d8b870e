//! The record that is to be purged next.
ghost use Rattle.std.specs.Prelude.{◌≡◌, ◌<◌, ℕ, List, [], ◌∷◌, IfOk};
ghost use Rattle.page_model.specs.Pages.{Pages};
ghost use Rattle.page_model.specs.Steps.{MayUse, Uses};
ghost use Rattle.engine_base.specs.Faults.{HasCause, FailsPlainly};
ghost use Rattle.store_data.specs.Store.{Log, Store};
ghost use Rattle.undo_model.specs.Rows.{RowPage};
ghost use Rattle.store_model.specs.Steps.{last_in};
ghost use Rattle.purge.specs.Standing.{IsAt};
ghost use Rattle.purge.specs.Due.{due_entry};

use engine_base::{Addr, Fault, PageNo, Pages};
use store_steps::record_place;
use undo_logs::{at, next_to_purge};
use undo_records::UndoRecord;

/// A record with its place.
#[derive(Drop)]
pub struct Due {
    pub place: Addr,
    pub rec: UndoRecord,
}

/// The oldest record of a committed log that purge hasn't passed, or none. Touches the log's first
/// page and that of the record. Strange names the log's first page and the pointer, where that leads
/// to no place of a record, or what stands there in place of the record's length.
pub(crate) fn record_due<P: Pages>(p: &mut P, log: PageNo) -> Result<Option<Due>, Fault>
    requires log { log.0 < (P.state p.old).count }
    requires may { MayUse (log.0 ∷ []) 2 0 (P.state p.old) }
    ensures value { (there : List RowPage) (pages : Pages) (store : Store) (l : Log)
        (ls : List Log) → IsAt (P.state p.old).told log.0 there pages store l ls
        → IfOk result (λ o. last_in l.records ≡ due_entry o) }
    ensures never { (there : List RowPage) (pages : Pages) (store : Store) (l : Log)
        (ls : List Log) → IsAt (P.state p.old).told log.0 there pages store l ls
        → FailsPlainly result }
    ensures told { (P.state p.new).told ≡ (P.state p.old).told }
    ensures cause { HasCause (P.state p.old).faults (P.state p.new).faults result }
    ensures uses { Uses P.state P.stays (log.0 ∷ []) 2 0 p.old p.new }
{
    let count = p.count();
    let Some(roll) = next_to_purge(p, log)? else {
        return Ok(None);
    };
    let place = record_place(count, log, roll)?;
    let rec = at(p, roll)?;
    Ok(Some(Due { place, rec }))
}
