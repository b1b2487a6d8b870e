//! The record that is undone next.
ghost use Rattle.std.specs.Prelude.{◌≡◌, ◌<◌, [], ◌∷◌, Some, IfOk};
ghost use Rattle.page_model.specs.Steps.{MayUse, Uses};
ghost use Rattle.engine_base.specs.Faults.{HasCause, FailsPlainly};
ghost use Rattle.engine_base.specs.Addresses.{address_of};
ghost use Rattle.undo_model.specs.Data.{led};
ghost use Rattle.undo_model.specs.Reading.{BodyFits};
ghost use Rattle.undo_records.specs.Records.{body_of, IsNarrow};
ghost use Rattle.read_views.specs.Flights.{record_in};
ghost use Rattle.rollback.specs.Standing.{Scene, IsAt};

use engine_base::{Addr, Fault, PageNo, Pages, strange};
use store_steps::record_place;
use undo_logs::{at, last};
use undo_records::{RollPtr, UndoRecord};

/// A record with its place, and the pointer that leads there.
#[derive(Drop)]
pub(crate) struct Newest {
    pub roll: RollPtr,
    pub place: Addr,
    pub rec: UndoRecord,
}

/// The newest record of an active log. Touches the log's first page and that of the record. Strange
/// names the log's first page and the pointer, where that leads to no place of a record; there too
/// where the log has no record; or what stands there in place of the record's length.
pub(crate) fn newest_record<P: Pages>(p: &mut P, log: PageNo) -> Result<Newest, Fault>
    requires log { log.0 < (P.state p.old).count }
    requires may { MayUse (log.0 ∷ []) 2 0 (P.state p.old) }
    ensures value { (s : Scene) → IsAt (P.state p.old).told log.0 s
        → IfOk result (λ n. (address_of n.place ≡ s.place) × (record_in n.rec ≡ s.undo)) }
    ensures leads { IfOk result (λ n. led n.roll.0 ≡ Some (address_of n.place)) }
    ensures doc { IfOk result (λ n. n.rec.before.doc ≡ n.rec.doc) }
    ensures narrow { IfOk result (λ n. IsNarrow n.rec.before) }
    ensures fits { IfOk result (λ n. BodyFits (P.state p.old).count (body_of n.rec.body)) }
    ensures never { (s : Scene) → IsAt (P.state p.old).told log.0 s → FailsPlainly result }
    ensures told { (P.state p.new).told ≡ (P.state p.old).told }
    ensures cause { HasCause (P.state p.old).faults (P.state p.new).faults result }
    ensures uses { Uses P.state P.stays (log.0 ∷ []) 2 0 p.old p.new }
{
    let count = p.count();
    let Some(roll) = last(p, log)? else {
        return strange(log, 0, 0);
    };
    let place = record_place(count, log, roll)?;
    let rec = at(p, roll)?;
    Ok(Newest { roll, place, rec })
}
