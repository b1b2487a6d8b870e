// Committed logs, as purge goes on.
ghost use Rattle.std.specs.Prelude.{◌≡◌, ◌≢◌, ◌+◌, ◌≤◌, ◌<◌, List, [], ◌∷◌, ◌++◌, Some, IfOk, IfSome, OnOk};
ghost use Rattle.page_model.specs.Pages.{Pages};
ghost use Rattle.page_model.specs.Steps.{MayUse, Uses, Becomes, write_head};
ghost use Rattle.engine_base.specs.Faults.{HasCause, FailsPlainly};
ghost use Rattle.engine_base.specs.Addresses.{address_of};
ghost use Rattle.store_data.specs.Store.{active, committed};
ghost use Rattle.store_data.specs.Logs.{passed};
ghost use Rattle.store_parts.specs.Logs.{ChangesOldest};
ghost use Rattle.undo_model.specs.Data.{Entry, Log};
ghost use Rattle.undo_model.specs.Reading.{IsRecordPlace};
ghost use Rattle.undo_model.specs.Logs.{IfLog, IsLog, next_field, records_of};
ghost use Rattle.undo_logs.specs.Changes.{with_purge_begun};

use crate::forward::record_from;
use crate::layout::{NEXT, PURGING, STATE};
use engine_base::{
    Addr, Fault, PageNo, Pages, read_address, read_field, strange, write_address, write_field,
};
use undo_records::is_place;

/// Marks a committed log, the one with the least number, as one whose purge has begun. One write of
/// a byte.
pub fn begin_purge<P: Pages>(p: &mut P, log: PageNo) -> Result<(), Fault>
    requires log { log.0 < (P.state p.old).count }
    requires may { MayUse (log.0 ∷ []) 0 (1 + write_head) (P.state p.old) }
    ensures begins { (l : Log) → l.page ≡ log.0 → l.state ≡ committed
        → IfLog (P.state p.old).told l (λ pages. OnOk result (Becomes (P.state p.new).told
        (ChangesOldest with_purge_begun l pages))) }
    ensures uses { Uses P.state P.stays (log.0 ∷ []) 0 (1 + write_head) p.old p.new }
    ensures cause { HasCause (P.state p.old).faults (P.state p.new).faults result }
    ensures plain { FailsPlainly result }
{
    write_field(p, log, STATE, 1, u64::from(PURGING))?;
    Ok(())
}

// The address of the record that is to be purged next.
fn due_place<P: Pages>(p: &mut P, log: PageNo) -> Result<Addr, Fault>
    requires log { log.0 < (P.state p.old).count }
    requires may { MayUse (log.0 ∷ []) 0 0 (P.state p.old) }
    ensures value { IfOk result (λ a. IfSome (P.state p.old).told (λ pages.
        address_of a ≡ next_field pages log.0)) }
    ensures place { IfOk result (λ a. IsRecordPlace (P.state p.old).count (address_of a)) }
    ensures never { (pages : Pages) (l : Log) (newer : List Entry) (e : Entry) (older : List Entry)
        → (P.state p.old).told ≡ Some pages → l.page ≡ log.0 → IsLog pages l → l.state ≢ active
        → records_of l ≡ newer ++ e ∷ older → l.next ≡ Some e.at → FailsPlainly result }
    ensures told { (P.state p.new).told ≡ (P.state p.old).told }
    ensures uses { Uses P.state P.stays (log.0 ∷ []) 0 0 p.old p.new }
    ensures cause { HasCause (P.state p.old).faults (P.state p.new).faults result }
{
    let count = p.count();
    let a = read_address(p, log, NEXT)?;
    if is_place(count, a.page.0, u32::from(a.at)) {
        Ok(a)
    } else {
        strange(log, NEXT, u64::from(a.page.0))
    }
}

/// Purge has passed the record that was due: the one made behind it is due from then on, or none
/// behind the newest. Touches the log's first page and that of the record, and writes 6 bytes in
/// one write.
pub fn purged_one<P: Pages>(p: &mut P, log: PageNo) -> Result<(), Fault>
    requires log { log.0 < (P.state p.old).count }
    requires may { MayUse (log.0 ∷ []) 1 (6 + write_head) (P.state p.old) }
    ensures passes { (pages : Pages) (l : Log) (newer : List Entry) (e : Entry) (older : List Entry)
        → (P.state p.old).told ≡ Some pages → l.page ≡ log.0 → IsLog pages l → l.state ≢ active
        → records_of l ≡ newer ++ e ∷ older → l.next ≡ Some e.at
        → OnOk result (Becomes (P.state p.new).told (ChangesOldest passed l pages)) }
    ensures never { (pages : Pages) (l : Log) (newer : List Entry) (e : Entry) (older : List Entry)
        → (P.state p.old).told ≡ Some pages → l.page ≡ log.0 → IsLog pages l → l.state ≢ active
        → records_of l ≡ newer ++ e ∷ older → l.next ≡ Some e.at → FailsPlainly result }
    ensures cause { HasCause (P.state p.old).faults (P.state p.new).faults result }
    ensures uses { Uses P.state P.stays (log.0 ∷ []) 1 (6 + write_head) p.old p.new }
{
    let a = due_place(p, log)?;
    let size = read_field(p, a.page, a.at, 2)?;
    let to = record_from(p, a.page, u32::from(a.at) + size as u32)?;
    write_address(p, log, NEXT, to)?;
    Ok(())
}
