// Records of a log, by its first page and by roll pointers.
ghost use Rattle.std.specs.Prelude.{◌≡◌, ◌≢◌, ◌+◌, ◌*◌, ◌≤◌, ◌<◌, ◌==◌, true, [], ◌∷◌, Some, IfOk, IfErr, IfSome, OnOk};
ghost use Rattle.page_model.specs.Pages.{Pages, Address, page_bytes};
ghost use Rattle.page_model.specs.Steps.{MayUse, Uses};
ghost use Rattle.engine_base.specs.Faults.{HasCause, FailsPlainly, IsHonest};
ghost use Rattle.engine_base.specs.Addresses.{address_of};
ghost use Rattle.store_data.specs.Store.{active, purging};
ghost use Rattle.page_space.specs.Map.{IsSize};
ghost use Rattle.undo_model.specs.Data.{Log, Record, led};
ghost use Rattle.undo_model.specs.Reading.{IsRecordAt, IsRecordPlace, BodyFits, is_previous};
ghost use Rattle.undo_model.specs.Logs.{IfLog, state_number, records_of};
ghost use Rattle.undo_model.specs.LogLists.{IfLogs};
ghost use Rattle.undo_records.specs.Records.{record_of, body_of, IsNarrow};
ghost use Rattle.undo_logs.specs.Reads.{PointsTo, number_of, newest_pointer, IsDue, HasNext, IsLengthThere, IsNoRecord, page_number, oldest_page};

use crate::appending::pointer;
use crate::layout::{LAST, LOG_NODE, NEXT, PURGING, STATE};
use engine_base::{Addr, Fault, NULL_PAGE, PageNo, Pages, read_address, read_field, strange};
use file_lists::first;
use page_space::{COMMITTED_LOGS, SYSTEM};
use undo_records::{RecordError, RollPtr, UndoRecord, is_place, read};

// The pointer to the record at the address that was read there, or none.
fn pointer_to<P: Pages>(p: &mut P, page: PageNo, at: u16, a: Addr) -> Result<Option<RollPtr>, Fault>
    requires within { at + 6 ≤ page_bytes }
    requires may { MayUse ([]) 1 0 (P.state p.old) }
    ensures value { IfOk result (λ r. IfSome (P.state p.old).told (λ pages.
        PointsTo pages (address_of a) (number_of r))) }
    ensures never { is_previous (P.state p.old).count a.page.0 a.at ≡ true → FailsPlainly result }
    ensures told { (P.state p.new).told ≡ (P.state p.old).told }
    ensures uses { Uses P.state P.stays ([]) 1 0 p.old p.new }
    ensures cause { HasCause (P.state p.old).faults (P.state p.new).faults result }
{
    if a.page.0 == NULL_PAGE && a.at == 0 {
        return Ok(None);
    }
    if !is_place(p.count(), a.page.0, u32::from(a.at)) {
        return strange(page, at, u64::from(a.page.0));
    }
    let kind = read_field(p, a.page, a.at + 2, 1)?;
    Ok(Some(pointer(kind == 1, a)))
}

/// The pointer to the log's last record, or none where it has no record. Touches the log's first
/// page and that of the record. A log whose purge has begun has no last record to speak of.
pub fn last<P: Pages>(p: &mut P, log: PageNo) -> Result<Option<RollPtr>, Fault>
    requires log { log.0 < (P.state p.old).count }
    requires may { MayUse (log.0 ∷ []) 1 0 (P.state p.old) }
    ensures value { (l : Log) → l.page ≡ log.0 → l.state ≢ purging
        → IfLog (P.state p.old).told l (λ pages.
        IfOk result (λ r. number_of r ≡ newest_pointer (records_of l))) }
    ensures never { (l : Log) → l.page ≡ log.0 → l.state ≢ purging
        → IfLog (P.state p.old).told l (λ pages. FailsPlainly result) }
    ensures told { (P.state p.new).told ≡ (P.state p.old).told }
    ensures uses { Uses P.state P.stays (log.0 ∷ []) 1 0 p.old p.new }
    ensures cause { HasCause (P.state p.old).faults (P.state p.new).faults result }
{
    let a = read_address(p, log, LAST)?;
    pointer_to(p, log, LAST, a)
}

/// Whether the log's purge has begun.
pub fn purge_begun<P: Pages>(p: &mut P, log: PageNo) -> Result<bool, Fault>
    requires log { log.0 < (P.state p.old).count }
    requires may { MayUse (log.0 ∷ []) 0 0 (P.state p.old) }
    ensures value { (l : Log) → l.page ≡ log.0 → IfLog (P.state p.old).told l (λ pages.
        IfOk result (λ b. b ≡ (state_number l.state == 3))) }
    ensures told { (P.state p.new).told ≡ (P.state p.old).told }
    ensures uses { Uses P.state P.stays (log.0 ∷ []) 0 0 p.old p.new }
    ensures cause { HasCause (P.state p.old).faults (P.state p.new).faults result }
    ensures plain { FailsPlainly result }
{
    let state = read_field(p, log, STATE, 1)?;
    Ok(state == u64::from(PURGING))
}

/// The pointer to the record that is to be purged next, or none where purge has passed all of them.
/// Touches the log's first page and that of the record.
pub fn next_to_purge<P: Pages>(p: &mut P, log: PageNo) -> Result<Option<RollPtr>, Fault>
    requires log { log.0 < (P.state p.old).count }
    requires may { MayUse (log.0 ∷ []) 1 0 (P.state p.old) }
    ensures value { (l : Log) → l.page ≡ log.0 → l.state ≢ active
        → IfLog (P.state p.old).told l (λ pages.
        IfOk result (λ r. IsDue pages l.next (number_of r))) }
    ensures never { (l : Log) → l.page ≡ log.0 → l.state ≢ active
        → IfLog (P.state p.old).told l (λ pages. HasNext pages l.next → FailsPlainly result) }
    ensures told { (P.state p.new).told ≡ (P.state p.old).told }
    ensures uses { Uses P.state P.stays (log.0 ∷ []) 1 0 p.old p.new }
    ensures cause { HasCause (P.state p.old).faults (P.state p.new).faults result }
{
    let a = read_address(p, log, NEXT)?;
    pointer_to(p, log, NEXT, a)
}

// Where a pointer leads that isn't none.
pub(crate) fn leads_to(roll: RollPtr) -> Addr
    requires some { 0 < roll.0 }
    ensures { led roll.0 ≡ Some (address_of result) }
{
    Addr {
        page: PageNo((roll.0 / 65_536 % 4_294_967_296) as u32),
        at: (roll.0 % 65_536) as u16,
    }
}

/// The record to which the pointer leads. Touches its page. Strange names the length of what stands
/// there where that is no record.
pub fn at<P: Pages>(p: &mut P, roll: RollPtr) -> Result<UndoRecord, Fault>
    requires place { (a : Address) → led roll.0 ≡ Some a
        → IsRecordPlace (P.state p.old).count a }
    requires some { 0 < roll.0 }
    requires may { (a : Address) → led roll.0 ≡ Some a
        → MayUse (a.page ∷ []) 0 0 (P.state p.old) }
    ensures value { (pages : Pages) (a : Address) (r : Record) (previous : Address)
        → (P.state p.old).told ≡ Some pages → led roll.0 ≡ Some a → IsRecordAt pages a r previous
        → IfOk result (λ x. record_of x ≡ r) }
    ensures doc { IfOk result (λ r. r.before.doc ≡ r.doc) }
    ensures narrow { IfOk result (λ r. IsNarrow r.before) }
    ensures fits { IfOk result (λ r. BodyFits (P.state p.old).count (body_of r.body)) }
    ensures honest { (a : Address) → led roll.0 ≡ Some a
        → IfErr result (IsHonest (IsNoRecord (P.state p.old).told a)) }
    ensures never { (pages : Pages) (a : Address) (r : Record) (previous : Address)
        → (P.state p.old).told ≡ Some pages → led roll.0 ≡ Some a → IsRecordAt pages a r previous
        → FailsPlainly result }
    ensures cause { HasCause (P.state p.old).faults (P.state p.new).faults result }
    ensures told { (P.state p.new).told ≡ (P.state p.old).told }
    ensures uses { (a : Address) → led roll.0 ≡ Some a
        → Uses P.state P.stays (a.page ∷ []) 0 0 p.old p.new }
{
    record_there(p, leads_to(roll))
}

// The record that stands there.
pub(crate) fn record_there<P: Pages>(p: &mut P, a: Addr) -> Result<UndoRecord, Fault>
    requires place { IsRecordPlace (P.state p.old).count (address_of a) }
    requires may { MayUse (a.page.0 ∷ []) 0 0 (P.state p.old) }
    ensures value { (pages : Pages) (r : Record) (previous : Address)
        → (P.state p.old).told ≡ Some pages → IsRecordAt pages (address_of a) r previous
        → IfOk result (λ x. record_of x ≡ r) }
    ensures doc { IfOk result (λ r. r.before.doc ≡ r.doc) }
    ensures narrow { IfOk result (λ r. IsNarrow r.before) }
    ensures fits { IfOk result (λ r. BodyFits (P.state p.old).count (body_of r.body)) }
    ensures honest { IfErr result (IsHonest (IsNoRecord (P.state p.old).told (address_of a))) }
    ensures never { (pages : Pages) (r : Record) (previous : Address)
        → (P.state p.old).told ≡ Some pages → IsRecordAt pages (address_of a) r previous
        → FailsPlainly result }
    ensures cause { HasCause (P.state p.old).faults (P.state p.new).faults result }
    ensures told { (P.state p.new).told ≡ (P.state p.old).told }
    ensures uses { Uses P.state P.stays (a.page.0 ∷ []) 0 0 p.old p.new }
{
    match read(p, a) {
        Ok(rec) => Ok(rec),
        Err(RecordError::Bad(_)) => no_record(p, a),
        Err(RecordError::Fault(fault)) => Err(fault),
    }
}

// Answers that no record stands there: what would be its length is what it names.
fn no_record<P: Pages>(p: &mut P, a: Addr) -> Result<UndoRecord, Fault>
    requires place { IsRecordPlace (P.state p.old).count (address_of a) }
    requires may { MayUse (a.page.0 ∷ []) 0 0 (P.state p.old) }
    ensures err { OnOk result ⊥ }
    ensures names { IfErr result (IsHonest (IsLengthThere (P.state p.old).told (address_of a))) }
    ensures told { (P.state p.new).told ≡ (P.state p.old).told }
    ensures cause { HasCause (P.state p.old).faults (P.state p.new).faults result }
    ensures uses { Uses P.state P.stays (a.page.0 ∷ []) 0 0 p.old p.new }
{
    let len = read_field(p, a.page, a.at, 2)?;
    strange(a.page, a.at, len)
}

/// The first page of the committed log with the least number, or none where no log is committed.
pub fn oldest_committed<P: Pages>(p: &mut P) -> Result<Option<PageNo>, Fault>
    requires size { IsSize (P.state p.old).count }
    requires may { MayUse (0 ∷ []) 0 0 (P.state p.old) }
    ensures value { IfLogs (P.state p.old).told (λ pages logs.
        IfOk result (λ o. page_number o ≡ oldest_page logs.committed)) }
    ensures place { IfOk result (λ o. IfSome o (λ n. n.0 < (P.state p.old).count)) }
    ensures never { IfLogs (P.state p.old).told (λ pages logs. FailsPlainly result) }
    ensures told { (P.state p.new).told ≡ (P.state p.old).told }
    ensures uses { Uses P.state P.stays (0 ∷ []) 0 0 p.old p.new }
    ensures cause { HasCause (P.state p.old).faults (P.state p.new).faults result }
{
    let base = Addr {
        page: SYSTEM,
        at: COMMITTED_LOGS,
    };
    match first(p, base)? {
        Some(node) => {
            if node.at == LOG_NODE {
                Ok(Some(node.page))
            } else {
                strange(SYSTEM, COMMITTED_LOGS + 8, u64::from(node.at))
            }
        }
        None => Ok(None),
    }
}
