// Whether purge has passed the record that a row names.
ghost use Rattle.std.specs.Prelude.{◌≡◌, ◌≢◌, ◌+◌, ◌≤◌, ◌<◌, true, [], ◌∷◌, Some, IfOk, IfSome};
ghost use Rattle.std.specs.Option.{is_some};
ghost use Rattle.page_model.specs.Pages.{Pages};
ghost use Rattle.page_model.specs.Steps.{MayUse, Uses};
ghost use Rattle.engine_base.specs.Faults.{HasCause, FailsPlainly};
ghost use Rattle.engine_base.specs.Addresses.{address_of};
ghost use Rattle.store_data.specs.Store.{active, Store};
ghost use Rattle.store_parts.specs.Shows.{IsStore};
ghost use Rattle.page_space.specs.Map.{IsSize};
ghost use Rattle.undo_model.specs.Data.{Log, led};
ghost use Rattle.undo_model.specs.Bytes.{head_size};
ghost use Rattle.undo_model.specs.Reading.{record_end};
ghost use Rattle.undo_model.specs.Logs.{IsLog, end_field, records_of};
ghost use Rattle.undo_model.specs.LogSteps.{has_page, is_past, is_purged, log_with, number_at};
ghost use Rattle.undo_logs.specs.declared.layout.TheConstants.{FIRST_START, OTHER_START};
ghost use Rattle.undo_logs.specs.Purged.{logs_in, number_in, due_number, WalksTo};

use crate::layout::{ACTIVE, END, FIRST_START, NEXT, OTHER_START, OWNER, PAGE_NODE, STATE, TRX};
use crate::reads::{leads_to, record_there};
use engine_base::{
    Addr, Fault, NULL_PAGE, PageNo, PageType, Pages, TYPE, read_address, read_field, strange,
};
use lob_pages::{TrxId, UndoNo};
use page_space::is_used;
use undo_records::{RollPtr, is_place};

// Whether the page is a used one of a log.
fn is_of_log<P: Pages>(p: &mut P, page: PageNo) -> Result<bool, Fault>
    requires size { IsSize (P.state p.old).count }
    requires page { page.0 < (P.state p.old).count }
    requires may { MayUse (page.0 ∷ 0 ∷ []) 0 0 (P.state p.old) }
    ensures value { (pages : Pages) (store : Store) → (P.state p.old).told ≡ Some pages
        → (is : IsStore pages store)
        → IfOk result (λ b. b ≡ is_some (log_with page.0 (logs_in is))) }
    ensures told { (P.state p.new).told ≡ (P.state p.old).told }
    ensures uses { Uses P.state P.stays (page.0 ∷ 0 ∷ []) 0 0 p.old p.new }
    ensures cause { HasCause (P.state p.old).faults (P.state p.new).faults result }
    ensures plain { FailsPlainly result }
{
    if !is_used(p, page)? {
        return Ok(false);
    }
    let page_type = read_field(p, page, TYPE, 2)?;
    Ok(page_type == PageType::Undo as u64)
}

// The first page of the log that has the page.
fn first_page<P: Pages>(p: &mut P, page: PageNo) -> Result<PageNo, Fault>
    requires page { page.0 < (P.state p.old).count }
    requires may { MayUse (page.0 ∷ []) 0 0 (P.state p.old) }
    ensures value { (pages : Pages) (l : Log) → (P.state p.old).told ≡ Some pages → IsLog pages l
        → has_page page.0 l.parts ≡ true → IfOk result (λ log. log.0 ≡ l.page) }
    ensures place { IfOk result (λ log. log.0 < (P.state p.old).count) }
    ensures never { (pages : Pages) (l : Log) → (P.state p.old).told ≡ Some pages → IsLog pages l
        → has_page page.0 l.parts ≡ true → FailsPlainly result }
    ensures told { (P.state p.new).told ≡ (P.state p.old).told }
    ensures uses { Uses P.state P.stays (page.0 ∷ []) 0 0 p.old p.new }
    ensures cause { HasCause (P.state p.old).faults (P.state p.new).faults result }
{
    let count = p.count();
    let before = read_field(p, page, PAGE_NODE, 4)?;
    if before == u64::from(NULL_PAGE) {
        return Ok(page);
    }
    let log = read_field(p, page, OWNER, 4)?;
    if log >= u64::from(count) {
        return strange(page, OWNER, log);
    }
    Ok(PageNo(log as u32))
}

// Where the records of a page begin that the log has.
fn start_of(log: PageNo, page: PageNo) -> u16
    ensures first { page.0 ≡ log.0 → result ≡ FIRST_START }
    ensures other { page.0 ≢ log.0 → result ≡ OTHER_START }
{
    if page == log {
        FIRST_START
    } else {
        OTHER_START
    }
}

// The first place in the page, from that of the address on, where a record begins or the used part
// ends. The place lies in the used part.
fn boundary<P: Pages>(p: &mut P, log: PageNo, a: Addr) -> Result<u64, Fault>
    requires page { a.page.0 < (P.state p.old).count }
    requires within { a.at + head_size ≤ record_end }
    requires may { MayUse (a.page.0 ∷ []) 0 0 (P.state p.old) }
    ensures value { (pages : Pages) (l : Log) → (P.state p.old).told ≡ Some pages
        → l.page ≡ log.0 → IsLog pages l → has_page a.page.0 l.parts ≡ true
        → a.at < end_field pages a.page.0
        → IfOk result (λ place. WalksTo l (address_of a) place pages) }
    ensures behind { IfOk result (λ place. a.at ≤ place) }
    ensures never { (pages : Pages) (l : Log) → (P.state p.old).told ≡ Some pages
        → l.page ≡ log.0 → IsLog pages l → has_page a.page.0 l.parts ≡ true
        → a.at < end_field pages a.page.0 → FailsPlainly result }
    ensures told { (P.state p.new).told ≡ (P.state p.old).told }
    ensures uses { Uses P.state P.stays (a.page.0 ∷ []) 0 0 p.old p.new }
    ensures cause { HasCause (P.state p.old).faults (P.state p.new).faults result }
{
    let mut place = u64::from(start_of(log, a.page));
    'records: while place < u64::from(a.at) {
        let size = read_field(p, a.page, place as u16, 2)?;
        if size == 0 {
            return strange(a.page, place as u16, size);
        }
        place += size;
    }
    Ok(place)
}

// The undo number of the log's record at that address, or none where no record begins there. The
// page is one of the log's.
fn number_there<P: Pages>(p: &mut P, log: PageNo, a: Addr) -> Result<Option<UndoNo>, Fault>
    requires page { a.page.0 < (P.state p.old).count }
    requires may { MayUse (a.page.0 ∷ []) 0 0 (P.state p.old) }
    ensures value { (pages : Pages) (l : Log) → (P.state p.old).told ≡ Some pages
        → l.page ≡ log.0 → IsLog pages l → has_page a.page.0 l.parts ≡ true
        → IfOk result (λ o. number_in o ≡ number_at (address_of a) (records_of l)) }
    ensures never { (pages : Pages) (l : Log) → (P.state p.old).told ≡ Some pages
        → l.page ≡ log.0 → IsLog pages l → has_page a.page.0 l.parts ≡ true
        → FailsPlainly result }
    ensures told { (P.state p.new).told ≡ (P.state p.old).told }
    ensures uses { Uses P.state P.stays (a.page.0 ∷ []) 0 0 p.old p.new }
    ensures cause { HasCause (P.state p.old).faults (P.state p.new).faults result }
{
    if !is_place(p.count(), a.page.0, u32::from(a.at)) {
        return Ok(None);
    }
    let end = read_field(p, a.page, END, 2)?;
    if u64::from(a.at) >= end {
        return Ok(None);
    }
    let place = boundary(p, log, a)?;
    if place > u64::from(a.at) {
        return Ok(None);
    }
    let rec = record_there(p, a)?;
    Ok(Some(rec.number))
}

// The undo number of the record that is to be purged next, or none where purge has passed all.
fn number_due<P: Pages>(p: &mut P, log: PageNo) -> Result<Option<UndoNo>, Fault>
    requires log { log.0 < (P.state p.old).count }
    requires may { MayUse (log.0 ∷ []) 1 0 (P.state p.old) }
    ensures value { (pages : Pages) (l : Log) → (P.state p.old).told ≡ Some pages
        → l.page ≡ log.0 → IsLog pages l → l.state ≢ active
        → IfOk result (λ o. number_in o ≡ due_number l) }
    ensures never { (pages : Pages) (l : Log) → (P.state p.old).told ≡ Some pages
        → l.page ≡ log.0 → IsLog pages l → l.state ≢ active → FailsPlainly result }
    ensures told { (P.state p.new).told ≡ (P.state p.old).told }
    ensures uses { Uses P.state P.stays (log.0 ∷ []) 1 0 p.old p.new }
    ensures cause { HasCause (P.state p.old).faults (P.state p.new).faults result }
{
    let count = p.count();
    let a = read_address(p, log, NEXT)?;
    if a.page.0 == NULL_PAGE {
        return Ok(None);
    }
    if !is_place(count, a.page.0, u32::from(a.at)) {
        return strange(log, NEXT, u64::from(a.page.0));
    }
    let rec = record_there(p, a)?;
    Ok(Some(rec.number))
}

// Whether purge has passed the place in a page of a committed log.
fn is_passed<P: Pages>(p: &mut P, log: PageNo, a: Addr) -> Result<bool, Fault>
    requires log { log.0 < (P.state p.old).count }
    requires page { a.page.0 < (P.state p.old).count }
    requires may { MayUse (a.page.0 ∷ log.0 ∷ []) 1 0 (P.state p.old) }
    ensures value { (pages : Pages) (l : Log) → (P.state p.old).told ≡ Some pages
        → l.page ≡ log.0 → IsLog pages l → l.state ≢ active
        → has_page a.page.0 l.parts ≡ true
        → IfOk result (λ b. b ≡ is_past l.next (address_of a) (records_of l)) }
    ensures never { (pages : Pages) (l : Log) → (P.state p.old).told ≡ Some pages
        → l.page ≡ log.0 → IsLog pages l → l.state ≢ active
        → has_page a.page.0 l.parts ≡ true → FailsPlainly result }
    ensures told { (P.state p.new).told ≡ (P.state p.old).told }
    ensures uses { Uses P.state P.stays (a.page.0 ∷ log.0 ∷ []) 1 0 p.old p.new }
    ensures cause { HasCause (P.state p.old).faults (P.state p.new).faults result }
{
    let Some(due) = number_due(p, log)? else {
        return Ok(true);
    };
    match number_there(p, log, a)? {
        Some(number) => Ok(number.0 < due.0),
        None => Ok(true),
    }
}

/// Whether the record that a row with this roll pointer and transaction id names counts as purged:
/// where there is no pointer, where the page is no used one of a log, where its log has another
/// transaction's id, or where the log is committed and none of its records is to be purged next, or
/// one with a greater undo number. Touches page 0, the pointer's page, the log's first page and
/// that of the record that is due.
pub fn is_purged<P: Pages>(p: &mut P, roll: RollPtr, trx: TrxId) -> Result<bool, Fault>
    requires size { IsSize (P.state p.old).count }
    requires may { MayUse (0 ∷ []) 3 0 (P.state p.old) }
    ensures value { (pages : Pages) (store : Store) → (P.state p.old).told ≡ Some pages
        → (is : IsStore pages store)
        → IfOk result (λ b. b ≡ is_purged (logs_in is) (led roll.0) trx.0) }
    ensures never { (pages : Pages) (store : Store) → (P.state p.old).told ≡ Some pages
        → IsStore pages store → FailsPlainly result }
    ensures told { (P.state p.new).told ≡ (P.state p.old).told }
    ensures uses { Uses P.state P.stays (0 ∷ []) 3 0 p.old p.new }
    ensures cause { HasCause (P.state p.old).faults (P.state p.new).faults result }
{
    if roll.0 == 0 {
        return Ok(true);
    }
    let a = leads_to(roll);
    if a.page.0 >= p.count() {
        return Ok(true);
    }
    if !is_of_log(p, a.page)? {
        return Ok(true);
    }
    let log = first_page(p, a.page)?;
    let owner = read_field(p, log, TRX, 6)?;
    if owner != trx.0 {
        return Ok(true);
    }
    let state = read_field(p, log, STATE, 1)?;
    if state == u64::from(ACTIVE) {
        return Ok(false);
    }
    is_passed(p, log, a)
}
