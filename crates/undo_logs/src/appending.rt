// A record appended.
ghost use Rattle.std.specs.Prelude.{◌≡◌, ◌+◌, ◌*◌, ◌^◌, ◌≤◌, ◌<◌, [], ◌∷◌, length, Some, IfOk, OnOk, IfErr, IfSome};
ghost use Rattle.page_model.specs.Pages.{Pages};
ghost use Rattle.page_model.specs.Steps.{MayUse, Uses, Becomes, write_head};
ghost use Rattle.engine_base.specs.Faults.{HasCause, FailsPlainly};
ghost use Rattle.engine_base.specs.Addresses.{address_of};
ghost use Rattle.page_space.specs.Map.{IsSize, free_of};
ghost use Rattle.undo_model.specs.Data.{Log, pointer};
ghost use Rattle.undo_model.specs.Bytes.{record_size};
ghost use Rattle.undo_model.specs.Reading.{IsSoundRecord, IsSoundPrevious, record_end};
ghost use Rattle.undo_model.specs.Logs.{IfLog, last_field, records_of};
ghost use Rattle.undo_records.specs.Records.{record_of};
ghost use Rattle.store_parts.specs.Appends.{CanAppend, AppendsRecord, newest_page_of};
ghost use Rattle.undo_logs.specs.Places.{IsPlaced};

use crate::layout::{END, LAST, OTHER_START, PAGE_NODE, PAGES_BASE, RECORD_END};
use crate::opening::open_page;
use crate::put::put_record;
use engine_base::{Addr, Fault, NULL_PAGE, PageNo, Pages, read_address, read_field, strange};
use file_lists::last;
use page_space::Space;
use undo_records::{RollPtr, UndoRecord, is_previous};

/// The pointer to a record there, with the bit of an insert or without it.
pub fn pointer(inserts: bool, at: Addr) -> RollPtr
    ensures { result.0 ≡ pointer inserts (address_of at) }
{
    let place = u64::from(at.page.0) * 65_536 + u64::from(at.at);
    if inserts {
        RollPtr(0x80_0000_0000_0000 + place)
    } else {
        RollPtr(place)
    }
}

/// The page that was added last.
pub(crate) fn newest_page<P: Pages>(p: &mut P, log: PageNo) -> Result<PageNo, Fault>
    requires log { log.0 < (P.state p.old).count }
    requires may { MayUse (log.0 ∷ []) 0 0 (P.state p.old) }
    ensures value { (l : Log) → l.page ≡ log.0 → IfLog (P.state p.old).told l (λ pages.
        IfOk result (λ page. page.0 ≡ newest_page_of l)) }
    ensures place { IfOk result (λ page. page.0 < (P.state p.old).count) }
    ensures never { (l : Log) → l.page ≡ log.0 → IfLog (P.state p.old).told l (λ pages.
        FailsPlainly result) }
    ensures told { (P.state p.new).told ≡ (P.state p.old).told }
    ensures uses { Uses P.state P.stays (log.0 ∷ []) 0 0 p.old p.new }
    ensures cause { HasCause (P.state p.old).faults (P.state p.new).faults result }
{
    let base = Addr {
        page: log,
        at: PAGES_BASE,
    };
    match last(p, base)? {
        Some(node) => {
            if node.at == PAGE_NODE {
                Ok(node.page)
            } else {
                strange(log, PAGES_BASE + 14, u64::from(node.at))
            }
        }
        None => strange(log, PAGES_BASE + 10, u64::from(NULL_PAGE)),
    }
}

// The address of the log's last record, or the null address.
fn previous_of<P: Pages>(p: &mut P, log: PageNo) -> Result<Addr, Fault>
    requires log { log.0 < (P.state p.old).count }
    requires may { MayUse (log.0 ∷ []) 0 0 (P.state p.old) }
    ensures value { IfOk result (λ a. IfSome (P.state p.old).told (λ pages.
        address_of a ≡ last_field pages log.0)) }
    ensures sound { IfOk result (λ a. IsSoundPrevious (P.state p.old).count (address_of a)) }
    ensures never { (pages : Pages) (l : Log) → (P.state p.old).told ≡ Some pages
        → l.page ≡ log.0 → CanAppend l pages → FailsPlainly result }
    ensures told { (P.state p.new).told ≡ (P.state p.old).told }
    ensures uses { Uses P.state P.stays (log.0 ∷ []) 0 0 p.old p.new }
    ensures cause { HasCause (P.state p.old).faults (P.state p.new).faults result }
{
    let count = p.count();
    let a = read_address(p, log, LAST)?;
    if is_previous(count, a) {
        Ok(a)
    } else {
        strange(log, LAST, u64::from(a.page.0))
    }
}

// Where a record of so many bytes goes: at the end of the newest page, or on a new page.
fn place<P: Pages>(p: &mut P, space: &mut Space, log: PageNo, size: usize) -> Result<Addr, Fault>
    requires one { 1 ≤ space.old }
    requires small { size ≤ 852 }
    requires size { IsSize (P.state p.old).count }
    requires log { log.0 < (P.state p.old).count }
    requires may { MayUse (log.0 ∷ 0 ∷ []) 3 (89 + 8 * write_head) (P.state p.old) }
    ensures places { (pages : Pages) (l : Log) → (P.state p.old).told ≡ Some pages
        → l.page ≡ log.0 → CanAppend l pages → space.old ≤ free_of pages
        → IfOk result (λ at. Becomes (P.state p.new).told (λ new.
        IsPlaced l size (address_of at) pages new × (space.new ≤ free_of new))) }
    ensures place { IfOk result (λ at. at.page.0 < (P.state p.old).count) }
    ensures within { IfOk result (λ at. at.at + size ≤ record_end) }
    ensures takes { OnOk result (space.old ≤ space.new + 1) }
    ensures never { (pages : Pages) (l : Log) → (P.state p.old).told ≡ Some pages
        → l.page ≡ log.0 → CanAppend l pages → space.old ≤ free_of pages → FailsPlainly result }
    ensures cause { HasCause (P.state p.old).faults (P.state p.new).faults result }
    // The page of the place is one of those touched.
    ensures named { IfOk result (λ at. Uses P.state P.stays (at.page.0 ∷ log.0 ∷ 0 ∷ []) 2
        (89 + 8 * write_head) p.old p.new) }
    ensures uses { Uses P.state P.stays (log.0 ∷ 0 ∷ []) 3 (89 + 8 * write_head) p.old p.new }
{
    let page = newest_page(p, log)?;
    let end = read_field(p, page, END, 2)?;
    if end + size as u64 <= u64::from(RECORD_END) {
        return Ok(Addr {
            page,
            at: end as u16,
        });
    }
    let page = open_page(p, space, log)?;
    Ok(Addr {
        page,
        at: OTHER_START,
    })
}

/// Puts a record behind the log's others and answers the pointer to it. The condition is that a
/// page is reserved: one is taken where the record doesn't fit behind the others. A transaction's
/// records have the undo numbers from 0 on, so this one has the number of those before it. Touches
/// the log's first page and the newest one and, where a page is taken, that one, page 0 and that of
/// the node which the list of the log's pages ended with, which is the newest one's where the list
/// stands. Writes the record and 8 bytes in three writes, and 89 bytes in eight where a page is
/// taken.
pub fn append<P: Pages>(
    p: &mut P,
    space: &mut Space,
    log: PageNo,
    rec: &UndoRecord,
) -> Result<RollPtr, Fault>
    requires one { 1 ≤ space.old }
    requires size { IsSize (P.state p.old).count }
    requires log { log.0 < (P.state p.old).count }
    requires sound { IsSoundRecord (P.state p.old).count (record_of rec.now) }
    requires may { MayUse (log.0 ∷ 0 ∷ []) 3
        (record_size (record_of rec.now) + (97 + 11 * write_head)) (P.state p.old) }
    ensures appends { (pages : Pages) (l : Log) → (P.state p.old).told ≡ Some pages
        → l.page ≡ log.0 → CanAppend l pages → space.old ≤ free_of pages
        → (record_of rec.now).number ≡ length (records_of l)
        → IfOk result (λ roll. Becomes (P.state p.new).told (λ new.
        AppendsRecord l (record_of rec.now) roll.0 pages new × (space.new ≤ free_of new))) }
    // A row has 56 bits for a roll pointer.
    ensures narrow { IfOk result (λ roll. roll.0 < 2 ^ 56) }
    ensures takes { OnOk result (space.old ≤ space.new + 1) }
    ensures never { (pages : Pages) (l : Log) → (P.state p.old).told ≡ Some pages
        → l.page ≡ log.0 → CanAppend l pages → space.old ≤ free_of pages → FailsPlainly result }
    ensures cause { HasCause (P.state p.old).faults (P.state p.new).faults result }
    ensures uses { Uses P.state P.stays (log.0 ∷ 0 ∷ []) 3
        (record_size (record_of rec.now) + (97 + 11 * write_head)) p.old p.new }
{
    let previous = previous_of(p, log)?;
    let at = place(p, space, log, rec.size())?;
    put_record(p, log, at, rec, previous)?;
    Ok(pointer(rec.is_insert(), at))
}
