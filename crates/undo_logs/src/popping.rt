// The newest record of an active log taken out.
ghost use Rattle.std.specs.Prelude.{◌≡◌, ◌+◌, ◌*◌, ◌≤◌, ◌<◌, List, [], ◌∷◌, Some, IfOk, IfSome, OnOk};
ghost use Rattle.page_model.specs.Pages.{Pages, Address};
ghost use Rattle.page_model.specs.Steps.{MayUse, Uses, Becomes, write_head};
ghost use Rattle.engine_base.specs.Faults.{HasCause, FailsPlainly};
ghost use Rattle.engine_base.specs.Addresses.{address_of};
ghost use Rattle.page_space.specs.Map.{IsSize, IfMapped, IsUsed};
ghost use Rattle.store_parts.specs.Appends.{CanAppend};
ghost use Rattle.store_parts.specs.Logs.{ChangesLog, GivesLog};
ghost use Rattle.undo_model.specs.Data.{Entry, Log, Record};
ghost use Rattle.undo_model.specs.Reading.{IsRecordAt, IsRecordPlace};
ghost use Rattle.undo_model.specs.Logs.{last_field, records_of};
ghost use Rattle.undo_model.specs.LogLists.{pages_in};
ghost use Rattle.undo_model.specs.LogSteps.{popped};
ghost use Rattle.undo_logs.specs.Changes.{without_newest};
ghost use Rattle.undo_logs.specs.Pops.{has_record, IsListed, GivesBoth};

use crate::cutting::{cut_end, drop_newest};
use crate::layout::{LAST, LOG_NODE, OTHER_START, PREVIOUS};
use engine_base::{Addr, Fault, NULL_PAGE, PageNo, Pages, read_address, strange};
use file_lists::remove;
use page_space::{ACTIVE_LOGS, SYSTEM, Space};
use undo_records::{is_place, is_previous};

// The address of the log's last record.
fn newest_place<P: Pages>(p: &mut P, log: PageNo) -> Result<Addr, Fault>
    requires log { log.0 < (P.state p.old).count }
    requires may { MayUse (log.0 ∷ []) 0 0 (P.state p.old) }
    ensures value { IfOk result (λ a. IfSome (P.state p.old).told (λ pages.
        address_of a ≡ last_field pages log.0)) }
    ensures place { IfOk result (λ a. IsRecordPlace (P.state p.old).count (address_of a)) }
    ensures never { (pages : Pages) (l : Log) (e : Entry) (older : List Entry)
        → (P.state p.old).told ≡ Some pages → l.page ≡ log.0 → CanAppend l pages
        → records_of l ≡ e ∷ older → FailsPlainly result }
    ensures told { (P.state p.new).told ≡ (P.state p.old).told }
    ensures uses { Uses P.state P.stays (log.0 ∷ []) 0 0 p.old p.new }
    ensures cause { HasCause (P.state p.old).faults (P.state p.new).faults result }
{
    let count = p.count();
    let a = read_address(p, log, LAST)?;
    if is_place(count, a.page.0, u32::from(a.at)) {
        Ok(a)
    } else {
        strange(log, LAST, u64::from(a.page.0))
    }
}

// The address of the record before that one in its log, or null.
fn record_before<P: Pages>(p: &mut P, at: Addr) -> Result<Addr, Fault>
    requires place { IsRecordPlace (P.state p.old).count (address_of at) }
    requires may { MayUse (at.page.0 ∷ []) 0 0 (P.state p.old) }
    ensures value { (pages : Pages) (r : Record) (previous : Address)
        → (P.state p.old).told ≡ Some pages → IsRecordAt pages (address_of at) r previous
        → IfOk result (λ a. address_of a ≡ previous) }
    ensures never { (pages : Pages) (r : Record) (previous : Address)
        → (P.state p.old).told ≡ Some pages → IsRecordAt pages (address_of at) r previous
        → FailsPlainly result }
    ensures told { (P.state p.new).told ≡ (P.state p.old).told }
    ensures uses { Uses P.state P.stays (at.page.0 ∷ []) 0 0 p.old p.new }
    ensures cause { HasCause (P.state p.old).faults (P.state p.new).faults result }
{
    let count = p.count();
    let a = read_address(p, at.page, at.at + PREVIOUS)?;
    if is_previous(count, a) {
        Ok(a)
    } else {
        strange(at.page, at.at + PREVIOUS, u64::from(a.page.0))
    }
}

// Takes the newest record out, where another one is before it.
fn cut_newest<P: Pages>(
    p: &mut P,
    space: &mut Space,
    log: PageNo,
    at: Addr,
    previous: Addr,
) -> Result<(), Fault>
    requires size { IsSize (P.state p.old).count }
    requires log { log.0 < (P.state p.old).count }
    requires page { at.page.0 < (P.state p.old).count }
    requires may { MayUse (at.page.0 ∷ log.0 ∷ 0 ∷ []) 1 (27 + 6 * write_head) (P.state p.old) }
    ensures pops { (pages : Pages) (l : Log) (e f : Entry) (older : List Entry)
        → (P.state p.old).told ≡ Some pages → l.page ≡ log.0 → CanAppend l pages
        → records_of l ≡ e ∷ f ∷ older → address_of at ≡ e.at → address_of previous ≡ f.at
        → OnOk result (Becomes (P.state p.new).told
        (ChangesLog (without_newest (pages_in (popped l).parts)) l pages)) }
    ensures reserved { space.new ≡ space.old }
    ensures never { (pages : Pages) (l : Log) (e f : Entry) (older : List Entry)
        → (P.state p.old).told ≡ Some pages → l.page ≡ log.0 → CanAppend l pages
        → records_of l ≡ e ∷ f ∷ older → address_of at ≡ e.at → address_of previous ≡ f.at
        → FailsPlainly result }
    ensures cause { HasCause (P.state p.old).faults (P.state p.new).faults result }
    ensures uses { Uses P.state P.stays (at.page.0 ∷ log.0 ∷ 0 ∷ []) 1 (27 + 6 * write_head)
        p.old p.new }
{
    if at.at == OTHER_START {
        drop_newest(p, space, log, at.page, previous)?;
        return Ok(());
    }
    cut_end(p, log, at, previous)?;
    Ok(())
}

// Gives a log's first page back, and the other one where there is another.
fn give_both<P: Pages>(p: &mut P, space: &mut Space, log: PageNo, page: PageNo) -> Result<(), Fault>
    requires size { IsSize (P.state p.old).count }
    requires log { log.0 < (P.state p.old).count }
    requires page { page.0 < (P.state p.old).count }
    requires may { MayUse (0 ∷ []) 0 (10 + 4 * write_head) (P.state p.old) }
    ensures gives { IfMapped (P.state p.old).told (λ pages. IsUsed pages page.0
        → IsUsed pages log.0
        → OnOk result (Becomes (P.state p.new).told (GivesBoth page.0 log.0 pages))) }
    ensures reserved { space.new ≡ space.old }
    ensures never { IfMapped (P.state p.old).told (λ pages. IsUsed pages page.0
        → IsUsed pages log.0 → FailsPlainly result) }
    ensures cause { HasCause (P.state p.old).faults (P.state p.new).faults result }
    ensures uses { Uses P.state P.stays (0 ∷ []) 0 (10 + 4 * write_head) p.old p.new }
{
    if page.0 == log.0 {
        space.give(p, log)?;
        return Ok(());
    }
    space.give(p, page)?;
    space.give(p, log)?;
    Ok(())
}

// Takes the log, whose one record stands on that page, out of the list of active ones, and gives
// its pages back.
fn end_log<P: Pages>(p: &mut P, space: &mut Space, log: PageNo, page: PageNo) -> Result<(), Fault>
    requires size { IsSize (P.state p.old).count }
    requires log { log.0 < (P.state p.old).count }
    requires page { page.0 < (P.state p.old).count }
    requires may { MayUse (log.0 ∷ 0 ∷ []) 2 (26 + 7 * write_head) (P.state p.old) }
    ensures gives { (pages : Pages) (l : Log) (e : Entry) → (P.state p.old).told ≡ Some pages
        → l.page ≡ log.0 → CanAppend l pages → records_of l ≡ e ∷ [] → e.at.page ≡ page.0
        → IsListed l pages → OnOk result (Becomes (P.state p.new).told (GivesLog l pages)) }
    ensures reserved { space.new ≡ space.old }
    ensures never { (pages : Pages) (l : Log) (e : Entry) → (P.state p.old).told ≡ Some pages
        → l.page ≡ log.0 → CanAppend l pages → records_of l ≡ e ∷ [] → e.at.page ≡ page.0
        → IsListed l pages → FailsPlainly result }
    ensures cause { HasCause (P.state p.old).faults (P.state p.new).faults result }
    ensures uses { Uses P.state P.stays (log.0 ∷ 0 ∷ []) 2 (26 + 7 * write_head) p.old p.new }
{
    remove(
        p,
        Addr {
            page: SYSTEM,
            at: ACTIVE_LOGS,
        },
        Addr {
            page: log,
            at: LOG_NODE,
        },
    )?;
    give_both(p, space, log, page)?;
    Ok(())
}

/// Takes the newest record of an active log out, and gives its page back where it has no other. The
/// condition is that the log has a record. False exactly where none is left: then the log is in no
/// list, and its first page is given back too. Touches the log's first page, page 0 and at most
/// three others: that of the record, which need not be the first one even where no other is before
/// it, and those of the two logs beside this one in the list; where a record is before it, that of
/// the record and the page added before that. Writes at most 27 bytes, in at most seven writes.
pub fn pop_last<P: Pages>(p: &mut P, space: &mut Space, log: PageNo) -> Result<bool, Fault>
    requires size { IsSize (P.state p.old).count }
    requires log { log.0 < (P.state p.old).count }
    requires may { MayUse (log.0 ∷ 0 ∷ []) 3 (26 + 7 * write_head) (P.state p.old) }
    ensures pops { (pages : Pages) (l : Log) (e f : Entry) (older : List Entry)
        → (P.state p.old).told ≡ Some pages → l.page ≡ log.0 → CanAppend l pages
        → records_of l ≡ e ∷ f ∷ older
        → OnOk result (Becomes (P.state p.new).told
        (ChangesLog (without_newest (pages_in (popped l).parts)) l pages)) }
    ensures ends { (pages : Pages) (l : Log) (e : Entry) → (P.state p.old).told ≡ Some pages
        → l.page ≡ log.0 → CanAppend l pages → IsListed l pages → records_of l ≡ e ∷ []
        → OnOk result (Becomes (P.state p.new).told (GivesLog l pages)) }
    ensures left { (pages : Pages) (l : Log) (e : Entry) (older : List Entry)
        → (P.state p.old).told ≡ Some pages → l.page ≡ log.0 → CanAppend l pages
        → records_of l ≡ e ∷ older → IfOk result (λ b. b ≡ has_record older) }
    ensures reserved { space.new ≡ space.old }
    ensures never { (pages : Pages) (l : Log) (e : Entry) (older : List Entry)
        → (P.state p.old).told ≡ Some pages → l.page ≡ log.0 → CanAppend l pages
        → IsListed l pages → records_of l ≡ e ∷ older → FailsPlainly result }
    ensures cause { HasCause (P.state p.old).faults (P.state p.new).faults result }
    ensures uses { Uses P.state P.stays (log.0 ∷ 0 ∷ []) 3 (26 + 7 * write_head) p.old p.new }
{
    let at = newest_place(p, log)?;
    let previous = record_before(p, at)?;
    if previous.page.0 == NULL_PAGE {
        end_log(p, space, log, at.page)?;
        return Ok(false);
    }
    cut_newest(p, space, log, at, previous)?;
    Ok(true)
}
