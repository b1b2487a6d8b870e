// A log begun.
ghost use Rattle.std.specs.Prelude.{◌≡◌, ◌+◌, ◌*◌, ◌^◌, ◌≤◌, ◌<◌, List, [], ◌∷◌, length, Some, IfOk, OnOk};
ghost use Rattle.page_model.specs.Pages.{Pages};
ghost use Rattle.page_model.specs.Spans.{SetsField};
ghost use Rattle.page_model.specs.Tables.{HasFields};
ghost use Rattle.page_model.specs.Steps.{MayUse, Uses, Told, Becomes, write_head};
ghost use Rattle.engine_base.specs.Faults.{HasCause, FailsPlainly};
ghost use Rattle.page_space.specs.Map.{IsSize, free_of};
ghost use Rattle.undo_model.specs.Logs.{first_start};
ghost use Rattle.undo_logs.specs.Begins.{first_fields, StartsLog, CanBegin, BeginsLog};

use crate::layout::{ACTIVE, END, FIRST_START, LAST, LOG_NODE, PAGE_NODE, PAGES_BASE, STATE, TRX};
use byteorder::{BigEndian, ByteOrder};
use engine_base::FieldValue::{Four, One, Two};
use engine_base::{Addr, Fault, NULL_PAGE, PageHeader, PageNo, PageType, Pages, fill_fields};
use file_lists::add_first;
use lob_pages::TrxId;
use page_space::{ACTIVE_LOGS, SYSTEM, Space};

// Writes a number over `width` bytes, the highest first.
fn put_number(bytes: &mut [u8], at: u16, width: u8, value: u64)
    requires width { (1 ≤ width) × (width ≤ 8) }
    requires fits { value < 256 ^ width }
    requires within { at + width ≤ length bytes.old }
    ensures { SetsField 0 at width value (bytes.old ∷ []) (bytes.new ∷ []) }
{
    BigEndian::write_uint(&mut bytes[usize::from(at)..], value, usize::from(width));
}

// Lays out the first bytes of a log's first page.
fn fill_first(bytes: &mut [u8], page: PageNo, trx: TrxId)
    requires len { length bytes.old ≡ first_start }
    requires trx { trx.0 < 2 ^ 48 }
    ensures len { length bytes.new ≡ first_start }
    ensures fields { HasFields (bytes.new ∷ []) 0 (first_fields page.0 trx.0) }
{
    PageHeader::alone(page, PageType::Undo).fill(bytes);
    fill_fields(
        bytes,
        &[
            Four(PAGE_NODE, NULL_PAGE),
            Two(PAGE_NODE + 4, 0),
            Four(PAGE_NODE + 6, NULL_PAGE),
            Two(PAGE_NODE + 10, 0),
            Two(END, FIRST_START),
            One(STATE, ACTIVE),
        ],
    );
    put_number(bytes, TRX, 6, trx.0);
    fill_fields(
        bytes,
        &[
            Four(PAGES_BASE, 1),
            Four(PAGES_BASE + 4, page.0),
            Two(PAGES_BASE + 8, PAGE_NODE),
            Four(PAGES_BASE + 10, page.0),
            Two(PAGES_BASE + 14, PAGE_NODE),
            Four(LAST, NULL_PAGE),
            Two(LAST + 4, 0),
        ],
    );
}

// Makes a log without records of the page. One write.
fn start_log<P: Pages>(p: &mut P, page: PageNo, trx: TrxId) -> Result<(), Fault>
    requires page { page.0 < (P.state p.old).count }
    requires trx { trx.0 < 2 ^ 48 }
    requires may { MayUse (page.0 ∷ []) 0 (first_start + write_head) (P.state p.old) }
    ensures starts { OnOk result (Told (StartsLog page.0 trx.0)
        (P.state p.old).told (P.state p.new).told) }
    ensures uses { Uses P.state P.stays (page.0 ∷ []) 0 (first_start + write_head) p.old p.new }
    ensures cause { HasCause (P.state p.old).faults (P.state p.new).faults result }
    ensures plain { FailsPlainly result }
{
    let mut bytes = [0u8; FIRST_START as usize];
    fill_first(&mut bytes, page, trx);
    p.write(page, 0, &bytes)?;
    Ok(())
}

/// Begins a transaction's log on a reserved page: active, without records, in front of the other
/// active ones. A transaction id has 48 bits. Touches page 0, the page that is taken and that of
/// the log which was in front, and writes 140 bytes in eight writes.
pub fn begin_log<P: Pages>(p: &mut P, space: &mut Space, trx: TrxId) -> Result<PageNo, Fault>
    requires one { 1 ≤ space.old }
    requires size { IsSize (P.state p.old).count }
    requires trx { trx.0 < 2 ^ 48 }
    requires may { MayUse (0 ∷ []) 2 (140 + 8 * write_head) (P.state p.old) }
    ensures begins { (pages : Pages) → (P.state p.old).told ≡ Some pages → CanBegin pages
        → space.old ≤ free_of pages → IfOk result (λ page. Becomes (P.state p.new).told (λ new.
        BeginsLog trx.0 page.0 pages new × (space.new ≤ free_of new))) }
    ensures there { IfOk result (λ page. page.0 < (P.state p.old).count) }
    ensures ok { OnOk result (space.new + 1 ≡ space.old) }
    ensures never { (pages : Pages) → (P.state p.old).told ≡ Some pages → CanBegin pages
        → space.old ≤ free_of pages → FailsPlainly result }
    ensures cause { HasCause (P.state p.old).faults (P.state p.new).faults result }
    ensures uses { Uses P.state P.stays (0 ∷ []) 2 (140 + 8 * write_head) p.old p.new }
{
    let page = space.take(p)?;
    start_log(p, page, trx)?;
    add_first(
        p,
        Addr {
            page: SYSTEM,
            at: ACTIVE_LOGS,
        },
        Addr { page, at: LOG_NODE },
    )?;
    Ok(page)
}
