// The page of a version's data (MySQL 8.0, lob0pages.h, `data_page_t`): written, found in an entry,
// and given back.
ghost use Rattle.std.specs.Prelude.{◌≡◌, ◌≢◌, ◌+◌, ◌*◌, ◌<◌, ◌≤◌, ◌^◌, [], ◌∷◌, length, IfOk, IfErr, IfSome, OnOk};
ghost use Rattle.page_model.specs.Pages.{field};
ghost use Rattle.page_model.specs.Spans.{SetsField};
ghost use Rattle.page_model.specs.Tables.{HasFields};
ghost use Rattle.page_model.specs.Steps.{MayUse, Uses, Told, Becomes, write_head};
ghost use Rattle.engine_base.specs.Faults.{HasCause, FailsPlainly, IsHonest};
ghost use Rattle.engine_base.specs.Addresses.{address_of};
ghost use Rattle.page_space.specs.Map.{IsSize, IfMapped, IsUsed};
ghost use Rattle.page_space.specs.Answers.{IsRaisedOrNotUsed};
ghost use Rattle.lob_model.specs.declared.layout.TheConstants.{DATA, DATA_ROOM, PAGE};
ghost use Rattle.lob_pages.specs.Entries.{FitsPage};
ghost use Rattle.lob_index.specs.Data.{data_fields, MakesData, GivesData, IsOddDataPage};

use crate::layout::{DATA_LENGTH, DATA_TRX};
use byteorder::{BigEndian, ByteOrder};
use engine_base::{Addr, Fault, PageHeader, PageNo, PageType, Pages, read_field, strange};
use lob_model::layout::{DATA, PAGE};
use lob_pages::TrxId;
use page_space::Space;

/// Makes the page a data page with these bytes, whatever stands in it; behind them the page stays
/// as it was. Two writes, one of the 49 bytes before the data and one of the data.
pub fn write_data<P: Pages>(p: &mut P, page: PageNo, trx: TrxId, bytes: &[u8]) -> Result<(), Fault>
    requires page { page.0 < (P.state p.old).count }
    requires narrow { trx.0 < 2 ^ 48 }
    requires fits { length bytes.now ≤ DATA_ROOM }
    requires may { MayUse (page.0 ∷ []) 0
        (49 + length bytes.now + 2 * write_head) (P.state p.old) }
    ensures makes { OnOk result (Told (MakesData page.0 trx.0 bytes.now)
        (P.state p.old).told (P.state p.new).told) }
    ensures uses { Uses P.state P.stays (page.0 ∷ []) 0
        (49 + length bytes.now + 2 * write_head) p.old p.new }
    ensures cause { HasCause (P.state p.old).faults (P.state p.new).faults result }
    ensures plain { FailsPlainly result }
{
    let mut front = [0u8; DATA as usize];
    fill_front(&mut front, page, trx, bytes.len() as u32);
    p.write(page, 0, &front)?;
    p.write(page, DATA, bytes)?;
    Ok(())
}

// Lays out what stands before the data.
fn fill_front(front: &mut [u8], page: PageNo, trx: TrxId, len: u32)
    requires len { length front.old ≡ DATA }
    requires narrow { trx.0 < 2 ^ 48 }
    ensures len { length front.new ≡ DATA }
    ensures fields { HasFields (front.new ∷ []) 0 (data_fields page.0 trx.0 len) }
{
    PageHeader::alone(page, PageType::LobData).fill(front);
    put_number(front, DATA_LENGTH, 4, u64::from(len));
    put_number(front, DATA_TRX, 6, trx.0);
}

/// Writes a number over `width` bytes, the highest first.
pub fn put_number(bytes: &mut [u8], at: u16, width: u8, value: u64)
    requires width { (1 ≤ width) × (width ≤ 8) }
    requires fits { value < 256 ^ width }
    requires within { at + width ≤ length bytes.old }
    ensures len { length bytes.new ≡ length bytes.old }
    ensures sets { SetsField 0 at width value (bytes.old ∷ []) (bytes.new ∷ []) }
{
    BigEndian::write_uint(&mut bytes[usize::from(at)..], value, usize::from(width));
}

/// The page of the data of the version whose entry stands there. It touches the entry's page.
pub fn data_page<P: Pages>(p: &mut P, entry: Addr) -> Result<PageNo, Fault>
    requires entry { FitsPage (P.state p.old).count (address_of entry) }
    requires may { MayUse (entry.page.0 ∷ []) 0 0 (P.state p.old) }
    ensures value { IfOk result (λ n. IfSome (P.state p.old).told
        (λ pages. n.0 ≡ field pages entry.page.0 (entry.at + PAGE) 4)) }
    ensures there { IfOk result (λ n. n.0 < (P.state p.old).count) }

    // Strange names the number that stands there, which is no page.
    ensures honest { IfErr result (IsHonest
        (IsOddDataPage (P.state p.old).told (P.state p.old).count (address_of entry))) }
    ensures never { IfSome (P.state p.old).told
        (λ pages. field pages entry.page.0 (entry.at + PAGE) 4 < (P.state p.old).count
        → FailsPlainly result) }
    ensures cause { HasCause (P.state p.old).faults (P.state p.new).faults result }
    ensures told { (P.state p.new).told ≡ (P.state p.old).told }
    ensures uses { Uses P.state P.stays (entry.page.0 ∷ []) 0 0 p.old p.new }
{
    let count = p.count();
    let page = read_field(p, entry.page, entry.at + PAGE, 4)?;
    if page >= u64::from(count) {
        return strange(entry.page, entry.at + PAGE, page);
    }
    Ok(PageNo(page as u32))
}

/// Gives back the page of a version's data, unless it is the LOB's first page, which stays. It
/// touches page 0 alone, and writes 5 bytes at most in two writes.
pub fn give_data<P: Pages>(
    p: &mut P,
    space: &mut Space,
    first: PageNo,
    page: PageNo,
) -> Result<(), Fault>
    requires page { page.0 < (P.state p.old).count }
    requires size { IsSize (P.state p.old).count }
    requires may { MayUse (0 ∷ []) 0 (5 + 2 * write_head) (P.state p.old) }
    ensures gives { IfMapped (P.state p.old).told (λ pages.
        (page.0 ≢ first.0 → IsUsed pages page.0)
        → OnOk result (Becomes (P.state p.new).told (GivesData first.0 page.0 pages))) }
    ensures reserved { space.new ≡ space.old }

    // Strange names the count of free pages, or the byte of the map with the page's bit.
    ensures honest { IfErr result
        (IsHonest (IsRaisedOrNotUsed (P.state p.old).told (P.state p.old).count page.0)) }
    ensures never { IfMapped (P.state p.old).told (λ pages.
        (page.0 ≢ first.0 → IsUsed pages page.0) → FailsPlainly result) }
    ensures cause { HasCause (P.state p.old).faults (P.state p.new).faults result }
    ensures uses { Uses P.state P.stays (0 ∷ []) 0 (5 + 2 * write_head) p.old p.new }
{
    if page.0 == first.0 {
        return Ok(());
    }
    space.give(p, page)
}
