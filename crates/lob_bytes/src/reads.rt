// Reading a version's data.
ghost use Rattle.std.specs.Prelude.{◌≡◌, ◌≢◌, ◌⊎◌, ℕ, ◌+◌, ◌<◌, ◌≤◌, List, [], ◌∷◌, length, take, drop, Some, IfOk, IfErr, IsOk, OnOk};
ghost use Rattle.page_model.specs.Pages.{Pages, Address, page_bytes};
ghost use Rattle.page_model.specs.Steps.{MayUse, Uses};
ghost use Rattle.engine_base.specs.Faults.{HasCause, FailsPlainly, IsHonest};
ghost use Rattle.engine_base.specs.Addresses.{address_of};
ghost use Rattle.lob_model.specs.declared.layout.TheConstants.{DATA_ROOM};
ghost use Rattle.lob_pages.specs.Entries.{FitsPage};
ghost use Rattle.lob_bytes.specs.Reads.{IfVersion, IsDataPlace, NamesPlace, IsOddData};

use engine_base::{Addr, Fault, PageNo, Pages, read_field, strange};
use lob_model::layout::{
    DATA, DATA_ROOM, DATA_TYPE, FIRST_DATA, FIRST_ROOM, FIRST_TYPE, LENGTH, PAGE, TYPE,
};
use lob_pages::read_entry;

/// Reads the data of an entry to the front of `into`, which has room for the data of any page, and
/// tells its length. Besides the entry's page it touches that of the data.
pub fn read_piece<P: Pages>(p: &mut P, entry: Addr, into: &mut [u8]) -> Result<usize, Fault>
    requires entry { FitsPage (P.state p.old).count (address_of entry) }
    requires into { length into.old ≡ DATA_ROOM }
    requires may { MayUse (entry.page.0 ∷ []) 1 0 (P.state p.old) }
    ensures reads { IfVersion (P.state p.old).told (address_of entry) (λ pages x.
        IfOk result (λ n. n ≡ length x.bytes)
        × OnOk result (take (length x.bytes) into.new ≡ x.bytes)) }
    ensures len { IfOk result (λ n. n ≤ DATA_ROOM) }

    // Strange names the entry's page or length, or the type of that page, as each stood.
    ensures honest { IfErr result (IsHonest
        (IsOddData (P.state p.old).told (P.state p.old).count (address_of entry))) }
    ensures never { IfVersion (P.state p.old).told (address_of entry)
        (λ pages x. FailsPlainly result) }
    ensures cause { HasCause (P.state p.old).faults (P.state p.new).faults result }

    ensures told { (P.state p.new).told ≡ (P.state p.old).told }
    ensures uses { Uses P.state P.stays (entry.page.0 ∷ []) 1 0 p.old p.new }
{
    let count = p.count();
    let fields = read_entry(p, entry)?;
    let page = fields.page;
    let size = fields.length;
    if page.0 >= count {
        return strange(entry.page, entry.at + PAGE, u64::from(page.0));
    }
    let kind = read_field(p, page, TYPE, 2)?;
    let at = data_place(entry, page, kind, size)?;
    let size = size as usize;
    p.read(page, at, &mut into[..size])?;
    Ok(size)
}

// Where the data of a page of that type begins, if so much fits there.
fn data_place(entry: Addr, page: PageNo, kind: u64, size: u32) -> Result<u16, Fault>
    requires { entry.at + 60 ≤ page_bytes }
    ensures place { IfOk result (λ at. IsDataPlace kind at size) }
    ensures odd { IfErr result (NamesPlace (address_of entry) page.0 kind size) }
    ensures never { (at : ℕ) → IsDataPlace kind at size → IsOk result }
{
    let (at, room) = match kind {
        FIRST_TYPE => (FIRST_DATA, FIRST_ROOM),
        DATA_TYPE => (DATA, DATA_ROOM),
        _ => return strange(page, TYPE, kind),
    };
    if size > u32::from(room) {
        return strange(entry.page, entry.at + LENGTH, u64::from(size));
    }
    Ok(at)
}
