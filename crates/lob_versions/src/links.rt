// Addresses of entries, read.
ghost use Rattle.std.specs.Prelude.{◌≡◌, ◌≢◌, ◌+◌, ◌<◌, ◌≤◌, [], ◌∷◌, IfOk, IfErr, IfSome, IsOk};
ghost use Rattle.page_model.specs.Pages.{address_at, page_bytes};
ghost use Rattle.page_model.specs.Lists.{or_null};
ghost use Rattle.page_model.specs.Steps.{MayUse, Uses};
ghost use Rattle.engine_base.specs.Faults.{HasCause, FailsPlainly, IsHonest};
ghost use Rattle.engine_base.specs.Addresses.{address_of};
ghost use Rattle.file_lists.specs.Links.{link_of};
ghost use Rattle.lob_model.specs.declared.layout.TheConstants.{ENTRY};
ghost use Rattle.lob_versions.specs.Links.{IsEntryLink, NamesPart, IsOddEntryLink, IsEntryThere};

use engine_base::{Addr, Fault, NULL_PAGE, PAGE_BYTES, PageNo, Pages, read_address, strange};
use lob_model::layout::{ENTRY, VERSIONS};

// The last place in a page at which an entry fits.
const LAST_PLACE: u16 = PAGE_BYTES as u16 - ENTRY;

/// Where the address of the first node stands in a base, and that of the last one.
pub const FIRST: u16 = 4;

pub const LAST: u16 = FIRST + 6;

/// Where the address of the next node stands in a node.
const NEXT: u16 = 6;

/// Where in an entry the address of the next older version stands: in a head in the base of its
/// version list.
pub fn older_at(head: Addr, node: Addr) -> u16
    requires { node.at + ENTRY ≤ page_bytes }
    ensures head { address_of node ≡ address_of head → result ≡ node.at + 16 }
    ensures other { address_of node ≢ address_of head → result ≡ node.at + 6 }
    ensures within { result + 6 ≤ node.at + ENTRY }
{
    if node.page.0 == head.page.0 && node.at == head.at {
        node.at + VERSIONS + FIRST
    } else {
        node.at + NEXT
    }
}

/// The entry whose address stands there.
pub fn entry_at<P: Pages>(p: &mut P, page: PageNo, at: u16) -> Result<Option<Addr>, Fault>
    requires page { page.0 < (P.state p.old).count }
    requires within { at + 6 ≤ page_bytes }
    requires may { MayUse (page.0 ∷ []) 0 0 (P.state p.old) }
    ensures value { IfOk result (λ link. IfSome (P.state p.old).told
        (λ pages. or_null (link_of link) ≡ address_at pages page.0 at)) }
    ensures place { IfOk result (IsEntryLink (P.state p.old).count) }
    ensures honest { IfErr result
        (IsHonest (IsOddEntryLink (P.state p.old).told (P.state p.old).count page.0 at)) }
    ensures never { IfSome (P.state p.old).told
        (λ pages. IsEntryThere (P.state p.old).count (address_at pages page.0 at)
        → FailsPlainly result) }
    ensures cause { HasCause (P.state p.old).faults (P.state p.new).faults result }
    ensures told { (P.state p.new).told ≡ (P.state p.old).told }
    ensures uses { Uses P.state P.stays (page.0 ∷ []) 0 0 p.old p.new }
{
    let count = p.count();
    let there = read_address(p, page, at)?;
    as_entry(count, page, at, there)
}

// What an address means that was read there.
fn as_entry(count: u32, page: PageNo, at: u16, there: Addr) -> Result<Option<Addr>, Fault>
    requires { at + 6 ≤ page_bytes }
    ensures value { IfOk result (λ link. or_null (link_of link) ≡ address_of there) }
    ensures place { IfOk result (IsEntryLink count) }
    ensures odd { IfErr result (NamesPart count page.0 at (address_of there)) }
    ensures never { IsEntryThere count (address_of there) → IsOk result }
{
    if there.page.0 == NULL_PAGE {
        if there.at == 0 {
            return Ok(None);
        }
        return strange(page, at + 4, u64::from(there.at));
    }
    if there.page.0 >= count {
        return strange(page, at, u64::from(there.page.0));
    }
    if there.at > LAST_PLACE {
        return strange(page, at + 4, u64::from(there.at));
    }
    Ok(Some(there))
}
