// Addresses that may be null, read and written.
ghost use Rattle.std.specs.Prelude.{◌≡◌, ◌+◌, ◌≤◌, ◌<◌, [], ◌∷◌, Some, IfSome, IfOk, OnOk, IfErr, IsOk};
ghost use Rattle.page_model.specs.Pages.{page_bytes, address_at};
ghost use Rattle.page_model.specs.Lists.{IsNodePlace, IsBasePlace, IsLink, back_place, on_place, or_null};
ghost use Rattle.page_model.specs.Spans.{SetsAddress};
ghost use Rattle.page_model.specs.Steps.{MayUse, Uses, Told, write_head};
ghost use Rattle.engine_base.specs.Faults.{HasCause, FailsPlainly, IsHonest};
ghost use Rattle.engine_base.specs.Addresses.{address_of};
ghost use Rattle.file_lists.specs.Links.{link_of};
ghost use Rattle.file_lists.specs.Strange.{IsOddLink, NamesPart};

use crate::layout::{FIRST, LAST, MAX_PLACE, NEXT};
use engine_base::{Addr, Fault, NULL_PAGE, PageNo, Pages, read_address, strange, write_address};

/// The address of a node, or none, in six bytes of a page. Strange where it is neither null nor the
/// place of a node.
pub fn read_link<P: Pages>(p: &mut P, page: PageNo, at: u16) -> Result<Option<Addr>, Fault>
    requires page { page.0 < (P.state p.old).count }
    requires within { at + 6 ≤ page_bytes }
    requires may { MayUse (page.0 ∷ []) 0 0 (P.state p.old) }
    ensures value { IfOk result (λ link. IfSome (P.state p.old).told
        (λ pages. or_null (link_of link) ≡ address_at pages page.0 at)) }
    ensures place { IfOk result (λ link.
        IfSome link (λ a. IsNodePlace (P.state p.old).count (address_of a))) }
    ensures honest { IfErr result (IsHonest
        (IsOddLink (P.state p.old).told (P.state p.old).count page.0 at)) }
    ensures never { IfSome (P.state p.old).told
        (λ pages. IsLink (P.state p.old).count (address_at pages page.0 at) → FailsPlainly result) }
    ensures told { (P.state p.new).told ≡ (P.state p.old).told }
    ensures uses { Uses P.state P.stays (page.0 ∷ []) 0 0 p.old p.new }
    ensures cause { HasCause (P.state p.old).faults (P.state p.new).faults result }
{
    let count = p.count();
    let there = read_address(p, page, at)?;
    link(count, page, at, there)
}

// What an address means that was read there.
fn link(count: u32, page: PageNo, at: u16, there: Addr) -> Result<Option<Addr>, Fault>
    requires { at + 6 ≤ page_bytes }
    ensures value { IfOk result (λ link. or_null (link_of link) ≡ address_of there) }
    ensures place { IfOk result (λ link. IfSome link (λ a. IsNodePlace count (address_of a))) }
    ensures odd { IfErr result (NamesPart count page.0 at (address_of there)) }
    ensures never { IsLink count (address_of there) → IsOk result }
{
    if there.page.0 == NULL_PAGE {
        if there.at == 0 {
            return Ok(None);
        }
        return strange(page, at + 4, u64::from(there.at));
    }
    if there.page.0 >= count {
        return strange(page, at, u64::from(there.page.0));
    }
    if there.at > MAX_PLACE {
        return strange(page, at + 4, u64::from(there.at));
    }
    Ok(Some(there))
}

/// Writes the address of the node, or the null address.
pub fn write_link<P: Pages>(
    p: &mut P,
    page: PageNo,
    at: u16,
    link: Option<Addr>,
) -> Result<(), Fault>
    requires page { page.0 < (P.state p.old).count }
    requires within { at + 6 ≤ page_bytes }
    requires may { MayUse (page.0 ∷ []) 0 (6 + write_head) (P.state p.old) }
    ensures sets { OnOk result (Told (SetsAddress page.0 at (or_null (link_of link)))
        (P.state p.old).told (P.state p.new).told) }
    ensures uses { Uses P.state P.stays (page.0 ∷ []) 0 (6 + write_head) p.old p.new }
    ensures cause { HasCause (P.state p.old).faults (P.state p.new).faults result }
    ensures plain { FailsPlainly result }
{
    write_address(p, page, at, address(link))
}

fn address(link: Option<Addr>) -> Addr
    ensures { address_of result ≡ or_null (link_of link) }
{
    match link {
        Some(a) => a,
        None => Addr::NULL,
    }
}

/// Writes the address that leads back from this node, or the base's last one.
pub fn point_back<P: Pages>(
    p: &mut P,
    base: Addr,
    from: Option<Addr>,
    to: Option<Addr>,
) -> Result<(), Fault>
    requires base { IsBasePlace (P.state p.old).count (address_of base) }
    requires from { IfSome from (λ a. IsNodePlace (P.state p.old).count (address_of a)) }
    requires may { MayUse ((back_place (address_of base) (link_of from)).page ∷ []) 0
        (6 + write_head) (P.state p.old) }
    ensures sets { let place = back_place (address_of base) (link_of from) in
        OnOk result (Told (SetsAddress place.page place.at (or_null (link_of to)))
        (P.state p.old).told (P.state p.new).told) }
    ensures uses { Uses P.state P.stays ((back_place (address_of base) (link_of from)).page ∷ []) 0
        (6 + write_head) p.old p.new }
    ensures cause { HasCause (P.state p.old).faults (P.state p.new).faults result }
    ensures plain { FailsPlainly result }
{
    match from {
        Some(a) => write_link(p, a.page, a.at, to),
        None => write_link(p, base.page, base.at + LAST, to),
    }
}

/// Writes the address that leads on from this node, or the base's first one.
pub fn point_on<P: Pages>(
    p: &mut P,
    base: Addr,
    from: Option<Addr>,
    to: Option<Addr>,
) -> Result<(), Fault>
    requires base { IsBasePlace (P.state p.old).count (address_of base) }
    requires from { IfSome from (λ a. IsNodePlace (P.state p.old).count (address_of a)) }
    requires may { MayUse ((on_place (address_of base) (link_of from)).page ∷ []) 0 (6 + write_head)
        (P.state p.old) }
    ensures sets { let place = on_place (address_of base) (link_of from) in
        OnOk result (Told (SetsAddress place.page place.at (or_null (link_of to)))
        (P.state p.old).told (P.state p.new).told) }
    ensures uses { Uses P.state P.stays ((on_place (address_of base) (link_of from)).page ∷ []) 0
        (6 + write_head) p.old p.new }
    ensures cause { HasCause (P.state p.old).faults (P.state p.new).faults result }
    ensures plain { FailsPlainly result }
{
    match from {
        Some(a) => write_link(p, a.page, a.at + NEXT, to),
        None => write_link(p, base.page, base.at + FIRST, to),
    }
}
