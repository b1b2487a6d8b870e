// The heads of a LOB's pieces, by their position.
ghost use Rattle.std.specs.Prelude.{◌≡◌, ◌⊎◌, ◌+◌, ◌<◌, ◌≤◌, ◌^◌, List, [], ◌∷◌, ◌++◌, map, Some, IfOk, IfErr, IfSome, IfNone, IsOk, Decides};
ghost use Rattle.page_model.specs.Pages.{Pages, Address, address_at, page_bytes};
ghost use Rattle.page_model.specs.Lists.{or_null};
ghost use Rattle.page_model.specs.Steps.{MayUse, Uses};
ghost use Rattle.engine_base.specs.Faults.{HasCause, FailsPlainly, IsHonest};
ghost use Rattle.engine_base.specs.Addresses.{address_of};
ghost use Rattle.file_lists.specs.Links.{link_of};
ghost use Rattle.lob_model.specs.Pieces.{head_place};
ghost use Rattle.lob_model.specs.Places.{MayTurn};
ghost use Rattle.store_data.specs.Store.{Lob};
ghost use Rattle.lob_model.specs.Lobs.{IfLob, IsLob};
ghost use Rattle.lob_index.specs.declared.layout.TheConstants.{NEXT};
ghost use Rattle.lob_pages.specs.Entries.{FitsPage};
ghost use Rattle.lob_index.specs.Heads.{nth, IsHeadPlace, IsHeadLink, NamesEntry, IsOddHead, IsOddOnWalk};

use crate::layout::{FIRST, LAST_PLACE, NEXT};
use engine_base::{Addr, Fault, NULL_PAGE, PageNo, Pages, read_address, strange};
use lob_model::layout::HEADS;

/// The entry of the piece behind k others, and None past the last piece. Walks along the list of
/// heads, one read of 6 bytes each. Touches at most four pages besides the one that is named, since
/// the list changes its page in four places only.
pub fn head<P: Pages>(p: &mut P, page: PageNo, k: u32) -> Result<Option<Addr>, Fault>
    requires page { page.0 < (P.state p.old).count }
    requires may { MayUse (page.0 ∷ []) 4 0 (P.state p.old) }
    ensures value { IfLob (P.state p.old).told page.0
        (λ pages lob. IfOk result (λ link. link_of link ≡ nth k (map head_place lob.pieces))) }
    ensures place { IfOk result
        (λ link. IfSome link (λ a. FitsPage (P.state p.old).count (address_of a))) }

    // Strange names the address of a head, as it stood at the call.
    ensures honest { IfErr result
        (IsHonest (IsOddOnWalk (P.state p.old).told (P.state p.old).count)) }
    ensures never { IfLob (P.state p.old).told page.0 (λ pages lob. FailsPlainly result) }
    ensures cause { HasCause (P.state p.old).faults (P.state p.new).faults result }
    ensures told { (P.state p.new).told ≡ (P.state p.old).told }
    ensures uses { Uses P.state P.stays (page.0 ∷ []) 4 0 p.old p.new }
{
    let Some(node) = head_at(p, page, HEADS + FIRST, 0, page)? else {
        return Ok(None);
    };
    head_after(p, node, 0, k)
}

/// The entry of the piece n behind that of this head, which itself follows k others, and None past
/// the last piece. Whoever goes through some pieces of a LOB keeps the last head's address and goes
/// on from there: each piece between costs one read of 6 bytes. Touches at most four pages besides
/// the head's.
pub fn head_after<P: Pages>(p: &mut P, node: Addr, k: u32, n: u32) -> Result<Option<Addr>, Fault>
    requires node { FitsPage (P.state p.old).count (address_of node) }
    requires position { k + n < 2 ^ 32 }
    requires may { MayUse (node.page.0 ∷ []) 4 0 (P.state p.old) }
    ensures value { (pages : Pages) (lob : Lob) → (P.state p.old).told ≡ Some pages
        → IsLob pages lob → Some (address_of node) ≡ nth k (map head_place lob.pieces)
        → IfOk result (λ link. link_of link ≡ nth (k + n) (map head_place lob.pieces)) }
    ensures place { IfOk result
        (λ link. IfSome link (λ a. FitsPage (P.state p.old).count (address_of a))) }

    // Strange names the address in a head's node, as it stood at the call.
    ensures honest { IfErr result
        (IsHonest (IsOddOnWalk (P.state p.old).told (P.state p.old).count)) }
    ensures never { (pages : Pages) (lob : Lob) → (P.state p.old).told ≡ Some pages
        → IsLob pages lob → Some (address_of node) ≡ nth k (map head_place lob.pieces)
        → FailsPlainly result }
    ensures cause { HasCause (P.state p.old).faults (P.state p.new).faults result }
    ensures told { (P.state p.new).told ≡ (P.state p.old).told }
    ensures uses { Uses P.state P.stays (node.page.0 ∷ []) 4 0 p.old p.new }
{
    let mut found = Some(node);
    'heads: for i in 0..n {
        let Some(a) = found else {
            return Ok(None);
        };
        found = head_at(p, a.page, a.at + NEXT, k + i + 1, a.page)?;
    }
    Ok(found)
}

/// The entry of the piece behind that of this head, which itself follows k others, and None behind
/// the last piece. Whoever goes through a LOB piece by piece keeps the head's address and takes the
/// next from there, so that each piece costs one read of 6 bytes. Touches no page but the head's.
pub fn next_head<P: Pages>(p: &mut P, node: Addr, k: u32) -> Result<Option<Addr>, Fault>
    requires node { FitsPage (P.state p.old).count (address_of node) }
    requires position { k + 1 < 2 ^ 32 }
    requires may { MayUse (node.page.0 ∷ []) 0 0 (P.state p.old) }
    ensures value { (pages : Pages) (lob : Lob) → (P.state p.old).told ≡ Some pages
        → IsLob pages lob → Some (address_of node) ≡ nth k (map head_place lob.pieces)
        → IfOk result (λ link. link_of link ≡ nth (k + 1) (map head_place lob.pieces)) }
    ensures place { IfOk result
        (λ link. IfSome link (λ a. FitsPage (P.state p.old).count (address_of a))) }

    // Strange names the address in the head's node, as it stood at the call.
    ensures honest { IfErr result (IsHonest (IsOddHead (P.state p.old).told (P.state p.old).count
        node.page.0 (node.at + NEXT) (k + 1) node.page.0)) }
    ensures never { (pages : Pages) (lob : Lob) → (P.state p.old).told ≡ Some pages
        → IsLob pages lob → Some (address_of node) ≡ nth k (map head_place lob.pieces)
        → FailsPlainly result }
    ensures cause { HasCause (P.state p.old).faults (P.state p.new).faults result }
    ensures told { (P.state p.new).told ≡ (P.state p.old).told }
    ensures uses { Uses P.state P.stays (node.page.0 ∷ []) 0 0 p.old p.new }
{
    head_at(p, node.page, node.at + NEXT, k + 1, node.page)
}

// The head whose address stands there, which follows k heads, of which the last stands in the page
// `near`.
fn head_at<P: Pages>(
    p: &mut P,
    from: PageNo,
    at: u16,
    k: u32,
    near: PageNo,
) -> Result<Option<Addr>, Fault>
    requires page { from.0 < (P.state p.old).count }
    requires within { at + 6 ≤ page_bytes }
    requires may { MayUse (from.0 ∷ []) 0 0 (P.state p.old) }
    ensures value { IfOk result (λ link. IfSome (P.state p.old).told
        (λ pages. or_null (link_of link) ≡ address_at pages from.0 at)) }
    ensures place { IfOk result (IsHeadLink (P.state p.old).count k near.0) }
    ensures honest { IfErr result (IsHonest
        (IsOddHead (P.state p.old).told (P.state p.old).count from.0 at k near.0)) }
    ensures never { IfSome (P.state p.old).told
        (λ pages. IsHeadPlace (P.state p.old).count k near.0 (address_at pages from.0 at)
        → FailsPlainly result) }
    ensures cause { HasCause (P.state p.old).faults (P.state p.new).faults result }
    ensures told { (P.state p.new).told ≡ (P.state p.old).told }
    ensures uses { Uses P.state P.stays (from.0 ∷ []) 0 0 p.old p.new }
{
    let count = p.count();
    let there = read_address(p, from, at)?;
    as_head(count, from, at, there, k, near)
}

// What an address means that was read there.
fn as_head(
    count: u32,
    from: PageNo,
    at: u16,
    there: Addr,
    k: u32,
    near: PageNo,
) -> Result<Option<Addr>, Fault>
    requires { at + 6 ≤ page_bytes }
    ensures value { IfOk result (λ link. or_null (link_of link) ≡ address_of there) }
    ensures place { IfOk result (IsHeadLink count k near.0) }
    ensures odd { IfErr result (NamesEntry count from.0 at k near.0 (address_of there)) }
    ensures never { IsHeadPlace count k near.0 (address_of there) → IsOk result }
{
    if there.page.0 == NULL_PAGE {
        if there.at == 0 {
            return Ok(None);
        }
        return strange(from, at + 4, u64::from(there.at));
    }
    if there.page.0 >= count {
        return strange(from, at, u64::from(there.page.0));
    }
    if there.at > LAST_PLACE {
        return strange(from, at + 4, u64::from(there.at));
    }
    if there.page.0 != near.0 && !may_turn(k) {
        return strange(from, at, u64::from(there.page.0));
    }
    Ok(Some(there))
}

// Whether the list of heads may go on in another page behind k heads.
fn may_turn(k: u32) -> bool
    ensures { Decides result (MayTurn k) }
{
    k == 10 || k == 282 || k == 554 || k == 826
}
