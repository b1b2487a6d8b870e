// Nodes put into a list at either end, and taken out of it anywhere. Each call reads what it needs
// and judges it before its first write.
ghost use Rattle.std.specs.Prelude.{◌≡◌, ◌+◌, ◌*◌, ◌<◌, ◌^◌, ℕ, List, [], ◌∷◌, ◌++◌, length, Some, IfErr, OnOk};
ghost use Rattle.page_model.specs.Pages.{Pages, Address};
ghost use Rattle.page_model.specs.Lists.{IsBasePlace, IsNodePlace, IsList, IfListed};
ghost use Rattle.page_model.specs.Steps.{MayReach, Reaches, Becomes, write_head};
ghost use Rattle.engine_base.specs.Faults.{HasCause, FailsPlainly, IsHonest};
ghost use Rattle.engine_base.specs.Addresses.{address_of};
ghost use Rattle.file_lists.specs.Changes.{IsElsewhere, ChangesList};
ghost use Rattle.file_lists.specs.Near.{near_front, near_back, near_node, near_behind, near_before};
ghost use Rattle.file_lists.specs.Strange.{IsOddAtFront, IsOddAtBack, IsOddAround, IsOddBehind, IsOddBefore};

use crate::layout::{FIRST, LAST, MAX_LENGTH, NEXT};
use crate::links::{point_back, point_on, read_link, write_link};
use engine_base::{Addr, Fault, Pages, read_field, strange, write_field};

/// Puts a node that is in no list in front of this one. Besides the pages named it touches that of
/// the node which was the first, and it writes 28 bytes in five writes. A list of 4,294,967,295
/// nodes takes no other.
pub fn add_first<P: Pages>(p: &mut P, base: Addr, node: Addr) -> Result<(), Fault>
    requires base { IsBasePlace (P.state p.old).count (address_of base) }
    requires node { IsNodePlace (P.state p.old).count (address_of node) }
    requires may { MayReach (near_front (P.state p.old) (address_of base))
        (node.page.0 ∷ base.page.0 ∷ []) 1 (28 + 5 * write_head) (P.state p.old) }
    ensures adds { IfListed (P.state p.old).told (address_of base) (λ pages nodes.
        IsElsewhere (address_of base) nodes (address_of node) → length nodes + 1 < 2 ^ 32
        → OnOk result (Becomes (P.state p.new).told (λ new. let all = address_of node ∷ nodes in
        ChangesList (address_of base) all all pages new))) }

    // Strange names the length, or the address of the first node, as either stood at the call.
    ensures honest { IfErr result (IsHonest (IsOddAtFront (P.state p.old) (address_of base))) }
    ensures never { IfListed (P.state p.old).told (address_of base) (λ pages nodes.
        length nodes + 1 < 2 ^ 32 → FailsPlainly result) }
    ensures cause { HasCause (P.state p.old).faults (P.state p.new).faults result }

    ensures uses { Reaches P.state P.stays (near_front (P.state p.old) (address_of base))
        (node.page.0 ∷ base.page.0 ∷ []) 1 (28 + 5 * write_head) p.old p.new }
{
    let len = read_field(p, base.page, base.at, 4)?;
    if len == MAX_LENGTH {
        return strange(base.page, base.at, len);
    }
    let old = read_link(p, base.page, base.at + FIRST)?;
    point_back(p, base, old, Some(node))?;
    write_link(p, node.page, node.at, None)?;
    write_link(p, node.page, node.at + NEXT, old)?;
    write_link(p, base.page, base.at + FIRST, Some(node))?;
    write_field(p, base.page, base.at, 4, len + 1)?;
    Ok(())
}

/// Puts a node that is in no list behind this one. Besides the pages named it touches that of the
/// node which was the last, and it writes 28 bytes in five writes. A list of 4,294,967,295 nodes
/// takes no other.
pub fn add_last<P: Pages>(p: &mut P, base: Addr, node: Addr) -> Result<(), Fault>
    requires base { IsBasePlace (P.state p.old).count (address_of base) }
    requires node { IsNodePlace (P.state p.old).count (address_of node) }
    requires may { MayReach (near_back (P.state p.old) (address_of base))
        (node.page.0 ∷ base.page.0 ∷ []) 1 (28 + 5 * write_head) (P.state p.old) }
    ensures adds { IfListed (P.state p.old).told (address_of base) (λ pages nodes.
        IsElsewhere (address_of base) nodes (address_of node) → length nodes + 1 < 2 ^ 32
        → OnOk result (Becomes (P.state p.new).told
        (λ new. let all = nodes ++ address_of node ∷ [] in
        ChangesList (address_of base) all all pages new))) }

    // Strange names the length, or the address of the last node, as either stood at the call.
    ensures honest { IfErr result (IsHonest (IsOddAtBack (P.state p.old) (address_of base))) }
    ensures never { IfListed (P.state p.old).told (address_of base) (λ pages nodes.
        length nodes + 1 < 2 ^ 32 → FailsPlainly result) }
    ensures cause { HasCause (P.state p.old).faults (P.state p.new).faults result }

    ensures uses { Reaches P.state P.stays (near_back (P.state p.old) (address_of base))
        (node.page.0 ∷ base.page.0 ∷ []) 1 (28 + 5 * write_head) p.old p.new }
{
    let len = read_field(p, base.page, base.at, 4)?;
    if len == MAX_LENGTH {
        return strange(base.page, base.at, len);
    }
    let old = read_link(p, base.page, base.at + LAST)?;
    point_on(p, base, old, Some(node))?;
    write_link(p, node.page, node.at, old)?;
    write_link(p, node.page, node.at + NEXT, None)?;
    write_link(p, base.page, base.at + LAST, Some(node))?;
    write_field(p, base.page, base.at, 4, len + 1)?;
    Ok(())
}

/// Takes the node out of the list that it is in. Its own bytes stay. Besides the pages named it
/// touches those of its two neighbours, and it writes 16 bytes in three writes.
pub fn remove<P: Pages>(p: &mut P, base: Addr, node: Addr) -> Result<(), Fault>
    requires base { IsBasePlace (P.state p.old).count (address_of base) }
    requires node { IsNodePlace (P.state p.old).count (address_of node) }
    requires may { MayReach (near_node (P.state p.old) (address_of node))
        (node.page.0 ∷ base.page.0 ∷ []) 2 (16 + 3 * write_head) (P.state p.old) }
    ensures removes { (pages : Pages) (before behind : List Address)
        → (P.state p.old).told ≡ Some pages
        → IsList pages (address_of base) (before ++ address_of node ∷ behind)
        → OnOk result (Becomes (P.state p.new).told (λ new.
        ChangesList (address_of base) (before ++ address_of node ∷ behind) (before ++ behind) pages
        new)) }

    // Strange names the length, or an address in the node, as each stood at the call.
    ensures honest { IfErr result (IsHonest
        (IsOddAround (P.state p.old) (address_of base) (address_of node))) }
    ensures never { (pages : Pages) (before behind : List Address)
        → (P.state p.old).told ≡ Some pages
        → IsList pages (address_of base) (before ++ address_of node ∷ behind)
        → FailsPlainly result }
    ensures cause { HasCause (P.state p.old).faults (P.state p.new).faults result }

    ensures uses { Reaches P.state P.stays (near_node (P.state p.old) (address_of node))
        (node.page.0 ∷ base.page.0 ∷ []) 2 (16 + 3 * write_head) p.old p.new }
{
    let len = read_field(p, base.page, base.at, 4)?;
    if len == 0 {
        return strange(base.page, base.at, len);
    }
    let before = read_link(p, node.page, node.at)?;
    let behind = read_link(p, node.page, node.at + NEXT)?;
    point_on(p, base, before, behind)?;
    point_back(p, base, behind, before)?;
    write_field(p, base.page, base.at, 4, len - 1)?;
    Ok(())
}

/// Takes out the node that is the first of the list. Its own bytes stay. Besides the pages named it
/// touches that of the node behind, and it writes 16 bytes in three writes.
pub fn remove_first<P: Pages>(p: &mut P, base: Addr, node: Addr) -> Result<(), Fault>
    requires base { IsBasePlace (P.state p.old).count (address_of base) }
    requires node { IsNodePlace (P.state p.old).count (address_of node) }
    requires may { MayReach (near_behind (P.state p.old) (address_of node))
        (node.page.0 ∷ base.page.0 ∷ []) 1 (16 + 3 * write_head) (P.state p.old) }
    ensures removes { (pages : Pages) (behind : List Address)
        → (P.state p.old).told ≡ Some pages
        → IsList pages (address_of base) (address_of node ∷ behind)
        → OnOk result (Becomes (P.state p.new).told
        (ChangesList (address_of base) (address_of node ∷ behind) behind pages)) }

    // Strange names the length, or the address behind the node, as either stood at the call.
    ensures honest { IfErr result (IsHonest
        (IsOddBehind (P.state p.old) (address_of base) (address_of node))) }
    ensures never { (pages : Pages) (behind : List Address)
        → (P.state p.old).told ≡ Some pages
        → IsList pages (address_of base) (address_of node ∷ behind)
        → FailsPlainly result }
    ensures cause { HasCause (P.state p.old).faults (P.state p.new).faults result }

    ensures uses { Reaches P.state P.stays (near_behind (P.state p.old) (address_of node))
        (node.page.0 ∷ base.page.0 ∷ []) 1 (16 + 3 * write_head) p.old p.new }
{
    let len = read_field(p, base.page, base.at, 4)?;
    if len == 0 {
        return strange(base.page, base.at, len);
    }
    let behind = read_link(p, node.page, node.at + NEXT)?;
    point_on(p, base, None, behind)?;
    point_back(p, base, behind, None)?;
    write_field(p, base.page, base.at, 4, len - 1)?;
    Ok(())
}

/// Takes out the node that is the last of the list. Its own bytes stay. Besides the pages named it
/// touches that of the node before, and it writes 16 bytes in three writes.
pub fn remove_last<P: Pages>(p: &mut P, base: Addr, node: Addr) -> Result<(), Fault>
    requires base { IsBasePlace (P.state p.old).count (address_of base) }
    requires node { IsNodePlace (P.state p.old).count (address_of node) }
    requires may { MayReach (near_before (P.state p.old) (address_of node))
        (node.page.0 ∷ base.page.0 ∷ []) 1 (16 + 3 * write_head) (P.state p.old) }
    ensures removes { (pages : Pages) (before : List Address)
        → (P.state p.old).told ≡ Some pages
        → IsList pages (address_of base) (before ++ address_of node ∷ [])
        → OnOk result (Becomes (P.state p.new).told
        (ChangesList (address_of base) (before ++ address_of node ∷ []) before pages)) }

    // Strange names the length, or the address before the node, as either stood at the call.
    ensures honest { IfErr result (IsHonest
        (IsOddBefore (P.state p.old) (address_of base) (address_of node))) }
    ensures never { (pages : Pages) (before : List Address)
        → (P.state p.old).told ≡ Some pages
        → IsList pages (address_of base) (before ++ address_of node ∷ [])
        → FailsPlainly result }
    ensures cause { HasCause (P.state p.old).faults (P.state p.new).faults result }

    ensures uses { Reaches P.state P.stays (near_before (P.state p.old) (address_of node))
        (node.page.0 ∷ base.page.0 ∷ []) 1 (16 + 3 * write_head) p.old p.new }
{
    let len = read_field(p, base.page, base.at, 4)?;
    if len == 0 {
        return strange(base.page, base.at, len);
    }
    let before = read_link(p, node.page, node.at)?;
    point_on(p, base, before, None)?;
    point_back(p, base, None, before)?;
    write_field(p, base.page, base.at, 4, len - 1)?;
    Ok(())
}
