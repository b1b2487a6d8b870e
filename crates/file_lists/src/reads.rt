// What a list has at its ends, behind a node, and in all. A call reads one field of one page, and
// tells what it read there (`reads`) whether or not a list stands, so that a caller may judge the
// address further.
ghost use Rattle.std.specs.Prelude.{◌≡◌, ◌+◌, List, [], ◌∷◌, ◌++◌, length, Some, IfOk, IfErr, IfSome};
ghost use Rattle.page_model.specs.Pages.{Pages, Address, address_at};
ghost use Rattle.page_model.specs.Lists.{IsBasePlace, IsNodePlace, IsList, IfListed, first_of, last_of, or_null};
ghost use Rattle.page_model.specs.Steps.{MayUse, Uses};
ghost use Rattle.engine_base.specs.Faults.{HasCause, FailsPlainly, IsHonest};
ghost use Rattle.engine_base.specs.Addresses.{address_of};
ghost use Rattle.file_lists.specs.declared.layout.TheConstants.{FIRST, LAST, NEXT};
ghost use Rattle.file_lists.specs.Links.{link_of};
ghost use Rattle.file_lists.specs.Strange.{IsOddLink};

use crate::layout::{FIRST, LAST, NEXT};
use crate::links::read_link;
use engine_base::{Addr, Fault, Pages, read_field};

/// The first node of the list.
pub fn first<P: Pages>(p: &mut P, base: Addr) -> Result<Option<Addr>, Fault>
    requires base { IsBasePlace (P.state p.old).count (address_of base) }
    requires may { MayUse (base.page.0 ∷ []) 0 0 (P.state p.old) }
    ensures value { IfListed (P.state p.old).told (address_of base)
        (λ pages nodes. IfOk result (λ link. link_of link ≡ first_of nodes)) }
    ensures reads { IfOk result (λ link. IfSome (P.state p.old).told
        (λ pages. or_null (link_of link) ≡ address_at pages base.page.0 (base.at + FIRST))) }
    ensures place { IfOk result (λ link.
        IfSome link (λ a. IsNodePlace (P.state p.old).count (address_of a))) }

    // Strange names the address that stands there.
    ensures honest { IfErr result
        (IsHonest (IsOddLink (P.state p.old).told (P.state p.old).count base.page.0
        (base.at + FIRST))) }
    ensures never { IfListed (P.state p.old).told (address_of base)
        (λ pages nodes. FailsPlainly result) }
    ensures cause { HasCause (P.state p.old).faults (P.state p.new).faults result }

    ensures told { (P.state p.new).told ≡ (P.state p.old).told }
    ensures uses { Uses P.state P.stays (base.page.0 ∷ []) 0 0 p.old p.new }
{
    read_link(p, base.page, base.at + FIRST)
}

/// The last node of the list.
pub fn last<P: Pages>(p: &mut P, base: Addr) -> Result<Option<Addr>, Fault>
    requires base { IsBasePlace (P.state p.old).count (address_of base) }
    requires may { MayUse (base.page.0 ∷ []) 0 0 (P.state p.old) }
    ensures value { IfListed (P.state p.old).told (address_of base)
        (λ pages nodes. IfOk result (λ link. link_of link ≡ last_of nodes)) }
    ensures reads { IfOk result (λ link. IfSome (P.state p.old).told
        (λ pages. or_null (link_of link) ≡ address_at pages base.page.0 (base.at + LAST))) }
    ensures place { IfOk result (λ link.
        IfSome link (λ a. IsNodePlace (P.state p.old).count (address_of a))) }

    // Strange names the address that stands there.
    ensures honest { IfErr result
        (IsHonest (IsOddLink (P.state p.old).told (P.state p.old).count base.page.0
        (base.at + LAST))) }
    ensures never { IfListed (P.state p.old).told (address_of base)
        (λ pages nodes. FailsPlainly result) }
    ensures cause { HasCause (P.state p.old).faults (P.state p.new).faults result }

    ensures told { (P.state p.new).told ≡ (P.state p.old).told }
    ensures uses { Uses P.state P.stays (base.page.0 ∷ []) 0 0 p.old p.new }
{
    read_link(p, base.page, base.at + LAST)
}

/// The node behind this one.
pub fn next<P: Pages>(p: &mut P, node: Addr) -> Result<Option<Addr>, Fault>
    requires node { IsNodePlace (P.state p.old).count (address_of node) }
    requires may { MayUse (node.page.0 ∷ []) 0 0 (P.state p.old) }
    ensures value { (pages : Pages) (base : Address) (before behind : List Address)
        → (P.state p.old).told ≡ Some pages
        → IsList pages base (before ++ address_of node ∷ behind)
        → IfOk result (λ link. link_of link ≡ first_of behind) }
    ensures reads { IfOk result (λ link. IfSome (P.state p.old).told
        (λ pages. or_null (link_of link) ≡ address_at pages node.page.0 (node.at + NEXT))) }
    ensures place { IfOk result (λ link.
        IfSome link (λ a. IsNodePlace (P.state p.old).count (address_of a))) }

    // Strange names the address that stands there.
    ensures honest { IfErr result
        (IsHonest (IsOddLink (P.state p.old).told (P.state p.old).count node.page.0
        (node.at + NEXT))) }
    ensures never { (pages : Pages) (base : Address) (before behind : List Address)
        → (P.state p.old).told ≡ Some pages
        → IsList pages base (before ++ address_of node ∷ behind) → FailsPlainly result }
    ensures cause { HasCause (P.state p.old).faults (P.state p.new).faults result }

    ensures told { (P.state p.new).told ≡ (P.state p.old).told }
    ensures uses { Uses P.state P.stays (node.page.0 ∷ []) 0 0 p.old p.new }
{
    read_link(p, node.page, node.at + NEXT)
}

/// How many nodes the list has.
pub fn len<P: Pages>(p: &mut P, base: Addr) -> Result<u32, Fault>
    requires base { IsBasePlace (P.state p.old).count (address_of base) }
    requires may { MayUse (base.page.0 ∷ []) 0 0 (P.state p.old) }
    ensures value { IfListed (P.state p.old).told (address_of base)
        (λ pages nodes. IfOk result (λ n. n ≡ length nodes)) }
    ensures plain { FailsPlainly result }
    ensures cause { HasCause (P.state p.old).faults (P.state p.new).faults result }

    ensures told { (P.state p.new).told ≡ (P.state p.old).told }
    ensures uses { Uses P.state P.stays (base.page.0 ∷ []) 0 0 p.old p.new }
{
    let len = read_field(p, base.page, base.at, 4)?;
    Ok(len as u32)
}
