// Nodes taken from a LOB's free ones, and given back.
ghost use Rattle.std.specs.Prelude.{◌≡◌, ◌+◌, ◌*◌, ◌<◌, ◌≤◌, List, [], ◌∷◌, Some, None, IfOk, IfErr, IfSome, IfNone, OnOk};
ghost use Rattle.page_model.specs.Pages.{Pages, Address, address_at, null_address};
ghost use Rattle.page_model.specs.Steps.{MayUse, Uses, Becomes, write_head};
ghost use Rattle.engine_base.specs.Faults.{HasCause, FailsPlainly, IsHonest};
ghost use Rattle.engine_base.specs.Addresses.{address_of};
ghost use Rattle.file_lists.specs.Links.{link_of};
ghost use Rattle.file_lists.specs.Strange.{IsOddAtFront};
ghost use Rattle.page_space.specs.Map.{IsSize};
ghost use Rattle.store_data.specs.Store.{Lob};
ghost use Rattle.lob_model.specs.Lobs.{IfLob, IsLobBut};
ghost use Rattle.lob_model.specs.Places.{free_base};
ghost use Rattle.lob_model.specs.declared.layout.TheConstants.{FREE};
ghost use Rattle.lob_index.specs.declared.layout.TheConstants.{FIRST};
ghost use Rattle.lob_pages.specs.Entries.{FitsPage};
ghost use Rattle.lob_index.specs.Nodes.{LoosesNode, GivesNode, IsOddFree};

use crate::layout::{FIRST_AT, LAST_PLACE};
use engine_base::{Addr, Fault, PageNo, Pages, strange};
use file_lists::{add_first, first, remove_first};
use lob_model::layout::FREE;

/// Takes the first of a LOB's free nodes, or none where it has none. Besides the page named it
/// touches two, that of the node and that of the node behind, and it writes 16 bytes in three
/// writes. Where it has none the base alone is read.
pub fn take_free<P: Pages>(p: &mut P, page: PageNo) -> Result<Option<Addr>, Fault>
    requires page { page.0 < (P.state p.old).count }
    requires may { MayUse (page.0 ∷ []) 2 (16 + 3 * write_head) (P.state p.old) }
    ensures takes { (node : Address) (rest : List Address)
        → IfLob (P.state p.old).told page.0 (λ pages lob. lob.free ≡ node ∷ rest
        → IfOk result (λ link. link_of link ≡ Some node)
        × OnOk result (Becomes (P.state p.new).told (LoosesNode lob node rest pages))) }
    ensures none { IfLob (P.state p.old).told page.0 (λ pages lob. lob.free ≡ []
        → IfOk result (λ link. link ≡ None)
        × ((P.state p.new).told ≡ (P.state p.old).told)) }
    ensures empty { IfOk result (λ link. IfNone link (IfSome (P.state p.old).told
        (λ pages. address_at pages page.0 (FREE + FIRST) ≡ null_address))) }
    ensures looked { IfOk result (λ link. IfNone link
        (((P.state p.new).told ≡ (P.state p.old).told)
        × Uses P.state P.stays (page.0 ∷ []) 0 0 p.old p.new)) }
    ensures place { IfOk result
        (λ link. IfSome link (λ a. FitsPage (P.state p.old).count (address_of a))) }

    // Strange names the address of the first node, the length of the list, or the address behind a
    // node, as each stood at the call.
    ensures honest { IfErr result (IsHonest (IsOddFree (P.state p.old) page.0)) }
    ensures never { IfLob (P.state p.old).told page.0 (λ pages lob. FailsPlainly result) }
    ensures cause { HasCause (P.state p.old).faults (P.state p.new).faults result }
    ensures named { IfOk result (λ link. IfSome link (λ a.
        Uses P.state P.stays (a.page.0 ∷ page.0 ∷ []) 1 (16 + 3 * write_head) p.old p.new)) }
    ensures uses { Uses P.state P.stays (page.0 ∷ []) 2 (16 + 3 * write_head) p.old p.new }
{
    let base = Addr { page, at: FREE };
    let Some(node) = first(p, base)? else {
        return Ok(None);
    };
    if node.at > LAST_PLACE {
        return strange(page, FREE + FIRST_AT, u64::from(node.at));
    }
    remove_first(p, base, node)?;
    Ok(Some(node))
}

/// Gives back a node that is in no list: it is the first of the free ones from then on. Besides the
/// pages named it touches that of the node which was the first, and it writes 28 bytes in five
/// writes.
pub fn give_node<P: Pages>(p: &mut P, page: PageNo, node: Addr) -> Result<(), Fault>
    requires page { page.0 < (P.state p.old).count }
    requires node { FitsPage (P.state p.old).count (address_of node) }
    requires may { MayUse (node.page.0 ∷ page.0 ∷ []) 1 (28 + 5 * write_head) (P.state p.old) }
    ensures gives { (pages : Pages) (lob : Lob)
        → (P.state p.old).told ≡ Some pages → lob.page ≡ page.0
        → IsSize (P.state p.old).count → IsLobBut pages lob (address_of node ∷ [])
        → OnOk result (Becomes (P.state p.new).told (GivesNode lob (address_of node) pages)) }

    // Strange names the length of the list of free nodes, or the address of the first, as either
    // stood at the call.
    ensures honest { IfErr result
        (IsHonest (IsOddAtFront (P.state p.old) (free_base page.0))) }
    ensures never { (pages : Pages) (lob : Lob)
        → (P.state p.old).told ≡ Some pages → lob.page ≡ page.0
        → IsSize (P.state p.old).count → IsLobBut pages lob (address_of node ∷ [])
        → FailsPlainly result }
    ensures cause { HasCause (P.state p.old).faults (P.state p.new).faults result }
    ensures uses { Uses P.state P.stays (node.page.0 ∷ page.0 ∷ []) 1
        (28 + 5 * write_head) p.old p.new }
{
    let base = Addr { page, at: FREE };
    add_first(p, base, node)?;
    Ok(())
}
