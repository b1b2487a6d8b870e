// A node taken from a LOB's free ones, or from a page that becomes an index page.
ghost use Rattle.std.specs.Prelude.{◌≡◌, ◌+◌, ◌<◌, ◌≤◌, [], ◌∷◌, Some, IfOk, IfErr};
ghost use Rattle.page_model.specs.Pages.{Pages};
ghost use Rattle.page_model.specs.Steps.{MayUse, Uses, Becomes};
ghost use Rattle.engine_base.specs.Faults.{HasCause, FailsPlainly, IsHonest};
ghost use Rattle.engine_base.specs.Addresses.{address_of};
ghost use Rattle.page_space.specs.Map.{IsSize};
ghost use Rattle.page_space.specs.Answers.{IsSpentOrOdd};
ghost use Rattle.store_data.specs.Store.{Lob};
ghost use Rattle.lob_pages.specs.Entries.{FitsPage};
ghost use Rattle.lob_index.specs.Taking.{CanTakeNode, TakesNode, IsOddNode, node_room};

use crate::index_pages::{write_free_base, write_index_page};
use crate::layout::FIRST;
use crate::nodes::take_free;
use engine_base::{Addr, Fault, NULL_PAGE, PageNo, Pages, read_field, strange, write_field};
use lob_model::layout::{CHAIN, FREE, INDEX_ENTRIES};
use page_space::Space;

/// Takes a node that is in no list from then on: the first of a LOB's free ones or, where none is
/// free, the first of a page that is taken from the map and becomes an index page. Where a page is
/// needed and none is reserved it is Strange, and nothing is changed.
/// Besides the pages named it touches two, that of the node and that of the free node behind it,
/// and it writes 16,409 bytes at most, in five writes.
pub fn take_node<P: Pages>(p: &mut P, space: &mut Space, page: PageNo) -> Result<Addr, Fault>
    requires page { page.0 < (P.state p.old).count }
    requires size { IsSize (P.state p.old).count }
    requires may { MayUse (0 ∷ page.0 ∷ []) 2 node_room (P.state p.old) }
    ensures takes { (pages : Pages) (lob : Lob)
        → (P.state p.old).told ≡ Some pages → lob.page ≡ page.0
        → CanTakeNode space.old pages lob
        → IfOk result (λ node. Becomes (P.state p.new).told
        (TakesNode lob (address_of node) space.old space.new pages)) }
    ensures place { IfOk result (λ node. FitsPage (P.state p.old).count (address_of node)) }
    // At most one of the reserved pages is used up.
    ensures reserved { (space.new ≤ space.old) × (space.old ≤ space.new + 1) }

    ensures honest { IfErr result (IsHonest (IsOddNode (P.state p.old) page.0)) }
    ensures never { (pages : Pages) (lob : Lob)
        → (P.state p.old).told ≡ Some pages → lob.page ≡ page.0
        → CanTakeNode space.old pages lob → FailsPlainly result }
    ensures cause { HasCause (P.state p.old).faults (P.state p.new).faults result }
    // The page of the node is one of those touched.
    ensures named { IfOk result (λ node.
        Uses P.state P.stays (node.page.0 ∷ 0 ∷ page.0 ∷ []) 1 node_room p.old p.new) }
    ensures uses { Uses P.state P.stays (0 ∷ page.0 ∷ []) 2 node_room p.old p.new }
{
    if let Some(node) = take_free(p, page)? {
        return Ok(node);
    }
    if space.reserved() == 0 {
        return strange(page, FREE + FIRST, u64::from(NULL_PAGE));
    }
    take_index_page(p, space, page)
}

// Takes a page that becomes an index page in front of the chain, and its first node.
fn take_index_page<P: Pages>(p: &mut P, space: &mut Space, page: PageNo) -> Result<Addr, Fault>
    requires page { page.0 < (P.state p.old).count }
    requires size { IsSize (P.state p.old).count }
    requires one { 1 ≤ space.old }
    requires may { MayUse (0 ∷ page.0 ∷ []) 1 node_room (P.state p.old) }
    ensures takes { (pages : Pages) (lob : Lob)
        → (P.state p.old).told ≡ Some pages → lob.page ≡ page.0
        → CanTakeNode space.old pages lob → lob.free ≡ []
        → IfOk result (λ node. Becomes (P.state p.new).told
        (TakesNode lob (address_of node) space.old space.new pages)) }
    ensures place { IfOk result (λ node. FitsPage (P.state p.old).count (address_of node)) }
    ensures reserved { (space.new ≤ space.old) × (space.old ≤ space.new + 1) }

    ensures honest { IfErr result
        (IsHonest (IsSpentOrOdd (P.state p.old).told (P.state p.old).count)) }
    ensures never { (pages : Pages) (lob : Lob)
        → (P.state p.old).told ≡ Some pages
        → CanTakeNode space.old pages lob → FailsPlainly result }
    ensures cause { HasCause (P.state p.old).faults (P.state p.new).faults result }
    ensures named { IfOk result (λ node.
        Uses P.state P.stays (node.page.0 ∷ 0 ∷ page.0 ∷ []) 0 node_room p.old p.new) }
    ensures uses { Uses P.state P.stays (0 ∷ page.0 ∷ []) 1 node_room p.old p.new }
{
    let behind = read_field(p, page, CHAIN, 4)? as u32;
    let taken = space.take(p)?;
    write_index_page(p, taken, PageNo(behind))?;
    write_field(p, page, CHAIN, 4, u64::from(taken.0))?;
    write_free_base(p, page, taken)?;
    Ok(Addr {
        page: taken,
        at: INDEX_ENTRIES,
    })
}
