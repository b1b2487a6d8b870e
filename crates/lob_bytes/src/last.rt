// The last piece of a LOB, read.
ghost use Rattle.std.specs.Prelude.{◌≡◌, ◌+◌, ◌<◌, ◌≤◌, ℕ, List, [], ◌∷◌, ◌++◌, Some, None, IfOk, IfErr, IfSome};
ghost use Rattle.page_model.specs.Pages.{Pages, Address};
ghost use Rattle.page_model.specs.Lists.{IsList, last_of};
ghost use Rattle.page_model.specs.Steps.{MayUse, Uses};
ghost use Rattle.engine_base.specs.Faults.{HasCause, FailsPlainly, IsHonest};
ghost use Rattle.engine_base.specs.Addresses.{address_of};
ghost use Rattle.file_lists.specs.Links.{link_of};
ghost use Rattle.store_data.specs.Store.{Version, Piece, Lob};
ghost use Rattle.lob_model.specs.Places.{heads_base};
ghost use Rattle.lob_model.specs.Changes.{with_pieces};
ghost use Rattle.lob_model.specs.Lobs.{IsLob};
ghost use Rattle.lob_pages.specs.Entries.{FitsPage};
ghost use Rattle.lob_bytes.specs.Freeing.{ended, IsLast, IsFitLast, IsLastNode, IsOddLast, IsOddRead};

use crate::layout::{LAST_AT, LAST_PLACE};
use engine_base::{Addr, Fault, PageNo, Pages, strange};
use file_lists::{last, len};
use lob_index::data_page;
use lob_model::layout::HEADS;

// Its node, the page of its data, and whether there are pieces before it.
#[derive(Clone, Copy)]
pub struct Last {
    pub node: Addr,
    pub page: PageNo,
    pub left: bool,
}

pub fn read_last<P: Pages>(p: &mut P, page: PageNo) -> Result<Option<Last>, Fault>
    requires page { page.0 < (P.state p.old).count }
    requires may { MayUse (page.0 ∷ []) 1 0 (P.state p.old) }
    ensures value { (pages : Pages) (lob : Lob) (ps : List Piece) (x : Version)
        → (P.state p.old).told ≡ Some pages → lob.page ≡ page.0 → IsLob pages (ended lob ps x)
        → IfOk result (IsLast ps x) }
    ensures none { (pages : Pages) (lob : Lob) → (P.state p.old).told ≡ Some pages
        → lob.page ≡ page.0 → IsLob pages (with_pieces lob [])
        → IfOk result (λ found. found ≡ None) }
    ensures place { IfOk result (IsFitLast (P.state p.old).count) }
    ensures reads { IfOk result (λ found. IfSome found
        (λ l. IsLastNode (P.state p.old).told page.0 (address_of l.node))) }
    ensures honest { IfErr result
        (IsHonest (IsOddRead (P.state p.old).told (P.state p.old).count page.0)) }
    ensures never { (pages : Pages) (lob : Lob) (ps : List Piece) (x : Version)
        → (P.state p.old).told ≡ Some pages → lob.page ≡ page.0 → IsLob pages (ended lob ps x)
        → FailsPlainly result }
    ensures plain { (pages : Pages) (lob : Lob) → (P.state p.old).told ≡ Some pages
        → lob.page ≡ page.0 → IsLob pages (with_pieces lob []) → FailsPlainly result }
    ensures cause { HasCause (P.state p.old).faults (P.state p.new).faults result }
    ensures told { (P.state p.new).told ≡ (P.state p.old).told }
    ensures named { IfOk result (λ found. IfSome found
        (λ l. Uses P.state P.stays (l.node.page.0 ∷ page.0 ∷ []) 0 0 p.old p.new)) }
    ensures uses { Uses P.state P.stays (page.0 ∷ []) 1 0 p.old p.new }
{
    let Some(node) = last_node(p, page)? else {
        return Ok(None);
    };
    let pieces = len(p, Addr { page, at: HEADS })?;
    let data = data_page(p, node)?;
    Ok(Some(Last {
        node,
        page: data,
        left: pieces > 1,
    }))
}

// The node of the last piece, or none where there is no piece.
fn last_node<P: Pages>(p: &mut P, page: PageNo) -> Result<Option<Addr>, Fault>
    requires page { page.0 < (P.state p.old).count }
    requires may { MayUse (page.0 ∷ []) 0 0 (P.state p.old) }
    ensures value { (pages : Pages) (nodes : List Address) → (P.state p.old).told ≡ Some pages
        → IsList pages (heads_base page.0) nodes
        → IfOk result (λ link. link_of link ≡ last_of nodes) }
    ensures place { IfOk result
        (λ link. IfSome link (λ a. FitsPage (P.state p.old).count (address_of a))) }
    ensures reads { IfOk result (λ link. IfSome link
        (λ a. IsLastNode (P.state p.old).told page.0 (address_of a))) }
    ensures honest { IfErr result
        (IsHonest (IsOddLast (P.state p.old).told (P.state p.old).count page.0)) }
    ensures never { (pages : Pages) (nodes : List Address) → (P.state p.old).told ≡ Some pages
        → IsList pages (heads_base page.0) nodes
        → IfSome (last_of nodes) (FitsPage (P.state p.old).count) → FailsPlainly result }
    ensures cause { HasCause (P.state p.old).faults (P.state p.new).faults result }
    ensures told { (P.state p.new).told ≡ (P.state p.old).told }
    ensures uses { Uses P.state P.stays (page.0 ∷ []) 0 0 p.old p.new }
{
    let Some(node) = last(p, Addr { page, at: HEADS })? else {
        return Ok(None);
    };
    if node.at > LAST_PLACE {
        return strange(page, HEADS + LAST_AT, u64::from(node.at));
    }
    Ok(Some(node))
}
