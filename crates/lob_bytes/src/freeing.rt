// The last piece of a LOB given up.
ghost use Rattle.std.specs.Prelude.{◌≡◌, ◌+◌, ◌*◌, ◌<◌, ◌≤◌, ℕ, List, [], ◌∷◌, ◌++◌, false, Some, IfOk, IfErr, OnOk};
ghost use Rattle.page_model.specs.Pages.{Pages};
ghost use Rattle.page_model.specs.Steps.{MayUse, Uses, Becomes, write_head};
ghost use Rattle.engine_base.specs.Faults.{HasCause, FailsPlainly, IsHonest};
ghost use Rattle.engine_base.specs.Addresses.{address_of};
ghost use Rattle.file_lists.specs.Strange.{IsOddAtFront};
ghost use Rattle.page_space.specs.Map.{IsSize};
ghost use Rattle.store_data.specs.Store.{Version, Piece, Lob};
ghost use Rattle.lob_model.specs.Places.{free_base};
ghost use Rattle.lob_model.specs.Changes.{with_pieces};
ghost use Rattle.lob_model.specs.Lobs.{IsLob, IsLobBut};
ghost use Rattle.lob_pages.specs.Entries.{FitsPage};
ghost use Rattle.lob_bytes.specs.Freeing.{CanFree, FreesPiece, has_pieces, GivesEntry, IsOddFreeing, free_room};

use crate::last::read_last;
use engine_base::{Addr, Fault, PageNo, Pages};
use file_lists::{make_base, remove_last};
use lob_index::{give_data, give_node};
use lob_model::layout::{FREE, HEADS};
use page_space::Space;

/// Gives up the last piece of a LOB, which has no older versions, and tells whether another is
/// left: the page of its data is given back, unless it is the LOB's first page, and its node is the
/// first of the free ones. Behind the last one no node is free any more. Where there is no piece it
/// changes nothing and answers false. Besides the pages named it touches three, those of the node,
/// of the node before and of the first free node, and it writes 49 bytes at most in ten writes.
pub fn free_last_piece<P: Pages>(p: &mut P, space: &mut Space, page: PageNo) -> Result<bool, Fault>
    requires page { page.0 < (P.state p.old).count }
    requires size { IsSize (P.state p.old).count }
    requires may { MayUse (0 ∷ page.0 ∷ []) 3 free_room (P.state p.old) }
    ensures frees { (pages : Pages) (lob : Lob) (ps : List Piece) (x : Version)
        → (P.state p.old).told ≡ Some pages → lob.page ≡ page.0 → CanFree lob ps x pages
        → IfOk result (λ left. left ≡ has_pieces ps)
        × OnOk result (Becomes (P.state p.new).told (FreesPiece lob ps x pages)) }
    ensures none { (pages : Pages) (lob : Lob)
        → (P.state p.old).told ≡ Some pages → lob.page ≡ page.0
        → IsLob pages (with_pieces lob [])
        → IfOk result (λ left. left ≡ false)
        × ((P.state p.new).told ≡ (P.state p.old).told) }
    ensures reserved { space.new ≡ space.old }

    // Strange names what is read before the first write, or the length of the list of heads or the
    // address before the node, as each stood at the call; or, as the call read it then, the length
    // of the list of free nodes, the first of them, the count of free pages, or a byte of the map.
    ensures honest { IfErr result (IsHonest (IsOddFreeing (P.state p.old) page.0)) }
    ensures never { (pages : Pages) (lob : Lob) (ps : List Piece) (x : Version)
        → (P.state p.old).told ≡ Some pages → lob.page ≡ page.0 → CanFree lob ps x pages
        → FailsPlainly result }
    ensures plain { (pages : Pages) (lob : Lob)
        → (P.state p.old).told ≡ Some pages → lob.page ≡ page.0
        → IsLob pages (with_pieces lob []) → FailsPlainly result }
    ensures cause { HasCause (P.state p.old).faults (P.state p.new).faults result }
    ensures uses { Uses P.state P.stays (0 ∷ page.0 ∷ []) 3 free_room p.old p.new }
{
    let Some(last) = read_last(p, page)? else {
        return Ok(false);
    };
    remove_last(p, Addr { page, at: HEADS }, last.node)?;
    give_entry(p, page, last.node, last.left)?;
    give_data(p, space, page, last.page)?;
    Ok(last.left)
}

// Gives up the node of a piece that went: it is the first of the free ones or, where no piece is
// left, no node is free.
fn give_entry<P: Pages>(p: &mut P, page: PageNo, node: Addr, left: bool) -> Result<(), Fault>
    requires page { page.0 < (P.state p.old).count }
    requires node { FitsPage (P.state p.old).count (address_of node) }
    requires may { MayUse (node.page.0 ∷ page.0 ∷ []) 1 (28 + 5 * write_head) (P.state p.old) }
    ensures gives { (pages : Pages) (lob : Lob)
        → (P.state p.old).told ≡ Some pages → lob.page ≡ page.0
        → IsSize (P.state p.old).count → IsLobBut pages lob (address_of node ∷ [])
        → left ≡ has_pieces lob.pieces
        → OnOk result (Becomes (P.state p.new).told (GivesEntry lob (address_of node) pages)) }
    ensures honest { IfErr result (IsHonest (IsOddAtFront (P.state p.old) (free_base page.0))) }
    ensures never { (pages : Pages) (lob : Lob)
        → (P.state p.old).told ≡ Some pages → lob.page ≡ page.0
        → IsSize (P.state p.old).count → IsLobBut pages lob (address_of node ∷ [])
        → FailsPlainly result }
    ensures cause { HasCause (P.state p.old).faults (P.state p.new).faults result }
    ensures uses { Uses P.state P.stays (node.page.0 ∷ page.0 ∷ []) 1
        (28 + 5 * write_head) p.old p.new }
{
    if left {
        give_node(p, page, node)
    } else {
        make_base(p, Addr { page, at: FREE })
    }
}
