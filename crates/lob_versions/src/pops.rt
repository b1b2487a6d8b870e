// The newest version of a piece taken back.
ghost use Rattle.std.specs.Prelude.{◌≡◌, ◌+◌, ◌*◌, ◌<◌, ◌≤◌, List, [], ◌∷◌, ◌++◌, IfOk, IfErr, OnOk, Some};
ghost use Rattle.page_model.specs.Pages.{Pages};
ghost use Rattle.page_model.specs.Steps.{MayUse, Uses, Becomes, write_head};
ghost use Rattle.engine_base.specs.Faults.{HasCause, FailsPlainly, IsHonest};
ghost use Rattle.engine_base.specs.Addresses.{address_of};
ghost use Rattle.page_space.specs.Map.{IsSize};
ghost use Rattle.store_data.specs.Store.{Version, Piece, Lob};
ghost use Rattle.store_data.specs.Pieces.{popped};
ghost use Rattle.lob_model.specs.Lobs.{IsLob};
ghost use Rattle.lob_model.specs.Changes.{with_pieces, piece};
ghost use Rattle.lob_pages.specs.Entries.{FitsPage};
ghost use Rattle.lob_versions.specs.Versions.{HasPiece, LosesVersion, IsNewest, IsFitNewest, IsOddNewest, IsOddPop};

use crate::links::{FIRST, entry_at};
use crate::release::{End, release};
use engine_base::{Addr, Fault, NULL_PAGE, PageNo, Pages, strange};
use lob_index::data_page;
use lob_model::layout::VERSIONS;
use lob_pages::{Entry, read_entry, write_fields};
use page_space::Space;

/// Takes back the newest version of a piece: the head has the fields of the first older version
/// again, whose node is the first of the free ones, and the page of the data that goes is given
/// back, unless it is the LOB's first page. Answers the node. Where there is no older version the
/// null address of the list is Strange. Touches page 0 and, besides the pages named, at most three:
/// those of the node, of the node behind and of the first free node; writes 81 bytes in eleven
/// writes.
pub fn pop_version<P: Pages>(
    p: &mut P,
    space: &mut Space,
    first: PageNo,
    head: Addr,
) -> Result<Addr, Fault>
    requires first { first.0 < (P.state p.old).count }
    requires head { FitsPage (P.state p.old).count (address_of head) }
    requires size { IsSize (P.state p.old).count }
    requires may { MayUse (head.page.0 ∷ first.0 ∷ 0 ∷ []) 3
        (81 + 11 * write_head) (P.state p.old) }
    ensures pops { (pages : Pages) (l : Lob) (bs : List Piece) (h x : Version)
        (more : List Version) (cs : List Piece)
        → HasPiece (P.state p.old).told first.0 (address_of head) pages l bs
        (piece h (x ∷ more)) cs
        → IfOk result (λ node. address_of node ≡ x.place)
        × OnOk result (Becomes (P.state p.new).told (let p = piece h (x ∷ more) in
        LosesVersion l bs p (popped p) cs x.place h.page pages)) }
    ensures reserved { space.new ≡ space.old }

    // Strange names an address or a page that is read before the first write, as it stood at the
    // call; or, as the call read it then, a length, an address, the count of free pages, or a byte
    // of the map.
    ensures honest { IfErr result
        (IsHonest (IsOddPop first.0 (address_of head) (P.state p.old))) }
    ensures never { (pages : Pages) (l : Lob) (bs : List Piece) (h x : Version)
        (more : List Version) (cs : List Piece)
        → HasPiece (P.state p.old).told first.0 (address_of head) pages l bs
        (piece h (x ∷ more)) cs → FailsPlainly result }
    ensures cause { HasCause (P.state p.old).faults (P.state p.new).faults result }
    ensures uses { Uses P.state P.stays (head.page.0 ∷ first.0 ∷ 0 ∷ []) 3
        (81 + 11 * write_head) p.old p.new }
{
    let newest = read_newest(p, head)?;
    write_fields(p, head, &newest.fields)?;
    release(p, space, first, head, newest.node, newest.page, End::First)?;
    Ok(newest.node)
}

// What a pop moves: the first older version's node and fields, and the page of the head's data.
#[derive(Clone, Copy)]
pub struct Newest {
    pub node: Addr,
    pub page: PageNo,
    pub fields: Entry,
}

fn read_newest<P: Pages>(p: &mut P, head: Addr) -> Result<Newest, Fault>
    requires head { FitsPage (P.state p.old).count (address_of head) }
    requires may { MayUse (head.page.0 ∷ []) 1 0 (P.state p.old) }
    ensures value { (pages : Pages) (l : Lob) (bs : List Piece) (h x : Version)
        (more : List Version) (cs : List Piece) → (P.state p.old).told ≡ Some pages
        → IsLob pages (with_pieces l (bs ++ piece h (x ∷ more) ∷ cs))
        → h.place ≡ address_of head → IfOk result (IsNewest pages h x) }
    ensures place { IfOk result (IsFitNewest (P.state p.old).count) }
    ensures honest { IfErr result
        (IsHonest (IsOddNewest (P.state p.old).told (P.state p.old).count (address_of head))) }
    ensures never { (pages : Pages) (l : Lob) (bs : List Piece) (h x : Version)
        (more : List Version) (cs : List Piece) → (P.state p.old).told ≡ Some pages
        → IsLob pages (with_pieces l (bs ++ piece h (x ∷ more) ∷ cs))
        → h.place ≡ address_of head → FailsPlainly result }
    ensures cause { HasCause (P.state p.old).faults (P.state p.new).faults result }
    ensures told { (P.state p.new).told ≡ (P.state p.old).told }
    ensures named { IfOk result (λ n.
        Uses P.state P.stays (n.node.page.0 ∷ head.page.0 ∷ []) 0 0 p.old p.new) }
    ensures uses { Uses P.state P.stays (head.page.0 ∷ []) 1 0 p.old p.new }
{
    let at = head.at + VERSIONS + FIRST;
    let Some(node) = entry_at(p, head.page, at)? else {
        return strange(head.page, at, u64::from(NULL_PAGE));
    };
    let page = data_page(p, head)?;
    let fields = read_entry(p, node)?;
    Ok(Newest { node, page, fields })
}
