// The oldest version of a piece given up.
ghost use Rattle.std.specs.Prelude.{◌≡◌, ◌+◌, ◌*◌, ◌<◌, ◌≤◌, List, [], ◌∷◌, ◌++◌, IfOk, IfErr, IfSome, OnOk, Some, None, true, false};
ghost use Rattle.page_model.specs.Pages.{Pages};
ghost use Rattle.page_model.specs.Steps.{MayUse, Uses, Becomes, write_head};
ghost use Rattle.engine_base.specs.Faults.{HasCause, FailsPlainly, IsHonest};
ghost use Rattle.engine_base.specs.Addresses.{address_of};
ghost use Rattle.page_space.specs.Map.{IsSize};
ghost use Rattle.store_data.specs.Store.{Version, Piece, Lob};
ghost use Rattle.store_data.specs.Pieces.{dropped};
ghost use Rattle.lob_model.specs.Lobs.{IsLob};
ghost use Rattle.lob_model.specs.Changes.{with_pieces, piece};
ghost use Rattle.lob_pages.specs.Entries.{FitsPage};
ghost use Rattle.lob_versions.specs.Versions.{HasPiece, LosesVersion, IsOldest, IsFitOldest, IsOddOldest, IsOddDrop};

use crate::links::{LAST, entry_at};
use crate::release::{End, release};
use engine_base::{Addr, Fault, PageNo, Pages, read_field};
use lob_index::data_page;
use lob_model::layout::{VERSION, VERSIONS};
use lob_pages::LobVersion;
use page_space::Space;

/// Gives up the oldest version of a piece where it isn't the head and its number is at most v, and
/// answers whether it did. Its node is the first of the free ones then, and the page of its data is
/// given back, unless it is the LOB's first page. Touches page 0 and, besides the pages named, at
/// most three: those of the node, of the node before and of the first free node; writes 49 bytes in
/// ten writes.
pub fn drop_oldest<P: Pages>(
    p: &mut P,
    space: &mut Space,
    first: PageNo,
    head: Addr,
    v: LobVersion,
) -> Result<bool, Fault>
    requires first { first.0 < (P.state p.old).count }
    requires head { FitsPage (P.state p.old).count (address_of head) }
    requires size { IsSize (P.state p.old).count }
    requires may { MayUse (head.page.0 ∷ first.0 ∷ 0 ∷ []) 3
        (49 + 10 * write_head) (P.state p.old) }
    ensures drops { (pages : Pages) (l : Lob) (bs : List Piece) (h : Version)
        (ys : List Version) (x : Version) (cs : List Piece)
        → HasPiece (P.state p.old).told first.0 (address_of head) pages l bs
        (piece h (ys ++ x ∷ [])) cs → x.number ≤ v.0
        → IfOk result (λ b. b ≡ true)
        × OnOk result (Becomes (P.state p.new).told (let p = piece h (ys ++ x ∷ []) in
        LosesVersion l bs p (dropped p) cs x.place x.page pages)) }
    ensures newer { (pages : Pages) (l : Lob) (bs : List Piece) (h : Version)
        (ys : List Version) (x : Version) (cs : List Piece)
        → HasPiece (P.state p.old).told first.0 (address_of head) pages l bs
        (piece h (ys ++ x ∷ [])) cs → v.0 < x.number
        → IfOk result (λ b. b ≡ false) × OnOk result ((P.state p.new).told ≡ Some pages) }
    ensures none { (pages : Pages) (l : Lob) (bs : List Piece) (h : Version) (cs : List Piece)
        → HasPiece (P.state p.old).told first.0 (address_of head) pages l bs (piece h []) cs
        → IfOk result (λ b. b ≡ false) × OnOk result ((P.state p.new).told ≡ Some pages) }
    ensures reserved { space.new ≡ space.old }

    // Strange names an address or a page that is read before the first write, as it stood at the
    // call; or, as the call read it then, a length, an address, the count of free pages, or a byte
    // of the map.
    ensures honest { IfErr result
        (IsHonest (IsOddDrop first.0 (address_of head) (P.state p.old))) }
    ensures never { (pages : Pages) (l : Lob) (bs : List Piece) (q : Piece) (cs : List Piece)
        → HasPiece (P.state p.old).told first.0 (address_of head) pages l bs q cs
        → FailsPlainly result }
    ensures cause { HasCause (P.state p.old).faults (P.state p.new).faults result }
    ensures uses { Uses P.state P.stays (head.page.0 ∷ first.0 ∷ 0 ∷ []) 3
        (49 + 10 * write_head) p.old p.new }
{
    let Some(oldest) = read_oldest(p, head, v)? else {
        return Ok(false);
    };
    release(p, space, first, head, oldest.node, oldest.page, End::Last)?;
    Ok(true)
}

// The node of the oldest version, and the page of its data.
#[derive(Clone, Copy)]
pub struct Oldest {
    pub node: Addr,
    pub page: PageNo,
}

// The oldest version, where it isn't the head and its number is at most v.
fn read_oldest<P: Pages>(p: &mut P, head: Addr, v: LobVersion) -> Result<Option<Oldest>, Fault>
    requires head { FitsPage (P.state p.old).count (address_of head) }
    requires may { MayUse (head.page.0 ∷ []) 1 0 (P.state p.old) }
    ensures value { (pages : Pages) (l : Lob) (bs : List Piece) (h : Version)
        (ys : List Version) (x : Version) (cs : List Piece) → (P.state p.old).told ≡ Some pages
        → IsLob pages (with_pieces l (bs ++ piece h (ys ++ x ∷ []) ∷ cs))
        → h.place ≡ address_of head → IfOk result (IsOldest v.0 x) }
    ensures none { (pages : Pages) (l : Lob) (bs : List Piece) (h : Version) (cs : List Piece)
        → (P.state p.old).told ≡ Some pages
        → IsLob pages (with_pieces l (bs ++ piece h [] ∷ cs))
        → h.place ≡ address_of head → IfOk result (λ found. found ≡ None) }
    ensures place { IfOk result (IsFitOldest (P.state p.old).count) }
    ensures honest { IfErr result
        (IsHonest (IsOddOldest (P.state p.old).told (P.state p.old).count (address_of head))) }
    ensures never { (pages : Pages) (l : Lob) (bs : List Piece) (q : Piece) (cs : List Piece)
        → (P.state p.old).told ≡ Some pages → IsLob pages (with_pieces l (bs ++ q ∷ cs))
        → q.head.place ≡ address_of head → FailsPlainly result }
    ensures cause { HasCause (P.state p.old).faults (P.state p.new).faults result }
    ensures told { (P.state p.new).told ≡ (P.state p.old).told }
    ensures named { IfOk result (λ found. IfSome found (λ o.
        Uses P.state P.stays (o.node.page.0 ∷ head.page.0 ∷ []) 0 0 p.old p.new)) }
    ensures uses { Uses P.state P.stays (head.page.0 ∷ []) 1 0 p.old p.new }
{
    let Some(node) = entry_at(p, head.page, head.at + VERSIONS + LAST)? else {
        return Ok(None);
    };
    let number = read_field(p, node.page, node.at + VERSION, 4)?;
    if number > u64::from(v.0) {
        return Ok(None);
    }
    let page = data_page(p, node)?;
    Ok(Some(Oldest { node, page }))
}
