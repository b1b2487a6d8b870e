// A version pushed.
ghost use Rattle.std.specs.Prelude.{◌≡◌, ◌+◌, ◌*◌, ◌<◌, ◌≤◌, ◌^◌, List, [], ◌∷◌, ◌++◌, length, IfErr, OnOk, Some};
ghost use Rattle.page_model.specs.Pages.{Pages};
ghost use Rattle.page_model.specs.Steps.{MayUse, Uses, Becomes, write_head};
ghost use Rattle.engine_base.specs.Faults.{HasCause, FailsPlainly, IsHonest};
ghost use Rattle.engine_base.specs.Addresses.{address_of};
ghost use Rattle.page_space.specs.Map.{IsSize};
ghost use Rattle.store_data.specs.Store.{Piece, Lob};
ghost use Rattle.lob_model.specs.declared.layout.TheConstants.{DATA_ROOM};
ghost use Rattle.lob_pages.specs.Entries.{FitsPage};
ghost use Rattle.lob_versions.specs.Pushes.{new_version, IsBareCopy, IsReady, PushesAt, IsOddPush};
ghost use Rattle.lob_versions.specs.Pushings.{CanPush, PushesVersion, push_room, IsOddPushing};
ghost use Rattle.lob_versions.specs.Versions.{HasPiece};

use crate::links::FIRST;
use engine_base::{Addr, Fault, NULL_PAGE, PageNo, Pages, strange};
use file_lists::add_first;
use lob_index::{take_node, write_data};
use lob_model::layout::{FREE, VERSIONS};
use lob_pages::{Base, Entry, LobVersion, TrxId, UndoNo, read_entry, write_entry, write_fields};
use page_space::Space;

/// Pushes a version of a piece: the head has the new number, transaction and bytes then, and its
/// fields before stand in a node, which is the first of its version list. It takes a node and a
/// page for the data, which uses up a page that is reserved, and two where no node is free; where
/// one is needed and none is left it is Strange. Besides the pages named it touches at most four:
/// those of the node, of the free node behind it, of the data, and of the first older version.
pub fn push_version<P: Pages>(
    p: &mut P,
    space: &mut Space,
    first: PageNo,
    head: Addr,
    v: LobVersion,
    trx: TrxId,
    bytes: &[u8],
) -> Result<(), Fault>
    requires first { first.0 < (P.state p.old).count }
    requires head { FitsPage (P.state p.old).count (address_of head) }
    requires size { IsSize (P.state p.old).count }
    requires narrow { trx.0 < 2 ^ 48 }
    requires fits { length bytes.now ≤ DATA_ROOM }
    requires may { MayUse (head.page.0 ∷ first.0 ∷ 0 ∷ []) 4
        (push_room (length bytes.now)) (P.state p.old) }
    ensures pushes { (pages : Pages) (l : Lob) (bs : List Piece) (q : Piece) (cs : List Piece)
        → HasPiece (P.state p.old).told first.0 (address_of head) pages l bs q cs
        → CanPush space.old pages l q v.0 bytes.now
        → OnOk result (Becomes (P.state p.new).told (PushesVersion l bs q cs
        (address_of head) v.0 trx.0 bytes.now space.old space.new pages)) }
    // At most two of the reserved pages are used up.
    ensures reserved { (space.new ≤ space.old) × (space.old ≤ space.new + 2) }

    // Strange names what taking a node may, as it stood at the call; or, as the call read it then,
    // that no page is reserved, the count of free pages, the length of the version list, or the
    // address of its first node.
    ensures honest { IfErr result
        (IsHonest (IsOddPushing first.0 (address_of head) (P.state p.old))) }
    ensures never { (pages : Pages) (l : Lob) (bs : List Piece) (q : Piece) (cs : List Piece)
        → HasPiece (P.state p.old).told first.0 (address_of head) pages l bs q cs
        → CanPush space.old pages l q v.0 bytes.now → FailsPlainly result }
    ensures cause { HasCause (P.state p.old).faults (P.state p.new).faults result }
    ensures uses { Uses P.state P.stays (head.page.0 ∷ first.0 ∷ 0 ∷ []) 4
        (push_room (length bytes.now)) p.old p.new }
{
    let node = take_node(p, space, first)?;
    if space.reserved() == 0 {
        return strange(first, FREE + FIRST, u64::from(NULL_PAGE));
    }
    let page = space.take(p)?;
    push_at(p, head, node, page, v, trx, bytes)
}

// Pushes a version of a piece on a node that is in no list, with its data in a page that the LOB
// doesn't have: the node has the fields of the head then and is the first of its version list, and
// the head has the new ones. Besides the pages named it touches that of the first older version;
// it writes 169 bytes and those of the data in nine writes.
fn push_at<P: Pages>(
    p: &mut P,
    head: Addr,
    node: Addr,
    page: PageNo,
    v: LobVersion,
    trx: TrxId,
    bytes: &[u8],
) -> Result<(), Fault>
    requires head { FitsPage (P.state p.old).count (address_of head) }
    requires node { FitsPage (P.state p.old).count (address_of node) }
    requires page { page.0 < (P.state p.old).count }
    requires size { IsSize (P.state p.old).count }
    requires narrow { trx.0 < 2 ^ 48 }
    requires fits { length bytes.now ≤ DATA_ROOM }
    requires may { MayUse (node.page.0 ∷ head.page.0 ∷ page.0 ∷ []) 1
        (169 + length bytes.now + 9 * write_head) (P.state p.old) }
    ensures pushes { (pages : Pages) (l : Lob) (bs : List Piece) (q : Piece) (cs : List Piece)
        → (P.state p.old).told ≡ Some pages → q.head.place ≡ address_of head
        → IsReady pages l bs q cs (address_of node) page.0 v.0 bytes.now
        → OnOk result (Becomes (P.state p.new).told (PushesAt l bs q cs (address_of node)
        (new_version (address_of head) page.0 v.0 trx.0 bytes.now) pages)) }

    // Strange names the length of the version list, or the address of its first node.
    ensures honest { IfErr result (IsHonest (IsOddPush (address_of head) (P.state p.old))) }
    ensures never { (pages : Pages) (l : Lob) (bs : List Piece) (q : Piece) (cs : List Piece)
        → (P.state p.old).told ≡ Some pages → q.head.place ≡ address_of head
        → IsReady pages l bs q cs (address_of node) page.0 v.0 bytes.now → FailsPlainly result }
    ensures cause { HasCause (P.state p.old).faults (P.state p.new).faults result }
    ensures uses { Uses P.state P.stays (node.page.0 ∷ head.page.0 ∷ page.0 ∷ []) 1
        (169 + length bytes.now + 9 * write_head) p.old p.new }
{
    let before = read_entry(p, head)?;
    write_data(p, page, trx, bytes)?;
    write_entry(p, node, &bare(before))?;
    let base = Addr {
        page: head.page,
        at: head.at + VERSIONS,
    };
    add_first(p, base, node)?;
    let fields = Entry {
        creator: trx,
        modifier: trx,
        creator_undo: UndoNo(0),
        modifier_undo: UndoNo(0),
        page,
        length: bytes.len() as u32,
        version: v,
        ..before
    };
    write_fields(p, head, &fields)?;
    Ok(())
}

// The same fields in an entry that is in no list and has no versions of its own.
fn bare(entry: Entry) -> Entry
    ensures { IsBareCopy entry result }
{
    Entry {
        previous: Addr::NULL,
        next: Addr::NULL,
        versions: Base {
            length: 0,
            first: Addr::NULL,
            last: Addr::NULL,
        },
        ..entry
    }
}
