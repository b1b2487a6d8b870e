// A piece added to a LOB that is being built.
ghost use Rattle.std.specs.Prelude.{◌≡◌, ◌+◌, ◌*◌, ◌<◌, ◌≤◌, ◌^◌, ℕ, List, [], ◌∷◌, length, Some, IfOk, IfErr, IfNone, IfSome, OnOk};
ghost use Rattle.page_model.specs.Pages.{Pages, page_bytes};
ghost use Rattle.page_model.specs.Steps.{MayUse, Uses, Becomes, write_head};
ghost use Rattle.engine_base.specs.Faults.{HasCause, FailsPlainly, IsHonest};
ghost use Rattle.page_space.specs.Map.{IsSize};
ghost use Rattle.store_data.specs.Store.{Lob};
ghost use Rattle.lob_model.specs.declared.layout.TheConstants.{FIRST_ROOM, DATA_ROOM};
ghost use Rattle.lob_pages.specs.Entries.{HasNarrowIds};
ghost use Rattle.lob_bytes.specs.Growth.{CanAddPiece, AddsPiece, TakesData, WritesData, data_place, IsNewEntry, IsOddTaking, IsOddAdding, add_room};

use crate::data::write_first_data;
use crate::layout::FIRST;
use engine_base::{Addr, Fault, NULL_PAGE, PageNo, Pages, strange};
use file_lists::{add_last, first};
use lob_index::{take_node, write_data};
use lob_model::layout::{FIRST_ROOM, HEADS};
use lob_pages::{Base, Entry, LobVersion, TrxId, UndoNo, write_entry};
use page_space::Space;

/// Adds a piece behind the others of a LOB that is being built, the first one in the first page,
/// each other one in the lowest free page, which uses up one that is reserved; so does the page
/// that becomes an index page where no node is free. Besides the pages named it touches four, those
/// of the data, of the node, of the free node behind it and of the last head, and it writes 32,878
/// bytes at most.
pub fn add_piece<P: Pages>(
    p: &mut P,
    space: &mut Space,
    page: PageNo,
    trx: TrxId,
    bytes: &[u8],
) -> Result<(), Fault>
    requires page { page.0 < (P.state p.old).count }
    requires size { IsSize (P.state p.old).count }
    requires narrow { trx.0 < 2 ^ 48 }
    requires fits { length bytes.now ≤ DATA_ROOM }
    requires may { MayUse (0 ∷ page.0 ∷ []) 4 add_room (P.state p.old) }
    ensures adds { (pages : Pages) (lob : Lob)
        → (P.state p.old).told ≡ Some pages → lob.page ≡ page.0
        → CanAddPiece space.old bytes.now pages lob
        → OnOk result (Becomes (P.state p.new).told
        (AddsPiece lob trx.0 bytes.now space.old space.new pages)) }
    // At most two of the reserved pages are used up.
    ensures reserved { (space.new ≤ space.old) × (space.old ≤ space.new + 2) }

    // Strange names the address of the first head or the count of free pages, as it stood at the
    // call; or, as the call read it then, what taking a node may name, or the length of the list of
    // heads or the address of the last.
    ensures honest { IfErr result (IsHonest
        (IsOddAdding (P.state p.old) page.0 (length bytes.now) space.old)) }
    ensures never { (pages : Pages) (lob : Lob)
        → (P.state p.old).told ≡ Some pages → lob.page ≡ page.0
        → CanAddPiece space.old bytes.now pages lob → FailsPlainly result }
    ensures cause { HasCause (P.state p.old).faults (P.state p.new).faults result }
    ensures uses { Uses P.state P.stays (0 ∷ page.0 ∷ []) 4 add_room p.old p.new }
{
    let taken = take_data_page(p, space, page, bytes.len())?;
    let node = take_node(p, space, page)?;
    write_bytes(p, page, taken, trx, bytes)?;
    let entry = new_entry(place(page, taken), bytes.len() as u32, trx);
    write_entry(p, node, &entry)?;
    add_last(p, Addr { page, at: HEADS }, node)?;
    Ok(())
}

// The page that the data of a further piece goes into, or none for that of the first piece. Where
// these are too many for the first page, or no page is reserved, it is Strange.
fn take_data_page<P: Pages>(
    p: &mut P,
    space: &mut Space,
    page: PageNo,
    len: usize,
) -> Result<Option<PageNo>, Fault>
    requires page { page.0 < (P.state p.old).count }
    requires size { IsSize (P.state p.old).count }
    requires may { MayUse (0 ∷ page.0 ∷ []) 0 (5 + 2 * write_head) (P.state p.old) }
    ensures takes { (pages : Pages) (lob : Lob) (bytes : List ℕ)
        → (P.state p.old).told ≡ Some pages → lob.page ≡ page.0 → len ≡ length bytes
        → CanAddPiece space.old bytes pages lob
        → IfOk result (λ taken. Becomes (P.state p.new).told
        (TakesData lob taken space.old space.new pages)) }
    ensures there { IfOk result (λ taken. IfSome taken (λ n. n.0 < (P.state p.old).count)) }
    ensures fits { IfOk result (λ taken. IfNone taken (len ≤ FIRST_ROOM)) }
    ensures reserved { (space.new ≤ space.old) × (space.old ≤ space.new + 1) }
    ensures honest { IfErr result
        (IsHonest (IsOddTaking (P.state p.old) page.0 len space.old)) }
    ensures never { (pages : Pages) (lob : Lob) (bytes : List ℕ)
        → (P.state p.old).told ≡ Some pages → lob.page ≡ page.0 → len ≡ length bytes
        → CanAddPiece space.old bytes pages lob → FailsPlainly result }
    ensures cause { HasCause (P.state p.old).faults (P.state p.new).faults result }
    ensures uses { Uses P.state P.stays (0 ∷ page.0 ∷ []) 0 (5 + 2 * write_head) p.old p.new }
{
    let heads = Addr { page, at: HEADS };
    let Some(head) = first(p, heads)? else {
        if len > usize::from(FIRST_ROOM) {
            return strange(page, HEADS + FIRST, u64::from(NULL_PAGE));
        }
        return Ok(None);
    };
    if space.reserved() == 0 {
        return strange(page, HEADS + FIRST, u64::from(head.page.0));
    }
    let taken = space.take(p)?;
    Ok(Some(taken))
}

// The page in which the data stand.
fn place(page: PageNo, taken: Option<PageNo>) -> PageNo
    ensures { result.0 ≡ data_place page.0 taken }
{
    match taken {
        Some(other) => other,
        None => page,
    }
}

// Writes the data of a piece.
fn write_bytes<P: Pages>(
    p: &mut P,
    page: PageNo,
    taken: Option<PageNo>,
    trx: TrxId,
    bytes: &[u8],
) -> Result<(), Fault>
    requires page { page.0 < (P.state p.old).count }
    requires there { IfSome taken (λ n. n.0 < (P.state p.old).count) }
    requires narrow { trx.0 < 2 ^ 48 }
    requires fits { (length bytes.now ≤ DATA_ROOM) × IfNone taken (length bytes.now ≤ FIRST_ROOM) }
    requires may { MayUse (data_place page.0 taken ∷ []) 0 (page_bytes + write_head)
        (P.state p.old) }
    ensures writes { (pages : Pages) → (P.state p.old).told ≡ Some pages
        → OnOk result (Becomes (P.state p.new).told
        (WritesData page.0 taken trx.0 bytes.now pages)) }
    ensures cause { HasCause (P.state p.old).faults (P.state p.new).faults result }
    ensures plain { FailsPlainly result }
    ensures uses { Uses P.state P.stays (data_place page.0 taken ∷ []) 0
        (page_bytes + write_head) p.old p.new }
{
    match taken {
        Some(other) => write_data(p, other, trx, bytes),
        None => write_first_data(p, page, bytes),
    }
}

// The entry of a new piece: in no list yet, and without older versions.
fn new_entry(page: PageNo, length: u32, trx: TrxId) -> Entry
    requires narrow { trx.0 < 2 ^ 48 }
    ensures fields { IsNewEntry page.0 length trx.0 result }
    ensures fits { HasNarrowIds result }
{
    Entry {
        previous: Addr::NULL,
        next: Addr::NULL,
        versions: Base {
            length: 0,
            first: Addr::NULL,
            last: Addr::NULL,
        },
        creator: trx,
        modifier: trx,
        creator_undo: UndoNo(0),
        modifier_undo: UndoNo(0),
        page,
        length,
        version: LobVersion(1),
    }
}
