//! A version of a piece pushed: a further event of a change that raised the version of a LOB.
ghost use Rattle.std.specs.Prelude.{◌≡◌, ◌+◌, ◌≤◌, ◌<◌, ◌^◌, ℕ, List, [], ◌∷◌, length, OnOk};
ghost use Rattle.page_model.specs.Pages.{Pages};
ghost use Rattle.page_model.specs.Steps.{MayUse, Uses, Becomes};
ghost use Rattle.engine_base.specs.Faults.{HasCause, FailsPlainly};
ghost use Rattle.engine_base.specs.Addresses.{address_of};
ghost use Rattle.page_space.specs.Map.{IsSize, free_of};
ghost use Rattle.store_data.specs.Store.{Lob, Store};
ghost use Rattle.undo_model.specs.Rows.{RowPage};
ghost use Rattle.lob_model.specs.declared.layout.TheConstants.{DATA_ROOM};
ghost use Rattle.lob_pages.specs.Entries.{FitsPage};
ghost use Rattle.lob_versions.specs.Pushings.{push_room};
ghost use Rattle.transactions.specs.Standing.{IsAt};
ghost use Rattle.lob_updates.specs.Pushes.{CanPush, PushesPiece};

use engine_base::{Addr, Fault, Pages};
use lob_pages::{LobRef, TrxId};
use lob_versions::push_version;
use page_space::Space;

/// An event of a change that raised the version of the LOB to the one of this reference: of a piece
/// that it touches, whose head stands there, a version with that number and these bytes is pushed.
/// The bytes before stay where they are, and a node tells of them from then on. It takes a reserved
/// page for the bytes, and where no node of the LOB is free another one as an index page. Touches
/// page 0, the LOB's first page, that of the head and four others. An `Err` leaves the pages as the
/// event left them, and the mini-transaction is to be abandoned. Strange names what
/// `lob_versions::push_version` may. InnoDB writes a touched piece's bytes to a page of their own
/// and links an entry for the old ones (lob0update.cc); that each is an event of its own is ours.
pub fn push<P: Pages>(
    p: &mut P,
    space: &mut Space,
    lob: &LobRef,
    head: Addr,
    trx: TrxId,
    piece: &[u8],
) -> Result<(), Fault>
    requires size { IsSize (P.state p.old).count }
    requires first { lob.now.page.0 < (P.state p.old).count }
    requires head { FitsPage (P.state p.old).count (address_of head) }
    requires narrow { trx.0 < 2 ^ 48 }
    requires fits { length piece.now ≤ DATA_ROOM }
    requires may { MayUse (head.page.0 ∷ lob.now.page.0 ∷ 0 ∷ []) 4
        (push_room (length piece.now)) (P.state p.old) }
    ensures pushes { (there : List RowPage) (pages : Pages) (store : Store) (l : Lob) (k : ℕ)
        → IsAt (P.state p.old).told there pages store → space.old ≤ free_of pages
        → CanPush lob.now.page.0 lob.now.version.0 k (address_of head) piece.now l space.old store
        → OnOk result (Becomes (P.state p.new).told (PushesPiece there lob.now.page.0
        lob.now.version.0 k trx.0 (address_of head) piece.now l space.old space.new store)) }
    // At most two of the reserved pages are used up.
    ensures reserved { (space.new ≤ space.old) × (space.old ≤ space.new + 2) }
    ensures never { (there : List RowPage) (pages : Pages) (store : Store) (l : Lob) (k : ℕ)
        → IsAt (P.state p.old).told there pages store → space.old ≤ free_of pages
        → CanPush lob.now.page.0 lob.now.version.0 k (address_of head) piece.now l space.old store
        → FailsPlainly result }
    ensures cause { HasCause (P.state p.old).faults (P.state p.new).faults result }
    ensures uses { Uses P.state P.stays (head.page.0 ∷ lob.now.page.0 ∷ 0 ∷ []) 4
        (push_room (length piece.now)) p.old p.new }
{
    push_version(p, space, lob.page, head, lob.version, trx, piece)
}
