//! A further piece of a new LOB.
ghost use Rattle.std.specs.Prelude.{◌≡◌, ◌^◌, ◌+◌, ◌<◌, ◌≤◌, List, [], ◌∷◌, length, Some, OnOk};
ghost use Rattle.page_model.specs.Pages.{Pages};
ghost use Rattle.page_model.specs.Steps.{MayUse, Uses, Becomes};
ghost use Rattle.engine_base.specs.Faults.{HasCause, FailsPlainly};
ghost use Rattle.page_space.specs.Map.{IsSize, free_of};
ghost use Rattle.store_data.specs.Store.{Lob, Store};
ghost use Rattle.undo_model.specs.Rows.{RowPage};
ghost use Rattle.lob_model.specs.declared.layout.TheConstants.{DATA_ROOM};
ghost use Rattle.lob_bytes.specs.Growth.{add_room};
ghost use Rattle.store_model.specs.Lobs.{lob_of};
ghost use Rattle.transactions.specs.Standing.{IsAt};
ghost use Rattle.lob_changes.specs.Adding.{CanGrow, Adds};

use engine_base::{Fault, PageNo, Pages};
use lob_bytes::add_piece;
use lob_pages::TrxId;
use page_space::Space;

/// Adds a piece behind the others of a new LOB. The condition is that two pages are reserved, for
/// the piece's data and, where no node is free, for an index page. Touches page 0, the LOB's first
/// page and four others.
pub fn add<P: Pages>(
    p: &mut P,
    space: &mut Space,
    lob: PageNo,
    trx: TrxId,
    piece: &[u8],
) -> Result<(), Fault>
    requires two { 2 ≤ space.old }
    requires size { IsSize (P.state p.old).count }
    requires lob { lob.0 < (P.state p.old).count }
    requires narrow { trx.0 < 2 ^ 48 }
    requires fits { length piece.now ≤ DATA_ROOM }
    requires may { MayUse (0 ∷ lob.0 ∷ []) 4 add_room (P.state p.old) }
    ensures adds { (there : List RowPage) (pages : Pages) (store : Store) (m : Lob)
        → IsAt (P.state p.old).told there pages store → lob_of store.lobs lob.0 ≡ Some m
        → CanGrow piece.now m → space.old ≤ free_of pages
        → OnOk result (Becomes (P.state p.new).told (λ new.
        Adds there trx.0 piece.now lob.0 m store new × (space.new ≤ free_of new))) }
    ensures takes { (space.new ≤ space.old) × (space.old ≤ space.new + 2) }
    ensures never { (there : List RowPage) (pages : Pages) (store : Store) (m : Lob)
        → IsAt (P.state p.old).told there pages store → lob_of store.lobs lob.0 ≡ Some m
        → CanGrow piece.now m → space.old ≤ free_of pages → FailsPlainly result }
    ensures cause { HasCause (P.state p.old).faults (P.state p.new).faults result }
    ensures uses { Uses P.state P.stays (0 ∷ lob.0 ∷ []) 4 add_room p.old p.new }
{
    add_piece(p, space, lob, trx, piece)
}
