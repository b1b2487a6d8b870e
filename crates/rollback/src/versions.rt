//! The newest version of a touched piece goes.
ghost use Rattle.std.specs.Prelude.{◌≡◌, ◌+◌, ◌*◌, ◌<◌, ℕ, List, [], ◌∷◌, map, Some, OnOk};
ghost use Rattle.page_model.specs.Pages.{Pages};
ghost use Rattle.page_model.specs.Steps.{MayUse, Uses, Becomes, write_head};
ghost use Rattle.engine_base.specs.Faults.{HasCause, FailsPlainly};
ghost use Rattle.engine_base.specs.Addresses.{address_of};
ghost use Rattle.page_space.specs.Map.{IsSize};
ghost use Rattle.store_data.specs.Store.{Lob, Store};
ghost use Rattle.lob_model.specs.Pieces.{head_place};
ghost use Rattle.lob_pages.specs.Entries.{FitsPage};
ghost use Rattle.lob_index.specs.Heads.{nth};
ghost use Rattle.undo_model.specs.Rows.{RowPage};
ghost use Rattle.store_model.specs.Lobs.{lob_of};
ghost use Rattle.store_steps.specs.Standing.{StandsOn};
ghost use Rattle.rollback.specs.Flights.{AreTurned};
ghost use Rattle.rollback.specs.Versions.{PopsVersion, pop_turn, CanPop};

use crate::flights::move_all;
use engine_base::{Addr, Fault, PageNo, Pages};
use lob_pages::{LobVersion, read_entry};
use lob_versions::pop_version;
use page_space::Space;
use read_views::Flight;

/// Of the piece with that head the newest version goes, where it is the one that a change behind
/// version v pushed: then the head has the fields of the version before, whose node is freed, and
/// each search that stands at this goes on from the head. Else nothing is changed: that piece was
/// not changed yet, or is undone. Touches page 0, the LOB's first page, the head's and three others,
/// and writes 81 bytes in eleven writes.
pub(crate) fn pop_raised<P: Pages>(
    p: &mut P,
    space: &mut Space,
    flights: &mut [Flight],
    first: PageNo,
    head: Addr,
    v: LobVersion,
) -> Result<(), Fault>
    requires first { first.0 < (P.state p.old).count }
    requires head { FitsPage (P.state p.old).count (address_of head) }
    requires size { IsSize (P.state p.old).count }
    requires may { MayUse (head.page.0 ∷ first.0 ∷ 0 ∷ []) 3 (81 + 11 * write_head)
        (P.state p.old) }
    ensures pops { (there : List RowPage) (pages : Pages) (store : Store) (l : Lob) (k : ℕ)
        → (P.state p.old).told ≡ Some pages → StandsOn there pages store
        → lob_of store.lobs first.0 ≡ Some l
        → Some (address_of head) ≡ nth k (map head_place l.pieces) → CanPop k v.0 l
        → OnOk result (Becomes (P.state p.new).told (PopsVersion there first.0 k v.0 store)) }
    ensures turns { (there : List RowPage) (pages : Pages) (store : Store) (l : Lob) (k : ℕ)
        → (P.state p.old).told ≡ Some pages → StandsOn there pages store
        → lob_of store.lobs first.0 ≡ Some l
        → Some (address_of head) ≡ nth k (map head_place l.pieces) → CanPop k v.0 l
        → OnOk result (AreTurned (pop_turn first.0 k v.0 store) flights.old flights.new) }
    ensures reserved { space.new ≡ space.old }
    ensures never { (there : List RowPage) (pages : Pages) (store : Store) (l : Lob) (k : ℕ)
        → (P.state p.old).told ≡ Some pages → StandsOn there pages store
        → lob_of store.lobs first.0 ≡ Some l
        → Some (address_of head) ≡ nth k (map head_place l.pieces) → CanPop k v.0 l
        → FailsPlainly result }
    ensures cause { HasCause (P.state p.old).faults (P.state p.new).faults result }
    ensures uses { Uses P.state P.stays (head.page.0 ∷ first.0 ∷ 0 ∷ []) 3
        (81 + 11 * write_head) p.old p.new }
{
    let entry = read_entry(p, head)?;
    if u64::from(entry.version.0) != u64::from(v.0) + 1 {
        return Ok(());
    }
    let node = pop_version(p, space, first, head)?;
    move_all(flights, node, head);
    Ok(())
}
