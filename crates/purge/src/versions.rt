//! The oldest version of a touched piece goes.
ghost use Rattle.std.specs.Prelude.{◌≡◌, ◌+◌, ◌*◌, ◌<◌, ◌^◌, ℕ, List, [], ◌∷◌, map, Some, IfOk, IfSome, OnOk};
ghost use Rattle.page_model.specs.Pages.{Pages, Address};
ghost use Rattle.page_model.specs.Steps.{MayUse, Uses, Becomes, write_head};
ghost use Rattle.engine_base.specs.Faults.{HasCause, FailsPlainly};
ghost use Rattle.engine_base.specs.Addresses.{address_of};
ghost use Rattle.page_space.specs.Map.{IsSize};
ghost use Rattle.store_data.specs.Store.{Lob, Store};
ghost use Rattle.lob_model.specs.Pieces.{head_place};
ghost use Rattle.lob_pages.specs.Entries.{FitsPage};
ghost use Rattle.lob_index.specs.Heads.{nth};
ghost use Rattle.undo_model.specs.Rows.{RowPage};
ghost use Rattle.store_model.specs.Lobs.{lob_of};
ghost use Rattle.store_steps.specs.Standing.{StandsOn};
ghost use Rattle.purge.specs.Versions.{DropsVersion};

use engine_base::{Addr, Fault, PageNo, Pages};
use lob_pages::LobVersion;
use page_space::Space;

/// Of the piece with that head the oldest version goes, where it isn't the head and its number is
/// at most v; else nothing is changed. So a version that a view needs stays: whoever sees the change
/// that raised the LOB's version to the one behind v reads that one or a newer. Touches page 0, the
/// LOB's first page, the head's and three others, and writes 49 bytes at most in ten writes.
pub(crate) fn drop_version<P: Pages>(
    p: &mut P,
    space: &mut Space,
    first: PageNo,
    head: Addr,
    v: LobVersion,
) -> Result<(), Fault>
    requires first { first.0 < (P.state p.old).count }
    requires head { FitsPage (P.state p.old).count (address_of head) }
    requires size { IsSize (P.state p.old).count }
    requires may { MayUse (head.page.0 ∷ first.0 ∷ 0 ∷ []) 3 (49 + 10 * write_head)
        (P.state p.old) }
    ensures drops { (there : List RowPage) (pages : Pages) (store : Store) (l : Lob) (k : ℕ)
        → (P.state p.old).told ≡ Some pages → StandsOn there pages store
        → lob_of store.lobs first.0 ≡ Some l
        → Some (address_of head) ≡ nth k (map head_place l.pieces)
        → OnOk result (Becomes (P.state p.new).told (DropsVersion there first.0 k v.0 store)) }
    ensures reserved { space.new ≡ space.old }
    ensures never { (there : List RowPage) (pages : Pages) (store : Store) (l : Lob) (k : ℕ)
        → (P.state p.old).told ≡ Some pages → StandsOn there pages store
        → lob_of store.lobs first.0 ≡ Some l
        → Some (address_of head) ≡ nth k (map head_place l.pieces) → FailsPlainly result }
    ensures cause { HasCause (P.state p.old).faults (P.state p.new).faults result }
    ensures uses { Uses P.state P.stays (head.page.0 ∷ first.0 ∷ 0 ∷ []) 3
        (49 + 10 * write_head) p.old p.new }
{
    lob_versions::drop_oldest(p, space, first, head, v)?;
    Ok(())
}
