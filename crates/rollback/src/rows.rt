//! The row before a change is put back.
ghost use Rattle.std.specs.Prelude.{◌≡◌, false, ◌+◌, ◌*◌, ◌<◌, ℕ, [], ◌∷◌, List, Some, IfOk, OnOk};
ghost use Rattle.page_model.specs.Pages.{Pages};
ghost use Rattle.page_model.specs.Steps.{MayUse, Uses, Becomes, write_head};
ghost use Rattle.engine_base.specs.Faults.{HasCause, FailsPlainly};
ghost use Rattle.page_space.specs.Map.{IsSize};
ghost use Rattle.store_data.specs.Store.{Store};
ghost use Rattle.store_model.specs.Undo.{is_gone};
ghost use Rattle.undo_model.specs.Rows.{RowPage, IsPresent, slot_size};
ghost use Rattle.undo_records.specs.Records.{state_of, IsNarrow};
ghost use Rattle.read_views.specs.Flights.{row_in};
ghost use Rattle.store_steps.specs.Standing.{StandsOn};
ghost use Rattle.row_dir.specs.Directory.{IsDirectory, IsBelow};
ghost use Rattle.rollback.specs.Rows.{CanRestore, RestoresRow, PutsBack};

use engine_base::{Addr, Fault, Pages, strange};
use page_space::Space;
use row_dir::RowDir;
use undo_logs::is_purged;
use undo_records::{Row, RowState};

/// The document has that row again, which isn't absent, in the slot of the one that it has. Touches
/// the page of the slot, and writes 40 bytes in one write. Strange names the place of the record
/// that is undone, and the document, where that has no row.
pub(crate) fn put_back<P: Pages>(
    rows: &RowDir,
    p: &mut P,
    place: Addr,
    before: &Row,
) -> Result<(), Fault>
    requires below { IsBelow (P.state p.old).count rows.now }
    requires present { IsPresent (state_of before.now.state) }
    requires narrow { IsNarrow before.now }
    requires may { MayUse [] 1 (slot_size + write_head) (P.state p.old) }
    ensures puts { (there : List RowPage) (pages : Pages) (store : Store)
        → (P.state p.old).told ≡ Some pages → StandsOn there pages store
        → IsDirectory rows.now there → CanRestore before.now.doc.0 (row_in before.now) store
        → OnOk result (Becomes (P.state p.new).told
        (PutsBack before.now.doc.0 (row_in before.now) rows.now store)) }
    ensures never { (there : List RowPage) (pages : Pages) (store : Store)
        → (P.state p.old).told ≡ Some pages → StandsOn there pages store
        → IsDirectory rows.now there → CanRestore before.now.doc.0 (row_in before.now) store
        → FailsPlainly result }
    ensures cause { HasCause (P.state p.old).faults (P.state p.new).faults result }
    ensures uses { Uses P.state P.stays [] 1 (slot_size + write_head) p.old p.new }
{
    if !rows.replace(p, before)? {
        return strange(place.page, place.at, u64::from(before.doc.0));
    }
    Ok(())
}

// Whether the row before a change goes: it was absent, or deleted with its deletion purged.
fn is_gone<P: Pages>(p: &mut P, before: &Row) -> Result<bool, Fault>
    requires size { IsSize (P.state p.old).count }
    requires may { MayUse (0 ∷ []) 3 0 (P.state p.old) }
    ensures value { (there : List RowPage) (pages : Pages) (store : Store)
        → (P.state p.old).told ≡ Some pages → StandsOn there pages store
        → CanRestore before.now.doc.0 (row_in before.now) store
        → IfOk result (λ b. b ≡ is_gone store (row_in before.now).state (row_in before.now)) }
    ensures present { IfOk result (λ b. b ≡ false → IsPresent (state_of before.now.state)) }
    ensures never { (there : List RowPage) (pages : Pages) (store : Store)
        → (P.state p.old).told ≡ Some pages → StandsOn there pages store → FailsPlainly result }
    ensures told { (P.state p.new).told ≡ (P.state p.old).told }
    ensures cause { HasCause (P.state p.old).faults (P.state p.new).faults result }
    ensures uses { Uses P.state P.stays (0 ∷ []) 3 0 p.old p.new }
{
    match before.state {
        RowState::Absent => Ok(true),
        RowState::Live => Ok(false),
        RowState::Deleted => is_purged(p, before.roll, before.trx),
    }
}

/// The document has the row before, or none where that one was absent, or deleted and its deletion
/// is purged. Touches page 0 and six others, and writes 21 bytes at most in five writes, or 40 in
/// one. Strange names the place of the record that is undone, and the document, where that has no
/// row.
pub(crate) fn restore<P: Pages>(
    rows: &mut RowDir,
    p: &mut P,
    space: &mut Space,
    place: Addr,
    before: &Row,
) -> Result<(), Fault>
    requires size { IsSize (P.state p.old).count }
    requires below { IsBelow (P.state p.old).count rows.old }
    requires narrow { IsNarrow before.now }
    requires may { MayUse (0 ∷ []) 6 (21 + 5 * write_head) (P.state p.old) }
    ensures restores { (there : List RowPage) (pages : Pages) (store : Store)
        → (P.state p.old).told ≡ Some pages → StandsOn there pages store
        → IsDirectory rows.old there → CanRestore before.now.doc.0 (row_in before.now) store
        → OnOk result (Becomes (P.state p.new).told
        (RestoresRow before.now.doc.0 (row_in before.now) rows.new store)) }
    ensures below { IsBelow (P.state p.old).count rows.new }
    ensures reserved { space.new ≡ space.old }
    ensures never { (there : List RowPage) (pages : Pages) (store : Store)
        → (P.state p.old).told ≡ Some pages → StandsOn there pages store
        → IsDirectory rows.old there → CanRestore before.now.doc.0 (row_in before.now) store
        → FailsPlainly result }
    ensures cause { HasCause (P.state p.old).faults (P.state p.new).faults result }
    ensures uses { Uses P.state P.stays (0 ∷ []) 6 (21 + 5 * write_head) p.old p.new }
{
    if is_gone(p, before)? {
        return rows.remove(p, space, before.doc);
    }
    put_back(rows, p, place, before)
}
