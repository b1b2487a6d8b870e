// Slots of a row page: the first free one, and one that changes.
ghost use Rattle.std.specs.Prelude.{◌≡◌, ◌+◌, ◌*◌, ◌≤◌, ◌<◌, List, [], ◌∷◌, length, Option, Some, None, IfOk, IfErr, OnOk};
ghost use Rattle.page_model.specs.Pages.{Pages, page_bytes};
ghost use Rattle.page_model.specs.Steps.{MayUse, Uses, Told, write_head};
ghost use Rattle.engine_base.specs.Faults.{HasCause, FailsPlainly, IsHonest};
ghost use Rattle.engine_base.specs.Addresses.{address_of};
ghost use Rattle.undo_model.specs.Rows.{Keyed, AreSlots, first_slot, slot_size, max_slots};
ghost use Rattle.row_dir.specs.Slots.{keyed_of, FitsSlot, IsSoundRow};
ghost use Rattle.row_dir.specs.Directory.{free_in};
ghost use Rattle.row_dir.specs.RowPages.{SetsSlotTo, IsFirstFree};
ghost use Rattle.row_dir.specs.Honest.{IsNoSlot};

use crate::layout::{COUNT, FIRST_SLOT, SLOT_BYTES, SLOTS_END};
use crate::slots::write_slot;
use engine_base::{Addr, Fault, PageNo, Pages, read_field, strange, write_field};
use undo_records::Row;

/// The place of the page's first free slot.
pub(crate) fn free_slot<P: Pages>(p: &mut P, page: PageNo) -> Result<u16, Fault>
    requires page { page.0 < (P.state p.old).count }
    requires may { MayUse (page.0 ∷ []) 0 0 (P.state p.old) }
    ensures value { (pages : Pages) (slots : List (Option Keyed)) → (P.state p.old).told ≡ Some pages
        → AreSlots pages page.0 first_slot slots → length slots ≡ max_slots
        → IfOk result (λ at. IsFirstFree slots at) }
    ensures never { (pages : Pages) (slots : List (Option Keyed)) → (P.state p.old).told ≡ Some pages
        → AreSlots pages page.0 first_slot slots → length slots ≡ max_slots
        → 1 ≤ free_in slots → FailsPlainly result }

    // Strange names the count of rows, where no slot is free.
    ensures honest { IfErr result (IsHonest (IsNoSlot (P.state p.old).told page.0)) }
    ensures place { IfOk result (λ at. (first_slot ≤ at) × (at + slot_size ≤ page_bytes)) }
    ensures cause { HasCause (P.state p.old).faults (P.state p.new).faults result }
    ensures told { (P.state p.new).told ≡ (P.state p.old).told }
    ensures uses { Uses P.state P.stays (page.0 ∷ []) 0 0 p.old p.new }
{
    let mut at = FIRST_SLOT;
    'slots: while at < SLOTS_END {
        if read_field(p, page, at, 1)? == 0 {
            return Ok(at);
        }
        at += SLOT_BYTES;
    }
    let count = read_field(p, page, COUNT, 2)?;
    strange(page, COUNT, count)
}

/// Writes the row into the slot, and how many rows its page has then. Two writes.
pub(crate) fn fill_slot<P: Pages>(
    p: &mut P,
    place: Addr,
    row: &Row,
    count: u16,
) -> Result<(), Fault>
    requires place { FitsSlot (P.state p.old).count (address_of place) }
    requires sound { IsSoundRow row.now }
    requires may { MayUse (place.page.0 ∷ []) 0 (slot_size + 2 + 2 * write_head) (P.state p.old) }
    ensures sets { OnOk result (Told (SetsSlotTo (address_of place) (Some (keyed_of row.now)) count)
        (P.state p.old).told (P.state p.new).told) }
    ensures uses { Uses P.state P.stays (place.page.0 ∷ []) 0 (slot_size + 2 + 2 * write_head)
        p.old p.new }
    ensures cause { HasCause (P.state p.old).faults (P.state p.new).faults result }
    ensures plain { FailsPlainly result }
{
    write_slot(p, place, row)?;
    write_field(p, place.page, COUNT, 2, u64::from(count))?;
    Ok(())
}

/// Frees the slot, and writes how many rows its page has then. Two writes.
pub(crate) fn clear_slot<P: Pages>(p: &mut P, place: Addr, count: u16) -> Result<(), Fault>
    requires place { FitsSlot (P.state p.old).count (address_of place) }
    requires may { MayUse (place.page.0 ∷ []) 0 (3 + 2 * write_head) (P.state p.old) }
    ensures sets { OnOk result (Told (SetsSlotTo (address_of place) None count)
        (P.state p.old).told (P.state p.new).told) }
    ensures uses { Uses P.state P.stays (place.page.0 ∷ []) 0 (3 + 2 * write_head) p.old p.new }
    ensures cause { HasCause (P.state p.old).faults (P.state p.new).faults result }
    ensures plain { FailsPlainly result }
{
    write_field(p, place.page, place.at, 1, 0)?;
    write_field(p, place.page, COUNT, 2, u64::from(count))?;
    Ok(())
}
