//! Where roll pointers lead.
ghost use Rattle.std.specs.Prelude.{◌≡◌, ◌≢◌, ◌<◌, ℕ, true, Some, IfOk, IfErr, IsOk};
ghost use Rattle.page_model.specs.Pages.{Address};
ghost use Rattle.engine_base.specs.Addresses.{address_of};
ghost use Rattle.engine_base.specs.declared.fault.Fault.TheVariants.{Device};
ghost use Rattle.undo_model.specs.Data.{led};
ghost use Rattle.undo_model.specs.Reading.{IsRecordPlace, is_place};
ghost use Rattle.store_model.specs.Undo.{is_at};

use engine_base::{Addr, Fault, PageNo, strange};
use undo_records::RollPtr;

// The place that a pointer leads to which isn't none.
fn place_of(roll: RollPtr) -> Addr
    requires some { 0 < roll.0 }
    ensures { led roll.0 ≡ Some (address_of result) }
{
    Addr {
        page: PageNo((roll.0 / 65_536 % 4_294_967_296) as u32),
        at: (roll.0 % 65_536) as u16,
    }
}

/// Whether the pointer leads to that place.
pub fn leads(roll: RollPtr, place: Addr) -> bool
    ensures { result ≡ is_at (address_of place) (led roll.0) }
{
    if roll.0 == 0 {
        return false;
    }
    let there = place_of(roll);
    there.page.0 == place.page.0 && there.at == place.at
}

/// The place of the record that the pointer leads to. Strange names the log's first page and the
/// pointer, where no record fits there in a store of so many pages.
pub fn record_place(count: u32, log: PageNo, roll: RollPtr) -> Result<Addr, Fault>
    ensures some { IfOk result (λ a. 0 < roll.0) }
    ensures leads { IfOk result (λ a. led roll.0 ≡ Some (address_of a)) }
    ensures place { IfOk result (λ a. IsRecordPlace count (address_of a)) }
    ensures strange { IfErr result (λ f. f ≢ Device) }
    ensures never { (a : Address) → led roll.0 ≡ Some a → is_place count a.page a.at ≡ true
        → IsOk result }
{
    if roll.0 == 0 {
        return strange(log, 0, roll.0);
    }
    let there = place_of(roll);
    if !undo_records::is_place(count, there.page.0, u32::from(there.at)) {
        return strange(log, 0, roll.0);
    }
    Ok(there)
}
