// Where a read goes on.
ghost use Rattle.std.specs.Prelude.{◌≡◌, ◌≢◌, option_map, IfOk, IfErr, IfSome, OnOk};
ghost use Rattle.engine_base.specs.Addresses.{address_of};
ghost use Rattle.engine_base.specs.declared.fault.Fault.TheVariants.{Device};
ghost use Rattle.undo_model.specs.Data.{led};
ghost use Rattle.undo_model.specs.Reading.{IsRecordPlace};
ghost use Rattle.lob_pages.specs.Entries.{FitsPage};
ghost use Rattle.version_read.specs.Next.{LeadsNowhere};

use engine_base::{Addr, Fault, strange};
use lob_model::layout::ENTRY;
use read_views::place_of;
use undo_records::{RollPtr, is_place};

// The place of the record that the pointer leads to. Strange names the place and the pointer, where
// no record fits there in a store of so many pages.
pub(crate) fn next_place(count: u32, roll: RollPtr) -> Result<Option<Addr>, Fault>
    ensures leads { IfOk result (λ place. option_map address_of place ≡ led roll.0) }
    ensures place { IfOk result (λ place. IfSome place (λ a.
        IsRecordPlace count (address_of a))) }
    ensures strange { IfErr result (λ f. (f ≢ Device) × LeadsNowhere count roll.0) }
{
    let Some(place) = place_of(roll) else {
        return Ok(None);
    };
    if !is_place(count, place.page.0, u32::from(place.at)) {
        return strange(place.page, place.at, roll.0);
    }
    Ok(Some(place))
}

// Whether an entry fits there in a store of so many pages. Strange names the place.
pub(crate) fn check_place(count: u32, at: Addr) -> Result<(), Fault>
    ensures ok { OnOk result (FitsPage count (address_of at)) }
    ensures err { IfErr result (λ f. (f ≢ Device) × ¬ (FitsPage count (address_of at))) }
{
    if at.page.0 >= count || at.at > 16_384 - ENTRY {
        return strange(at.page, at.at, 0);
    }
    Ok(())
}
