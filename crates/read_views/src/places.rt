//! Where a roll pointer leads.
ghost use Rattle.std.specs.Prelude.{◌≡◌, ◌==◌, option_map, Some, IfSome};
ghost use Rattle.engine_base.specs.Addresses.{address_of};
ghost use Rattle.undo_model.specs.Data.{led};
ghost use Rattle.read_model.specs.Steps.{leads_to};

use engine_base::{Addr, PageNo};
use undo_records::RollPtr;

/// The place of the record that a roll pointer leads to, whether it is that of an insert.
pub fn place_of(roll: RollPtr) -> Option<Addr>
    ensures { option_map address_of result ≡ led roll.0 }
{
    if roll.0 == 0 {
        return None;
    }
    Some(Addr {
        page: PageNo((roll.0 / 0x1_0000 % 0x1_0000_0000) as u32),
        at: (roll.0 % 0x1_0000) as u16,
    })
}

/// Whether a roll pointer leads to that place.
pub(crate) fn leads(roll: RollPtr, place: Addr) -> bool
    ensures { result ≡ leads_to (led roll.0) (address_of place) }
{
    place_of(roll) == Some(place)
}
