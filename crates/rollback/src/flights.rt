//! What an event of a rollback does to the reads under way.
ghost use Rattle.std.specs.Prelude.{◌≡◌, Some};
ghost use Rattle.engine_base.specs.Addresses.{address_of};
ghost use Rattle.undo_model.specs.Data.{led};
ghost use Rattle.read_views.specs.Flights.{record_in};
ghost use Rattle.rollback.specs.Flights.{AreTurned, handed, led_on};

use crate::newest::Newest;
use engine_base::Addr;
use read_views::Flight;

/// The record that was read goes: each read of its document to which it comes next takes its step.
pub(crate) fn hand_on_all(flights: &mut [Flight], newest: &Newest)
    requires leads { led newest.now.roll.0 ≡ Some (address_of newest.now.place) }
    ensures { AreTurned (handed (address_of newest.now.place) (record_in newest.now.rec))
        flights.old flights.new }
{
    for flight in flights.iter_mut() {
        flight.hand_on(newest.roll, &newest.rec);
    }
}

/// A node of a version list is freed whose head that is: each search that stands there goes on from
/// the head.
pub(crate) fn move_all(flights: &mut [Flight], node: Addr, head: Addr)
    ensures { AreTurned (led_on (address_of node) (address_of head)) flights.old flights.new }
{
    for flight in flights.iter_mut() {
        flight.moved(node, head);
    }
}
