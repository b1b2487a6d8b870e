//! The walk of a read: old bytes of the changes that its view doesn't see, put back.
ghost use Rattle.std.specs.Prelude.{◌≡◌, ◌⊎◌, ℕ, List, [], ◌∷◌, Option, Some, IfOk};
ghost use Rattle.page_model.specs.Pages.{Pages};
ghost use Rattle.page_model.specs.Steps.{MayUse, Uses};
ghost use Rattle.engine_base.specs.Addresses.{address_of};
ghost use Rattle.engine_base.specs.Faults.{HasCause, FailsPlainly};
ghost use Rattle.store_data.specs.Pieces.{Part};
ghost use Rattle.store_data.specs.Store.{Store};
ghost use Rattle.undo_model.specs.Data.{led};
ghost use Rattle.undo_model.specs.Reading.{IsRecordPlace};
ghost use Rattle.read_model.specs.Document.{Document, Sees};
ghost use Rattle.read_model.specs.Steps.{walk};
ghost use Rattle.read_model.specs.OfStore.{document};
ghost use Rattle.read_views.specs.Flights.{flight_of, KeepsPlaces};
ghost use Rattle.version_read.specs.Next.{IsReading, PutsNext, GoesOn, Does, KeepsBuffer};

use crate::places::next_place;
use engine_base::{Addr, Fault, Pages};
use read_views::{Flight, Phase};
use undo_logs::at;

/// An event of a read in Unpatch: up to eight records are put back, and the read is Ready where
/// none is left. Touches at most eight pages. Strange names a place where no record stands, and
/// the roll pointer that leads there or what stands there in place of the length.
pub fn put_records<P: Pages>(flight: &mut Flight, p: &mut P) -> Result<(), Fault>
    requires phase { flight.old.phase ≡ Phase.Unpatch }
    requires may { MayUse [] 8 0 (P.state p.old) }
    ensures puts { (pages : Pages) (store : Store) (sees : Sees) (shown : Option (List Part))
        → IsReading (P.state p.old).told pages store flight.old.doc.0 sees shown
        (flight_of flight.old)
        → IfOk result (λ _. Does sees (document store flight.old.doc.0) shown
        (flight_of flight.old) (flight_of flight.new)) }
    ensures phase { (flight.new.phase ≡ Phase.Unpatch) ⊎ (flight.new.phase ≡ Phase.Ready) }
    ensures of { KeepsBuffer flight.old flight.new }
    ensures never { (pages : Pages) (store : Store) (sees : Sees) (shown : Option (List Part))
        → IsReading (P.state p.old).told pages store flight.old.doc.0 sees shown
        (flight_of flight.old)
        → FailsPlainly result }
    ensures cause { HasCause (P.state p.old).faults (P.state p.new).faults result }
    ensures told { (P.state p.new).told ≡ (P.state p.old).told }
    ensures uses { Uses P.state P.stays [] 8 0 p.old p.new }
{
    'records: for _n in 0..8u32 {
        put_one(flight, p)?;
    }
    end_where_none_is_left(flight);
    Ok(())
}

// Puts back the record to which the read's walk leads, where it leads to one.
fn put_one<P: Pages>(flight: &mut Flight, p: &mut P) -> Result<(), Fault>
    requires phase { flight.old.phase ≡ Phase.Unpatch }
    requires may { MayUse [] 1 0 (P.state p.old) }
    ensures puts { (pages : Pages) (store : Store) (d : ℕ) (sees : Sees)
        (shown : Option (List Part))
        → IsReading (P.state p.old).told pages store d sees shown (flight_of flight.old)
        → IfOk result (λ _. GoesOn sees (document store d) shown (flight_of flight.old)
        (flight_of flight.new)) }
    ensures of { KeepsPlaces flight.old flight.new }
    ensures never { (pages : Pages) (store : Store) (d : ℕ) (sees : Sees)
        (shown : Option (List Part))
        → IsReading (P.state p.old).told pages store d sees shown (flight_of flight.old)
        → FailsPlainly result }
    ensures cause { HasCause (P.state p.old).faults (P.state p.new).faults result }
    ensures told { (P.state p.new).told ≡ (P.state p.old).told }
    ensures uses { Uses P.state P.stays [] 1 0 p.old p.new }
{
    let Some(place) = next_place(p.count(), flight.cursor)? else {
        return Ok(());
    };
    put_next(flight, p, place)
}

// Puts back the record to which the read's walk leads, and leads it behind that one.
fn put_next<P: Pages>(flight: &mut Flight, p: &mut P, place: Addr) -> Result<(), Fault>
    requires phase { flight.old.phase ≡ Phase.Unpatch }
    requires leads { led flight.old.cursor.0 ≡ Some (address_of place) }
    requires place { IsRecordPlace (P.state p.old).count (address_of place) }
    requires may { MayUse (place.page.0 ∷ []) 0 0 (P.state p.old) }
    ensures puts { (pages : Pages) (store : Store) (d : ℕ) (sees : Sees)
        (shown : Option (List Part))
        → IsReading (P.state p.old).told pages store d sees shown (flight_of flight.old)
        → IfOk result (λ _. PutsNext sees (document store d) shown (address_of place)
        (flight_of flight.old) (flight_of flight.new)) }
    ensures of { KeepsPlaces flight.old flight.new }
    ensures never { (pages : Pages) (store : Store) (d : ℕ) (sees : Sees)
        (shown : Option (List Part))
        → IsReading (P.state p.old).told pages store d sees shown (flight_of flight.old)
        → FailsPlainly result }
    ensures cause { HasCause (P.state p.old).faults (P.state p.new).faults result }
    ensures told { (P.state p.new).told ≡ (P.state p.old).told }
    ensures uses { Uses P.state P.stays (place.page.0 ∷ []) 0 0 p.old p.new }
{
    let rec = at(p, flight.cursor)?;
    flight.put(&rec);
    Ok(())
}

// The read is Ready where its walk leads to no record.
fn end_where_none_is_left(flight: &mut Flight)
    requires phase { flight.old.phase ≡ Phase.Unpatch }
    ensures ends { (doc : Document) → flight_of flight.new ≡ walk 0 doc (flight_of flight.old) }
    ensures phase { (flight.new.phase ≡ Phase.Unpatch) ⊎ (flight.new.phase ≡ Phase.Ready) }
    ensures of { KeepsBuffer flight.old flight.new }
{
    if flight.cursor.0 == 0 {
        flight.phase = Phase::Ready;
    }
}
