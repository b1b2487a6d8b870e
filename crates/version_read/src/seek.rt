//! The search of a read for the row that its view sees.
ghost use Rattle.std.specs.Prelude.{◌≡◌, ℕ, List, [], ◌∷◌, Option, Some, None, IfOk, IsSome, OnOk, OnErr, false};
ghost use Rattle.page_model.specs.Pages.{Pages};
ghost use Rattle.page_model.specs.Steps.{MayUse, Uses};
ghost use Rattle.engine_base.specs.Addresses.{address_of};
ghost use Rattle.engine_base.specs.Faults.{HasCause, FailsPlainly};
ghost use Rattle.store_data.specs.Pieces.{Part};
ghost use Rattle.store_data.specs.Store.{Store};
ghost use Rattle.undo_model.specs.Data.{led};
ghost use Rattle.undo_model.specs.Reading.{IsRecordPlace};
ghost use Rattle.undo_records.specs.declared.record_type.Row.{Row as RowThere};
ghost use Rattle.read_model.specs.Document.{Document, Sees};
ghost use Rattle.read_model.specs.Steps.{judging, seek};
ghost use Rattle.read_model.specs.OfStore.{document};
ghost use Rattle.read_views.specs.Flights.{flight_of, row_in, row_read};
ghost use Rattle.version_read.specs.Next.{IsReading, Does};
ghost use Rattle.version_read.specs.Seeks.{begun, sees_in, IsOpen, GoesBack, Finds};

use crate::places::next_place;
use crate::rows::present_row;
use engine_base::{Addr, DocId, Fault, Pages, strange};
use lob_pages::TrxId;
use read_views::{Flight, Phase, Views};
use undo_logs::at;
use undo_records::Row;

/// An event of a read in Seek: it judges the row that is next and up to eight behind it. At the
/// first that its view sees it is at Found, or at Absent where that row is absent or deleted; else
/// it stays in Seek. `present` is the document's row, None where it has none; the first event
/// begins there, and no other asks for it. Touches at most eight pages, and leaves the read as it
/// was at an `Err`. Strange names a place where no record stands, and the roll pointer that leads
/// there or what stands there in place of the length; or byte 0 of the LOB of a row that the view
/// doesn't see and that no row is behind, with its transaction.
pub fn judge_rows<P: Pages>(
    flight: &mut Flight,
    p: &mut P,
    present: Option<Row>,
    views: &Views,
) -> Result<(), Fault>
    requires phase { flight.old.phase ≡ Phase.Seek }
    requires view { IsOpen views.now flight.old.view }
    requires may { MayUse [] 8 0 (P.state p.old) }
    ensures judges { (pages : Pages) (store : Store) (shown : Option (List Part))
        → IsReading (P.state p.old).told pages store flight.old.doc.0
        (sees_in views.now flight.old.view) shown
        (begun flight.old.row present (flight_of flight.old))
        → IfOk result (λ _. Does (sees_in views.now flight.old.view)
        (document store flight.old.doc.0) shown
        (begun flight.old.row present (flight_of flight.old)) (flight_of flight.new)) }
    ensures row { OnOk result (IsSome flight.new.row) }
    ensures of { (flight.new.view ≡ flight.old.view) × (flight.new.doc ≡ flight.old.doc) }
    ensures err { OnErr result (flight.new ≡ flight.old) }
    ensures never { (pages : Pages) (store : Store) (shown : Option (List Part))
        → IsReading (P.state p.old).told pages store flight.old.doc.0
        (sees_in views.now flight.old.view) shown
        (begun flight.old.row present (flight_of flight.old))
        → FailsPlainly result }
    ensures cause { HasCause (P.state p.old).faults (P.state p.new).faults result }
    ensures told { (P.state p.new).told ≡ (P.state p.old).told }
    ensures uses { Uses P.state P.stays [] 8 0 p.old p.new }
{
    let first = first_row(flight.row, present, flight.doc);
    let row = row_sought(p, views, flight.view, first)?;
    judge(flight, views, row);
    Ok(())
}

// The row that is judged next: the present one at the first event.
fn first_row(next: Option<Row>, present: Option<Row>, doc: DocId) -> Row
    ensures next { (r : RowThere) → next ≡ Some r → result ≡ r }
    ensures present { next ≡ None → row_in result ≡ row_read present }
{
    match next {
        Some(row) => row,
        None => present_row(present, doc),
    }
}

// Whether the view, or a read without one, sees what a transaction did.
fn is_seen(views: &Views, view: Option<usize>, trx: TrxId) -> bool
    requires view { IsOpen views.now view }
    ensures { result ≡ sees_in views.now view trx.0 }
{
    match view {
        Some(key) => views.sees(key, trx),
        None => true,
    }
}

// Judges a row.
fn judge(flight: &mut Flight, views: &Views, row: Row)
    requires view { IsOpen views.now flight.old.view }
    ensures read { (doc : Document) → flight_of flight.new
        ≡ seek 0 (sees_in views.now flight.old.view) doc (row_in row) }
    ensures row { flight.new.row ≡ Some row }
    ensures of { (flight.new.view ≡ flight.old.view) × (flight.new.doc ≡ flight.old.doc) }
{
    if is_seen(views, flight.view, row.trx) {
        flight.arrive(row);
    } else {
        flight.judge_next(row);
    }
}

// The first row that the view sees, of this one and seven behind it; else the eighth behind it.
fn row_sought<P: Pages>(
    p: &mut P,
    views: &Views,
    view: Option<usize>,
    first: Row,
) -> Result<Row, Fault>
    requires view { IsOpen views.now view }
    requires may { MayUse [] 8 0 (P.state p.old) }
    ensures finds { (pages : Pages) (store : Store) (d : ℕ) (shown : Option (List Part))
        → IsReading (P.state p.old).told pages store d (sees_in views.now view) shown
        (judging (row_in first))
        → IfOk result (λ row. Finds (sees_in views.now view) (document store d) (row_in first)
        (row_in row)) }
    ensures never { (pages : Pages) (store : Store) (d : ℕ) (shown : Option (List Part))
        → IsReading (P.state p.old).told pages store d (sees_in views.now view) shown
        (judging (row_in first))
        → FailsPlainly result }
    ensures cause { HasCause (P.state p.old).faults (P.state p.new).faults result }
    ensures told { (P.state p.new).told ≡ (P.state p.old).told }
    ensures uses { Uses P.state P.stays [] 8 0 p.old p.new }
{
    let mut row = first;
    'rows: for _n in 0..8u32 {
        if is_seen(views, view, row.trx) {
            return Ok(row);
        }
        row = row_behind(p, row)?;
    }
    Ok(row)
}

// The row before the last change of a row that the view doesn't see.
fn row_behind<P: Pages>(p: &mut P, row: Row) -> Result<Row, Fault>
    requires may { MayUse [] 1 0 (P.state p.old) }
    ensures back { (pages : Pages) (store : Store) (d : ℕ) (sees : Sees)
        (shown : Option (List Part))
        → IsReading (P.state p.old).told pages store d sees shown (judging (row_in row))
        → sees row.trx.0 ≡ false
        → IfOk result (λ r. GoesBack sees (document store d) shown (row_in row) (row_in r)) }
    ensures never { (pages : Pages) (store : Store) (d : ℕ) (sees : Sees)
        (shown : Option (List Part))
        → IsReading (P.state p.old).told pages store d sees shown (judging (row_in row))
        → sees row.trx.0 ≡ false
        → FailsPlainly result }
    ensures cause { HasCause (P.state p.old).faults (P.state p.new).faults result }
    ensures told { (P.state p.new).told ≡ (P.state p.old).told }
    ensures uses { Uses P.state P.stays [] 1 0 p.old p.new }
{
    let Some(place) = next_place(p.count(), row.roll)? else {
        return strange(row.lob.page, 0, row.trx.0);
    };
    row_before(p, row, place)
}

// The same, where the record of that change is to stand at a place.
fn row_before<P: Pages>(p: &mut P, row: Row, place: Addr) -> Result<Row, Fault>
    requires leads { led row.roll.0 ≡ Some (address_of place) }
    requires place { IsRecordPlace (P.state p.old).count (address_of place) }
    requires may { MayUse (place.page.0 ∷ []) 0 0 (P.state p.old) }
    ensures back { (pages : Pages) (store : Store) (d : ℕ) (sees : Sees)
        (shown : Option (List Part))
        → IsReading (P.state p.old).told pages store d sees shown (judging (row_in row))
        → sees row.trx.0 ≡ false
        → IfOk result (λ r. GoesBack sees (document store d) shown (row_in row) (row_in r)) }
    ensures never { (pages : Pages) (store : Store) (d : ℕ) (sees : Sees)
        (shown : Option (List Part))
        → IsReading (P.state p.old).told pages store d sees shown (judging (row_in row))
        → sees row.trx.0 ≡ false
        → FailsPlainly result }
    ensures cause { HasCause (P.state p.old).faults (P.state p.new).faults result }
    ensures told { (P.state p.new).told ≡ (P.state p.old).told }
    ensures uses { Uses P.state P.stays (place.page.0 ∷ []) 0 0 p.old p.new }
{
    let rec = at(p, row.roll)?;
    Ok(rec.before)
}
