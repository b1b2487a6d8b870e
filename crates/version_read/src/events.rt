//! One event of a read, whatever its phase.
ghost use Rattle.std.specs.Prelude.{◌≡◌, List, [], Option, Some, None, IfOk};
ghost use Rattle.page_model.specs.Pages.{Pages};
ghost use Rattle.page_model.specs.Steps.{MayUse, Uses};
ghost use Rattle.engine_base.specs.Faults.{HasCause, FailsPlainly};
ghost use Rattle.store_data.specs.Pieces.{Part};
ghost use Rattle.store_data.specs.Store.{Store};
ghost use Rattle.store_model.specs.History.{row_before};
ghost use Rattle.store_parts.specs.Shows.{IsStore};
ghost use Rattle.row_dir.specs.Directory.{IsBelow, IsDirectory};
ghost use Rattle.read_views.specs.Flights.{row_read};
ghost use Rattle.version_read.specs.Reads.{IsUnderWay, StepsOn};
ghost use Rattle.version_read.specs.Seeks.{sees_in, IsOpen};

use crate::pieces::copy_piece;
use crate::rows::row_now;
use crate::seek::judge_rows;
use crate::walk::put_records;
use engine_base::{Fault, Pages};
use read_views::{Flight, Phase, Views};
use row_dir::RowDir;
use undo_records::Row;

/// One event of a read: in Seek as `judge_rows`, in Pieces as `copy_piece`, in Unpatch as
/// `put_records`; in any other phase nothing is done. Tells the phase behind it: at Found the buffer
/// is to be lent, at Ready it is the document that the view sees, and at Absent the view sees none.
/// `rows` is the directory of the rows in these pages. Touches at most 16 pages. Strange names what
/// these three name, or what `RowDir::get` names. Behind an `Err` the event is to be made again from
/// nothing.
pub fn step<P: Pages>(
    flight: &mut Flight,
    p: &mut P,
    rows: &RowDir,
    views: &Views,
) -> Result<Phase, Fault>
    requires view { IsOpen views.now flight.old.view }
    requires below { IsBelow (P.state p.old).count rows.now }
    requires may { MayUse [] 16 0 (P.state p.old) }
    ensures steps { (pages : Pages) (store : Store) (shown : Option (List Part))
        → IsUnderWay (P.state p.old).told pages store rows.now
        (sees_in views.now flight.old.view) shown flight.old
        → IfOk result (λ _. StepsOn (sees_in views.now flight.old.view) store shown flight.old
        flight.new) }
    ensures phase { IfOk result (λ phase. phase ≡ flight.new.phase) }
    ensures of { (flight.new.view ≡ flight.old.view) × (flight.new.doc ≡ flight.old.doc) }
    ensures never { (pages : Pages) (store : Store) (shown : Option (List Part))
        → IsUnderWay (P.state p.old).told pages store rows.now
        (sees_in views.now flight.old.view) shown flight.old → FailsPlainly result }
    ensures cause { HasCause (P.state p.old).faults (P.state p.new).faults result }
    ensures told { (P.state p.new).told ≡ (P.state p.old).told }
    ensures uses { Uses P.state P.stays [] 16 0 p.old p.new }
{
    go_on(flight, p, rows, views)?;
    Ok(flight.phase)
}

// The event by its phase.
fn go_on<P: Pages>(
    flight: &mut Flight,
    p: &mut P,
    rows: &RowDir,
    views: &Views,
) -> Result<(), Fault>
    requires view { IsOpen views.now flight.old.view }
    requires below { IsBelow (P.state p.old).count rows.now }
    requires may { MayUse [] 16 0 (P.state p.old) }
    ensures steps { (pages : Pages) (store : Store) (shown : Option (List Part))
        → IsUnderWay (P.state p.old).told pages store rows.now
        (sees_in views.now flight.old.view) shown flight.old
        → IfOk result (λ _. StepsOn (sees_in views.now flight.old.view) store shown flight.old
        flight.new) }
    ensures of { (flight.new.view ≡ flight.old.view) × (flight.new.doc ≡ flight.old.doc) }
    ensures never { (pages : Pages) (store : Store) (shown : Option (List Part))
        → IsUnderWay (P.state p.old).told pages store rows.now
        (sees_in views.now flight.old.view) shown flight.old → FailsPlainly result }
    ensures cause { HasCause (P.state p.old).faults (P.state p.new).faults result }
    ensures told { (P.state p.new).told ≡ (P.state p.old).told }
    ensures uses { Uses P.state P.stays [] 16 0 p.old p.new }
{
    match flight.phase {
        Phase::Seek => seek_row(flight, p, rows, views),
        Phase::Pieces => copy_piece(flight, p, rows),
        Phase::Unpatch => put_records(flight, p),
        Phase::Found(_) | Phase::Ready | Phase::Absent => Ok(()),
    }
}

// An event in Seek. The first one begins at the document's present row.
fn seek_row<P: Pages>(
    flight: &mut Flight,
    p: &mut P,
    rows: &RowDir,
    views: &Views,
) -> Result<(), Fault>
    requires phase { flight.old.phase ≡ Phase.Seek }
    requires view { IsOpen views.now flight.old.view }
    requires below { IsBelow (P.state p.old).count rows.now }
    requires may { MayUse [] 9 0 (P.state p.old) }
    ensures steps { (pages : Pages) (store : Store) (shown : Option (List Part))
        → IsUnderWay (P.state p.old).told pages store rows.now
        (sees_in views.now flight.old.view) shown flight.old
        → IfOk result (λ _. StepsOn (sees_in views.now flight.old.view) store shown flight.old
        flight.new) }
    ensures of { (flight.new.view ≡ flight.old.view) × (flight.new.doc ≡ flight.old.doc) }
    ensures never { (pages : Pages) (store : Store) (shown : Option (List Part))
        → IsUnderWay (P.state p.old).told pages store rows.now
        (sees_in views.now flight.old.view) shown flight.old → FailsPlainly result }
    ensures cause { HasCause (P.state p.old).faults (P.state p.new).faults result }
    ensures told { (P.state p.new).told ≡ (P.state p.old).told }
    ensures uses { Uses P.state P.stays [] 9 0 p.old p.new }
{
    let present = row_to_begin(flight, p, rows)?;
    judge_rows(flight, p, present, views)
}

// The document's present row, where the read has none yet.
fn row_to_begin<P: Pages>(flight: &Flight, p: &mut P, rows: &RowDir) -> Result<Option<Row>, Fault>
    requires below { IsBelow (P.state p.old).count rows.now }
    requires may { MayUse [] 1 0 (P.state p.old) }
    ensures value { (pages : Pages) (store : Store) → (P.state p.old).told ≡ Some pages
        → (is : IsStore pages store) → IsDirectory rows.now is.stored.rows
        → IfOk result (λ present. flight.now.row ≡ None
        → row_read present ≡ row_before store flight.now.doc.0) }
    ensures never { (pages : Pages) (store : Store) → (P.state p.old).told ≡ Some pages
        → (is : IsStore pages store) → IsDirectory rows.now is.stored.rows
        → FailsPlainly result }
    ensures cause { HasCause (P.state p.old).faults (P.state p.new).faults result }
    ensures told { (P.state p.new).told ≡ (P.state p.old).told }
    ensures uses { Uses P.state P.stays [] 1 0 p.old p.new }
{
    if flight.row.is_some() {
        return Ok(None);
    }
    let row = row_now(p, rows, flight.doc)?;
    Ok(Some(row))
}
