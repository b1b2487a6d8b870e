//! The version of a piece that a read shows, looked for and copied.
ghost use Rattle.std.specs.Prelude.{◌≡◌, ◌+◌, ◌<◌, ◌≤◌, ◌^◌, List, [], ◌∷◌, length, Option, Some, IfOk, OnErr};
ghost use Rattle.page_model.specs.Pages.{Pages};
ghost use Rattle.page_model.specs.Steps.{MayUse, Uses};
ghost use Rattle.engine_base.specs.Addresses.{address_of};
ghost use Rattle.engine_base.specs.Faults.{HasCause, FailsPlainly};
ghost use Rattle.store_data.specs.Pieces.{Part};
ghost use Rattle.store_data.specs.Store.{Piece as StorePiece, Store};
ghost use Rattle.lob_model.specs.declared.layout.TheConstants.{DATA_ROOM};
ghost use Rattle.lob_pages.specs.Entries.{FitsPage};
ghost use Rattle.lob_bytes.specs.Reads.{IfVersion};
ghost use Rattle.row_dir.specs.Directory.{IsBelow};
ghost use Rattle.read_model.specs.Document.{Document, Sees};
ghost use Rattle.read_model.specs.Steps.{with_part};
ghost use Rattle.read_views.specs.Flights.{flight_of, row_read};
ghost use Rattle.read_views.specs.Steps.{part_of, with_node, HasPlaceFor};
ghost use Rattle.version_read.specs.Lent.{Follows};
ghost use Rattle.version_read.specs.Reads.{document_of, StepsOn};
ghost use Rattle.version_read.specs.Pieces.{IsAtPiece, Begins, Finds, IsDataOf, TakesPiece};

use crate::places::check_place;
use crate::rows::{present_row, row_now};
use engine_base::{Addr, Fault, PageNo, Pages, strange};
use lob_bytes::read_piece;
use lob_index::next_head;
use lob_model::layout::{DATA_ROOM, LENGTH, VERSION};
use lob_pages::read_entry;
use lob_versions::{Found, find_version};
use read_views::{Flight, Phase};
use row_dir::RowDir;
use undo_records::Row;

// What stands behind a piece.
#[derive(Drop)]
enum Behind {
    // The head of the next piece.
    Piece(Addr),
    // No piece. The walk begins at this row.
    Walk(Row),
}

// A version's data: its page, and how many bytes.
#[derive(Drop)]
struct Data {
    page: PageNo,
    length: usize,
}

// An event on the piece with that head: its version is looked for from a node on.
pub(crate) fn look_at<P: Pages>(
    flight: &mut Flight,
    p: &mut P,
    rows: &RowDir,
    head: Addr,
    from: Addr,
) -> Result<(), Fault>
    requires phase { flight.old.phase ≡ Phase.Pieces }
    requires head { FitsPage (P.state p.old).count (address_of head) }
    requires from { FitsPage (P.state p.old).count (address_of from) }
    requires below { IsBelow (P.state p.old).count rows.now }
    requires may { MayUse (from.page.0 ∷ head.page.0 ∷ []) 10 0 (P.state p.old) }
    ensures copies { (pages : Pages) (store : Store) (sees : Sees) (shown : Option (List Part))
        → (at : IsAtPiece (P.state p.old).told pages store rows.now sees shown flight.old
        (address_of head)) → Begins flight.old at.piece (address_of from)
        → IfOk result (λ _. StepsOn sees store shown flight.old flight.new) }
    ensures of { (flight.new.view ≡ flight.old.view) × (flight.new.doc ≡ flight.old.doc) }
    ensures err { OnErr result (flight.new ≡ flight.old) }
    ensures never { (pages : Pages) (store : Store) (sees : Sees) (shown : Option (List Part))
        → (at : IsAtPiece (P.state p.old).told pages store rows.now sees shown flight.old
        (address_of head)) → Begins flight.old at.piece (address_of from)
        → FailsPlainly result }
    ensures cause { HasCause (P.state p.old).faults (P.state p.new).faults result }
    ensures told { (P.state p.new).told ≡ (P.state p.old).told }
    ensures uses { Uses P.state P.stays (from.page.0 ∷ head.page.0 ∷ []) 10 0 p.old p.new }
{
    let row = present_row(flight.row, flight.doc);
    match find_version(p, head, from, row.lob.version)? {
        Found::At(entry) => copy_version(flight, p, rows, head, entry),
        Found::More(node) => {
            note_node(flight, head, node);
            Ok(())
        }
        Found::Gone => strange(head.page, head.at + VERSION, u64::from(row.lob.version.0)),
    }
}

// The search goes on at a node in the next event.
fn note_node(flight: &mut Flight, head: Addr, node: Addr)
    ensures read { flight_of flight.new ≡ with_node (address_of node) (flight_of flight.old) }
    ensures head { flight.new.head ≡ Some head }
    ensures row { (flight.new.row ≡ flight.old.row) × (flight.new.phase ≡ flight.old.phase) }
    ensures of { (flight.new.view ≡ flight.old.view) × (flight.new.doc ≡ flight.old.doc)
        × (flight.new.piece ≡ flight.old.piece) × (flight.new.from ≡ flight.old.from)
        × (flight.new.buffer ≡ flight.old.buffer) }
{
    flight.look_on(node);
    flight.head = Some(head);
}

// Copies the version whose entry that is.
fn copy_version<P: Pages>(
    flight: &mut Flight,
    p: &mut P,
    rows: &RowDir,
    head: Addr,
    entry: Addr,
) -> Result<(), Fault>
    requires phase { flight.old.phase ≡ Phase.Pieces }
    requires head { FitsPage (P.state p.old).count (address_of head) }
    requires below { IsBelow (P.state p.old).count rows.now }
    requires may { MayUse (head.page.0 ∷ []) 3 0 (P.state p.old) }
    ensures copies { (pages : Pages) (store : Store) (sees : Sees) (shown : Option (List Part))
        → (at : IsAtPiece (P.state p.old).told pages store rows.now sees shown flight.old
        (address_of head)) → Finds flight.old at.piece (address_of entry)
        → IfOk result (λ _. StepsOn sees store shown flight.old flight.new) }
    ensures of { (flight.new.view ≡ flight.old.view) × (flight.new.doc ≡ flight.old.doc) }
    ensures err { OnErr result (flight.new ≡ flight.old) }
    ensures never { (pages : Pages) (store : Store) (sees : Sees) (shown : Option (List Part))
        → (at : IsAtPiece (P.state p.old).told pages store rows.now sees shown flight.old
        (address_of head)) → Finds flight.old at.piece (address_of entry)
        → FailsPlainly result }
    ensures cause { HasCause (P.state p.old).faults (P.state p.new).faults result }
    ensures told { (P.state p.new).told ≡ (P.state p.old).told }
    ensures uses { Uses P.state P.stays (head.page.0 ∷ []) 3 0 p.old p.new }
{
    let mut bytes = [0u8; DATA_ROOM as usize];
    let found = read_version(p, entry, &mut bytes)?;
    if !flight.has_place_for(found.length) {
        return strange(entry.page, entry.at + LENGTH, found.length as u64);
    }
    let behind = piece_behind(p, rows, flight, head)?;
    take_piece(flight, found.page, &bytes[..found.length], behind);
    Ok(())
}

// The data of the version whose entry that is, read to the front of `into`.
fn read_version<P: Pages>(p: &mut P, entry: Addr, into: &mut [u8]) -> Result<Data, Fault>
    requires into { length into.old ≡ DATA_ROOM }
    requires may { MayUse [] 2 0 (P.state p.old) }
    ensures reads { IfVersion (P.state p.old).told (address_of entry)
        (λ pages x. IfOk result (λ d. IsDataOf x d into.new)) }
    ensures fits { IfOk result (λ d. FitsPage (P.state p.old).count (address_of entry)
        × (d.length ≤ DATA_ROOM)) }
    ensures never { FitsPage (P.state p.old).count (address_of entry)
        → IfVersion (P.state p.old).told (address_of entry) (λ pages x. FailsPlainly result) }
    ensures cause { HasCause (P.state p.old).faults (P.state p.new).faults result }
    ensures told { (P.state p.new).told ≡ (P.state p.old).told }
    ensures uses { Uses P.state P.stays [] 2 0 p.old p.new }
{
    check_place(p.count(), entry)?;
    let fields = read_entry(p, entry)?;
    let length = read_piece(p, entry, into)?;
    Ok(Data {
        page: fields.page,
        length,
    })
}

// What stands behind the piece with that head.
fn piece_behind<P: Pages>(
    p: &mut P,
    rows: &RowDir,
    flight: &Flight,
    head: Addr,
) -> Result<Behind, Fault>
    requires phase { flight.now.phase ≡ Phase.Pieces }
    requires head { FitsPage (P.state p.old).count (address_of head) }
    requires position { flight.now.piece + 1 < 2 ^ 32 }
    requires below { IsBelow (P.state p.old).count rows.now }
    requires may { MayUse (head.page.0 ∷ []) 1 0 (P.state p.old) }
    ensures follows { (pages : Pages) (store : Store) (sees : Sees) (shown : Option (List Part))
        → (at : IsAtPiece (P.state p.old).told pages store rows.now sees shown flight.now
        (address_of head))
        → IfOk result (λ b. Follows b (document_of store flight.now).row at.more) }
    ensures never { (pages : Pages) (store : Store) (sees : Sees) (shown : Option (List Part))
        → IsAtPiece (P.state p.old).told pages store rows.now sees shown flight.now
        (address_of head) → FailsPlainly result }
    ensures cause { HasCause (P.state p.old).faults (P.state p.new).faults result }
    ensures told { (P.state p.new).told ≡ (P.state p.old).told }
    ensures uses { Uses P.state P.stays (head.page.0 ∷ []) 1 0 p.old p.new }
{
    let Some(next) = next_head(p, head, flight.piece)? else {
        let row = row_now(p, rows, flight.doc)?;
        return Ok(Behind::Walk(row));
    };
    Ok(Behind::Piece(next))
}

// Copies these bytes, of that page, and goes on with what stands behind the piece.
fn take_piece(flight: &mut Flight, page: PageNo, bytes: &[u8], behind: Behind)
    requires phase { flight.old.phase ≡ Phase.Pieces }
    requires place { HasPlaceFor flight.old (length bytes.now) }
    ensures read { (doc : Document) (more : List StorePiece) → Follows behind doc.row more
        → flight_of flight.new ≡ with_part doc more (part_of (row_read flight.old.row).lob.page
        page.0 bytes.now) (flight_of flight.old) }
    ensures takes { TakesPiece behind flight.old flight.new }
{
    flight.copy(page, bytes);
    match behind {
        Behind::Piece(next) => flight.head = Some(next),
        Behind::Walk(row) => flight.begin_walk(&row),
    }
}
