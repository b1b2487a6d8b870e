//! A read under way.
ghost use Rattle.std.specs.Prelude.{◌≡◌, ◌≢◌, ℕ, [], length, Some, None, IfSome};
ghost use Rattle.store_model.specs.History.{absent_row};
ghost use Rattle.store_model.specs.Lobs.{joined};
ghost use Rattle.undo_model.specs.Data.{led};
ghost use Rattle.engine_base.specs.Addresses.{address_of};
ghost use Rattle.read_model.specs.Flight.{lent, onward};
ghost use Rattle.read_model.specs.Steps.{judging, moved, hand_on, put};
ghost use Rattle.read_model.specs.Buffer.{left_in};
ghost use Rattle.read_views.specs.Steps.{KeepsLent};
ghost use Rattle.read_views.specs.Flights.{flight_of, phase_of, record_in, handed_to, pages_copied, row_read, row_in, with_put, HasCopied, KeepsPlaces};

use crate::pieces::put_back;
use crate::places::{leads, place_of};
use engine_base::{Addr, DocId, PageNo};
use lob_pages::TrxId;
use std::alloc::Global;
use undo_records::{RollPtr, Row, UndoRecord};

/// How far a read has come.
#[derive(Clone, Copy, Debug, PartialEq, Eq)]
pub enum Phase {
    /// It looks for the row that its view sees.
    Seek,
    /// The row is found, and its document has so many bytes. The buffer is to be lent.
    Found(u32),
    /// It copies the document's pieces.
    Pieces,
    /// It puts back the old bytes of the changes that its view doesn't see.
    Unpatch,
    /// Its buffer is the document.
    Ready,
    /// Its view sees no document.
    Absent,
}

/// A read under way, between two of its events.
#[derive(Drop)]
pub struct Flight {
    /// The key of its view; None where it reads the newest document.
    pub view: Option<usize>,
    pub doc: DocId,
    pub phase: Phase,
    /// None before the first event, in Seek the row that is judged next, from Found on the row that
    /// the view sees.
    pub row: Option<Row>,
    /// In Unpatch it leads to the record that is put back next.
    pub cursor: RollPtr,
    /// The piece that is copied next, from 0.
    pub piece: u32,
    /// In Pieces the node at which the search for it stands; None at its head.
    pub node: Option<Addr>,
    /// In Pieces the place of its head, once that is known.
    pub head: Option<Addr>,
    /// The copied pieces, one behind the other.
    pub buffer: Vec<u8>,
    /// The page that each copied piece came from, and a place for each that is still to come.
    pub from: Vec<PageNo>,
}

impl Flight {
    /// A read of a document before its first event. It takes no memory.
    pub fn start(alloc: Global, view: Option<usize>, doc: DocId) -> Flight
        ensures read { flight_of result ≡ judging absent_row }
        ensures row { result.row ≡ None }
        ensures of { (result.view ≡ view) × (result.doc ≡ doc) × (result.phase ≡ Phase.Seek) }
        ensures none { (result.piece ≡ 0) × (result.head ≡ None) × (result.node ≡ None) }
    {
        Flight {
            view,
            doc,
            phase: Phase::Seek,
            row: None,
            cursor: RollPtr(0),
            piece: 0,
            node: None,
            head: None,
            buffer: Vec::new(alloc),
            from: Vec::new(alloc),
        }
    }

    /// How far it has come.
    pub fn phase(&self) -> Phase
        ensures { result ≡ self.now.phase }
    {
        self.phase
    }

    /// Lends the buffer, where the row is found: as many bytes as Found tells, and a place for the
    /// page of each piece.
    pub fn lend(&mut self, buffer: Vec<u8>, from: Vec<PageNo>)
        ensures read { flight_of self.new ≡ lent (flight_of self.old) }
        ensures buffer { (self.new.buffer ≡ buffer) × (self.new.from ≡ from) }
        ensures first { (self.new.piece ≡ 0) × (self.new.head ≡ None) × (self.new.node ≡ None) }
        ensures phase { self.new.phase ≡ Phase.Pieces }
        ensures of { (self.new.view ≡ self.old.view) × (self.new.doc ≡ self.old.doc)
            × (self.new.row ≡ self.old.row) × (self.new.cursor ≡ self.old.cursor) }
    {
        self.buffer = buffer;
        self.from = from;
        self.piece = 0;
        self.node = None;
        self.head = None;
        self.phase = Phase::Pieces;
    }

    /// The record at that place, the newest of its document, is undone. A read of this document to
    /// which it comes next takes its step: it judges the row before, or puts back the record's old
    /// bytes. A read of another document stays, also where a roll pointer that is no more leads to
    /// this place.
    pub fn hand_on(&mut self, at: RollPtr, rec: &UndoRecord)
        ensures read { IfSome (led at.0) (λ a. flight_of self.new ≡ handed_to self.old.doc.0 a
            (record_in rec.now) (flight_of self.old)) }
        ensures nowhere { led at.0 ≡ None → flight_of self.new ≡ flight_of self.old }
        ensures row { self.old.phase ≢ Phase.Seek → self.new.row ≡ self.old.row }
        ensures of { KeepsPlaces self.old self.new }
    {
        let Some(place) = place_of(at) else {
            return;
        };
        if rec.doc == self.doc {
            self.step_back(place, rec);
        }
    }

    // The record, the newest of its document, goes from that place.
    fn step_back(&mut self, place: Addr, rec: &UndoRecord)
        ensures read { flight_of self.new ≡ hand_on (address_of place) (record_in rec.now)
            (flight_of self.old) }
        ensures row { self.old.phase ≢ Phase.Seek → self.new.row ≡ self.old.row }
        ensures of { KeepsPlaces self.old self.new }
    {
        match self.phase {
            Phase::Seek => self.judge_before(place, rec),
            Phase::Pieces => self.put_copied(rec),
            Phase::Unpatch => self.put_next(place, rec),
            Phase::Found(_) | Phase::Ready | Phase::Absent => {}
        }
    }

    // In Seek: where the row that is judged next came by that record, the row before is.
    fn judge_before(&mut self, place: Addr, rec: &UndoRecord)
        requires { self.old.phase ≡ Phase.Seek }
        ensures read { flight_of self.new ≡ hand_on (address_of place) (record_in rec.now)
            (flight_of self.old) }
        ensures of { KeepsPlaces self.old self.new }
    {
        let roll = match &self.row {
            Some(row) => row.roll,
            None => RollPtr(0),
        };
        if leads(roll, place) {
            self.row = Some(rec.before);
        }
    }

    // In Unpatch: where the record is the next, it is put back.
    fn put_next(&mut self, place: Addr, rec: &UndoRecord)
        requires { self.old.phase ≡ Phase.Unpatch }
        ensures read { flight_of self.new ≡ hand_on (address_of place) (record_in rec.now)
            (flight_of self.old) }
        ensures row { self.new.row ≡ self.old.row }
        ensures of { KeepsPlaces self.old self.new }
    {
        if leads(self.cursor, place) {
            self.put(rec);
        }
    }

    /// In Unpatch: puts a record back, and leads the walk behind it.
    pub fn put(&mut self, rec: &UndoRecord)
        requires { self.old.phase ≡ Phase.Unpatch }
        ensures read { flight_of self.new ≡ put (record_in rec.now) (flight_of self.old) }
        ensures row { self.new.row ≡ self.old.row }
        ensures of { KeepsPlaces self.old self.new }
    {
        self.cursor = onward(&self.row, &rec.before);
        self.put_copied(rec);
    }

    // Its old bytes, into the copied pieces.
    fn put_copied(&mut self, rec: &UndoRecord)
        requires { HasCopied self.old.phase }
        ensures read { flight_of self.new ≡ with_put (record_in rec.now) (flight_of self.old) }
        ensures of { KeepsPlaces self.old self.new }
        ensures cursor { (self.new.cursor ≡ self.old.cursor) × (self.new.row ≡ self.old.row) }
    {
        let lob = lob_of(&self.row);
        let copied = self.from.len().min(self.piece as usize);
        put_back(
            self.buffer.as_mut_slice(),
            lob,
            &self.from.as_slice()[..copied],
            rec,
        );
    }

    /// The node of a version list is freed whose head that is: a search that stands there goes on
    /// from the head.
    pub fn moved(&mut self, node: Addr, head: Addr)
        ensures read { flight_of self.new ≡ moved (address_of node) (address_of head)
            (flight_of self.old) }
        ensures row { (self.new.row ≡ self.old.row) × (self.new.phase ≡ self.old.phase)
            × (self.new.cursor ≡ self.old.cursor) }
        ensures of { KeepsLent self.old self.new }
    {
        if self.node == Some(node) {
            self.node = Some(head);
        }
    }

    /// The document, at Ready: as many bytes as were lent. They are the copied pieces where none is
    /// left to copy.
    pub fn bytes(&self) -> &[u8]
        requires { self.now.phase ≡ Phase.Ready }
        ensures value { result.now ≡ self.now.buffer.items }
        ensures pieces { left_in (pages_copied self.now) self.now.buffer.items ≡ []
            → result.now ≡ joined (flight_of self.now).copied }
    {
        self.buffer.as_slice()
    }
}

// The first page of a row's LOB.
fn lob_of(row: &Option<Row>) -> PageNo
    ensures { result.0 ≡ (row_read row.now).lob.page }
{
    match row {
        Some(row) => row.lob.page,
        None => PageNo(0),
    }
}

/// Where a walk goes on from a row, which stands behind none at the row that the view sees: of the
/// rows above that one none is of its transaction.
pub(crate) fn onward(seen: &Option<Row>, row: &Row) -> RollPtr
    ensures { led result.0 ≡ onward (row_read seen.now) (row_in row.now) }
{
    let trx = match seen {
        Some(seen) => seen.trx,
        None => TrxId(0),
    };
    if row.trx == trx { RollPtr(0) } else { row.roll }
}
