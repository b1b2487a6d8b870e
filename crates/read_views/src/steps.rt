//! The steps of a read that rest on no page: what it makes of a row, a node, a piece that was read.
ghost use Rattle.std.specs.Prelude.{◌≡◌, ◌+◌, ◌≤◌, length, set, Some, Decides};
ghost use Rattle.engine_base.specs.Addresses.{address_of};
ghost use Rattle.read_model.specs.Flight.{Ready};
ghost use Rattle.read_model.specs.Steps.{arrived, judging};
ghost use Rattle.read_views.specs.Flights.{flight_of, row_in, row_read, HasCopied};
ghost use Rattle.read_views.specs.Steps.{piece_start, piece_room, with_node, with_copy, with_walk, with_phase, with_bytes, part_of, HasPlaceFor, KeepsLent};

use crate::flight::onward;
use crate::{Flight, Phase};
use engine_base::{Addr, PageNo};
use lob_model::layout::{DATA_ROOM, FIRST_ROOM};
use undo_records::{RollPtr, Row, RowState};

impl Flight {
    /// The view sees this row: the read is at Found with the document's length, or at Absent where
    /// the row is absent or deleted.
    pub fn arrive(&mut self, row: Row)
        ensures read { flight_of self.new ≡ arrived (row_in row) }
        ensures row { self.new.row ≡ Some row }
        ensures of { KeepsLent self.old self.new }
    {
        self.phase = match row.state {
            RowState::Live => Phase::Found(row.lob.length),
            RowState::Absent | RowState::Deleted => Phase::Absent,
        };
        self.row = Some(row);
        self.cursor = RollPtr(0);
        self.node = None;
    }

    /// The search for the row that the view sees goes on at this one.
    pub fn judge_next(&mut self, row: Row)
        ensures read { flight_of self.new ≡ judging (row_in row) }
        ensures row { self.new.row ≡ Some row }
        ensures phase { self.new.phase ≡ Phase.Seek }
        ensures of { KeepsLent self.old self.new }
    {
        self.phase = Phase::Seek;
        self.row = Some(row);
        self.cursor = RollPtr(0);
        self.node = None;
    }

    /// The search for the piece's version goes on at this node.
    pub fn look_on(&mut self, node: Addr)
        ensures read { flight_of self.new ≡ with_node (address_of node) (flight_of self.old) }
        ensures row { (self.new.row ≡ self.old.row) × (self.new.phase ≡ self.old.phase) }
        ensures of { KeepsLent self.old self.new }
    {
        self.node = Some(node);
    }

    /// Whether the piece that is copied next may have so many bytes: there is a place for its page,
    /// and they fill the piece's place in the buffer, or are the last of it.
    pub fn has_place_for(&self, size: usize) -> bool
        ensures { Decides result (HasPlaceFor self.now size) }
    {
        if self.piece as usize >= self.from.len() || self.from.len() > u32::MAX as usize {
            return false;
        }
        let room = room_of(self.piece);
        if size > room {
            return false;
        }
        let end = start_of(self.piece) + size;
        end == self.buffer.len() || (size == room && end < self.buffer.len())
    }

    /// Copies the next piece: these bytes of that page.
    pub fn copy(&mut self, page: PageNo, bytes: &[u8])
        requires phase { self.old.phase ≡ Phase.Pieces }
        requires place { HasPlaceFor self.old (length bytes.now) }
        ensures read { flight_of self.new ≡ with_copy (part_of (row_read self.old.row).lob.page
            page.0 bytes.now) (flight_of self.old) }
        ensures piece { self.new.piece ≡ self.old.piece + 1 }
        ensures buffer { self.new.buffer.items
            ≡ with_bytes (piece_start self.old.piece) bytes.now self.old.buffer.items }
        ensures from { self.new.from.items ≡ set self.old.from.items self.old.piece page }
        ensures lengths { (length self.new.buffer.items ≡ length self.old.buffer.items)
            × (length self.new.from.items ≡ length self.old.from.items) }
        ensures row { (self.new.row ≡ self.old.row) × (self.new.phase ≡ self.old.phase)
            × (self.new.head ≡ self.old.head) }
        ensures of { (self.new.view ≡ self.old.view) × (self.new.doc ≡ self.old.doc) }
    {
        let start = start_of(self.piece);
        put_bytes(self.buffer.as_mut_slice(), start, bytes);
        self.from[self.piece as usize] = page;
        self.piece += 1;
        self.node = None;
    }

    /// All pieces are copied: the walk begins at the document's present row.
    pub fn begin_walk(&mut self, present: &Row)
        requires { HasCopied self.old.phase }
        ensures read { flight_of self.new ≡ with_walk (row_in present.now) (flight_of self.old) }
        ensures row { (self.new.row ≡ self.old.row) × (self.new.phase ≡ Phase.Unpatch) }
        ensures of { KeepsLent self.old self.new }
    {
        self.cursor = onward(&self.row, present);
        self.node = None;
        self.phase = Phase::Unpatch;
    }

    /// Nothing is left to put back.
    pub fn finish(&mut self)
        requires { HasCopied self.old.phase }
        ensures read { flight_of self.new ≡ with_phase Ready (flight_of self.old) }
        ensures row { (self.new.row ≡ self.old.row) × (self.new.phase ≡ Phase.Ready) }
        ensures of { KeepsLent self.old self.new }
    {
        self.phase = Phase::Ready;
    }
}

// Where a piece begins in the buffer.
fn start_of(piece: u32) -> usize
    ensures { result ≡ piece_start piece }
{
    if piece == 0 {
        return 0;
    }
    usize::from(FIRST_ROOM) + (piece as usize - 1) * usize::from(DATA_ROOM)
}

// How many bytes there are for it.
fn room_of(piece: u32) -> usize
    ensures { result ≡ piece_room piece }
{
    usize::from(if piece == 0 { FIRST_ROOM } else { DATA_ROOM })
}

// Bytes written into the buffer from a place on.
fn put_bytes(buffer: &mut [u8], start: usize, bytes: &[u8])
    requires { start + length bytes.now ≤ length buffer.old }
    ensures { buffer.new ≡ with_bytes start bytes.now buffer.old }
{
    buffer[start..start + bytes.len()].copy_from_slice(bytes);
}
