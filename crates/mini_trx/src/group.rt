// The writes of a mini-transaction, in order.
ghost use Rattle.std.specs.Prelude.{◌≡◌, ◌+◌, ◌≤◌, ◌<◌, ◌++◌, [], ◌∷◌, List, length, vec_capacity, slice_index_or, All, IfOk, IfErr};
ghost use Rattle.page_model.specs.Pages.{Write, page_bytes};
ghost use Rattle.page_model.specs.Steps.{write_head};
ghost use Rattle.page_model.specs.Frames.{frame_bytes, max_group, write, IsInside, IsFrame, HoldsFrame};
ghost use Rattle.mini_trx.specs.PageWrites.{write_of};

use crate::{PageWrite, Writes, frame};
use engine_base::PageNo;
use std::marker::Model;

/// All writes of one mini-transaction, in the order of writing, as one frame in a buffer.
#[derive(Debug, Drop)]
pub struct Group {
    buffer: Vec<u8>,
}

impl Model for Group {
    ghost use Rattle.std.specs.Prelude.{vec_capacity};
    ghost use Rattle.page_model.specs.Frames.{writes_in};
    ghost use Rattle.mini_trx.specs.Groups.{GroupView, KeepsFrame};

    ghost Value = { GroupView };

    ghost view = { λ g. record {
      writes = writes_in g.buffer.items;
      capacity = vec_capacity g.buffer;
    } };

    ghost invariant = { λ g. KeepsFrame g.buffer.items };
}

impl Group {
    ghost use Rattle.mini_trx.specs.WritesLeft.{writes_left};

    /// A group without writes in this buffer. Takes no memory.
    pub(crate) fn new(mut buffer: Vec<u8>) -> Group
        requires { max_group ≤ vec_capacity buffer }
        ensures writes { result.writes ≡ [] }
        ensures capacity { max_group ≤ result.capacity }
    {
        frame::begin(&mut buffer);
        Group { buffer }
    }

    /// Appends a write: the one copy of its bytes here. Takes no memory.
    pub(crate) fn append(&mut self, page: PageNo, at: u16, bytes: &[u8])
        requires room { length (frame_bytes self.old.writes) + (length bytes.now + write_head)
            ≤ max_group }
        requires capacity { max_group ≤ self.old.capacity }
        requires within { at + length bytes.now ≤ page_bytes }
        ensures writes { self.new.writes ≡ self.old.writes ++ write page.0 at bytes.now ∷ [] }
        ensures capacity { max_group ≤ self.new.capacity }
    {
        frame::append(&mut self.buffer, page, at, bytes);
    }

    /// The length of the group as a frame, in bytes.
    pub fn len(&self) -> usize
        ensures frame { result ≡ length (frame_bytes self.now.writes) }
        ensures most { result ≤ max_group }
    {
        self.buffer.len()
    }

    /// How many writes the group has.
    pub fn count(&self) -> usize
        ensures { result ≡ length self.now.writes }
    {
        usize::from(frame::count_of(&self.buffer))
    }

    /// Write i in the order of writing. It walks over the writes before it; `writes` gives all of
    /// them in one walk.
    pub fn get(&self, i: usize) -> PageWrite<'_>
        requires { i < length self.now.writes }
        ensures { write_of result ≡ slice_index_or self.now.writes i (write_of result) }
    {
        frame::nth_write(&self.buffer, i)
    }

    /// All writes, in the order of writing.
    pub fn writes(&self) -> Writes<'_>
        ensures { writes_left result ≡ self.now.writes }
    {
        Writes::of_frame(&self.buffer)
    }

    /// The group as a frame.
    pub fn frame(&self) -> &[u8]
        ensures { result.now ≡ frame_bytes self.now.writes }
    {
        &self.buffer
    }

    /// Hands the buffer back, with the frame in it.
    pub fn into_buffer(self) -> Vec<u8>
        ensures frame { result.items ≡ frame_bytes self.writes }
        ensures capacity { vec_capacity result ≡ self.capacity }
    {
        let Group { buffer } = self;
        buffer
    }

    /// Reads a buffer's bytes as the frame of a group within so many pages, and hands it back where
    /// they are none. Copies nothing.
    pub fn from_frame(buffer: Vec<u8>, pages: u32) -> Result<Group, Vec<u8>>
        ensures frame { IfOk result (λ g. buffer.items ≡ frame_bytes g.writes) }
        ensures inside { IfOk result (λ g. All (IsInside pages) g.writes) }
        ensures same { IfOk result (λ g. (ws : List Write) → IsFrame pages ws buffer.items
            → g.writes ≡ ws) }
        ensures capacity { IfOk result (λ g. g.capacity ≡ vec_capacity buffer) }
        ensures err { IfErr result (λ b. (b ≡ buffer) × ¬ (HoldsFrame pages buffer.items)) }
    {
        if frame::is_frame(&buffer, pages) {
            Ok(Group { buffer })
        } else {
            Err(buffer)
        }
    }
}
