// What a mini-transaction holds: the pages lent to it, and the group of its writes.
ghost use Rattle.std.specs.Prelude.{◌≡◌, ◌+◌, ◌≤◌, ◌<◌, ◌++◌, [], ◌∷◌, List, length, MatchOption, slice_index_or, slice_set, vec_capacity};
ghost use Rattle.page_model.specs.Pages.{Write, page_bytes, patched};
ghost use Rattle.page_model.specs.Steps.{write_head};
ghost use Rattle.mini_trx.specs.Copies.{PageCopy, page_copy};
ghost use Rattle.page_model.specs.Frames.{frame_bytes, max_group, write};

use crate::Group;
use crate::lent::LentPages;
use engine_base::{PageBuf, PageNo};

/// What a mini-transaction lets go where it ends: its frames, and its group.
pub trait Holdings {
    /// The pages pinned, each with its copy.
    ghost copies: { Self → List PageCopy };

    /// The writes made so far.
    ghost writes: { Self → List Write };

    /// Takes one of the frames out.
    fn take_frame(&mut self) -> Option<PageBuf>
        ensures frames { MatchOption result (copies self.old ≡ [])
            (λ _. length (copies self.new) + 1 ≡ length (copies self.old)) }
        ensures writes { writes self.new ≡ writes self.old };

    fn into_group(self) -> Group
        ensures writes { result.writes ≡ writes self }
        ensures capacity { max_group ≤ result.capacity };
}

/// The pages that a mini-transaction has pinned, and its writes, in the order of writing.
#[derive(Drop)]
pub struct Memo {
    pub(crate) lent: LentPages,
    pub(crate) group: Group,
    ghost room: { max_group ≤ group.capacity },
}

impl Memo {
    /// No page is pinned, and nothing written. Takes no memory.
    pub(crate) fn new(buffer: Vec<u8>) -> Memo
        requires { max_group ≤ vec_capacity buffer }
        ensures lent { result.lent ≡ [] }
        ensures writes { result.group.writes ≡ [] }
    {
        Memo {
            lent: LentPages::new(),
            group: Group::new(buffer),
        }
    }

    /// Writes over a part of copy i, which is of this page: one copy of the bytes into the frame,
    /// and one into the group.
    pub(crate) fn write(&mut self, i: usize, page: PageNo, at: u16, bytes: &[u8])
        requires place { i < length self.old.lent }
        requires within { at + length bytes.now ≤ page_bytes }
        requires room { length (frame_bytes self.old.group.writes) + (length bytes.now + write_head)
            ≤ max_group }
        ensures copies { let copy = slice_index_or self.old.lent i (page_copy 0 []) in
            self.new.lent ≡ slice_set self.old.lent i
            (page_copy copy.page (patched copy.bytes at bytes.now)) }
        ensures writes { self.new.group.writes
            ≡ self.old.group.writes ++ write page.0 at bytes.now ∷ [] }
    {
        self.lent.patch(i, usize::from(at), bytes);
        self.group.append(page, at, bytes);
    }
}

impl Holdings for Memo {
    ghost copies = { λ memo. memo.lent };

    ghost writes = { λ memo. memo.group.writes };

    fn take_frame(&mut self) -> Option<PageBuf> {
        self.lent.pop()
    }

    fn into_group(self) -> Group {
        let Memo { lent: _, group } = self;
        group
    }
}
