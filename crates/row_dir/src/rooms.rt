// What the directory keeps in memory, changed. No call here takes memory.
ghost use Rattle.std.specs.Prelude.{◌≡◌, ◌≢◌, ◌+◌, ◌≤◌, ◌<◌, ℕ, nat_eq, cond, List, [], ◌∷◌, ◌++◌, length, take, slice_index, Some, None, IfSome, IfNone, IsSome};
ghost use Rattle.indexmap.specs.IndexMap.{get, keys, insert_entry};

use crate::RowDir;
use engine_base::{Addr, DocId, PageNo};

// A row page with free slots, behind so many pages that are full.
#[derive(Clone, Copy)]
pub(crate) struct OpenPage {
    pub index: usize,
    pub page: PageNo,
    pub free: u16,
}

// The first place from there on where the number isn't zero; behind the last, if there is none.
fn first_above(rooms: &[u16], from: usize) -> usize
    ensures zeros { (i : ℕ) → from ≤ i → i < result → i < length rooms.now
        → slice_index rooms.now i ≡ 0 }
    ensures found { result < length rooms.now → slice_index rooms.now result ≢ 0 }
    ensures low { from ≤ result }
{
    let mut i = from;
    while i < rooms.len() {
        if rooms[i] > 0 {
            return i;
        }
        i += 1;
    }
    i
}

impl RowDir {
    ghost use Rattle.row_dir.specs.Directory.{AreFull, IsFirstOpen, HasRoom, numbers};
    ghost use Rattle.row_dir.specs.Notes.{NotesRow, ForgetsRow, FreesSlot, ForgetsPage};

    /// The first row page with a free slot. Pages that are known to be full aren't looked at.
    pub(crate) fn first_open(&self) -> Option<OpenPage>
        ensures some { AreFull (take self.now.full self.now.pages.entries) → IfSome result
            (λ o. IsFirstOpen self.now.pages.entries o.index o.page.0 o.free) }
        ensures none { AreFull (take self.now.full self.now.pages.entries)
            → IfNone result (AreFull self.now.pages.entries) }
        ensures has { IfSome result (λ o. get nat_eq self.now.pages o.page.0 ≡ Some o.free) }
        ensures free { IfSome result (λ o. 1 ≤ o.free) }
    {
        let rooms = self.pages.values();
        let index = first_above(rooms.as_slice(), self.full);
        let Some((page, free)) = self.pages.get_index(index) else {
            return None;
        };
        Some(OpenPage {
            index,
            page: PageNo(*page),
            free: *free,
        })
    }

    /// Notes a new document's slot, and how many slots of its page are free then; of so many first
    /// pages none is.
    pub(crate) fn note(&mut self, doc: DocId, place: Addr, free: u16, full: usize)
        requires room { HasRoom self.old }
        requires absent { get nat_eq self.old.places doc.0 ≡ None }
        ensures { NotesRow doc place free full self.old self.new }
    {
        let _ = self.places.insert(doc.0, place);
        let _ = self.docs.push(doc);
        let _ = self.pages.insert(place.page.0, free);
        self.full = full;
    }

    /// Takes the document out.
    pub(crate) fn forget(&mut self, doc: DocId)
        ensures { ForgetsRow doc self.old self.new }
    {
        let Some((i, _, _)) = self.places.swap_remove_full(&doc.0) else {
            return;
        };
        if i < self.docs.len() {
            self.docs.swap_remove(i);
        }
    }

    /// Notes that a slot of the page is free, and how many are.
    pub(crate) fn free_up(&mut self, page: PageNo, free: u16)
        requires there { IsSome (get nat_eq self.old.pages page.0) }
        ensures { FreesSlot page.0 free self.old self.new }
    {
        let index = self.pages.get_index_of(&page.0);
        let _ = self.pages.insert(page.0, free);
        self.full = self.full.min(index.unwrap_or(0));
    }

    /// Takes the page out.
    pub(crate) fn forget_page(&mut self, page: PageNo)
        requires there { IsSome (get nat_eq self.old.pages page.0) }
        ensures { ForgetsPage page.0 self.old self.new }
    {
        let index = self.pages.get_index_of(&page.0);
        let _ = self.pages.shift_remove(&page.0);
        self.full = self.full.min(index.unwrap_or(0));
    }
}
