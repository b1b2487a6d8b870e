// A row put into a slot.
ghost use Rattle.std.specs.Prelude.{◌≡◌, ◌+◌, ◌*◌, ◌≤◌, ◌<◌, ℕ, nat_eq, List, [], ◌∷◌, Some, None, IfErr, OnOk};
ghost use Rattle.indexmap.specs.IndexMap.{get};
ghost use Rattle.page_model.specs.Pages.{Pages};
ghost use Rattle.page_model.specs.Steps.{MayUse, Uses, Becomes, write_head};
ghost use Rattle.engine_base.specs.Faults.{HasCause, FailsPlainly, IsHonest};
ghost use Rattle.page_space.specs.Map.{IsSize, free_of};
ghost use Rattle.undo_model.specs.Rows.{RowPage, IfRows, row_base, slot_size};
ghost use Rattle.row_dir.specs.Slots.{keyed_of, IsSoundRow};
ghost use Rattle.row_dir.specs.RowPages.{CanChange};
ghost use Rattle.row_dir.specs.Honest.{IsOddOpen, IsOddFill, IsOddPut};

use crate::RowDir;
use crate::layout::{FIRST_SLOT, MAX_SLOTS};
use crate::opening::open_page;
use crate::rooms::OpenPage;
use crate::row_pages::{fill_slot, free_slot};
use crate::slots::write_slot;
use engine_base::{Addr, Fault, Pages};
use page_space::Space;
use undo_records::Row;

impl RowDir {
    ghost use Rattle.row_dir.specs.Directory.{IsDirectory, IsBelow, IsFirstOpen, HasRoom, AreFull};
    ghost use Rattle.row_dir.specs.Puts.{PutsRow};

    // Puts a new document's row into the first free slot of that page.
    fn fill<P: Pages>(&mut self, p: &mut P, open: OpenPage, row: &Row) -> Result<(), Fault>
        requires room { HasRoom self.old }
        requires absent { get nat_eq self.old.places row.now.doc.0 ≡ None }
        requires below { IsBelow (P.state p.old).count self.old }
        requires sound { IsSoundRow row.now }
        requires has { get nat_eq self.old.pages open.page.0 ≡ Some open.free }
        requires some { 1 ≤ open.free }
        requires may { MayUse (open.page.0 ∷ []) 0 (slot_size + 2 + 2 * write_head)
            (P.state p.old) }
        ensures puts { IfRows (P.state p.old).told row_base
            (λ pages rows. IsDirectory self.old rows → CanChange rows pages
            → IsFirstOpen self.old.pages.entries open.index open.page.0 open.free
            → OnOk result (Becomes (P.state p.new).told (λ new.
            PutsRow (keyed_of row.now) self.new rows pages new
            × (free_of new ≡ free_of pages)))) }
        ensures below { IsBelow (P.state p.old).count self.new }
        ensures honest { IfErr result (IsHonest (IsOddFill self.old (P.state p.old).told)) }
        ensures never { IfRows (P.state p.old).told row_base
            (λ pages rows. IsDirectory self.old rows → CanChange rows pages
            → IsFirstOpen self.old.pages.entries open.index open.page.0 open.free
            → FailsPlainly result) }
        ensures cause { HasCause (P.state p.old).faults (P.state p.new).faults result }
        ensures uses { Uses P.state P.stays (open.page.0 ∷ []) 0 (slot_size + 2 + 2 * write_head)
            p.old p.new }
    {
        let at = free_slot(p, open.page)?;
        let place = Addr {
            page: open.page,
            at,
        };
        fill_slot(p, place, row, MAX_SLOTS + 1 - open.free)?;
        self.note(row.doc, place, open.free - 1, open.index);
        Ok(())
    }

    // Puts it on a row page of its own, behind the others.
    fn add_page<P: Pages>(&mut self, p: &mut P, space: &mut Space, row: &Row) -> Result<(), Fault>
        requires room { HasRoom self.old }
        requires absent { get nat_eq self.old.places row.now.doc.0 ≡ None }
        requires below { IsBelow (P.state p.old).count self.old }
        requires sound { IsSoundRow row.now }
        requires one { 1 ≤ space.old }
        requires size { IsSize (P.state p.old).count }
        requires may { MayUse (0 ∷ []) 2 (16_457 + 9 * write_head) (P.state p.old) }
        ensures puts { IfRows (P.state p.old).told row_base
            (λ pages rows. IsDirectory self.old rows → CanChange rows pages
            → AreFull self.old.pages.entries → space.old ≤ free_of pages
            → OnOk result (Becomes (P.state p.new).told (λ new.
            PutsRow (keyed_of row.now) self.new rows pages new × (space.new ≤ free_of new)))) }
        ensures below { IsBelow (P.state p.old).count self.new }
        ensures ok { OnOk result (space.new + 1 ≡ space.old) }
        ensures honest { IfErr result (IsHonest (IsOddOpen (P.state p.old))) }
        ensures never { IfRows (P.state p.old).told row_base
            (λ pages rows. CanChange rows pages → space.old ≤ free_of pages
            → FailsPlainly result) }
        ensures cause { HasCause (P.state p.old).faults (P.state p.new).faults result }
        ensures uses { Uses P.state P.stays (0 ∷ []) 2 (16_457 + 9 * write_head) p.old p.new }
    {
        let full = self.pages.len();
        let page = open_page(p, space, row)?;
        let place = Addr {
            page,
            at: FIRST_SLOT,
        };
        self.note(row.doc, place, MAX_SLOTS - 1, full);
        Ok(())
    }

    /// Puts the row where that of its document stands, or, of a new document, into the first free
    /// slot of the first row page that has one, and else on a row page that is taken, behind the
    /// others. For a new document the conditions are that there is room (`reserve`) and a reserved
    /// page. Touches page 0 and two others at most, and writes 42 bytes in two writes, or 16,457 in
    /// nine where a page is taken.
    pub fn put<P: Pages>(&mut self, p: &mut P, space: &mut Space, row: &Row) -> Result<(), Fault>
        requires room { get nat_eq self.old.places row.now.doc.0 ≡ None
            → HasRoom self.old × (1 ≤ space.old) }
        requires below { IsBelow (P.state p.old).count self.old }
        requires sound { IsSoundRow row.now }
        requires size { IsSize (P.state p.old).count }
        requires may { MayUse (0 ∷ []) 2 (16_457 + 9 * write_head) (P.state p.old) }
        ensures puts { IfRows (P.state p.old).told row_base
            (λ pages rows. IsDirectory self.old rows → CanChange rows pages
            → space.old ≤ free_of pages → OnOk result (Becomes (P.state p.new).told (λ new.
            PutsRow (keyed_of row.now) self.new rows pages new × (space.new ≤ free_of new)))) }
        ensures below { IsBelow (P.state p.old).count self.new }
        ensures takes { OnOk result (space.old ≤ space.new + 1) }

        // Strange names a field that the call read, as IsOddPut says; of a document that has a row
        // it is told of nothing.
        ensures honest { IfErr result
            (IsHonest (IsOddPut self.old row.now.doc.0 (P.state p.old))) }
        ensures never { IfRows (P.state p.old).told row_base
            (λ pages rows. IsDirectory self.old rows → CanChange rows pages
            → space.old ≤ free_of pages → FailsPlainly result) }
        ensures cause { HasCause (P.state p.old).faults (P.state p.new).faults result }
        ensures uses { Uses P.state P.stays (0 ∷ []) 2 (16_457 + 9 * write_head) p.old p.new }
    {
        if let Some(place) = self.place(row.doc) {
            return write_slot(p, place, row);
        }
        match self.first_open() {
            Some(open) => self.fill(p, open, row),
            None => self.add_page(p, space, row),
        }
    }
}
