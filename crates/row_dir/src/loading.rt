// The rows of a row page entered.
ghost use Rattle.std.specs.Prelude.{◌≡◌, ◌+◌, ◌≤◌, ◌<◌, ℕ, nat_eq, List, [], ◌∷◌, ◌++◌, length, Option, Some, None, IfOk, IfErr, OnOk, OnErr, IfSome};
ghost use Rattle.indexmap.specs.IndexMap.{get, spare};
ghost use Rattle.page_model.specs.Pages.{Pages, Address};
ghost use Rattle.page_model.specs.Steps.{MayUse, Uses};
ghost use Rattle.engine_base.specs.Faults.{HasCause, FailsPlainly, IsHonest};
ghost use Rattle.engine_base.specs.Addresses.{address_of};
ghost use Rattle.undo_model.specs.Rows.{Keyed, RowPage, IsSlot, AreSlots, first_slot, max_slots};
ghost use Rattle.row_dir.specs.Slots.{FitsSlot};

use crate::layout::{COUNT, DOC, FIRST_SLOT, MAX_SLOTS, SLOT_BYTES, SLOTS_END};
use crate::slots::read_slot;
use crate::{DirError, RowDir};
use engine_base::{Addr, DocId, Fault, PageNo, Pages, TYPE, read_field, strange};
use std::alloc::AllocError;

const ROWS_TYPE: u64 = 2;

impl RowDir {
    ghost use Rattle.row_dir.specs.Directory.{IsDirectory, IsBelow, SameDirectory, free_in, places_in, place_for};
    ghost use Rattle.row_dir.specs.Loads.{HasPageRoom, EntersRow, Holds, SamePages, IsNext, EntersOnly, AreNew, IsOddField, FailsBare, IsHonestly, HasDirCause};

    // Takes the memory for as many rows as a page has.
    fn reserve_page(&mut self) -> Result<(), AllocError>
        ensures ok { OnOk result (HasPageRoom self.new max_slots × (1 ≤ spare self.new.pages)) }
        ensures same { SameDirectory self.old self.new }
        ensures directory { (rows : List RowPage) → IsDirectory self.old rows
            → IsDirectory self.new rows }
        ensures below { (count : ℕ) → IsBelow count self.old → IsBelow count self.new }
    {
        self.places.reserve(usize::from(MAX_SLOTS))?;
        self.pages.reserve(1)?;
        self.docs.reserve(usize::from(MAX_SLOTS))?;
        Ok(())
    }

    // Enters a document with the place of its slot.
    fn enter(&mut self, doc: DocId, place: Addr)
        requires room { HasPageRoom self.old 1 }
        requires absent { get nat_eq self.old.places doc.0 ≡ None }
        ensures { EntersRow doc place self.old self.new }
    {
        let _ = self.places.insert(doc.0, place);
        let _ = self.docs.push(doc);
    }

    // Enters the row of one slot, where it has one, and answers how many rows have room there.
    fn load_slot<P: Pages>(&mut self, p: &mut P, place: Addr) -> Result<u16, Fault>
        requires place { FitsSlot (P.state p.old).count (address_of place) }
        requires room { HasPageRoom self.old 1 }
        requires may { MayUse (place.page.0 ∷ []) 0 0 (P.state p.old) }
        ensures loads { (pages : Pages) (es : List (ℕ × Address)) (s : Option Keyed)
            → (P.state p.old).told ≡ Some pages → IsSlot pages place.page.0 place.at s
            → Holds self.old es → IfSome s (λ k. place_for k.doc es ≡ None)
            → IfOk result (λ free. Holds self.new (es ++ places_in place.page.0 place.at (s ∷ []))
            × (free ≡ free_in (s ∷ []))) }
        ensures one { IfOk result (λ free. free ≤ 1) }
        ensures kept { SamePages self.old self.new }
        ensures room { (n : ℕ) → HasPageRoom self.old (n + 1) → HasPageRoom self.new n }
        ensures enters { EntersOnly place.page.0 self.old self.new }
        ensures below { IsBelow (P.state p.old).count self.old
            → IsBelow (P.state p.old).count self.new }
        ensures honest { IfErr result
            (IsHonest (IsOddField (P.state p.old).told place.page.0)) }
        ensures never { (pages : Pages) (es : List (ℕ × Address)) (s : Option Keyed)
            → (P.state p.old).told ≡ Some pages → IsSlot pages place.page.0 place.at s
            → Holds self.old es → IfSome s (λ k. place_for k.doc es ≡ None)
            → FailsPlainly result }
        ensures cause { HasCause (P.state p.old).faults (P.state p.new).faults result }
        ensures told { (P.state p.new).told ≡ (P.state p.old).told }
        ensures uses { Uses P.state P.stays (place.page.0 ∷ []) 0 0 p.old p.new }
    {
        let Some(row) = read_slot(p, place)? else {
            return Ok(1);
        };
        if let Some(_) = self.place(row.doc) {
            return strange(place.page, place.at + DOC, u64::from(row.doc.0));
        }
        self.enter(row.doc, place);
        Ok(0)
    }

    // Enters the rows of all slots, and answers how many are free.
    fn load_slots<P: Pages>(&mut self, p: &mut P, page: PageNo) -> Result<u16, Fault>
        requires page { page.0 < (P.state p.old).count }
        requires room { HasPageRoom self.old max_slots }
        requires may { MayUse (page.0 ∷ []) 0 0 (P.state p.old) }
        ensures loads { (pages : Pages) (es : List (ℕ × Address)) (slots : List (Option Keyed))
            → (P.state p.old).told ≡ Some pages → AreSlots pages page.0 first_slot slots
            → length slots ≡ max_slots → Holds self.old es → AreNew page.0 es slots
            → IfOk result (λ free. Holds self.new (es ++ places_in page.0 first_slot slots)
            × (free ≡ free_in slots)) }
        ensures most { IfOk result (λ free. free ≤ max_slots) }
        ensures kept { SamePages self.old self.new }
        ensures enters { EntersOnly page.0 self.old self.new }
        ensures below { IsBelow (P.state p.old).count self.old
            → IsBelow (P.state p.old).count self.new }
        ensures honest { IfErr result (IsHonest (IsOddField (P.state p.old).told page.0)) }
        ensures never { (pages : Pages) (es : List (ℕ × Address)) (slots : List (Option Keyed))
            → (P.state p.old).told ≡ Some pages → AreSlots pages page.0 first_slot slots
            → length slots ≡ max_slots → Holds self.old es → AreNew page.0 es slots
            → FailsPlainly result }
        ensures cause { HasCause (P.state p.old).faults (P.state p.new).faults result }
        ensures told { (P.state p.new).told ≡ (P.state p.old).told }
        ensures uses { Uses P.state P.stays (page.0 ∷ []) 0 0 p.old p.new }
    {
        let mut at = FIRST_SLOT;
        let mut free = 0;
        'slots: while at < SLOTS_END {
            free += self.load_slot(p, Addr { page, at })?;
            at += SLOT_BYTES;
        }
        Ok(free)
    }

    // Enters the page and its rows.
    fn load_rows<P: Pages>(&mut self, p: &mut P, page: PageNo) -> Result<(), Fault>
        requires page { page.0 < (P.state p.old).count }
        requires room { HasPageRoom self.old max_slots × (1 ≤ spare self.old.pages) }
        requires below { IsBelow (P.state p.old).count self.old }
        requires may { MayUse (page.0 ∷ []) 0 0 (P.state p.old) }
        ensures loads { (pages : Pages) (rows : List RowPage) (next : RowPage)
            → (P.state p.old).told ≡ Some pages → IsNext pages rows next → next.page ≡ page.0
            → IsDirectory self.old rows → OnOk result (IsDirectory self.new (rows ++ next ∷ [])) }
        ensures partly { OnErr result (SamePages self.old self.new) }
        ensures enters { EntersOnly page.0 self.old self.new }
        ensures below { IsBelow (P.state p.old).count self.new }
        ensures honest { IfErr result (IsHonest (IsOddField (P.state p.old).told page.0)) }
        ensures never { (pages : Pages) (rows : List RowPage) (next : RowPage)
            → (P.state p.old).told ≡ Some pages → IsNext pages rows next → next.page ≡ page.0
            → IsDirectory self.old rows → FailsPlainly result }
        ensures cause { HasCause (P.state p.old).faults (P.state p.new).faults result }
        ensures told { (P.state p.new).told ≡ (P.state p.old).told }
        ensures uses { Uses P.state P.stays (page.0 ∷ []) 0 0 p.old p.new }
    {
        let found = read_field(p, page, TYPE, 2)?;
        if found != ROWS_TYPE {
            return strange(page, TYPE, found);
        }
        let count = read_field(p, page, COUNT, 2)?;
        let free = self.load_slots(p, page)?;
        if free == MAX_SLOTS || count != u64::from(MAX_SLOTS - free) {
            return strange(page, COUNT, count);
        }
        let _ = self.pages.insert(page.0, free);
        self.full = 0;
        Ok(())
    }

    /// Enters a row page, behind those loaded so far, with its documents. So all row pages, loaded
    /// in the order of their list, make the directory. Takes memory for 408 rows. Touches that
    /// page, and writes nothing.
    pub fn load_page<P: Pages>(&mut self, p: &mut P, page: PageNo) -> Result<(), DirError>
        requires page { page.0 < (P.state p.old).count }
        requires below { IsBelow (P.state p.old).count self.old }
        requires may { MayUse (page.0 ∷ []) 0 0 (P.state p.old) }
        ensures loads { (pages : Pages) (rows : List RowPage) (next : RowPage)
            → (P.state p.old).told ≡ Some pages → IsNext pages rows next → next.page ≡ page.0
            → IsDirectory self.old rows → OnOk result (IsDirectory self.new (rows ++ next ∷ [])) }
        ensures below { IsBelow (P.state p.old).count self.new }

        // After an error the row pages are as before; documents of the page may have been entered,
        // but for want of memory none is.
        ensures err { OnErr result ((self.new.pages.entries ≡ self.old.pages.entries)
            × (self.new.full ≡ self.old.full)) }
        ensures enters { EntersOnly page.0 self.old self.new }
        ensures memory { result ≡ Err DirError.Memory → SameDirectory self.old self.new }

        // Strange names a field of the page, with what stands there.
        ensures honest { IsHonestly (IsOddField (P.state p.old).told page.0) result }
        ensures never { (pages : Pages) (rows : List RowPage) (next : RowPage)
            → (P.state p.old).told ≡ Some pages → IsNext pages rows next → next.page ≡ page.0
            → IsDirectory self.old rows → FailsBare result }
        ensures cause { HasDirCause (P.state p.old).faults (P.state p.new).faults result }

        ensures told { (P.state p.new).told ≡ (P.state p.old).told }
        ensures uses { Uses P.state P.stays (page.0 ∷ []) 0 0 p.old p.new }
    {
        if self.reserve_page().is_err() {
            return Err(DirError::Memory);
        }
        match self.load_rows(p, page) {
            Ok(()) => Ok(()),
            Err(fault) => Err(DirError::Fault(fault)),
        }
    }
}
