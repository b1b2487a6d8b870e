// A row taken out of its slot, and its page given back where it has no other.
ghost use Rattle.std.specs.Prelude.{◌≡◌, ◌≢◌, ◌+◌, ◌*◌, ◌≤◌, ◌<◌, ℕ, nat_eq, List, [], ◌∷◌, ◌++◌, Some, None, IfErr, OnOk, IsOk, IsSome};
ghost use Rattle.indexmap.specs.IndexMap.{get};
ghost use Rattle.page_model.specs.Pages.{Pages};
ghost use Rattle.page_model.specs.Steps.{MayUse, Uses, Becomes, write_head};
ghost use Rattle.engine_base.specs.Faults.{HasCause, FailsPlainly, IsHonest};
ghost use Rattle.page_space.specs.Map.{IsSize, free_of};
ghost use Rattle.undo_model.specs.Rows.{RowPage, IsRows, IfRows, row_base, max_slots};
ghost use Rattle.row_dir.specs.RowPages.{CanChange};
ghost use Rattle.row_dir.specs.Removes.{DropsPage};
ghost use Rattle.row_dir.specs.Honest.{IsOddDrop, IsOddRemove};

use crate::RowDir;
use crate::layout::{MAX_SLOTS, NODE};
use crate::row_pages::clear_slot;
use engine_base::{Addr, DocId, Fault, PageNo, Pages};
use page_space::{ROW_PAGES, SYSTEM, Space};

// Takes the page out of the list of row pages and gives it back. Touches page 0, that page and
// those of the nodes beside, and writes 21 bytes in five writes.
fn drop_page<P: Pages>(p: &mut P, space: &mut Space, page: PageNo) -> Result<(), Fault>
    requires size { IsSize (P.state p.old).count }
    requires page { page.0 < (P.state p.old).count }
    requires may { MayUse (page.0 ∷ 0 ∷ []) 2 (21 + 5 * write_head) (P.state p.old) }
    ensures drops { (pages : Pages) (before behind : List RowPage) (q : RowPage)
        → (P.state p.old).told ≡ Some pages → IsRows pages row_base (before ++ q ∷ behind)
        → CanChange (before ++ q ∷ behind) pages → q.page ≡ page.0
        → OnOk result (Becomes (P.state p.new).told (λ new. DropsPage before q behind pages new
        × (free_of new ≡ free_of pages + 1))) }
    ensures reserved { space.new ≡ space.old }
    ensures honest { IfErr result (IsHonest (IsOddDrop page.0 (P.state p.old))) }
    ensures never { (pages : Pages) (before behind : List RowPage) (q : RowPage)
        → (P.state p.old).told ≡ Some pages → IsRows pages row_base (before ++ q ∷ behind)
        → CanChange (before ++ q ∷ behind) pages → q.page ≡ page.0 → FailsPlainly result }
    ensures cause { HasCause (P.state p.old).faults (P.state p.new).faults result }
    ensures uses { Uses P.state P.stays (page.0 ∷ 0 ∷ []) 2 (21 + 5 * write_head) p.old p.new }
{
    file_lists::remove(
        p,
        Addr {
            page: SYSTEM,
            at: ROW_PAGES,
        },
        Addr { page, at: NODE },
    )?;
    space.give(p, page)?;
    Ok(())
}

impl RowDir {
    ghost use Rattle.row_dir.specs.Directory.{IsDirectory, IsBelow};
    ghost use Rattle.row_dir.specs.Removes.{RemovesRow};

    // How many slots of the row page are free.
    fn free_slots(&self, page: PageNo) -> Option<u16>
        ensures { result ≡ get nat_eq self.now.pages page.0 }
    {
        self.pages.get(&page.0).copied()
    }

    // Frees the slot of the document, on whose page are others.
    fn clear<P: Pages>(
        &mut self,
        p: &mut P,
        doc: DocId,
        place: Addr,
        free: u16,
    ) -> Result<(), Fault>
        requires below { IsBelow (P.state p.old).count self.old }
        requires has { get nat_eq self.old.places doc.0 ≡ Some place }
        requires free { get nat_eq self.old.pages place.page.0 ≡ Some free }
        requires others { free + 1 < max_slots }
        requires may { MayUse (place.page.0 ∷ []) 0 (3 + 2 * write_head) (P.state p.old) }
        ensures removes { IfRows (P.state p.old).told row_base
            (λ pages rows. IsDirectory self.old rows → CanChange rows pages
            → OnOk result (Becomes (P.state p.new).told (λ new.
            RemovesRow doc.0 self.new rows pages new × (free_of new ≡ free_of pages)))) }
        ensures below { IsBelow (P.state p.old).count self.new }
        ensures plain { FailsPlainly result }
        ensures cause { HasCause (P.state p.old).faults (P.state p.new).faults result }
        ensures uses { Uses P.state P.stays (place.page.0 ∷ []) 0 (3 + 2 * write_head)
            p.old p.new }
    {
        clear_slot(p, place, MAX_SLOTS - 1 - free)?;
        self.free_up(place.page, free + 1);
        self.forget(doc);
        Ok(())
    }

    // Gives back the page of the document, which has no other row.
    fn drop_last<P: Pages>(
        &mut self,
        p: &mut P,
        space: &mut Space,
        doc: DocId,
        place: Addr,
    ) -> Result<(), Fault>
        requires size { IsSize (P.state p.old).count }
        requires below { IsBelow (P.state p.old).count self.old }
        requires has { get nat_eq self.old.places doc.0 ≡ Some place }
        requires alone { (free : ℕ) → get nat_eq self.old.pages place.page.0 ≡ Some free
            → free + 1 ≡ max_slots }
        requires may { MayUse (place.page.0 ∷ 0 ∷ []) 2 (21 + 5 * write_head) (P.state p.old) }
        requires there { IsSome (get nat_eq self.old.pages place.page.0) }
        ensures removes { IfRows (P.state p.old).told row_base
            (λ pages rows. IsDirectory self.old rows → CanChange rows pages
            → OnOk result (Becomes (P.state p.new).told (λ new.
            RemovesRow doc.0 self.new rows pages new × (free_of new ≡ free_of pages + 1)))) }
        ensures below { IsBelow (P.state p.old).count self.new }
        ensures reserved { space.new ≡ space.old }
        ensures honest { IfErr result (IsHonest (IsOddDrop place.page.0 (P.state p.old))) }
        ensures never { IfRows (P.state p.old).told row_base
            (λ pages rows. IsDirectory self.old rows → CanChange rows pages
            → FailsPlainly result) }
        ensures cause { HasCause (P.state p.old).faults (P.state p.new).faults result }
        ensures uses { Uses P.state P.stays (place.page.0 ∷ 0 ∷ []) 2 (21 + 5 * write_head)
            p.old p.new }
    {
        drop_page(p, space, place.page)?;
        self.forget_page(place.page);
        self.forget(doc);
        Ok(())
    }

    /// Takes the document's row out, where it has one: its slot is free, and its page is given back
    /// where it has no other row. Touches page 0, the page of the slot and those beside it in the
    /// list, and writes 3 bytes in two writes, or 21 in five where the page is given back.
    pub fn remove<P: Pages>(
        &mut self,
        p: &mut P,
        space: &mut Space,
        doc: DocId,
    ) -> Result<(), Fault>
        requires size { IsSize (P.state p.old).count }
        requires below { IsBelow (P.state p.old).count self.old }
        requires may { MayUse (0 ∷ []) 3 (21 + 5 * write_head) (P.state p.old) }
        ensures removes { IfRows (P.state p.old).told row_base
            (λ pages rows. IsDirectory self.old rows → CanChange rows pages
            → get nat_eq self.old.places doc.0 ≢ None
            → OnOk result (Becomes (P.state p.new).told (λ new.
            RemovesRow doc.0 self.new rows pages new × (free_of pages ≤ free_of new)))) }
        ensures absent { get nat_eq self.old.places doc.0 ≡ None → (self.new ≡ self.old)
            × (P.state p.new ≡ P.state p.old) × IsOk result }
        ensures below { IsBelow (P.state p.old).count self.new }
        ensures reserved { space.new ≡ space.old }

        // Strange names a field that the call read, as IsOddRemove says; of a document whose page
        // has another row it is told of nothing.
        ensures honest { IfErr result (IsHonest (IsOddRemove self.old doc.0 (P.state p.old))) }
        ensures never { IfRows (P.state p.old).told row_base
            (λ pages rows. IsDirectory self.old rows → CanChange rows pages
            → FailsPlainly result) }
        ensures cause { HasCause (P.state p.old).faults (P.state p.new).faults result }
        ensures uses { Uses P.state P.stays (0 ∷ []) 3 (21 + 5 * write_head) p.old p.new }
    {
        let Some(place) = self.place(doc) else {
            return Ok(());
        };
        let Some(free) = self.free_slots(place.page) else {
            return Ok(());
        };
        if free + 1 < MAX_SLOTS {
            self.clear(p, doc, place, free)
        } else {
            self.drop_last(p, space, doc, place)
        }
    }
}
