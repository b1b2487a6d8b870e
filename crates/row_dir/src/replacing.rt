// A row put over the one of its document.
ghost use Rattle.std.specs.Prelude.{◌≡◌, ◌+◌, ℕ, nat_eq, List, [], ◌∷◌, is_some, IfOk, OnOk, None, ◌≢◌};
ghost use Rattle.indexmap.specs.IndexMap.{get};
ghost use Rattle.page_model.specs.Pages.{Pages};
ghost use Rattle.page_model.specs.Steps.{MayUse, Uses, Becomes, write_head};
ghost use Rattle.engine_base.specs.Faults.{HasCause, FailsPlainly};
ghost use Rattle.undo_model.specs.Rows.{RowPage, IfRows, row_base, slot_size};
ghost use Rattle.row_dir.specs.Slots.{keyed_of, IsSoundRow};
ghost use Rattle.row_dir.specs.RowPages.{CanChange};

use crate::RowDir;
use crate::slots::write_slot;
use engine_base::{Fault, Pages};
use undo_records::Row;

impl RowDir {
    ghost use Rattle.row_dir.specs.Directory.{IsDirectory, IsBelow};
    ghost use Rattle.row_dir.specs.Puts.{PutsRow};

    /// Puts the row where that of its document stands. False exactly where the document has none:
    /// then nothing is written. Touches the page of the slot alone, and writes 40 bytes in one write.
    pub fn replace<P: Pages>(&self, p: &mut P, row: &Row) -> Result<bool, Fault>
        requires below { IsBelow (P.state p.old).count self.now }
        requires sound { IsSoundRow row.now }
        requires may { MayUse [] 1 (slot_size + write_head) (P.state p.old) }
        ensures has { IfOk result (λ b. b ≡ is_some (get nat_eq self.now.places row.now.doc.0)) }
        ensures puts { IfRows (P.state p.old).told row_base
            (λ pages rows. IsDirectory self.now rows → CanChange rows pages
            → get nat_eq self.now.places row.now.doc.0 ≢ None
            → OnOk result (Becomes (P.state p.new).told
            (PutsRow (keyed_of row.now) self.now rows pages))) }
        ensures plain { FailsPlainly result }
        ensures cause { HasCause (P.state p.old).faults (P.state p.new).faults result }
        ensures uses { Uses P.state P.stays [] 1 (slot_size + write_head) p.old p.new }
    {
        let Some(place) = self.place(row.doc) else {
            return Ok(false);
        };
        write_slot(p, place, row)?;
        Ok(true)
    }
}
