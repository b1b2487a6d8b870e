// A row page that begins, and one behind the others.
ghost use Rattle.std.specs.Prelude.{◌≡◌, ◌+◌, ◌*◌, ◌≤◌, ◌<◌, List, [], ◌∷◌, length, replicate, Some, IfOk, IfErr, OnOk};
ghost use Rattle.page_model.specs.Pages.{Pages, byte, page_bytes, null_page};
ghost use Rattle.page_model.specs.Tables.{HasFields, header_fields, field_at};
ghost use Rattle.page_model.specs.Steps.{MayUse, Uses, Told, Becomes, write_head};
ghost use Rattle.engine_base.specs.Faults.{HasCause, FailsPlainly, IsHonest};
ghost use Rattle.page_space.specs.Map.{IsSize, free_of};
ghost use Rattle.undo_model.specs.Rows.{RowPage, IfRows, row_base, row_type, row_for, rows_of, slot_size};
ghost use Rattle.row_dir.specs.Slots.{keyed_of, IsSoundRow};
ghost use Rattle.row_dir.specs.RowPages.{CanChange, StartsWith, OpensPage};
ghost use Rattle.row_dir.specs.declared.layout.TheConstants.{COUNT, FIRST_SLOT};
ghost use Rattle.std.specs.Prelude.{ℕ, None};
ghost use Rattle.row_dir.specs.Honest.{IsOddOpen};

use crate::layout::{COUNT, FIRST_SLOT, NODE};
use crate::slots::write_slot;
use engine_base::FieldValue::Two;
use engine_base::{Addr, Fault, PAGE_BYTES, PageHeader, PageNo, PageType, Pages, fill_fields};
use file_lists::add_last;
use page_space::{ROW_PAGES, SYSTEM, Space};
use undo_records::Row;

// Lays out the fields of a row page of one row.
fn fill_page(bytes: &mut [u8], page: PageNo)
    requires len { length bytes.old ≡ page_bytes }
    requires blank { bytes.old ≡ replicate page_bytes 0 }
    ensures len { length bytes.new ≡ page_bytes }
    ensures header { HasFields (bytes.new ∷ []) 0 (header_fields page.0 null_page null_page
        row_type) }
    ensures count { HasFields (bytes.new ∷ []) 0 (field_at COUNT 2 1 ∷ []) }
    ensures zeros { (k : ℕ) → FIRST_SLOT ≤ k → byte (bytes.new ∷ []) 0 k ≡ 0 }
{
    PageHeader::alone(page, PageType::Rows).fill(bytes);
    fill_fields(bytes, &[Two(COUNT, 1)]);
}

// Makes a row page of it, with the row in the first slot. Two writes.
fn start_page<P: Pages>(p: &mut P, page: PageNo, row: &Row) -> Result<(), Fault>
    requires page { page.0 < (P.state p.old).count }
    requires sound { IsSoundRow row.now }
    requires may { MayUse (page.0 ∷ []) 0 (page_bytes + slot_size + 2 * write_head)
        (P.state p.old) }
    ensures starts { OnOk result (Told (StartsWith page.0 (keyed_of row.now))
        (P.state p.old).told (P.state p.new).told) }
    ensures uses { Uses P.state P.stays (page.0 ∷ []) 0 (page_bytes + slot_size + 2 * write_head)
        p.old p.new }
    ensures cause { HasCause (P.state p.old).faults (P.state p.new).faults result }
    ensures plain { FailsPlainly result }
{
    let mut bytes = [0u8; PAGE_BYTES];
    fill_page(&mut bytes, page);
    p.write(page, 0, &bytes)?;
    write_slot(
        p,
        Addr {
            page,
            at: FIRST_SLOT,
        },
        row,
    )?;
    Ok(())
}

/// Takes a reserved page, which then is the last row page, with that row alone. Touches page 0, the
/// page that is taken and the one that was the last, and writes 16,457 bytes in nine writes.
pub(crate) fn open_page<P: Pages>(p: &mut P, space: &mut Space, row: &Row) -> Result<PageNo, Fault>
    requires one { 1 ≤ space.old }
    requires size { IsSize (P.state p.old).count }
    requires sound { IsSoundRow row.now }
    requires may { MayUse (0 ∷ []) 2 (16_457 + 9 * write_head) (P.state p.old) }
    ensures opens { IfRows (P.state p.old).told row_base (λ pages rows. CanChange rows pages
        → row_for (keyed_of row.now).doc (rows_of rows) ≡ None → space.old ≤ free_of pages
        → IfOk result (λ page. Becomes (P.state p.new).told (λ new.
        OpensPage (keyed_of row.now) rows page.0 pages new × (space.new ≤ free_of new)))) }
    ensures there { IfOk result (λ page. page.0 < (P.state p.old).count) }
    ensures ok { OnOk result (space.new + 1 ≡ space.old) }
    ensures honest { IfErr result (IsHonest (IsOddOpen (P.state p.old))) }
    ensures never { IfRows (P.state p.old).told row_base (λ pages rows. CanChange rows pages
        → space.old ≤ free_of pages → FailsPlainly result) }
    ensures cause { HasCause (P.state p.old).faults (P.state p.new).faults result }
    ensures uses { Uses P.state P.stays (0 ∷ []) 2 (16_457 + 9 * write_head) p.old p.new }
{
    let page = space.take(p)?;
    start_page(p, page, row)?;
    add_last(
        p,
        Addr {
            page: SYSTEM,
            at: ROW_PAGES,
        },
        Addr { page, at: NODE },
    )?;
    Ok(page)
}
