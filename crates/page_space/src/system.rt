// The system page of a new store.
ghost use Rattle.std.specs.Prelude.{◌≡◌, ◌+◌, ◌≤◌, [], ◌∷◌, length, replicate, OnOk};
ghost use Rattle.page_model.specs.Pages.{page_bytes};
ghost use Rattle.page_model.specs.Steps.{MayUse, Uses, Told, write_head};
ghost use Rattle.engine_base.specs.Faults.{HasCause, FailsPlainly};
ghost use Rattle.page_space.specs.Map.{IsSize};
ghost use Rattle.page_space.specs.System.{IsSystemPage, MakesSystem};

use crate::layout::{
    ACTIVE_LOGS, COMMITS, COMMITTED_LOGS, FIRST, FIRST_AT, FREE_PAGES, LAST, LAST_AT, MAP,
    NEXT_TRX_ID, PURGED_COMMITS, ROW_PAGES, SYSTEM,
};
use engine_base::FieldValue::{Eight, Four, One, Two};
use engine_base::{Fault, NULL_PAGE, PAGE_BYTES, PageHeader, PageType, Pages, fill_fields};

/// Writes the whole of page 0 as a new store has it: page 0 alone is used, the lists have no nodes,
/// and the next transaction id is 1. One write of 16,384 bytes, which are laid out on the stack
/// first.
pub fn make_system<P: Pages>(p: &mut P) -> Result<(), Fault>
    requires size { IsSize (P.state p.old).count }
    requires may { MayUse (0 ∷ []) 0 (page_bytes + write_head) (P.state p.old) }
    ensures makes { OnOk result (Told MakesSystem (P.state p.old).told (P.state p.new).told) }
    ensures uses { Uses P.state P.stays (0 ∷ []) 0 (page_bytes + write_head) p.old p.new }
    ensures cause { HasCause (P.state p.old).faults (P.state p.new).faults result }
    ensures plain { FailsPlainly result }
{
    let mut page = [0u8; PAGE_BYTES];
    fill_system(&mut page, p.count());
    p.write(SYSTEM, 0, &page)?;
    Ok(())
}

// Lays the system page out in a page of zeros.
fn fill_system(page: &mut [u8], pages: u32)
    requires len { length page.old ≡ page_bytes }
    requires blank { page.old ≡ replicate page_bytes 0 }
    requires some { 1 ≤ pages }
    ensures { IsSystemPage pages page.new }
{
    PageHeader::alone(SYSTEM, PageType::System).fill(page);
    fill_fields(
        page,
        &[
            Eight(NEXT_TRX_ID, 1),
            Eight(COMMITS, 0),
            Eight(PURGED_COMMITS, 0),
            Four(FREE_PAGES, pages - 1),
            Four(ROW_PAGES, 0),
            Four(ROW_PAGES + FIRST, NULL_PAGE),
            Two(ROW_PAGES + FIRST_AT, 0),
            Four(ROW_PAGES + LAST, NULL_PAGE),
            Two(ROW_PAGES + LAST_AT, 0),
            Four(ACTIVE_LOGS, 0),
            Four(ACTIVE_LOGS + FIRST, NULL_PAGE),
            Two(ACTIVE_LOGS + FIRST_AT, 0),
            Four(ACTIVE_LOGS + LAST, NULL_PAGE),
            Two(ACTIVE_LOGS + LAST_AT, 0),
            Four(COMMITTED_LOGS, 0),
            Four(COMMITTED_LOGS + FIRST, NULL_PAGE),
            Two(COMMITTED_LOGS + FIRST_AT, 0),
            Four(COMMITTED_LOGS + LAST, NULL_PAGE),
            Two(COMMITTED_LOGS + LAST_AT, 0),
            One(MAP, 1),
        ],
    );
}
