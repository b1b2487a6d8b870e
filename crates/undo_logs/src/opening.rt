// A page added to a log.
ghost use Rattle.std.specs.Prelude.{◌≡◌, ◌+◌, ◌*◌, ◌≤◌, ◌<◌, List, [], ◌∷◌, ◌++◌, length, Some, IfOk, OnOk};
ghost use Rattle.page_model.specs.Pages.{Pages, Address};
ghost use Rattle.page_model.specs.Tables.{HasFields};
ghost use Rattle.page_model.specs.Steps.{MayUse, Uses, Told, Becomes, write_head};
ghost use Rattle.engine_base.specs.Faults.{HasCause, FailsPlainly};
ghost use Rattle.page_space.specs.Map.{IsSize, free_of};
ghost use Rattle.store_parts.specs.Appends.{OpensPage, CanOpen};
ghost use Rattle.undo_model.specs.Logs.{other_start};
ghost use Rattle.undo_logs.specs.Opens.{other_fields, StartsPage};

use crate::layout::{END, OTHER_START, OWNER, PAGE_NODE, PAGES_BASE};
use engine_base::FieldValue::{Four, Two};
use engine_base::{Addr, Fault, PageHeader, PageNo, PageType, Pages, fill_fields};
use file_lists::add_last;
use page_space::Space;

// Lays out the first bytes of a page of that log.
fn fill_other(bytes: &mut [u8], page: PageNo, log: PageNo)
    requires len { length bytes.old ≡ other_start }
    ensures len { length bytes.new ≡ other_start }
    ensures fields { HasFields (bytes.new ∷ []) 0 (other_fields page.0 log.0) }
{
    PageHeader::alone(page, PageType::Undo).fill(bytes);
    fill_fields(bytes, &[Two(END, OTHER_START), Four(OWNER, log.0)]);
}

// Makes a page of that log of it: an empty used part, and a node in no list. One write.
fn start<P: Pages>(p: &mut P, page: PageNo, log: PageNo) -> Result<(), Fault>
    requires page { page.0 < (P.state p.old).count }
    requires may { MayUse (page.0 ∷ []) 0 (other_start + write_head) (P.state p.old) }
    ensures starts { OnOk result (Told (StartsPage page.0 log.0)
        (P.state p.old).told (P.state p.new).told) }
    ensures uses { Uses P.state P.stays (page.0 ∷ []) 0 (other_start + write_head) p.old p.new }
    ensures cause { HasCause (P.state p.old).faults (P.state p.new).faults result }
    ensures plain { FailsPlainly result }
{
    let mut bytes = [0u8; OTHER_START as usize];
    fill_other(&mut bytes, page, log);
    p.write(page, 0, &bytes)?;
    Ok(())
}

/// Takes a reserved page and puts it behind the log's others. Touches the log's first page, page 0,
/// the page that is taken and that of the node which was the last, and writes 89 bytes in eight
/// writes.
pub(crate) fn open_page<P: Pages>(
    p: &mut P,
    space: &mut Space,
    log: PageNo,
) -> Result<PageNo, Fault>
    requires one { 1 ≤ space.old }
    requires size { IsSize (P.state p.old).count }
    requires log { log.0 < (P.state p.old).count }
    requires may { MayUse (0 ∷ log.0 ∷ []) 2 (89 + 8 * write_head) (P.state p.old) }
    ensures opens { (pages : Pages) (nodes : List Address) → (P.state p.old).told ≡ Some pages
        → CanOpen log.0 nodes pages → space.old ≤ free_of pages
        → IfOk result (λ page. Becomes (P.state p.new).told (λ new.
        OpensPage log.0 nodes page.0 pages new × (space.new ≤ free_of new))) }
    ensures there { IfOk result (λ page. page.0 < (P.state p.old).count) }
    ensures ok { OnOk result (space.new + 1 ≡ space.old) }
    ensures never { (pages : Pages) (nodes : List Address) → (P.state p.old).told ≡ Some pages
        → CanOpen log.0 nodes pages → space.old ≤ free_of pages → FailsPlainly result }
    ensures cause { HasCause (P.state p.old).faults (P.state p.new).faults result }
    // The page that is taken is one of those touched.
    ensures named { IfOk result (λ page. Uses P.state P.stays (page.0 ∷ 0 ∷ log.0 ∷ []) 1
        (89 + 8 * write_head) p.old p.new) }
    ensures uses { Uses P.state P.stays (0 ∷ log.0 ∷ []) 2 (89 + 8 * write_head) p.old p.new }
{
    let page = space.take(p)?;
    start(p, page, log)?;
    add_last(
        p,
        Addr {
            page: log,
            at: PAGES_BASE,
        },
        Addr {
            page,
            at: PAGE_NODE,
        },
    )?;
    Ok(page)
}
