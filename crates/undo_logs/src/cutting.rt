// The newest record taken out of its page, and pages taken out of a log.
ghost use Rattle.std.specs.Prelude.{◌≡◌, ◌+◌, ◌*◌, ◌≤◌, ◌<◌, List, [], ◌∷◌, ◌++◌, Some, OnOk};
ghost use Rattle.page_model.specs.Pages.{Pages, Address};
ghost use Rattle.page_model.specs.Steps.{MayUse, Uses, Told, Becomes, write_head};
ghost use Rattle.engine_base.specs.Faults.{HasCause, FailsPlainly};
ghost use Rattle.engine_base.specs.Addresses.{address_of};
ghost use Rattle.page_space.specs.Map.{IsSize};
ghost use Rattle.undo_model.specs.Logs.{node_of};
ghost use Rattle.store_parts.specs.Appends.{CanOpen};
ghost use Rattle.undo_logs.specs.Pops.{CutsEnd, DropsNode, DropsPage};

use crate::layout::{END, LAST, PAGE_NODE, PAGES_BASE};
use engine_base::{Addr, Fault, PageNo, Pages, write_address, write_field};
use file_lists::remove_last;
use page_space::Space;

/// Ends the used part of a page where that record begins, and makes the one before it the log's
/// last. Two writes of 8 bytes.
pub(crate) fn cut_end<P: Pages>(
    p: &mut P,
    log: PageNo,
    at: Addr,
    previous: Addr,
) -> Result<(), Fault>
    requires log { log.0 < (P.state p.old).count }
    requires page { at.page.0 < (P.state p.old).count }
    requires may { MayUse (at.page.0 ∷ log.0 ∷ []) 0 (8 + 2 * write_head) (P.state p.old) }
    ensures cuts { OnOk result (Told (CutsEnd log.0 (address_of at) (address_of previous))
        (P.state p.old).told (P.state p.new).told) }
    ensures uses { Uses P.state P.stays (at.page.0 ∷ log.0 ∷ []) 0 (8 + 2 * write_head)
        p.old p.new }
    ensures cause { HasCause (P.state p.old).faults (P.state p.new).faults result }
    ensures plain { FailsPlainly result }
{
    write_field(p, at.page, END, 2, u64::from(at.at))?;
    write_address(p, log, LAST, previous)?;
    Ok(())
}

/// Takes the log's newest page out of its list and gives it back. Touches that page, the log's
/// first one, page 0 and that of the node before, and writes 21 bytes in five writes.
pub(crate) fn drop_node<P: Pages>(
    p: &mut P,
    space: &mut Space,
    log: PageNo,
    page: PageNo,
) -> Result<(), Fault>
    requires size { IsSize (P.state p.old).count }
    requires log { log.0 < (P.state p.old).count }
    requires page { page.0 < (P.state p.old).count }
    requires may { MayUse (page.0 ∷ log.0 ∷ 0 ∷ []) 1 (21 + 5 * write_head) (P.state p.old) }
    ensures drops { (pages : Pages) (nodes : List Address) → (P.state p.old).told ≡ Some pages
        → CanOpen log.0 (nodes ++ node_of page.0 ∷ []) pages
        → OnOk result (Becomes (P.state p.new).told (DropsNode log.0 nodes page.0 pages)) }
    ensures reserved { space.new ≡ space.old }
    ensures never { (pages : Pages) (nodes : List Address) → (P.state p.old).told ≡ Some pages
        → CanOpen log.0 (nodes ++ node_of page.0 ∷ []) pages → FailsPlainly result }
    ensures cause { HasCause (P.state p.old).faults (P.state p.new).faults result }
    ensures uses { Uses P.state P.stays (page.0 ∷ log.0 ∷ 0 ∷ []) 1 (21 + 5 * write_head)
        p.old p.new }
{
    remove_last(
        p,
        Addr {
            page: log,
            at: PAGES_BASE,
        },
        Addr {
            page,
            at: PAGE_NODE,
        },
    )?;
    space.give(p, page)?;
    Ok(())
}

/// The same where its one record is the log's newest: the one before it becomes the last.
pub(crate) fn drop_newest<P: Pages>(
    p: &mut P,
    space: &mut Space,
    log: PageNo,
    page: PageNo,
    previous: Addr,
) -> Result<(), Fault>
    requires size { IsSize (P.state p.old).count }
    requires log { log.0 < (P.state p.old).count }
    requires page { page.0 < (P.state p.old).count }
    requires may { MayUse (page.0 ∷ log.0 ∷ 0 ∷ []) 1 (27 + 6 * write_head) (P.state p.old) }
    ensures drops { (pages : Pages) (nodes : List Address) → (P.state p.old).told ≡ Some pages
        → CanOpen log.0 (nodes ++ node_of page.0 ∷ []) pages
        → OnOk result (Becomes (P.state p.new).told
        (DropsPage log.0 nodes page.0 (address_of previous) pages)) }
    ensures reserved { space.new ≡ space.old }
    ensures never { (pages : Pages) (nodes : List Address) → (P.state p.old).told ≡ Some pages
        → CanOpen log.0 (nodes ++ node_of page.0 ∷ []) pages → FailsPlainly result }
    ensures cause { HasCause (P.state p.old).faults (P.state p.new).faults result }
    ensures uses { Uses P.state P.stays (page.0 ∷ log.0 ∷ 0 ∷ []) 1 (27 + 6 * write_head)
        p.old p.new }
{
    drop_node(p, space, log, page)?;
    write_address(p, log, LAST, previous)?;
    Ok(())
}
