// The pages of a purged log given back, the newest first.
ghost use Rattle.std.specs.Prelude.{◌≡◌, ◌+◌, ◌*◌, ◌^◌, ◌≤◌, ◌<◌, ℕ, List, [], ◌∷◌, Some, None, IfOk, OnOk};
ghost use Rattle.page_model.specs.Pages.{Pages, field};
ghost use Rattle.page_model.specs.Lists.{IsList};
ghost use Rattle.page_model.specs.Steps.{MayUse, Uses, Becomes, write_head};
ghost use Rattle.engine_base.specs.Faults.{HasCause, FailsPlainly};
ghost use Rattle.page_space.specs.Map.{IsSize};
ghost use Rattle.store_parts.specs.Logs.{ChangesOldest, PurgesLog};
ghost use Rattle.undo_model.specs.Data.{Log, Part};
ghost use Rattle.undo_model.specs.LogLists.{log_nodes, committed_base, pages_in};
ghost use Rattle.undo_logs.specs.Changes.{with_pages};
ghost use Rattle.undo_logs.specs.Drops.{CanDrop, CanEnd, has_part};
ghost use Rattle.page_space.specs.declared.layout.TheConstants.{PURGED_COMMITS};

use crate::appending::newest_page;
use crate::cutting::drop_node;
use crate::layout::LOG_NODE;
use engine_base::{Addr, Fault, PageNo, Pages, read_field, strange, write_field};
use file_lists::remove_first;
use page_space::{COMMITTED_LOGS, PURGED_COMMITS, SYSTEM, Space};

// Takes the log, of which the first page is left, off the front of the list of committed ones,
// gives the page back, and counts the log as purged.
fn end_purged<P: Pages>(p: &mut P, space: &mut Space, log: PageNo) -> Result<(), Fault>
    requires size { IsSize (P.state p.old).count }
    requires log { log.0 < (P.state p.old).count }
    requires may { MayUse (log.0 ∷ 0 ∷ []) 1 (29 + 6 * write_head) (P.state p.old) }
    ensures purges { (pages : Pages) (l : Log) (count : ℕ) → (P.state p.old).told ≡ Some pages
        → l.page ≡ log.0 → CanEnd l count pages
        → OnOk result (Becomes (P.state p.new).told (PurgesLog l count pages)) }
    ensures reserved { space.new ≡ space.old }
    ensures never { (pages : Pages) (l : Log) (count : ℕ) → (P.state p.old).told ≡ Some pages
        → l.page ≡ log.0 → CanEnd l count pages → FailsPlainly result }
    ensures cause { HasCause (P.state p.old).faults (P.state p.new).faults result }
    ensures uses { Uses P.state P.stays (log.0 ∷ 0 ∷ []) 1 (29 + 6 * write_head) p.old p.new }
{
    let purged = read_field(p, SYSTEM, PURGED_COMMITS, 8)?;
    if purged == u64::MAX {
        return strange(SYSTEM, PURGED_COMMITS, purged);
    }
    remove_first(
        p,
        Addr {
            page: SYSTEM,
            at: COMMITTED_LOGS,
        },
        Addr {
            page: log,
            at: LOG_NODE,
        },
    )?;
    space.give(p, log)?;
    write_field(p, SYSTEM, PURGED_COMMITS, 8, purged + 1)?;
    Ok(())
}

/// Gives the newest page of a log back whose records purge has passed. True while pages are left:
/// with its first page the log leaves the list of committed ones, and is counted as purged. Touches
/// the log's first page, page 0 and at most two others: that page and the one added before it, or
/// the first page of the log that is the oldest from then on. Writes at most 29 bytes in six writes.
pub fn drop_page<P: Pages>(p: &mut P, space: &mut Space, log: PageNo) -> Result<bool, Fault>
    requires size { IsSize (P.state p.old).count }
    requires log { log.0 < (P.state p.old).count }
    requires may { MayUse (log.0 ∷ 0 ∷ []) 2 (29 + 6 * write_head) (P.state p.old) }
    ensures drops { (pages : Pages) (l : Log) (newest next : Part)
        (older : List Part) → (P.state p.old).told ≡ Some pages → l.page ≡ log.0 → CanDrop l pages
        → l.parts ≡ newest ∷ next ∷ older → OnOk result (Becomes (P.state p.new).told
        (ChangesOldest (with_pages (pages_in (next ∷ older))) l pages)) }
    ensures purges { (pages : Pages) (l : Log) (count : ℕ) → (P.state p.old).told ≡ Some pages
        → l.page ≡ log.0 → CanEnd l count pages
        → OnOk result (Becomes (P.state p.new).told (PurgesLog l count pages)) }
    ensures left { (pages : Pages) (l : Log) (newest : Part) (older : List Part)
        → (P.state p.old).told ≡ Some pages → l.page ≡ log.0 → CanDrop l pages
        → l.parts ≡ newest ∷ older → IfOk result (λ b. b ≡ has_part older) }
    ensures reserved { space.new ≡ space.old }
    ensures never { (pages : Pages) (l : Log) (newest next : Part)
        (older : List Part) → (P.state p.old).told ≡ Some pages → l.page ≡ log.0 → CanDrop l pages
        → l.parts ≡ newest ∷ next ∷ older → FailsPlainly result }
    ensures never_last { (pages : Pages) (l : Log) (count : ℕ) → (P.state p.old).told ≡ Some pages
        → l.page ≡ log.0 → CanEnd l count pages → FailsPlainly result }
    ensures cause { HasCause (P.state p.old).faults (P.state p.new).faults result }
    ensures uses { Uses P.state P.stays (log.0 ∷ 0 ∷ []) 2 (29 + 6 * write_head) p.old p.new }
{
    let page = newest_page(p, log)?;
    if page.0 == log.0 {
        end_purged(p, space, log)?;
        return Ok(false);
    }
    drop_node(p, space, log, page)?;
    Ok(true)
}
