// A log committed.
ghost use Rattle.std.specs.Prelude.{◌≡◌, ◌+◌, ◌*◌, ◌^◌, ◌<◌, ℕ, suc, [], ◌∷◌, Some, OnOk};
ghost use Rattle.page_model.specs.Pages.{Pages};
ghost use Rattle.page_model.specs.Steps.{MayUse, Uses, Told, Becomes, write_head};
ghost use Rattle.engine_base.specs.Faults.{HasCause, FailsPlainly};
ghost use Rattle.engine_base.specs.Addresses.{address_of};
ghost use Rattle.page_space.specs.Map.{IsSize};
ghost use Rattle.store_parts.specs.Logs.{CommitsLog};
ghost use Rattle.undo_model.specs.Data.{Log};
ghost use Rattle.undo_model.specs.LogSteps.{marked_committed};
ghost use Rattle.undo_logs.specs.Commits.{CanCommit, MarksCommitted};

use crate::forward::record_from;
use crate::layout::{COMMIT, COMMITTED, FIRST_START, LOG_NODE, NEXT, STATE};
use engine_base::{Addr, Fault, PageNo, Pages, read_field, strange, write_address, write_field};
use file_lists::{add_last, remove};
use page_space::{ACTIVE_LOGS, COMMITS, COMMITTED_LOGS, SYSTEM};

// Writes of a log that it is committed, with this number, and which record is to be purged first.
// Three writes of 15 bytes.
fn mark_committed<P: Pages>(p: &mut P, log: PageNo, number: u64, next: Addr) -> Result<(), Fault>
    requires log { log.0 < (P.state p.old).count }
    requires may { MayUse (log.0 ∷ []) 0 (15 + 3 * write_head) (P.state p.old) }
    ensures marks { OnOk result (Told (MarksCommitted log.0 number (address_of next))
        (P.state p.old).told (P.state p.new).told) }
    ensures uses { Uses P.state P.stays (log.0 ∷ []) 0 (15 + 3 * write_head) p.old p.new }
    ensures cause { HasCause (P.state p.old).faults (P.state p.new).faults result }
    ensures plain { FailsPlainly result }
{
    write_field(p, log, STATE, 1, u64::from(COMMITTED))?;
    write_field(p, log, COMMIT, 8, number)?;
    write_address(p, log, NEXT, next)?;
    Ok(())
}

/// Commits an active log: it gets the number behind that of the last commit, and goes from the list
/// of active logs to the end of that of committed ones. Behind commit 18,446,744,073,709,551,615
/// there is none: Strange then names the count. Touches the log's first page, page 0 and at most
/// three others, and writes 67 bytes in twelve writes.
pub fn commit<P: Pages>(p: &mut P, log: PageNo) -> Result<(), Fault>
    requires size { IsSize (P.state p.old).count }
    requires log { log.0 < (P.state p.old).count }
    requires may { MayUse (log.0 ∷ 0 ∷ []) 3 (67 + 12 * write_head) (P.state p.old) }
    ensures commits { (pages : Pages) (l : Log) (count : ℕ) → (P.state p.old).told ≡ Some pages
        → l.page ≡ log.0 → CanCommit l count pages → OnOk result (Becomes (P.state p.new).told
        (CommitsLog l (marked_committed (suc count) l) count pages)) }
    ensures never { (pages : Pages) (l : Log) (count : ℕ) → (P.state p.old).told ≡ Some pages
        → l.page ≡ log.0 → CanCommit l count pages → suc count < 2 ^ 64 → FailsPlainly result }
    ensures cause { HasCause (P.state p.old).faults (P.state p.new).faults result }
    ensures uses { Uses P.state P.stays (log.0 ∷ 0 ∷ []) 3 (67 + 12 * write_head) p.old p.new }
{
    let commits = read_field(p, SYSTEM, COMMITS, 8)?;
    if commits == u64::MAX {
        return strange(SYSTEM, COMMITS, commits);
    }
    let oldest = record_from(p, log, u32::from(FIRST_START))?;
    mark_committed(p, log, commits + 1, oldest)?;
    let node = Addr {
        page: log,
        at: LOG_NODE,
    };
    remove(
        p,
        Addr {
            page: SYSTEM,
            at: ACTIVE_LOGS,
        },
        node,
    )?;
    add_last(
        p,
        Addr {
            page: SYSTEM,
            at: COMMITTED_LOGS,
        },
        node,
    )?;
    write_field(p, SYSTEM, COMMITS, 8, commits + 1)?;
    Ok(())
}
