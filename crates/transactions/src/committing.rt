//! A transaction committed.
ghost use Rattle.std.specs.Prelude.{◌≡◌, ◌+◌, ◌*◌, ◌^◌, ◌<◌, suc, List, [], ◌∷◌, OnOk};
ghost use Rattle.page_model.specs.Pages.{Pages};
ghost use Rattle.page_model.specs.Steps.{MayUse, Uses, Becomes, write_head};
ghost use Rattle.engine_base.specs.Faults.{HasCause, FailsPlainly};
ghost use Rattle.page_space.specs.Map.{IsSize};
ghost use Rattle.store_data.specs.Store.{Log, Store};
ghost use Rattle.undo_model.specs.Rows.{RowPage};
ghost use Rattle.transactions.specs.Standing.{IsAt, IsAtWork};
ghost use Rattle.transactions.specs.Commits.{Commits};

use crate::Trx;
use engine_base::{Fault, Pages};

/// Commits a transaction: its log goes to the end of the committed ones, with the number behind
/// that of the last commit. Touches the log's first page, page 0 and at most three others, and
/// writes 67 bytes in twelve writes. Behind commit 18,446,744,073,709,551,615 there is none:
/// Strange then names the count.
pub fn commit<P: Pages>(p: &mut P, trx: &Trx) -> Result<(), Fault>
    requires size { IsSize (P.state p.old).count }
    requires log { trx.now.log.0 < (P.state p.old).count }
    requires may { MayUse (trx.now.log.0 ∷ 0 ∷ []) 3 (67 + 12 * write_head) (P.state p.old) }
    ensures commits { (there : List RowPage) (pages : Pages) (store : Store) (l : Log)
        → IsAt (P.state p.old).told there pages store
        → IsAtWork trx.now.id.0 trx.now.log.0 trx.now.records.0 store l
        → OnOk result (Becomes (P.state p.new).told (Commits there trx.now.id.0 store)) }
    ensures never { (there : List RowPage) (pages : Pages) (store : Store) (l : Log)
        → IsAt (P.state p.old).told there pages store
        → IsAtWork trx.now.id.0 trx.now.log.0 trx.now.records.0 store l
        → suc store.commits < 2 ^ 64 → FailsPlainly result }
    ensures cause { HasCause (P.state p.old).faults (P.state p.new).faults result }
    ensures uses { Uses P.state P.stays (trx.now.log.0 ∷ 0 ∷ []) 3 (67 + 12 * write_head)
        p.old p.new }
{
    undo_logs::commit(p, trx.log)
}
