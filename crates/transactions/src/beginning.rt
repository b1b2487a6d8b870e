//! A transaction begun.
ghost use Rattle.std.specs.Prelude.{◌≡◌, ◌+◌, ◌^◌, ◌<◌, ◌≤◌, List, [], ◌∷◌, Some, IfOk, IfErr, IsErr, OnOk};
ghost use Rattle.page_model.specs.Pages.{Pages, field};
ghost use Rattle.page_model.specs.Steps.{MayUse, Uses, Becomes};
ghost use Rattle.engine_base.specs.Faults.{HasCause, FailsPlainly, IsHonest};
ghost use Rattle.page_space.specs.Map.{IsSize, free_of};
ghost use Rattle.page_space.specs.declared.layout.TheConstants.{NEXT_TRX_ID};
ghost use Rattle.store_data.specs.Store.{Store};
ghost use Rattle.undo_model.specs.Rows.{RowPage};
ghost use Rattle.transactions.specs.Standing.{IsAt};
ghost use Rattle.transactions.specs.Begins.{Begins, IsSpentId, begin_room};

use crate::Trx;
use engine_base::{Fault, Pages, read_field, strange, write_field};
use lob_pages::{TrxId, UndoNo};
use page_space::{NEXT_TRX_ID, SYSTEM, Space};
use undo_logs::begin_log;

// The ids below it have 48 bits.
const ID_END: u64 = 0x1_0000_0000_0000;

/// Begins a transaction: it has the next id of the store, and a log without records on a reserved
/// page, in front of the other active ones. Touches page 0, the page that is taken and that of the
/// log which was in front, and writes 148 bytes in nine writes. Strange names the next id in page
/// 0, where that has more than 48 bits: there are as many transactions then as may be.
pub fn begin<P: Pages>(p: &mut P, space: &mut Space) -> Result<Trx, Fault>
    requires one { 1 ≤ space.old }
    requires size { IsSize (P.state p.old).count }
    requires may { MayUse (0 ∷ []) 2 begin_room (P.state p.old) }
    ensures begins { (there : List RowPage) (pages : Pages) (store : Store)
        → IsAt (P.state p.old).told there pages store → store.next_trx < 2 ^ 48
        → space.old ≤ free_of pages
        → IfOk result (λ trx. Becomes (P.state p.new).told (λ new.
        Begins there trx.id.0 trx.log.0 trx.records.0 store new × (space.new ≤ free_of new))) }
    ensures narrow { IfOk result (λ trx. trx.id.0 < 2 ^ 48) }
    ensures there { IfOk result (λ trx. trx.log.0 < (P.state p.old).count) }
    ensures ok { OnOk result (space.new + 1 ≡ space.old) }

    // Without an id nothing is changed.
    ensures spent { (pages : Pages) → (P.state p.old).told ≡ Some pages
        → 2 ^ 48 ≤ field pages 0 NEXT_TRX_ID 8 → IsErr result
        × IfErr result (IsHonest (IsSpentId pages)) × ((P.state p.new).told ≡ Some pages) }
    ensures never { (there : List RowPage) (pages : Pages) (store : Store)
        → IsAt (P.state p.old).told there pages store → store.next_trx < 2 ^ 48
        → space.old ≤ free_of pages → FailsPlainly result }
    ensures cause { HasCause (P.state p.old).faults (P.state p.new).faults result }
    ensures uses { Uses P.state P.stays (0 ∷ []) 2 begin_room p.old p.new }
{
    let id = read_field(p, SYSTEM, NEXT_TRX_ID, 8)?;
    if id >= ID_END {
        return strange(SYSTEM, NEXT_TRX_ID, id);
    }
    let log = begin_log(p, space, TrxId(id))?;
    write_field(p, SYSTEM, NEXT_TRX_ID, 8, id + 1)?;
    Ok(Trx {
        id: TrxId(id),
        log,
        records: UndoNo(0),
    })
}
