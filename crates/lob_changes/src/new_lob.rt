//! A new LOB with its first piece.
ghost use Rattle.std.specs.Prelude.{◌≡◌, ◌^◌, ◌+◌, ◌<◌, ◌≤◌, List, [], ◌∷◌, length, IfOk};
ghost use Rattle.page_model.specs.Pages.{Pages};
ghost use Rattle.page_model.specs.Steps.{MayUse, Uses, Becomes};
ghost use Rattle.engine_base.specs.Faults.{HasCause, FailsPlainly};
ghost use Rattle.page_space.specs.Map.{IsSize, free_of};
ghost use Rattle.store_data.specs.Store.{Store};
ghost use Rattle.undo_model.specs.Rows.{RowPage};
ghost use Rattle.lob_model.specs.declared.layout.TheConstants.{FIRST_ROOM};
ghost use Rattle.transactions.specs.Standing.{IsAt};
ghost use Rattle.lob_changes.specs.NewLobs.{MakesLob, lob_room};

use engine_base::{Fault, PageNo, Pages};
use lob_bytes::{add_piece, begin_lob};
use lob_pages::TrxId;
use page_space::Space;

/// Begins a LOB on a reserved page, with a first piece of these bytes, which stand in that page.
/// Touches page 0, the page that is taken and five others, and writes at most what `begin_lob` and
/// `add_piece` do.
pub(crate) fn make_lob<P: Pages>(
    p: &mut P,
    space: &mut Space,
    trx: TrxId,
    first: &[u8],
) -> Result<PageNo, Fault>
    requires one { 1 ≤ space.old }
    requires size { IsSize (P.state p.old).count }
    requires narrow { trx.0 < 2 ^ 48 }
    requires fits { length first.now ≤ FIRST_ROOM }
    requires may { MayUse (0 ∷ []) 6 lob_room (P.state p.old) }
    ensures makes { (there : List RowPage) (pages : Pages) (store : Store)
        → IsAt (P.state p.old).told there pages store → space.old ≤ free_of pages
        → IfOk result (λ page. Becomes (P.state p.new).told
        (MakesLob there page.0 trx.0 first.now space.old space.new store)) }
    ensures there { IfOk result (λ page. page.0 < (P.state p.old).count) }
    ensures never { (there : List RowPage) (pages : Pages) (store : Store)
        → IsAt (P.state p.old).told there pages store → space.old ≤ free_of pages
        → FailsPlainly result }
    ensures cause { HasCause (P.state p.old).faults (P.state p.new).faults result }
    ensures uses { Uses P.state P.stays (0 ∷ []) 6 lob_room p.old p.new }
{
    let page = begin_lob(p, space, trx)?;
    add_piece(p, space, page, trx, first)?;
    Ok(page)
}
