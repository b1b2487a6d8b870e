// A new LOB.
ghost use Rattle.std.specs.Prelude.{◌≡◌, ◌+◌, ◌<◌, ◌≤◌, ◌^◌, [], ◌∷◌, Some, IfOk, IfErr, OnOk, OnErr};
ghost use Rattle.page_model.specs.Pages.{Pages};
ghost use Rattle.page_model.specs.Steps.{MayUse, Uses, Becomes};
ghost use Rattle.engine_base.specs.Faults.{HasCause, FailsPlainly, IsHonest};
ghost use Rattle.page_space.specs.Map.{IsSize};
ghost use Rattle.page_space.specs.Answers.{IsSpentOrOdd};
ghost use Rattle.lob_bytes.specs.Begin.{CanTakePage, BeginsLob, begin_room};

use crate::first_page::write_first_page;
use engine_base::{Fault, PageNo, Pages};
use lob_pages::TrxId;
use page_space::Space;

/// Begins a LOB of version 1 without pieces, in the lowest free page, which uses up one that is
/// reserved. Besides page 0 it touches that page, and it writes 16,389 bytes in three writes.
pub fn begin_lob<P: Pages>(p: &mut P, space: &mut Space, trx: TrxId) -> Result<PageNo, Fault>
    requires one { 1 ≤ space.old }
    requires narrow { trx.0 < 2 ^ 48 }
    requires size { IsSize (P.state p.old).count }
    requires may { MayUse (0 ∷ []) 1 begin_room (P.state p.old) }
    ensures begins { (pages : Pages) → (P.state p.old).told ≡ Some pages
        → CanTakePage space.old pages
        → IfOk result (λ page. Becomes (P.state p.new).told
        (BeginsLob page.0 trx.0 space.old space.new pages)) }
    ensures there { IfOk result (λ page. page.0 < (P.state p.old).count) }
    ensures ok { OnOk result (space.new + 1 ≡ space.old) }
    // A fault may have used one up.
    ensures err { OnErr result ((space.new ≤ space.old) × (space.old ≤ space.new + 1)) }

    // Strange names the count of free pages, as it stood at the call.
    ensures honest { IfErr result
        (IsHonest (IsSpentOrOdd (P.state p.old).told (P.state p.old).count)) }
    ensures never { (pages : Pages) → (P.state p.old).told ≡ Some pages
        → CanTakePage space.old pages → FailsPlainly result }
    ensures cause { HasCause (P.state p.old).faults (P.state p.new).faults result }
    ensures uses { Uses P.state P.stays (0 ∷ []) 1 begin_room p.old p.new }
{
    let page = space.take(p)?;
    write_first_page(p, page, trx)?;
    Ok(page)
}
