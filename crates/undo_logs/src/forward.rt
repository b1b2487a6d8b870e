// From one record of a log to the next.
ghost use Rattle.std.specs.Prelude.{◌≡◌, ◌<◌, [], ◌∷◌, Some, IfOk};
ghost use Rattle.page_model.specs.Pages.{Pages};
ghost use Rattle.page_model.specs.Lists.{or_null};
ghost use Rattle.page_model.specs.Steps.{MayUse, Uses};
ghost use Rattle.engine_base.specs.Faults.{HasCause, FailsPlainly};
ghost use Rattle.engine_base.specs.Addresses.{address_of};
ghost use Rattle.undo_model.specs.Data.{Log};
ghost use Rattle.undo_model.specs.LogSteps.{oldest};
ghost use Rattle.undo_logs.specs.Forward.{CutsAt, from_here};

use crate::layout::{END, OTHER_START, PAGE_NODE};
use engine_base::{Addr, Fault, PageNo, Pages, read_field, strange};
use file_lists::next;

/// The address of the record at that place, or of the first behind it: where the used part of the
/// page ends there, of the first record of the page that was added next. Null where there is none.
/// Touches the page alone.
pub(crate) fn record_from<P: Pages>(p: &mut P, page: PageNo, at: u32) -> Result<Addr, Fault>
    requires page { page.0 < (P.state p.old).count }
    requires may { MayUse (page.0 ∷ []) 0 0 (P.state p.old) }
    ensures value { (pages : Pages) (l : Log) → (P.state p.old).told ≡ Some pages
        → (c : CutsAt l page.0 at pages)
        → IfOk result (λ a. address_of a ≡ or_null (oldest (from_here c))) }
    ensures never { (pages : Pages) (l : Log) → (P.state p.old).told ≡ Some pages
        → CutsAt l page.0 at pages → FailsPlainly result }
    ensures told { (P.state p.new).told ≡ (P.state p.old).told }
    ensures uses { Uses P.state P.stays (page.0 ∷ []) 0 0 p.old p.new }
    ensures cause { HasCause (P.state p.old).faults (P.state p.new).faults result }
{
    let end = read_field(p, page, END, 2)?;
    if u64::from(at) < end {
        return Ok(Addr {
            page,
            at: at as u16,
        });
    }
    let node = Addr {
        page,
        at: PAGE_NODE,
    };
    match next(p, node)? {
        Some(node) => {
            if node.at == PAGE_NODE {
                Ok(Addr {
                    page: node.page,
                    at: OTHER_START,
                })
            } else {
                strange(page, PAGE_NODE + 10, u64::from(node.at))
            }
        }
        None => Ok(Addr::NULL),
    }
}
