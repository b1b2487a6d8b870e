//! The newest record of a log goes.
ghost use Rattle.std.specs.Prelude.{◌≡◌, ◌+◌, ◌*◌, ◌<◌, [], ◌∷◌, IfOk, OnOk};
ghost use Rattle.page_model.specs.Steps.{MayUse, Uses, Becomes, write_head};
ghost use Rattle.engine_base.specs.Faults.{HasCause, FailsPlainly};
ghost use Rattle.page_space.specs.Map.{IsSize};
ghost use Rattle.rollback.specs.Standing.{Scene, IsAt};
ghost use Rattle.rollback.specs.Records.{PopsRecord, is_left};

use engine_base::{Fault, PageNo, Pages};
use page_space::Space;

/// Takes the newest record of an active log out, and the log with its last one. False exactly where
/// none is left. Touches page 0, the log's first page and three others, and writes 26 bytes at most
/// in seven writes.
pub(crate) fn pop<P: Pages>(p: &mut P, space: &mut Space, log: PageNo) -> Result<bool, Fault>
    requires size { IsSize (P.state p.old).count }
    requires log { log.0 < (P.state p.old).count }
    requires may { MayUse (log.0 ∷ 0 ∷ []) 3 (26 + 7 * write_head) (P.state p.old) }
    ensures pops { (s : Scene) → IsAt (P.state p.old).told log.0 s
        → OnOk result (Becomes (P.state p.new).told (PopsRecord s)) }
    ensures left { (s : Scene) → IsAt (P.state p.old).told log.0 s
        → IfOk result (λ b. b ≡ is_left s.rest) }
    ensures reserved { space.new ≡ space.old }
    ensures never { (s : Scene) → IsAt (P.state p.old).told log.0 s → FailsPlainly result }
    ensures cause { HasCause (P.state p.old).faults (P.state p.new).faults result }
    ensures uses { Uses P.state P.stays (log.0 ∷ 0 ∷ []) 3 (26 + 7 * write_head) p.old p.new }
{
    undo_logs::pop_last(p, space, log)
}
