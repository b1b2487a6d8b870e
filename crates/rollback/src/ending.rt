//! The end of a record's undoing.
ghost use Rattle.std.specs.Prelude.{◌≡◌, ◌+◌, ◌*◌, ◌<◌, [], ◌∷◌, Some, IfOk, OnOk};
ghost use Rattle.page_model.specs.Steps.{MayUse, Uses, Becomes, write_head};
ghost use Rattle.engine_base.specs.Faults.{HasCause, FailsPlainly};
ghost use Rattle.engine_base.specs.Addresses.{address_of};
ghost use Rattle.page_space.specs.Map.{IsSize};
ghost use Rattle.store_data.specs.Store.{live};
ghost use Rattle.undo_model.specs.Data.{led};
ghost use Rattle.undo_model.specs.Rows.{IsPresent};
ghost use Rattle.undo_records.specs.Records.{state_of, IsNarrow};
ghost use Rattle.read_views.specs.Flights.{record_in};
ghost use Rattle.row_dir.specs.Directory.{IsDirectory, IsBelow};
ghost use Rattle.rollback.specs.Flights.{AreTurned, handed};
ghost use Rattle.rollback.specs.Records.{is_left};
ghost use Rattle.rollback.specs.Standing.{Scene, IsAt};
ghost use Rattle.rollback.specs.Ends.{EndsRecord, CanEnd, IsNewest};

use crate::flights::hand_on_all;
use crate::newest::Newest;
use crate::popping::pop;
use crate::rows::{put_back, restore};
use engine_base::{Fault, PageNo, Pages};
use page_space::Space;
use read_views::Flight;
use row_dir::RowDir;

/// The last step of a record's undoing, once all that it made is gone: it is out of its log, the row
/// is the one before, and each read whose next record it is takes its step. False exactly where no
/// record is left: the log is gone then. Touches page 0, the log's first page and nine others, and
/// writes at most 47 bytes in twelve writes, or 66 in eight. Strange names the record's place, and
/// the document, where that has no row.
pub(crate) fn end_record<P: Pages>(
    p: &mut P,
    space: &mut Space,
    rows: &mut RowDir,
    flights: &mut [Flight],
    log: PageNo,
    newest: &Newest,
) -> Result<bool, Fault>
    requires size { IsSize (P.state p.old).count }
    requires log { log.0 < (P.state p.old).count }
    requires below { IsBelow (P.state p.old).count rows.old }
    requires narrow { IsNarrow newest.now.rec.before }
    requires doc { newest.now.rec.before.doc ≡ newest.now.rec.doc }
    requires leads { led newest.now.roll.0 ≡ Some (address_of newest.now.place) }
    requires may { MayUse (log.0 ∷ 0 ∷ []) 9 (47 + 12 * write_head) (P.state p.old) }
    ensures ends { (s : Scene) → IsAt (P.state p.old).told log.0 s → IsNewest newest.now s
        → IsDirectory rows.old s.there → CanEnd s
        → OnOk result (Becomes (P.state p.new).told (EndsRecord s rows.new)) }
    ensures left { (s : Scene) → IsAt (P.state p.old).told log.0 s
        → IfOk result (λ b. b ≡ is_left s.rest) }
    ensures turns { OnOk result (AreTurned (handed (address_of newest.now.place)
        (record_in newest.now.rec)) flights.old flights.new) }
    ensures below { IsBelow (P.state p.old).count rows.new }
    ensures reserved { space.new ≡ space.old }
    ensures never { (s : Scene) → IsAt (P.state p.old).told log.0 s → IsNewest newest.now s
        → IsDirectory rows.old s.there → CanEnd s → FailsPlainly result }
    ensures cause { HasCause (P.state p.old).faults (P.state p.new).faults result }
    ensures uses { Uses P.state P.stays (log.0 ∷ 0 ∷ []) 9 (47 + 12 * write_head) p.old p.new }
{
    let left = pop(p, space, log)?;
    restore(rows, p, space, newest.place, &newest.rec.before)?;
    hand_on_all(flights, newest);
    Ok(left)
}

/// The same where the row before is live, as it is before each change in place: the row is put over
/// the one that the document has. Touches page 0, the log's first page and four others, and writes at
/// most 66 bytes in eight writes.
pub(crate) fn end_live<P: Pages>(
    p: &mut P,
    space: &mut Space,
    rows: &RowDir,
    flights: &mut [Flight],
    log: PageNo,
    newest: &Newest,
) -> Result<bool, Fault>
    requires size { IsSize (P.state p.old).count }
    requires log { log.0 < (P.state p.old).count }
    requires below { IsBelow (P.state p.old).count rows.now }
    requires present { IsPresent (state_of newest.now.rec.before.state) }
    requires narrow { IsNarrow newest.now.rec.before }
    requires doc { newest.now.rec.before.doc ≡ newest.now.rec.doc }
    requires leads { led newest.now.roll.0 ≡ Some (address_of newest.now.place) }
    requires may { MayUse (log.0 ∷ 0 ∷ []) 4 (66 + 8 * write_head) (P.state p.old) }
    ensures ends { (s : Scene) → IsAt (P.state p.old).told log.0 s → IsNewest newest.now s
        → IsDirectory rows.now s.there → CanEnd s → s.undo.before.state ≡ live
        → OnOk result (Becomes (P.state p.new).told (EndsRecord s rows.now)) }
    ensures left { (s : Scene) → IsAt (P.state p.old).told log.0 s
        → IfOk result (λ b. b ≡ is_left s.rest) }
    ensures turns { OnOk result (AreTurned (handed (address_of newest.now.place)
        (record_in newest.now.rec)) flights.old flights.new) }
    ensures reserved { space.new ≡ space.old }
    ensures never { (s : Scene) → IsAt (P.state p.old).told log.0 s → IsNewest newest.now s
        → IsDirectory rows.now s.there → CanEnd s → FailsPlainly result }
    ensures cause { HasCause (P.state p.old).faults (P.state p.new).faults result }
    ensures uses { Uses P.state P.stays (log.0 ∷ 0 ∷ []) 4 (66 + 8 * write_head) p.old p.new }
{
    let left = pop(p, space, log)?;
    put_back(rows, p, newest.place, &newest.rec.before)?;
    hand_on_all(flights, newest);
    Ok(left)
}
