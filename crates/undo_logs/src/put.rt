// A record put behind the others.
ghost use Rattle.std.specs.Prelude.{◌≡◌, ◌+◌, ◌*◌, ◌≤◌, ◌<◌, [], ◌∷◌, OnOk};
ghost use Rattle.page_model.specs.Steps.{MayUse, Uses, Told, write_head};
ghost use Rattle.engine_base.specs.Faults.{HasCause, FailsPlainly};
ghost use Rattle.engine_base.specs.Addresses.{address_of};
ghost use Rattle.undo_model.specs.Bytes.{record_size};
ghost use Rattle.undo_model.specs.Reading.{IsSoundRecord, IsSoundPrevious, record_end};
ghost use Rattle.undo_records.specs.Records.{record_of};
ghost use Rattle.undo_logs.specs.Puts.{PutsRecord};

use crate::layout::{END, LAST};
use engine_base::{Addr, Fault, PageNo, Pages, write_address, write_field};
use undo_records::{UndoRecord, write};

/// Writes the record there, sets the end of that page's used part behind it, and makes it the log's
/// last. Three writes.
pub(crate) fn put_record<P: Pages>(
    p: &mut P,
    log: PageNo,
    at: Addr,
    rec: &UndoRecord,
    previous: Addr,
) -> Result<(), Fault>
    requires log { log.0 < (P.state p.old).count }
    requires page { at.page.0 < (P.state p.old).count }
    requires within { at.at + record_size (record_of rec.now) ≤ record_end }
    requires sound { IsSoundRecord (P.state p.old).count (record_of rec.now) }
    requires previous { IsSoundPrevious (P.state p.old).count (address_of previous) }
    requires may { MayUse (at.page.0 ∷ log.0 ∷ []) 0
        (record_size (record_of rec.now) + 8 + 3 * write_head) (P.state p.old) }
    ensures puts { OnOk result (Told (PutsRecord log.0 (address_of at) (record_of rec.now)
        (address_of previous)) (P.state p.old).told (P.state p.new).told) }
    ensures uses { Uses P.state P.stays (at.page.0 ∷ log.0 ∷ []) 0
        (record_size (record_of rec.now) + 8 + 3 * write_head) p.old p.new }
    ensures cause { HasCause (P.state p.old).faults (P.state p.new).faults result }
    ensures plain { FailsPlainly result }
{
    let size = write(p, at, rec, previous)?;
    write_field(p, at.page, END, 2, u64::from(at.at + size))?;
    write_address(p, log, LAST, at)?;
    Ok(())
}
