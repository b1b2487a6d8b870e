// The data of a first piece, written into the first page.
ghost use Rattle.std.specs.Prelude.{◌≡◌, ◌+◌, ◌<◌, ◌≤◌, [], ◌∷◌, length, OnOk};
ghost use Rattle.page_model.specs.Steps.{MayUse, Uses, Told, write_head};
ghost use Rattle.engine_base.specs.Faults.{HasCause, FailsPlainly};
ghost use Rattle.lob_model.specs.declared.layout.TheConstants.{FIRST_ROOM};
ghost use Rattle.lob_bytes.specs.Growth.{WritesFirst};

use engine_base::{Fault, PageNo, Pages, write_field};
use lob_model::layout::{FIRST_DATA, FIRST_LENGTH};

/// Writes the data of the first piece into the first page, and how many they are. Two writes.
pub fn write_first_data<P: Pages>(p: &mut P, first: PageNo, bytes: &[u8]) -> Result<(), Fault>
    requires page { first.0 < (P.state p.old).count }
    requires fits { length bytes.now ≤ FIRST_ROOM }
    requires may { MayUse (first.0 ∷ []) 0 ((4 + write_head) + (FIRST_ROOM + write_head))
        (P.state p.old) }
    ensures writes { OnOk result (Told (WritesFirst first.0 bytes.now)
        (P.state p.old).told (P.state p.new).told) }
    ensures uses { Uses P.state P.stays (first.0 ∷ []) 0
        ((4 + write_head) + (FIRST_ROOM + write_head)) p.old p.new }
    ensures cause { HasCause (P.state p.old).faults (P.state p.new).faults result }
    ensures plain { FailsPlainly result }
{
    write_field(p, first, FIRST_LENGTH, 4, bytes.len() as u64)?;
    p.write(first, FIRST_DATA, bytes)?;
    Ok(())
}
