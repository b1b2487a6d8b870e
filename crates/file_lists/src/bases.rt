// A list made without nodes.
ghost use Rattle.std.specs.Prelude.{◌≡◌, ◌+◌, [], ◌∷◌, OnOk};
ghost use Rattle.page_model.specs.Lists.{IsBasePlace};
ghost use Rattle.page_model.specs.Steps.{MayUse, Uses, Told, write_head};
ghost use Rattle.engine_base.specs.Faults.{HasCause, FailsPlainly};
ghost use Rattle.engine_base.specs.Addresses.{address_of};
ghost use Rattle.file_lists.specs.Changes.{MakesBase};

use crate::layout::{BASE_SIZE, FIRST, FIRST_AT, LAST, LAST_AT};
use engine_base::FieldValue::{Four, Two};
use engine_base::{Addr, Fault, NULL_PAGE, Pages, fill_fields};

/// Makes the 16 bytes there the base of a list without nodes, whatever stands in them. One write.
pub fn make_base<P: Pages>(p: &mut P, base: Addr) -> Result<(), Fault>
    requires base { IsBasePlace (P.state p.old).count (address_of base) }
    requires may { MayUse (base.page.0 ∷ []) 0 (16 + write_head) (P.state p.old) }
    ensures makes { OnOk result (Told (MakesBase (address_of base)) (P.state p.old).told
        (P.state p.new).told) }
    ensures uses { Uses P.state P.stays (base.page.0 ∷ []) 0 (16 + write_head) p.old p.new }
    ensures cause { HasCause (P.state p.old).faults (P.state p.new).faults result }
    ensures plain { FailsPlainly result }
{
    let mut bytes = [0u8; BASE_SIZE as usize];
    fill_fields(
        &mut bytes,
        &[
            Four(0, 0),
            Four(FIRST, NULL_PAGE),
            Two(FIRST_AT, 0),
            Four(LAST, NULL_PAGE),
            Two(LAST_AT, 0),
        ],
    );
    p.write(base.page, base.at, &bytes)?;
    Ok(())
}
