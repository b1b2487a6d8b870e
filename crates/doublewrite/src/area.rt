// A batch's area in the file: header and images, and the armed byte.
ghost use Rattle.std.specs.Prelude.{◌≡◌, ℕ, [], ◌∷◌, List, length, OnOk};
ghost use Rattle.engine_base.specs.Disk.{Told, Torn, Written};
ghost use Rattle.engine_base.specs.Durable.{Counts, IsDurable, CrashLeaves};
ghost use Rattle.doublewrite.specs.Batches.{KeepsBatch, batch_of};
ghost use Rattle.doublewrite.specs.Steps.{Arming, WhileArming, Resting, WhileResting};
ghost use Rattle.file_model.specs.Doublewrite.{Batch};
ghost use Rattle.file_model.specs.Sections.{armed_place};
ghost use Rattle.file_model.specs.declared.layout.Layout.{Layout};

use engine_base::{Disk, Fault};
use file_model::places::{ARMED, COUNT};
use page_device::write_synced;

/// Writes header and images and syncs, and then the armed byte and syncs.
pub(crate) fn arm_area<D: Disk>(disk: &mut D, buffer: &[u8]) -> Result<(), Fault>
    ensures arms { (l : Layout) (count : ℕ) → KeepsBatch l count buffer.now
        → OnOk result (Told (Arming l (batch_of count buffer.now)) (D.state disk.old).seen
        (D.state disk.new).seen) }
    ensures durable { OnOk result (IsDurable (D.state disk.new)) }
    ensures any_moment { (l : Layout) (count : ℕ) → KeepsBatch l count buffer.now
        → CrashLeaves (D.state disk.old) (D.state disk.new)
        (WhileArming l (batch_of count buffer.now)) }
    ensures counts { Counts (D.state disk.old) (D.state disk.new) result }
{
    write_synced(disk, COUNT, buffer)?;
    write_synced(disk, ARMED, &[1])
}

/// Writes the armed byte as 0 and syncs.
pub(crate) fn disarm_area<D: Disk>(disk: &mut D) -> Result<(), Fault>
    ensures written { OnOk result (Told (Written armed_place (0 ∷ [])) (D.state disk.old).seen
        (D.state disk.new).seen) }
    ensures torn { CrashLeaves (D.state disk.old) (D.state disk.new)
        (Torn armed_place 1) }
    ensures rests { (l : Layout) (batch : Batch)
        → OnOk result (Told (Resting l batch) (D.state disk.old).seen (D.state disk.new).seen) }
    ensures durable { OnOk result (IsDurable (D.state disk.new)) }
    ensures any_moment { (l : Layout) (batch : Batch)
        → CrashLeaves (D.state disk.old) (D.state disk.new)
        (WhileResting l batch) }
    ensures counts { Counts (D.state disk.old) (D.state disk.new) result }
{
    write_synced(disk, ARMED, &[0])
}
