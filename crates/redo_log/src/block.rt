// A block is written behind its gate, and the gate is opened once the block is on the disk.
ghost use Rattle.std.specs.Prelude.{◌≡◌, ◌+◌, ◌<◌, ◌^◌, ℕ, List, length, OnOk, OnErr, IfSome};
ghost use Rattle.engine_base.specs.Disk.{Told, LeavesOnly, Only};
ghost use Rattle.engine_base.specs.Durable.{Counts, IsDurable};
ghost use Rattle.redo_log.specs.Stages.{IsStage, IsOpened};

use engine_base::{Disk, Fault};
use page_device::write_synced;

/// Writes the bytes behind the gate and syncs, and then opens the gate and syncs.
pub(crate) fn write_block<D: Disk>(disk: &mut D, gate: u64, bytes: &[u8]) -> Result<(), Fault>
    requires fits { gate + 1 < 2 ^ 64 }
    requires some { 0 < length bytes.now }
    ensures written { OnOk result (Told (IsOpened gate bytes.now) (D.state disk.old).seen
        (D.state disk.new).seen) }
    ensures stage { Told (IsStage gate bytes.now) (D.state disk.old).seen (D.state disk.new).seen }
    ensures durable { OnOk result (IsDurable (D.state disk.new)) }
    ensures any_moment { IfSome (D.state disk.old).seen
        (λ file. Only file (D.state disk.old).may_leave
        → LeavesOnly (D.state disk.old) (D.state disk.new) (IsStage gate bytes.now file)) }
    ensures counts { Counts (D.state disk.old) (D.state disk.new) result }
{
    write_synced(disk, gate + 1, bytes)?;
    write_synced(disk, gate, &[1])
}
