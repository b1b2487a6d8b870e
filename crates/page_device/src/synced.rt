ghost use Rattle.std.specs.Prelude.{◌≡◌, ℕ, List, length, OnOk, OnErr};
ghost use Rattle.engine_base.specs.Disk.{Told, Torn, Written, Follows, LeavesOnly};
ghost use Rattle.engine_base.specs.Durable.{Counts, IsDurable, MayTear};

use engine_base::{Disk, Fault};

/// Writes the bytes at that place and syncs. Until its `Ok` a crash may leave any bytes in their
/// range and past the end.
pub fn write_synced<D: Disk>(disk: &mut D, at: u64, bytes: &[u8]) -> Result<(), Fault>
    ensures written { OnOk result (Told (Written at bytes.now) (D.state disk.old).seen
        (D.state disk.new).seen) }
    ensures torn { Told (Torn at (length bytes.now)) (D.state disk.old).seen
        (D.state disk.new).seen }
    ensures durable { OnOk result (IsDurable (D.state disk.new)) }
    ensures images { Follows (Torn at (length bytes.now)) (D.state disk.old).may_leave
        (D.state disk.new).may_leave }
    ensures any_moment { LeavesOnly (D.state disk.old) (D.state disk.new)
        (MayTear (D.state disk.old).may_leave at (length bytes.now)) }
    ensures counts { Counts (D.state disk.old) (D.state disk.new) result }
{
    disk.write_at(at, bytes)?;
    disk.sync()
}
