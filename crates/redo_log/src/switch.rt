// The other region begins, and then it becomes the live one.
ghost use Rattle.std.specs.Prelude.{◌≡◌, ◌≤◌, ◌++◌, [], ◌∷◌, List, length, OnOk};
ghost use Rattle.byteorder.specs.Endian.{big_bytes};
ghost use Rattle.engine_base.specs.Disk.{Told};
ghost use Rattle.file_model.specs.Sections.{IsInLimits, region_place};
ghost use Rattle.engine_base.specs.Durable.{Counts, IsDurable, CrashLeaves};
ghost use Rattle.redo_log.specs.Logs.{LogState, lsn_of};
ghost use Rattle.redo_log.specs.Switches.{other_region, region_head, Switching, WhileSwitching};

use byteorder::{BigEndian, ByteOrder};
use engine_base::{Disk, Fault};
use page_device::{set_live, write_synced};

// The beginning of a region without blocks.
fn region_head(start: u64) -> [u8; 9]
    ensures { result ≡ region_head start }
{
    let mut head = [0u8; 9];
    BigEndian::write_u64(&mut head, start);
    head
}

/// Writes the region's start LSN and a closed gate and syncs, and then makes it the live region.
pub(crate) fn write_switch<D: Disk>(
    disk: &mut D,
    place: u64,
    start: u64,
    region: u8,
) -> Result<(), Fault>
    requires { region ≤ 1 }
    ensures switches { (s : LogState) → IsInLimits s.layout → s.region ≤ 1
        → region ≡ other_region s.region → place ≡ region_place s.layout region → start ≡ lsn_of s
        → OnOk result (Told (Switching s) (D.state disk.old).seen (D.state disk.new).seen) }
    ensures durable { OnOk result (IsDurable (D.state disk.new)) }
    ensures any_moment { (s : LogState) → IsInLimits s.layout → s.region ≤ 1
        → region ≡ other_region s.region → place ≡ region_place s.layout region → start ≡ lsn_of s
        → CrashLeaves (D.state disk.old) (D.state disk.new)
        (WhileSwitching s) }
    ensures counts { Counts (D.state disk.old) (D.state disk.new) result }
{
    write_synced(disk, place, &region_head(start))?;
    set_live(disk, region)
}
