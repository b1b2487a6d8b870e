// Which of the two log regions is live.
ghost use Rattle.std.specs.Prelude.{◌≡◌, ◌≤◌, List, length, IfOk, OnOk, IfSome};
ghost use Rattle.engine_base.specs.Disk.{Told, Stays, GoesOn};
ghost use Rattle.file_model.specs.Sections.{control_bytes};
ghost use Rattle.file_model.specs.Control.{live_of};
ghost use Rattle.engine_base.specs.Durable.{Counts, IsDurable, CrashLeaves};
ghost use Rattle.page_device.specs.Device.{SetsLive, MaySetLive};

use crate::write_synced;
use engine_base::{Disk, Fault};
use file_model::places::LIVE;

/// The live log region, 0 or 1.
pub fn live<D: Disk>(disk: &mut D) -> Result<u8, Fault>
    requires { IfSome (D.state disk.old).seen (λ file. control_bytes ≤ length file) }
    ensures live { IfOk result (λ region. IfSome (D.state disk.old).seen
        (λ file. region ≡ live_of file)) }
    ensures most { IfOk result (λ region. region ≤ 1) }
    ensures stays { Stays (D.state disk.old) (D.state disk.new) }
    ensures goes_on { GoesOn (D.state disk.old) (D.state disk.new) result }
{
    let mut byte = [0u8];
    disk.read_at(LIVE, &mut byte)?;
    Ok(byte[0] % 2)
}

/// Makes that log region the live one.
pub fn set_live<D: Disk>(disk: &mut D, region: u8) -> Result<(), Fault>
    requires { region ≤ 1 }
    ensures sets { OnOk result (Told (SetsLive region) (D.state disk.old).seen
        (D.state disk.new).seen) }
    ensures torn { Told MaySetLive (D.state disk.old).seen (D.state disk.new).seen }
    ensures durable { OnOk result (IsDurable (D.state disk.new)) }
    ensures any_moment { CrashLeaves (D.state disk.old) (D.state disk.new)
        MaySetLive }
    ensures counts { Counts (D.state disk.old) (D.state disk.new) result }
{
    write_synced(disk, LIVE, &[region])
}
