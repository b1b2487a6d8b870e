// A new store's file is written.
ghost use Rattle.std.specs.Prelude.{◌≡◌, ◌≤◌, ◌<◌, ◌^◌, ◌-◌, ◌++◌, List, ℕ, length, replicate, OnOk, IfSome};
ghost use Rattle.engine_base.specs.Disk.{Told};
ghost use Rattle.file_model.specs.Sections.{IsInLimits};
ghost use Rattle.file_model.specs.Control.{control_head, new_file};
ghost use Rattle.engine_base.specs.Durable.{Counts, IsDurable};
ghost use Rattle.page_device.specs.Creating.{AppendsZeros, Creates};

use byteorder::{BigEndian, ByteOrder};
use engine_base::{Disk, Fault};
use file_model::Layout;

// What the file begins with.
fn control_head(layout: &Layout) -> [u8; 20]
    ensures { result ≡ control_head layout.now }
{
    let mut head = [
        76, 79, 66, 83, 84, 79, 82, 69, 0, 0, 0, 1, 0, 0, 0, 0, 0, 0, 0, 0,
    ];
    BigEndian::write_u32(&mut head[12..], layout.pages);
    BigEndian::write_u32(&mut head[16..], layout.log_kib);
    head
}

// Appends zeros to a file up to that length.
fn write_zeros<D: Disk>(disk: &mut D, from: u64, to: u64) -> Result<(), Fault>
    requires { from ≤ to }
    ensures zeros { OnOk result (Told (AppendsZeros from to) (D.state disk.old).seen
        (D.state disk.new).seen) }
    ensures counts { Counts (D.state disk.old) (D.state disk.new) result }
{
    let zeros = [0u8; 4_096];
    let mut at = from;
    'chunks: while at < to {
        let n = (to - at).min(4_096);
        let result = disk.write_at(at, &zeros[..n as usize]);
        if result.is_err() {
            return result;
        }
        at += n;
    }
    Ok(())
}

/// Writes an empty store on an empty disk. Before its `Ok` nothing is promised of what a crash
/// leaves.
pub fn create<D: Disk>(disk: &mut D, layout: Layout) -> Result<(), Fault>
    requires limits { IsInLimits layout }
    requires empty { IfSome (D.state disk.old).seen (λ file. length file ≡ 0) }
    ensures file { OnOk result (Told (Creates layout) (D.state disk.old).seen
        (D.state disk.new).seen) }
    ensures durable { OnOk result (IsDurable (D.state disk.new)) }
    ensures counts { Counts (D.state disk.old) (D.state disk.new) result }
{
    disk.write_at(0, &control_head(&layout))?;
    write_zeros(disk, 20, layout.wanted())?;
    disk.sync()
}
