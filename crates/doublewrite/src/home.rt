// The images of a batch go home.
ghost use Rattle.std.specs.Prelude.{◌≡◌, List, length, OnOk};
ghost use Rattle.engine_base.specs.Disk.{Told, LeavesOnly, Follows};
ghost use Rattle.file_model.specs.Doublewrite.{Batch, numbers, InPages};
ghost use Rattle.file_model.specs.Changes.{SameElsewhere};
ghost use Rattle.engine_base.specs.Durable.{Counts, IsDurable, CrashLeaves};
ghost use Rattle.doublewrite.specs.Batches.{KeepsBatch, batch_of};
ghost use Rattle.doublewrite.specs.Steps.{Copying, MayCopy, Homing, WhileHoming};

use crate::buffer::{image, number};
use engine_base::{Disk, Fault, PageNo};
use page_device::{Layout, write_image};

/// Writes each image at its page, and syncs nothing.
fn write_images<D: Disk>(
    disk: &mut D,
    layout: &Layout,
    count: u32,
    buffer: &[u8],
) -> Result<(), Fault>
    requires { KeepsBatch layout.now count buffer.now }
    ensures copies { OnOk result (Told
        (Copying layout.now (numbers (batch_of count buffer.now)) (batch_of count buffer.now))
        (D.state disk.old).seen (D.state disk.new).seen) }
    ensures images { Follows (SameElsewhere
        (InPages layout.now (numbers (batch_of count buffer.now)))) (D.state disk.old).may_leave
        (D.state disk.new).may_leave }
    ensures any_moment { LeavesOnly (D.state disk.old) (D.state disk.new)
        (MayCopy (D.state disk.old).may_leave layout.now (numbers (batch_of count buffer.now))) }
    ensures counts { Counts (D.state disk.old) (D.state disk.new) result }
{
    let mut i = 0;
    'pages: while i < count as usize {
        let result = write_image(disk, layout, PageNo(number(buffer, i)), image(buffer, i));
        if result.is_err() {
            return result;
        }
        i += 1;
    }
    Ok(())
}

/// Writes each image at its page, and syncs.
pub(crate) fn home_area<D: Disk>(
    disk: &mut D,
    layout: &Layout,
    count: u32,
    buffer: &[u8],
) -> Result<(), Fault>
    requires { KeepsBatch layout.now count buffer.now }
    ensures homes { OnOk result (Told (Homing layout.now (batch_of count buffer.now))
        (D.state disk.old).seen (D.state disk.new).seen) }
    ensures durable { OnOk result (IsDurable (D.state disk.new)) }
    ensures any_moment { CrashLeaves (D.state disk.old) (D.state disk.new)
        (WhileHoming layout.now (batch_of count buffer.now)) }
    ensures counts { Counts (D.state disk.old) (D.state disk.new) result }
{
    write_images(disk, layout, count, buffer)?;
    disk.sync()
}
