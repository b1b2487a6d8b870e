// After a crash: armed images are copied home.
ghost use Rattle.std.specs.Prelude.{◌≡◌, ◌≤◌, ◌<◌, ◌+◌, ℕ, List, length, IfOk, OnOk, IfSome};
ghost use Rattle.engine_base.specs.Disk.{Told, Follows, LeavesOnly, Stays, GoesOn};
ghost use Rattle.file_model.specs.Sections.{IsInLimits, wanted, part, image_place};
ghost use Rattle.file_model.specs.Changes.{SameElsewhere};
ghost use Rattle.file_model.specs.Doublewrite.{InPages, image_in, armed};
ghost use Rattle.page_model.specs.Pages.{page_bytes};
ghost use Rattle.engine_base.specs.Durable.{Counts, IsDurable, CrashLeaves};
ghost use Rattle.page_device.specs.Device.{MaySetPage};
ghost use Rattle.doublewrite.specs.Batches.{number_of};
ghost use Rattle.doublewrite.specs.Steps.{CopiesImage, CopyingHeaded, headed_numbers, MayCopy, Heading, WhileHeading, Repairing, WhileRepairing};

use crate::area::disarm_area;
use crate::buffer::number;
use crate::header::{HEADER, count_of, is_armed};
use engine_base::{Disk, Fault, PageBuf, PageNo};
use file_model::places::{COUNT, IMAGES, PAGE_BYTES};
use page_device::{Layout, write_page};

/// Reads the image at place i of the area.
fn read_image<D: Disk>(disk: &mut D, i: u32, into: &mut PageBuf) -> Result<(), Fault>
    requires few { i < 32 }
    requires whole { IfSome (D.state disk.old).seen (λ file. 532_480 ≤ length file) }
    ensures bytes { OnOk result (IfSome (D.state disk.old).seen
        (λ file. into.new ≡ image_in file i)) }
    ensures stays { Stays (D.state disk.old) (D.state disk.new) }
    ensures goes_on { GoesOn (D.state disk.old) (D.state disk.new) result }
{
    disk.read_at(IMAGES + PAGE_BYTES * u64::from(i), into.bytes_mut())
}

/// Copies one image to its page.
fn copy_image<D: Disk>(
    disk: &mut D,
    layout: &Layout,
    i: u32,
    page: PageNo,
    buf: &mut PageBuf,
) -> Result<(), Fault>
    requires few { i < 32 }
    requires limits { IsInLimits layout.now }
    requires below { page.0 < layout.now.pages }
    requires whole { IfSome (D.state disk.old).seen (λ file. 532_480 ≤ length file) }
    ensures sets { OnOk result (Told (CopiesImage layout.now page.0 i) (D.state disk.old).seen
        (D.state disk.new).seen) }
    ensures torn { Told (MaySetPage layout.now page.0) (D.state disk.old).seen
        (D.state disk.new).seen }
    ensures images { Follows (MaySetPage layout.now page.0) (D.state disk.old).may_leave
        (D.state disk.new).may_leave }
    ensures any_moment { LeavesOnly (D.state disk.old) (D.state disk.new) (λ c. (d : List ℕ)
        × (D.state disk.old).may_leave d × MaySetPage layout.now page.0 d c) }
    ensures counts { Counts (D.state disk.old) (D.state disk.new) result }
{
    read_image(disk, i, buf)?;
    write_page(disk, layout, page, buf)
}

/// Copies the images to the pages that the header names, and syncs nothing.
fn copy_images<D: Disk>(
    disk: &mut D,
    layout: &Layout,
    header: &[u8],
    count: u32,
    buf: &mut PageBuf,
) -> Result<(), Fault>
    requires limits { IsInLimits layout.now }
    requires few { count ≤ 32 }
    requires size { length header.now ≡ 132 }
    requires below { (i : ℕ) → i < count → number_of header.now i < layout.now.pages }
    requires whole { IfSome (D.state disk.old).seen (λ file. wanted layout.now ≤ length file) }
    ensures copies { OnOk result (Told (CopyingHeaded layout.now header.now count count)
        (D.state disk.old).seen (D.state disk.new).seen) }
    ensures images { Follows (SameElsewhere (InPages layout.now (headed_numbers header.now count)))
        (D.state disk.old).may_leave (D.state disk.new).may_leave }
    ensures any_moment { LeavesOnly (D.state disk.old) (D.state disk.new)
        (MayCopy (D.state disk.old).may_leave layout.now (headed_numbers header.now count)) }
    ensures counts { Counts (D.state disk.old) (D.state disk.new) result }
{
    let mut i = 0;
    'pages: while i < count {
        let result = copy_image(disk, layout, i, PageNo(number(header, i as usize)), buf);
        if result.is_err() {
            return result;
        }
        i += 1;
    }
    Ok(())
}

/// Copies the images to the pages that the header names, and syncs.
fn copy_synced<D: Disk>(
    disk: &mut D,
    layout: &Layout,
    header: &[u8],
    count: u32,
    buf: &mut PageBuf,
) -> Result<(), Fault>
    requires limits { IsInLimits layout.now }
    requires few { count ≤ 32 }
    requires size { length header.now ≡ 132 }
    requires below { (i : ℕ) → i < count → number_of header.now i < layout.now.pages }
    requires whole { IfSome (D.state disk.old).seen (λ file. wanted layout.now ≤ length file) }
    ensures copies { OnOk result (Told (CopyingHeaded layout.now header.now count count)
        (D.state disk.old).seen (D.state disk.new).seen) }
    ensures durable { OnOk result (IsDurable (D.state disk.new)) }
    ensures any_moment { CrashLeaves (D.state disk.old) (D.state disk.new)
        (SameElsewhere (InPages layout.now (headed_numbers header.now count))) }
    ensures counts { Counts (D.state disk.old) (D.state disk.new) result }
{
    copy_images(disk, layout, header, count, buf)?;
    disk.sync()
}

/// Copies the images of the header's batch home and syncs, and then disarms.
fn home_headed<D: Disk>(
    disk: &mut D,
    layout: &Layout,
    header: &[u8],
    count: u32,
    buf: &mut PageBuf,
) -> Result<(), Fault>
    requires limits { IsInLimits layout.now }
    requires few { count ≤ 32 }
    requires size { length header.now ≡ 132 }
    requires below { (i : ℕ) → i < count → number_of header.now i < layout.now.pages }
    requires whole { IfSome (D.state disk.old).seen (λ file. wanted layout.now ≤ length file) }
    ensures repairs { OnOk result (Told (Heading layout.now header.now count)
        (D.state disk.old).seen
        (D.state disk.new).seen) }
    ensures durable { OnOk result (IsDurable (D.state disk.new)) }
    ensures any_moment { CrashLeaves (D.state disk.old) (D.state disk.new)
        (WhileHeading layout.now header.now count) }
    ensures counts { Counts (D.state disk.old) (D.state disk.new) result }
{
    copy_synced(disk, layout, header, count, buf)?;
    disarm_area(disk)
}

/// After a crash: copies the images of an armed batch home and disarms it, and tells how many there
/// were. A crash meanwhile leaves
/// what is repaired to the same pages.
pub fn repair<D: Disk>(disk: &mut D, layout: &Layout, buf: &mut PageBuf) -> Result<u32, Fault>
    requires limits { IsInLimits layout.now }
    requires whole { IfSome (D.state disk.old).seen (λ file. wanted layout.now ≤ length file) }
    ensures repairs { OnOk result (Told (Repairing layout.now) (D.state disk.old).seen
        (D.state disk.new).seen) }
    ensures count { IfOk result (λ n. IfSome (D.state disk.old).seen
        (λ file. n ≡ length (armed layout.now file))) }
    ensures durable { OnOk result (IsDurable (D.state disk.old)
        → IsDurable (D.state disk.new)) }
    ensures any_moment { CrashLeaves (D.state disk.old) (D.state disk.new)
        (WhileRepairing layout.now) }
    ensures counts { Counts (D.state disk.old) (D.state disk.new) result }
{
    if !is_armed(disk)? {
        return Ok(0);
    }
    let mut header = [0u8; HEADER];
    disk.read_at(COUNT, &mut header)?;
    let count = count_of(&header, layout.pages);
    home_headed(disk, layout, &header, count, buf)?;
    Ok(count)
}
