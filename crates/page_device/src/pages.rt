// The pages of a store at their places.
ghost use Rattle.std.specs.Prelude.{◌≡◌, ◌≤◌, ◌<◌, ◌^◌, List, length, IfOk, OnOk, IfSome};
ghost use Rattle.engine_base.specs.Disk.{Told, Stays, Follows, GoesOn};
ghost use Rattle.page_model.specs.Pages.{page_bytes};
ghost use Rattle.file_model.specs.Sections.{IsInLimits, page_place, wanted, part};
ghost use Rattle.page_device.specs.Device.{SetsPage, MaySetPage};

use engine_base::{Disk, Fault, PageBuf, PageNo};
use file_model::Layout;

/// Reads a page.
pub fn read_page<D: Disk>(
    disk: &mut D,
    layout: &Layout,
    page: PageNo,
    into: &mut PageBuf,
) -> Result<(), Fault>
    requires limits { IsInLimits layout.now }
    requires below { page.0 < layout.now.pages }
    requires whole { IfSome (D.state disk.old).seen (λ file. wanted layout.now ≤ length file) }
    ensures bytes { OnOk result (IfSome (D.state disk.old).seen
        (λ file. into.new ≡ part file (page_place layout.now page.0) page_bytes)) }
    ensures stays { Stays (D.state disk.old) (D.state disk.new) }
    ensures goes_on { GoesOn (D.state disk.old) (D.state disk.new) result }
{
    disk.read_at(layout.page_place(page.0), into.bytes_mut())
}

/// Writes a page. It isn't synced: until a sync a crash may leave any bytes there.
pub fn write_page<D: Disk>(
    disk: &mut D,
    layout: &Layout,
    page: PageNo,
    from: &PageBuf,
) -> Result<(), Fault>
    requires limits { IsInLimits layout.now }
    requires below { page.0 < layout.now.pages }
    ensures sets { OnOk result (Told (SetsPage layout.now page.0 from.now) (D.state disk.old).seen
        (D.state disk.new).seen) }
    ensures torn { Told (MaySetPage layout.now page.0) (D.state disk.old).seen
        (D.state disk.new).seen }
    ensures images { Follows (MaySetPage layout.now page.0) (D.state disk.old).may_leave
        (D.state disk.new).may_leave }
    ensures goes_on { GoesOn (D.state disk.old) (D.state disk.new) result }
{
    write_image(disk, layout, page, from.bytes())
}

/// Writes a page from bytes that stand elsewhere, as `write_page` does.
pub fn write_image<D: Disk>(
    disk: &mut D,
    layout: &Layout,
    page: PageNo,
    from: &[u8],
) -> Result<(), Fault>
    requires limits { IsInLimits layout.now }
    requires below { page.0 < layout.now.pages }
    requires size { length from.now ≡ page_bytes }
    ensures sets { OnOk result (Told (SetsPage layout.now page.0 from.now) (D.state disk.old).seen
        (D.state disk.new).seen) }
    ensures torn { Told (MaySetPage layout.now page.0) (D.state disk.old).seen
        (D.state disk.new).seen }
    ensures images { Follows (MaySetPage layout.now page.0) (D.state disk.old).may_leave
        (D.state disk.new).may_leave }
    ensures goes_on { GoesOn (D.state disk.old) (D.state disk.new) result }
{
    disk.write_at(layout.page_place(page.0), from)
}
