// What is recovered from a store's file: its armed batch is repaired, and the groups of its live
// region are made again on its pages.
ghost use Rattle.std.specs.Prelude.{◌≡◌, ◌≤◌, ◌<◌, List, length, IfOk, IsTrue};
ghost use Rattle.file_model.specs.Sections.{IsInLimits, wanted};
ghost use Rattle.mem_disk.specs.MemDisk.{contents_in};

use doublewrite::repair;
use engine_base::{PageBuf, PageNo};
use file_model::Layout;
use mem_disk::MemDisk;
use mini_trx::Group;
use page_device::{live, open, read_page};
use redo_log::Scan;
use std::alloc::Global;

// Where a group of the script writes its number, on pages 1 and 2.
pub(crate) const MARK: u16 = 100;

// The marks of pages 1 and 2.
#[derive(Clone, Copy, Debug, PartialEq, Eq)]
pub(crate) struct Marks(pub(crate) u8, pub(crate) u8);

// Whether the file has all its pages.
fn is_whole(disk: &MemDisk, layout: &Layout) -> bool
    requires { IsInLimits layout.now }
    ensures { IsTrue result → wanted layout.now ≤ length (contents_in disk.now) }
{
    layout.wanted() <= disk.contents().len() as u64
}

// The mark of a page at home.
fn mark_of(
    disk: &mut MemDisk,
    layout: &Layout,
    page: u32,
    buf: &mut PageBuf,
) -> Result<u8, &'static str>
    requires limits { IsInLimits layout.now }
    requires below { page < 16 }
{
    if !is_whole(disk, layout) {
        return Err("short");
    }
    read_page(disk, layout, PageNo(page), buf)
        .ok()
        .ok_or("read")?;
    Ok(buf.bytes()[usize::from(MARK)])
}

// The marks behind a group.
fn with_group(marks: Marks, group: &Group) -> Marks {
    let mut marks = marks;
    for write in group.writes() {
        if let (MARK, [mark]) = (write.at, write.bytes) {
            match write.page.0 {
                1 => marks.0 = *mark,
                2 => marks.1 = *mark,
                _ => {}
            }
        }
    }
    marks
}

// The marks behind all groups of that region, of which there are at most 8.
fn with_log(
    disk: &mut MemDisk,
    layout: &Layout,
    scan: &mut Scan,
    marks: Marks,
) -> Result<Marks, &'static str>
    requires limits { IsInLimits layout.now }
    requires layout { scan.old.layout ≡ layout.now }
{
    let mut marks = marks;
    'groups: for _ in 0..9u32 {
        if !is_whole(disk, layout) {
            return Err("short");
        }
        if !scan.next(disk).ok().ok_or("scan")? {
            return Ok(marks);
        }
        if let Some(group) = scan.group() {
            marks = with_group(marks, group);
        }
    }
    Err("more groups than there were")
}

// The marks of what is recovered.
pub(crate) fn recovered(alloc: Global, disk: &mut MemDisk) -> Result<Marks, &'static str> {
    let layout = open(disk).ok().ok_or("open")?;
    let mut buf = PageBuf::new(alloc).ok().ok_or("memory")?;
    if !is_whole(disk, &layout) {
        return Err("short");
    }
    repair(disk, &layout, &mut buf).ok().ok_or("repair")?;
    if !is_whole(disk, &layout) {
        return Err("short");
    }
    let region = live(disk).ok().ok_or("live")?;
    let first = mark_of(disk, &layout, 1, &mut buf)?;
    let second = mark_of(disk, &layout, 2, &mut buf)?;
    let mut scan = Scan::new(alloc, layout, region).ok().ok_or("memory")?;
    with_log(disk, &layout, &mut scan, Marks(first, second))
}
