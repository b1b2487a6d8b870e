// A script of appends, flushes, a batch and a switch.
ghost use Rattle.std.specs.Prelude.{◌≡◌, ◌≤◌, []};
ghost use Rattle.file_model.specs.Sections.{IsInLimits};

use crate::recovered::MARK;
use doublewrite::Filling;
use engine_base::{PageBuf, PageNo};
use file_model::Layout;
use mem_disk::MemDisk;
use mini_trx::Group;
use redo_log::Log;
use std::alloc::Global;

// How far a script came: the last group that was appended, and the last that was flushed.
#[derive(Clone, Copy, Debug, PartialEq, Eq)]
pub(crate) struct Progress {
    pub(crate) appended: u8,
    pub(crate) flushed: u8,
}

// Appends the group that sets both marks to this number.
fn append(alloc: Global, layout: &Layout, log: &mut Log, n: u8) -> Result<(), &'static str>
    requires { log.old.layout ≡ layout.now }
    ensures { log.new.layout ≡ log.old.layout }
{
    let at = MARK as u8;
    let frame = [
        0, 0, 0, 24, 0, 2, // 24 bytes, two writes
        0, 0, 0, 1, 0, at, 0, 1, n, // page 1, one byte
        0, 0, 0, 2, 0, at, 0, 1, n, // page 2, one byte
    ];
    let bytes = frame.to_vec(alloc).ok().ok_or("memory")?;
    let group = Group::from_frame(bytes, layout.pages).ok().ok_or("frame")?;
    if (group.len() as u64) > log.room() {
        return Err("room");
    }
    log.append(&group);
    Ok(())
}

// Writes both pages home, with this mark, by a doublewrite batch.
fn write_pages(
    alloc: Global,
    disk: &mut MemDisk,
    layout: &Layout,
    n: u8,
) -> Result<(), &'static str>
    requires { IsInLimits layout.now }
{
    let mut page = PageBuf::new(alloc).ok().ok_or("memory")?;
    page.patch(usize::from(MARK), &[n]);
    let mut batch = Filling::new(alloc, *layout).ok().ok_or("memory")?;
    batch.add(PageNo(1), &page);
    batch.add(PageNo(2), &page);
    let armed = batch.arm(disk).ok().ok_or("arm")?;
    let homed = armed.write_home(disk).ok().ok_or("home")?;
    homed.disarm(disk).ok().ok_or("disarm")?;
    Ok(())
}

// Goes on in the other region.
fn switch(disk: &mut MemDisk, log: &mut Log) -> Result<(), &'static str>
    ensures { log.new.layout ≡ log.old.layout }
{
    log.flush(disk).ok().ok_or("flush")?;
    log.switch_region(disk).ok().ok_or("switch")?;
    Ok(())
}

// Five groups: the first flushed alone, two more together, then both pages written home and the
// region switched, the fourth flushed, and the last not.
pub(crate) fn run(
    alloc: Global,
    disk: &mut MemDisk,
    layout: &Layout,
    log: &mut Log,
    progress: &mut Progress,
) -> Result<(), &'static str>
    requires limits { IsInLimits layout.now }
    requires log { log.old.layout ≡ layout.now }
{
    for n in 1..=5u8 {
        append(alloc, layout, log, n)?;
        progress.appended = n;
        if n == 1 || n == 3 || n == 4 {
            log.flush(disk).ok().ok_or("flush")?;
            progress.flushed = n;
        }
        if n == 3 {
            write_pages(alloc, disk, layout, n)?;
            switch(disk, log)?;
        }
    }
    Ok(())
}
