//! The kernels that flush to a real file.
ghost use Rattle.std.specs.Prelude.{◌≡◌, All, IfOk};
ghost use Rattle.page_model.specs.Frames.{IsInside};

use crate::report::Report;
use anyhow::{Result, bail, ensure};
use byteorder::{BigEndian, ByteOrder};
use engine_base::Disk;
use file_disk::FileDisk;
use file_model::Layout;
use mini_trx::Group;
use page_device::create;
use redo_log::{Log, Lsn};
use std::alloc::Global;
use std::time::Instant;

const LAYOUT: Layout = Layout {
    pages: 16,
    log_kib: 8_192,
};

// The bytes in front of those of a group's only write.
const HEAD: [u8; 14] = [0, 0, 0, 0, 0, 1, 0, 0, 0, 1, 0, 100, 0, 0];

// A group of one write of so many bytes to page 1.
fn group(alloc: Global, size: u16) -> Result<Group>
    ensures { IfOk result (λ g. All (IsInside 16) g.writes) }
{
    let mut frame = HEAD.to_vec(alloc)?;
    frame.resize(14 + usize::from(size), 7)?;
    BigEndian::write_u32(&mut frame, 14 + u32::from(size));
    BigEndian::write_u16(&mut frame[12..], size);
    match Group::from_frame(frame, LAYOUT.pages) {
        Ok(group) => Ok(group),
        Err(_) => bail!("no frame of a group"),
    }
}

// A disk with an empty store.
fn store(rt: &HostRuntime) -> Result<FileDisk<'_>> {
    let path = String::from_str(rt.alloc(), "page_bench.lob")?;
    let mut disk = FileDisk::new(rt, path);
    ensure!(
        disk.size().is_ok_and(|size| size == 0),
        "page_bench.lob is there already"
    );
    ensure!(
        create(&mut disk, LAYOUT).is_ok(),
        "the file can't be written"
    );
    Ok(disk)
}

// Goes on in the other region where a group of so many bytes has no room.
fn make_room(disk: &mut FileDisk<'_>, log: &mut Log, len: u64) -> Result<()>
    ensures { log.new.layout ≡ log.old.layout }
{
    if len > log.room() {
        ensure!(log.flush(disk).is_ok(), "no flush");
        ensure!(log.switch_region(disk).is_ok(), "no switch");
    }
    Ok(())
}

// One group, appended and flushed.
fn flush_one(alloc: Global, disk: &mut FileDisk<'_>, log: &mut Log, size: u16) -> Result<()>
    requires { log.old.layout.pages ≡ 16 }
    ensures { log.new.layout.pages ≡ 16 }
{
    let group = group(alloc, size)?;
    make_room(disk, log, group.len() as u64)?;
    ensure!((group.len() as u64) <= log.room(), "no room");
    log.append(&group);
    ensure!(log.flush(disk).is_ok(), "no flush");
    Ok(())
}

pub fn flush_rounds(rt: &HostRuntime, rounds: u64, size: u16) -> Result<Report> {
    let mut disk = store(rt)?;
    let mut log = Log::open(rt.alloc(), LAYOUT, 0, Lsn(0), 0)?;
    let start = Instant::now(rt)?;
    for _ in 0..rounds {
        flush_one(rt.alloc(), &mut disk, &mut log, size)?;
    }
    let spent = start.elapsed(rt)?;
    Ok(Report {
        spent,
        count: rounds.saturating_mul(u64::from(size)),
    })
}

pub fn raw_rounds(rt: &HostRuntime, rounds: u64, size: u16) -> Result<Report> {
    let mut disk = store(rt)?;
    let group = group(rt.alloc(), size)?;
    let start = Instant::now(rt)?;
    let mut at = LAYOUT.region_place(0);
    for _ in 0..rounds {
        if at >= LAYOUT.region_place(1) {
            at = LAYOUT.region_place(0);
        }
        let wrote = disk.write_at(at.saturating_add(1), group.frame()).is_ok();
        ensure!(wrote && disk.sync().is_ok(), "no write");
        ensure!(
            disk.write_at(at, &[1]).is_ok() && disk.sync().is_ok(),
            "no write"
        );
        at = at.saturating_add(group.len() as u64);
    }
    let spent = start.elapsed(rt)?;
    Ok(Report {
        spent,
        count: rounds.saturating_mul(u64::from(size)),
    })
}
