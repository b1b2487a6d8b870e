ghost use Rattle.std.specs.Prelude.{◌≡◌};

use crate::recovered::{Marks, recovered};
use crate::script::{Progress, run};
use file_model::Layout;
use mem_disk::MemDisk;
use page_device::create;
use redo_log::Log;
use std::alloc::Global;
use std::process::Abort;
use std::test::Fail;

const LAYOUT: Layout = Layout {
    pages: 16,
    log_kib: 1_024,
};

// Room for the record of what a script, or a repair, does.
const ROOM: u64 = 4_194_304;

// The calls of the script and the writes among them: three flushes of four and two, arming of four
// and two, going home of three and two, disarming of two and one, a switch of four and two.
const CALLS: u64 = 3 * 4 + 4 + 3 + 2 + 4;

const WRITES: u64 = 3 * 2 + 2 + 2 + 1 + 2;

// A disk with these contents, which fails so.
fn disk_of(
    alloc: Global,
    contents: Vec<u8>,
    fails: Vec<u64>,
    stop_after: Option<u64>,
) -> Result<MemDisk, Fail> {
    if contents.len() > 16_777_216 {
        return Err("too long".into());
    }
    Ok(MemDisk::new(alloc, contents, ROOM, fails, stop_after)?)
}

// The bytes of a new store.
fn new_store(alloc: Global) -> Result<Vec<u8>, Fail> {
    let contents = Vec::new(alloc);
    let mut disk = MemDisk::new(alloc, contents, 2 * ROOM, Vec::new(alloc), None)?;
    create(&mut disk, LAYOUT).ok().ok_or("create")?;
    Ok(disk.crash(alloc, 1)?)
}

// Runs the script on a disk that fails so, and recovers each of its four images: both marks are one
// group's, with every flushed one and none that wasn't appended. Tells how far the script came.
fn run_and_recover(
    rt: &impl Abort,
    alloc: Global,
    store: &[u8],
    fails: Vec<u64>,
    stop_after: Option<u64>,
) -> Result<Progress, Fail> {
    let mut disk = disk_of(alloc, store.to_vec(alloc)?, fails, stop_after)?;
    let mut log = Log::open(alloc, LAYOUT, 0, redo_log::Lsn(0), 0)?;
    let mut progress = Progress {
        appended: 0,
        flushed: 0,
    };
    let _ended = run(alloc, &mut disk, &LAYOUT, &mut log, &mut progress);
    for pick in 0..4 {
        let image = disk.crash(alloc, pick)?;
        let mut left = disk_of(alloc, image, Vec::new(alloc), None)?;
        let Marks(first, second) = recovered(alloc, &mut left)?;
        assert_eq!(rt; first, second, "picks {pick}");
        assert!(rt;
            progress.flushed <= first && first <= progress.appended,
            "picks {pick}"
        );
    }
    Ok(progress)
}

#[test]
fn what_was_flushed_outlasts_each_call_that_fails(rt: HostRuntime) -> Result<(), Fail> {
    let store = new_store(rt.alloc())?;
    for call in 1..=30 {
        let fails = [call].to_vec(rt.alloc())?;
        let progress = run_and_recover(&rt, rt.alloc(), &store, fails, None)?;
        assert_eq!(rt; progress.appended == 5, call > CALLS, "call {call}");
    }
    Ok(())
}

#[test]
fn what_was_flushed_outlasts_each_stop(rt: HostRuntime) -> Result<(), Fail> {
    let store = new_store(rt.alloc())?;
    for writes in 0..=16 {
        let none = Vec::new(rt.alloc());
        let progress = run_and_recover(&rt, rt.alloc(), &store, none, Some(writes))?;
        assert_eq!(rt;
            progress.appended == 5,
            writes > WRITES,
            "stop after {writes}"
        );
    }
    Ok(())
}
