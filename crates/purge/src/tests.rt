ghost use Rattle.std.specs.Prelude.{◌≡◌, ◌<◌};
ghost use Rattle.mem_disk.specs.MemPages.{page_state};
ghost use Rattle.row_dir.specs.Directory.{IsBelow};
ghost use Rattle.store_steps.specs.Reached.{IsFit};

use crate::{Purging, Step, purge_step};
use engine_base::{PageNo, Pages, read_field, write_field};
use lob_bytes::{add_piece, begin_lob};
use lob_pages::TrxId;
use mem_disk::MemPages;
use page_space::{Space, make_system};
use row_dir::RowDir;
use std::test::Fail;
use undo_logs::{begin_log, commit};

const SYSTEM: PageNo = PageNo(0);

// The first page that a new store takes.
pub(crate) const LOG: PageNo = PageNo(1);

// Then the LOB takes this one, and its second piece the page behind.
pub(crate) const LOB: PageNo = PageNo(2);

#[derive(Clone, Copy)]
struct Change {
    kind: u8,
    size: u8,
    live: bool,
    // a page, or how many pieces there are or runs
    first: u32,
    // the bits of the touched pieces
    bits: u8,
}

// Writes a field of the log's first page.
#[tactic(auto, using(crate::proofs::TestLemmas::ample))]
pub(crate) fn set(p: &mut MemPages, at: u16, width: u8, value: u64) -> Result<(), Fail> {
    if p.count() != 16 || at > 1_000 {
        return Err(Fail::from("place"));
    }
    let written = match width {
        1 if value < 0x100 => write_field(p, LOG, at, 1, value),
        2 if value < 0x1_0000 => write_field(p, LOG, at, 2, value),
        4 if value < 0x1_0000_0000 => write_field(p, LOG, at, 4, value),
        _ => return Err(Fail::from("width")),
    };
    written.ok().ok_or("set")?;
    Ok(())
}

#[tactic(auto, using(crate::proofs::TestLemmas::ample))]
fn free_pages(p: &mut MemPages) -> Result<u64, Fail> {
    if p.count() != 16 {
        return Err(Fail::from("count"));
    }
    let free = read_field(p, SYSTEM, 62, 4).ok().ok_or("free")?;
    Ok(free)
}

// A store of 16 pages with a log of transaction 7, and a LOB.
#[tactic(auto, using(crate::proofs::TestLemmas::ample))]
pub(crate) fn store(p: &mut MemPages, space: &mut Space) -> Result<(), Fail> {
    if p.count() != 16 {
        return Err(Fail::from("count"));
    }
    make_system(p).ok().ok_or("system")?;
    if p.count() != 16 {
        return Err(Fail::from("count"));
    }
    space.reserve(p, 14).ok().ok_or("reserve")?;
    if p.count() != 16 || space.reserved() == 0 {
        return Err(Fail::from("reserved"));
    }
    begin_log(p, space, TrxId(7)).ok().ok_or("log")?;
    if p.count() != 16 || space.reserved() == 0 {
        return Err(Fail::from("reserved"));
    }
    begin_lob(p, space, TrxId(5)).ok().ok_or("lob")?;
    Ok(())
}

#[tactic(auto, using(crate::proofs::TestLemmas::ample))]
pub(crate) fn add(p: &mut MemPages, space: &mut Space) -> Result<(), Fail> {
    if p.count() != 16 {
        return Err(Fail::from("count"));
    }
    let bytes = [7; 15_680];
    add_piece(p, space, LOB, TrxId(5), &bytes)
        .ok()
        .ok_or("piece")?;
    Ok(())
}

// Writes the record of a change of document 9 as the log's only one, with its kind, its length,
// whether the row before was live, and the first five bytes of its body; and commits the log.
#[tactic(auto, using(crate::proofs::TestLemmas::ample))]
fn write_record(p: &mut MemPages, change: Change) -> Result<(), Fail> {
    let live = u64::from(change.live);
    for (at, width, value) in [
        (50, 2, 107 + u64::from(change.size)),
        (107, 2, u64::from(change.size)),
        (109, 1, u64::from(change.kind)),
        (114, 4, 9),
        (118, 1, live),
        (121, 4, 5 * live),
        (136, 4, 2 * live),
        (140, 4, live),
        (148, 4, 20_000 * live),
        (152, 4, 0xffff_ffff),
        (158, 4, u64::from(change.first)),
        (162, 1, u64::from(change.bits)),
    ] {
        set(p, at, width, value)?;
    }
    if p.count() != 16 {
        return Err(Fail::from("count"));
    }
    commit(p, LOG).ok().ok_or("commit")?;
    Ok(())
}

// Makes an event, and answers it with the number of free pages behind it.
#[tactic(auto, using(crate::proofs::TestLemmas::ample, crate::proofs::TestLemmas::below, crate::proofs::TestLemmas::below_again, crate::proofs::TestLemmas::fit, crate::proofs::TestLemmas::fit_again))]
fn step(
    p: &mut MemPages,
    space: &mut Space,
    job: &mut Purging,
    rows: &mut RowDir,
) -> Result<(Step, u64), Fail>
    requires log { job.old.log.0 < 16 }
    requires fit { IsFit 16 job.old.dropped }
    requires below { IsBelow 16 rows.old }
    ensures log { job.new.log ≡ job.old.log }
    ensures fit { IsFit 16 job.new.dropped }
    ensures below { IsBelow 16 rows.new }
{
    if p.count() != 16 {
        return Err(Fail::from("count"));
    }
    let step = purge_step(job, p, space, rows).ok().ok_or("step")?;
    let free = free_pages(p)?;
    Ok((step, free))
}

// Makes events, each of which is to be answered so.
pub(crate) fn run(
    p: &mut MemPages,
    space: &mut Space,
    job: &mut Purging,
    rows: &mut RowDir,
    events: &[(Step, u64)],
) -> Result<(), Fail>
    requires log { job.old.log.0 < 16 }
    requires fit { IsFit 16 job.old.dropped }
    requires below { IsBelow 16 rows.old }
{
    'events: for event in events {
        if step(p, space, job, rows)? != *event {
            return Err(Fail::from("event"));
        }
    }
    Ok(())
}

const INSERT: Change = Change {
    kind: 1,
    size: 55,
    live: false,
    first: 2,
    bits: 0,
};

const FULL: Change = Change {
    kind: 2,
    size: 55,
    live: true,
    first: 5,
    bits: 0,
};

const VERSIONED: Change = Change {
    kind: 3,
    size: 56,
    live: true,
    first: 2,
    bits: 3,
};

const PATCHED: Change = Change {
    kind: 4,
    size: 52,
    live: true,
    first: 0,
    bits: 0,
};

const REMOVED: Change = Change {
    kind: 5,
    size: 51,
    live: true,
    first: 0,
    bits: 0,
};

// Of a LOB of two pieces without index pages: the first event, those of the record, and the log's
// page.
#[test]
fn each_kind_takes_its_events(rt: HostRuntime) -> Result<(), Fail> {
    let passed = [(Step::More, 12), (Step::More, 12), (Step::Done, 13)];
    let freed = [
        (Step::More, 12),
        (Step::More, 13),
        (Step::More, 13),
        (Step::More, 14),
        (Step::Done, 15),
    ];
    let dropped = [
        (Step::More, 12),
        (Step::More, 12),
        (Step::More, 12),
        (Step::More, 12),
        (Step::Done, 13),
    ];
    for (change, events) in [
        (INSERT, passed.as_slice()),
        (PATCHED, passed.as_slice()),
        (VERSIONED, dropped.as_slice()),
        (FULL, freed.as_slice()),
        (REMOVED, freed.as_slice()),
    ] {
        let mut p = MemPages::new(rt.alloc(), 16)?;
        let mut space = Space::new();
        store(&mut p, &mut space)?;
        add(&mut p, &mut space)?;
        add(&mut p, &mut space)?;
        write_record(&mut p, change)?;
        let mut rows = RowDir::new(rt.alloc());
        let mut job = Purging::start(LOG);
        run(&mut p, &mut space, &mut job, &mut rows, events)?;
    }
    Ok(())
}

// Behind the first part of the LOB before, and behind the first touched piece.
#[test]
fn a_purge_goes_on_where_another_stopped(rt: HostRuntime) -> Result<(), Fail> {
    let half_freed = [(Step::More, 12), (Step::More, 13)];
    let freed = [(Step::More, 13), (Step::More, 14), (Step::Done, 15)];
    let half_dropped = [(Step::More, 12), (Step::More, 12)];
    let dropped = [
        (Step::More, 12),
        (Step::More, 12),
        (Step::More, 12),
        (Step::Done, 13),
    ];
    for (change, before, behind) in [
        (FULL, half_freed.as_slice(), freed.as_slice()),
        (VERSIONED, half_dropped.as_slice(), dropped.as_slice()),
    ] {
        let mut p = MemPages::new(rt.alloc(), 16)?;
        let mut space = Space::new();
        store(&mut p, &mut space)?;
        add(&mut p, &mut space)?;
        add(&mut p, &mut space)?;
        write_record(&mut p, change)?;
        let mut rows = RowDir::new(rt.alloc());
        let mut first = Purging::start(LOG);
        run(&mut p, &mut space, &mut first, &mut rows, before)?;
        let mut rows = RowDir::new(rt.alloc());
        let mut second = Purging::start(LOG);
        run(&mut p, &mut space, &mut second, &mut rows, behind)?;
    }
    Ok(())
}
