//! The kernels over an undo log in pages in memory: the records of deletions, of 51 bytes each.
ghost use Rattle.std.specs.Prelude.{◌≡◌, ◌≤◌, ◌<◌};
ghost use Rattle.mem_disk.specs.MemPages.{page_state};

use crate::report::{Report, spent_since};
use crate::request::{Kernel, Request};
use crate::store::{COUNT, reserved};
use anyhow::{Result, bail, ensure};
use engine_base::{DocId, Fault, PageNo, Pages};
use lob_pages::{LobRef, LobVersion, TrxId, UndoNo};
use mem_disk::MemPages;
use page_space::{Space, make_system};
use std::alloc::Global;
use std::time::{CpuClock, Duration};
use undo_logs::{append, begin_log, pop_last};
use undo_records::{Body, RollPtr, Row, RowState, UndoRecord};

// The record of a deletion.
fn append_one(
    p: &mut MemPages,
    space: &mut Space,
    log: PageNo,
    number: u32,
) -> Result<RollPtr, Fault>
    requires pages { (page_state p.old).count ≡ 8_192 }
    requires log { log.0 < 8_192 }
    requires one { 1 ≤ space.old }
{
    let rec = UndoRecord {
        number: UndoNo(number),
        doc: DocId(9),
        before: Row {
            doc: DocId(9),
            state: RowState::Live,
            trx: TrxId(5),
            roll: RollPtr(0),
            lob: LobRef {
                space: 0,
                page: PageNo(3),
                version: LobVersion(1),
                length: 20_022,
            },
        },
        body: Body::Removed,
    };
    append(p, space, log, &rec)
}

// Appends so many records.
fn append_all(p: &mut MemPages, space: &mut Space, log: PageNo, records: u32) -> Result<()> {
    for number in 0..records {
        reserved(p, space, 1)?;
        ensure!(p.count() == COUNT && log.0 < COUNT, "the pages are gone");
        ensure!(space.reserved() > 0, "no page is reserved");
        ensure!(append_one(p, space, log, number).is_ok(), "no record");
    }
    Ok(())
}

// Takes all records back, and the log with the last one.
#[tactic(auto, using(crate::proofs::Ample::ample))]
fn pop_all(p: &mut MemPages, space: &mut Space, log: PageNo, records: u32) -> Result<u64> {
    let mut popped = 0u64;
    for k in 0..records {
        ensure!(p.count() == COUNT && log.0 < COUNT, "the pages are gone");
        let Ok(more) = pop_last(p, space, log) else {
            bail!("no pop");
        };
        ensure!(more == (k < records - 1), "the log ends elsewhere");
        popped = popped.saturating_add(1);
    }
    Ok(popped)
}

#[tactic(auto, using(crate::proofs::Ample::ample))]
fn begun(p: &mut MemPages, space: &mut Space) -> Result<PageNo> {
    reserved(p, space, 1)?;
    ensure!(p.count() == COUNT, "the pages are gone");
    ensure!(space.reserved() > 0, "no page is reserved");
    let Ok(log) = begin_log(p, space, TrxId(7)) else {
        bail!("no log");
    };
    Ok(log)
}

// The processor time of each part of a round, and how many records were popped.
#[derive(Clone, Copy, Drop)]
struct Times {
    append: Duration,
    pop: Duration,
    popped: u64,
}

// A log begun, filled and emptied.
fn round(rt: &HostRuntime, p: &mut MemPages, space: &mut Space, records: u32) -> Result<Times> {
    let log = begun(p, space)?;
    let start = rt.thread_cpu_time()?;
    append_all(p, space, log, records)?;
    let append = spent_since(rt, start)?;
    let start = rt.thread_cpu_time()?;
    let popped = pop_all(p, space, log, records)?;
    let pop = spent_since(rt, start)?;
    Ok(Times {
        append,
        pop,
        popped,
    })
}

#[tactic(auto, using(crate::proofs::Ample::ample))]
pub fn undo_rounds(rt: &HostRuntime, request: Request) -> Result<Report> {
    let alloc: Global = rt.alloc();
    let mut p = MemPages::new(alloc, COUNT)?;
    let mut space = Space::new();
    ensure!(p.count() == COUNT, "the pages are gone");
    ensure!(make_system(&mut p).is_ok(), "no system page");
    let mut report = Report {
        spent: Duration::ZERO,
        count: 0,
    };
    for _ in 0..request.rounds {
        let times = round(rt, &mut p, &mut space, request.size)?;
        let spent = match request.kernel {
            Kernel::UndoAppend => times.append,
            _ => times.pop,
        };
        report.spent = report.spent.saturating_add(spent);
        report.count = report.count.saturating_add(times.popped);
    }
    Ok(report)
}
