//! The kernels over rows in pages in memory, by a directory of them.
ghost use Rattle.row_dir.specs.Directory.{IsBelow};
ghost use Rattle.row_dir.specs.Slots.{IsSoundRow};

use crate::report::{Report, spent_since};
use crate::request::{Kernel, Request};
use crate::store::{COUNT, reserved};
use anyhow::{Result, bail, ensure};
use engine_base::{DocId, PageNo, Pages};
use lob_pages::{LobRef, LobVersion, TrxId};
use mem_disk::MemPages;
use page_space::{Space, make_system};
use row_dir::RowDir;
use std::alloc::Global;
use std::time::{CpuClock, Duration};
use undo_records::{RollPtr, Row, RowState};

fn row_of(doc: u32) -> Row
    ensures { IsSoundRow result }
{
    Row {
        doc: DocId(doc),
        state: RowState::Live,
        trx: TrxId(5),
        roll: RollPtr(0),
        lob: LobRef {
            space: 0,
            page: PageNo(3),
            version: LobVersion(1),
            length: doc,
        },
    }
}

// Puts the row of a document.
#[tactic(auto, using(crate::proofs::Ample::ample, crate::proofs::Ample::below, crate::proofs::Ample::below_again))]
fn put(p: &mut MemPages, space: &mut Space, dir: &mut RowDir, doc: u32) -> Result<()>
    requires below { IsBelow 8_192 dir.old }
    ensures below { IsBelow 8_192 dir.new }
{
    reserved(p, space, 1)?;
    dir.reserve()?;
    ensure!(
        p.count() == COUNT && space.reserved() > 0,
        "the pages are gone"
    );
    ensure!(dir.put(p, space, &row_of(doc)).is_ok(), "no row is put");
    Ok(())
}

// Puts a row of each document up to that one.
fn put_all(p: &mut MemPages, space: &mut Space, dir: &mut RowDir, documents: u32) -> Result<()>
    requires below { IsBelow 8_192 dir.old }
    ensures below { IsBelow 8_192 dir.new }
{
    'rows: for doc in 0..documents {
        put(p, space, dir, doc)?;
    }
    Ok(())
}

// The length that the document's row names.
#[tactic(auto, using(crate::proofs::Ample::ample, crate::proofs::Ample::below))]
fn length_of(p: &mut MemPages, dir: &RowDir, doc: u32) -> Result<u32>
    requires below { IsBelow 8_192 dir.now }
{
    ensure!(p.count() == COUNT, "the pages are gone");
    let Ok(Some(row)) = dir.get(p, DocId(doc)) else {
        bail!("no row");
    };
    Ok(row.lob.length)
}

// Reads each row, and sums up the lengths that they name.
fn read_all(p: &mut MemPages, dir: &RowDir, documents: u32) -> Result<u64>
    requires below { IsBelow 8_192 dir.now }
{
    let mut sum = 0u64;
    for doc in 0..documents {
        sum = sum.wrapping_add(u64::from(length_of(p, dir, doc)?));
    }
    Ok(sum)
}

#[tactic(auto, using(crate::proofs::Ample::ample, crate::proofs::Ample::below, crate::proofs::Ample::below_again))]
fn remove(p: &mut MemPages, space: &mut Space, dir: &mut RowDir, doc: u32) -> Result<()>
    requires below { IsBelow 8_192 dir.old }
    ensures below { IsBelow 8_192 dir.new }
{
    ensure!(p.count() == COUNT, "the pages are gone");
    ensure!(dir.remove(p, space, DocId(doc)).is_ok(), "no row goes");
    Ok(())
}

// Removes the rows in the order in which they were put.
fn remove_all(p: &mut MemPages, space: &mut Space, dir: &mut RowDir, documents: u32) -> Result<()>
    requires below { IsBelow 8_192 dir.old }
    ensures below { IsBelow 8_192 dir.new }
{
    'rows: for doc in 0..documents {
        remove(p, space, dir, doc)?;
    }
    Ok(())
}

// The processor time of each part of a round, and the sum of what was read.
#[derive(Clone, Copy, Drop)]
struct Times {
    put: Duration,
    read: Duration,
    remove: Duration,
    sum: u64,
}

// Rows put, read and removed, after which there is none.
fn round(
    rt: &HostRuntime,
    p: &mut MemPages,
    space: &mut Space,
    dir: &mut RowDir,
    documents: u32,
) -> Result<Times>
    requires below { IsBelow 8_192 dir.old }
    ensures below { IsBelow 8_192 dir.new }
{
    let start = rt.thread_cpu_time()?;
    put_all(p, space, dir, documents)?;
    let put = spent_since(rt, start)?;
    let start = rt.thread_cpu_time()?;
    let sum = read_all(p, dir, documents)?;
    let read = spent_since(rt, start)?;
    let start = rt.thread_cpu_time()?;
    remove_all(p, space, dir, documents)?;
    let remove = spent_since(rt, start)?;
    Ok(Times {
        put,
        read,
        remove,
        sum,
    })
}

#[tactic(auto, using(crate::proofs::Ample::ample))]
pub fn row_rounds(rt: &HostRuntime, request: Request) -> Result<Report> {
    let alloc: Global = rt.alloc();
    let mut p = MemPages::new(alloc, COUNT)?;
    let mut space = Space::new();
    ensure!(p.count() == COUNT, "the pages are gone");
    ensure!(make_system(&mut p).is_ok(), "no system page");
    let mut dir = RowDir::new(alloc);
    let mut report = Report {
        spent: Duration::ZERO,
        count: 0,
    };
    'rounds: for _ in 0..request.rounds {
        let times = round(rt, &mut p, &mut space, &mut dir, request.size)?;
        let spent = match request.kernel {
            Kernel::RowPut => times.put,
            Kernel::RowRead => times.read,
            _ => times.remove,
        };
        report.spent = report.spent.saturating_add(spent);
        report.count = report.count.saturating_add(times.sum);
    }
    Ok(report)
}
