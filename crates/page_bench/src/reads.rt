//! The kernels over a read, event by event, in pages in memory.
ghost use Rattle.std.specs.Prelude.{◌≢◌, ◌≤◌, None};
ghost use Rattle.row_dir.specs.Directory.{IsBelow};
ghost use Rattle.row_dir.specs.Slots.{IsSoundRow};
ghost use Rattle.read_views.specs.Views.{view_in};

use crate::lob::built;
use crate::report::{Report, spent_since};
use crate::request::{Kernel, Request};
use crate::store::{COUNT, reserved};
use anyhow::{Result, bail, ensure};
use byteorder::{BigEndian, ByteOrder};
use engine_base::{CommitNo, DocId, PageNo, Pages, SessionNo};
use lob_pages::{LobRef, LobVersion, TrxId};
use mem_disk::MemPages;
use page_space::{Space, make_system};
use read_views::{Flight, Phase, Views};
use row_dir::RowDir;
use std::alloc::Global;
use std::time::{CpuClock, Duration};
use undo_records::{RollPtr, Row, RowState};
use version_read::step;

const DOC: DocId = DocId(1);

// The first page in which records stand, and how many stand in one.
const RECORDS: u32 = 4_096;

const IN_PAGE: u32 = 250;

// A record of a change in place of one byte of document 1, by hand: 60 bytes. Before, the row was
// live, with version 1 of the LOB at page 1 and 15,680 bytes; its transaction and roll pointer are to
// be put. At byte 709 of page 1 stood 7.
const RECORD: [u8; 60] = [
    0, 60, 4, 0, 0, 0, 0, 0, 0, 0, 1, 1, 0, 0, 0, 0, 0, 0, 0, 0, 0, 0, 0, 0, 0, 0, 0, 0, 0, 0, 0,
    0, 1, 0, 0, 0, 1, 0, 0, 0, 0, 0, 0, 61, 64, 255, 255, 255, 255, 0, 0, 1, 0, 0, 0, 1, 2, 197, 1,
    7,
];

fn row_of(first: PageNo, trx: u64, roll: u64, length: u32) -> Row
    requires { (trx ≤ 9) × (roll ≤ 0xffff_ffff) }
    ensures { IsSoundRow result }
{
    Row {
        doc: DOC,
        state: RowState::Live,
        trx: TrxId(trx),
        roll: RollPtr(roll),
        lob: LobRef {
            space: 0,
            page: first,
            version: LobVersion(1),
            length,
        },
    }
}

// Puts the document's row.
#[tactic(auto, using(crate::proofs::Ample::ample, crate::proofs::Ample::below, crate::proofs::Ample::below_again))]
fn put_row(p: &mut MemPages, space: &mut Space, dir: &mut RowDir, row: &Row) -> Result<()>
    requires below { IsBelow 8_192 dir.old }
    requires sound { IsSoundRow row.now }
    ensures below { IsBelow 8_192 dir.new }
{
    reserved(p, space, 1)?;
    dir.reserve()?;
    ensure!(
        p.count() == COUNT && space.reserved() > 0,
        "the pages are gone"
    );
    ensure!(dir.put(p, space, row).is_ok(), "no row is put");
    Ok(())
}

// The pointer to the record behind so many.
fn roll_to(record: u32) -> u64
    ensures { result ≤ 0xffff_ffff }
{
    let page = (RECORDS + record / IN_PAGE) % COUNT;
    u64::from(page) * 65_536 + u64::from(107 + 60 * (record % IN_PAGE))
}

// Writes so many records, one behind another: the first by transaction 2, on a row of transaction
// 1.
#[tactic(auto, using(crate::proofs::Ample::ample))]
fn write_records(p: &mut MemPages, records: u32) -> Result<()> {
    let mut bytes = RECORD;
    for k in 0..records {
        let (trx, roll) = if k == 0 { (1, 0) } else { (2, roll_to(k - 1)) };
        BigEndian::write_u16(&mut bytes[16..18], trx);
        BigEndian::write_u32(&mut bytes[21..25], roll as u32);
        let page = PageNo((RECORDS + k / IN_PAGE) % COUNT);
        ensure!(p.count() == COUNT, "the pages are gone");
        let at = (107 + 60 * (k % IN_PAGE)) as u16;
        ensure!(p.write(page, at, &bytes).is_ok(), "no record");
    }
    Ok(())
}

// Lends a buffer of that many bytes, and places for the pages of so many pieces.
fn lend(flight: &mut Flight, alloc: Global, bytes: u32, pieces: u32) -> Result<()> {
    let mut buffer = Vec::new(alloc);
    buffer.resize(bytes as usize, 0u8)?;
    let mut from = Vec::new(alloc);
    from.resize(pieces as usize, PageNo(0))?;
    flight.lend(buffer, from);
    Ok(())
}

// One event of the read, by that view.
#[tactic(auto, using(crate::proofs::Ample::ample, crate::proofs::Ample::below))]
fn stepped(
    flight: &mut Flight,
    p: &mut MemPages,
    dir: &RowDir,
    views: &Views,
    view: usize,
) -> Result<Phase>
    requires below { IsBelow 8_192 dir.now }
    requires view { view_in views.now view ≢ None }
{
    ensure!(p.count() == COUNT, "the pages are gone");
    flight.view = Some(view);
    let Ok(now) = step(flight, p, dir, views) else {
        bail!("no step");
    };
    Ok(now)
}

// Reads the document, and counts the events.
fn read(
    p: &mut MemPages,
    dir: &RowDir,
    views: &Views,
    view: usize,
    alloc: Global,
    most: u32,
    pieces: u32,
) -> Result<u64>
    requires below { IsBelow 8_192 dir.now }
    requires view { view_in views.now view ≢ None }
{
    let mut flight = Flight::start(alloc, Some(view), DOC);
    for event in 0..most {
        match stepped(&mut flight, p, dir, views, view)? {
            Phase::Found(length) => lend(&mut flight, alloc, length, pieces)?,
            Phase::Ready => return Ok(u64::from(event)),
            Phase::Absent => bail!("no document"),
            Phase::Seek | Phase::Pieces | Phase::Unpatch => {}
        }
    }
    bail!("the read doesn't end")
}

// The document of so many pieces, or of one piece with so many records before it.
fn begun(p: &mut MemPages, space: &mut Space, dir: &mut RowDir, request: Request) -> Result<u32>
    requires below { IsBelow 8_192 dir.old }
    ensures below { IsBelow 8_192 dir.new }
{
    if request.kernel == Kernel::ReadPieces {
        let pieces = u16::try_from(request.size)?;
        let first = built(p, space, pieces)?;
        let length = 15_680u32 + 16_327 * (u32::from(pieces).saturating_sub(1));
        put_row(p, space, dir, &row_of(first, 1, 0, length))?;
        return Ok(u32::from(pieces));
    }
    let first = built(p, space, 1)?;
    write_records(p, request.size)?;
    let roll = roll_to(request.size.saturating_sub(1));
    put_row(p, space, dir, &row_of(first, 2, roll, 15_680))?;
    Ok(1)
}

/// Copies so many full pieces, beside which a read of them is to be seen.
pub fn copy_rounds(rt: &HostRuntime, request: Request) -> Result<Report> {
    let alloc: Global = rt.alloc();
    let size = usize::from(u16::try_from(request.size)?) * 16_327;
    let mut from = Vec::new(alloc);
    from.resize(size, 7u8)?;
    let mut count = 0u64;
    let start = rt.thread_cpu_time()?;
    for _ in 0..request.rounds {
        let mut to = Vec::new(alloc);
        to.extend_from_slice(from.as_slice())?;
        count = count.saturating_add(u64::from(to.first().copied().unwrap_or(0)));
    }
    Ok(Report {
        spent: spent_since(rt, start)?,
        count,
    })
}

#[tactic(auto, using(crate::proofs::Ample::ample))]
pub fn read_rounds(rt: &HostRuntime, request: Request) -> Result<Report> {
    let alloc: Global = rt.alloc();
    let mut p = MemPages::new(alloc, COUNT)?;
    let mut space = Space::new();
    ensure!(p.count() == COUNT, "the pages are gone");
    ensure!(make_system(&mut p).is_ok(), "no system page");
    let mut dir = RowDir::new(alloc);
    let mut views = Views::new(alloc)?;
    ensure!(views.len() == 0, "no view");
    let view = views.open(CommitNo(1), SessionNo(2), TrxId(2), &[]);
    let pieces = begun(&mut p, &mut space, &mut dir, request)?;
    let most = request.size.saturating_add(100);
    let mut count = 0u64;
    let start = rt.thread_cpu_time()?;
    for _ in 0..request.rounds {
        let events = read(&mut p, &dir, &views, view, alloc, most, pieces)?;
        count = count.saturating_add(events);
    }
    Ok(Report {
        spent: spent_since(rt, start)?,
        count,
    })
}
