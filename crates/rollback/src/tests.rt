ghost use Rattle.std.specs.Prelude.{◌≡◌, ◌<◌};
ghost use Rattle.row_dir.specs.Directory.{IsBelow};
ghost use Rattle.row_dir.specs.Slots.{IsSoundRow};
ghost use Rattle.store_steps.specs.Reached.{IsFit};

use crate::{Step, Undoing, undo_step};
use engine_base::{Addr, DocId, PageNo, Pages, read_field, write_field};
use lob_bytes::{add_piece, begin_lob};
use lob_pages::{LobRef, LobVersion, TrxId};
use lob_versions::push_version;
use mem_disk::MemPages;
use page_space::{Space, make_system};
use read_views::Flight;
use row_dir::RowDir;
use std::test::Fail;
use undo_logs::begin_log;
use undo_records::{RollPtr, Row, RowState};

const SYSTEM: PageNo = PageNo(0);

// The first page that a new store takes.
pub(crate) const LOG: PageNo = PageNo(1);

// Then the LOB takes this one, its second piece the page behind, and the row the one behind that.
const LOB: PageNo = PageNo(2);

// Where a byte of the LOB's first piece stands.
const BYTE: u16 = 709;

// A change of document 9 by transaction 7: its kind, whether the row before was live, and the
// first bytes of its record's body.
#[derive(Clone, Copy)]
struct Change {
    kind: u8,
    live: bool,
    body: &'static [u8],
}

const INSERT: Change = Change {
    kind: 1,
    live: false,
    body: &[0, 0, 0, 2],
};

const FULL: Change = Change {
    kind: 2,
    live: true,
    body: &[0, 0, 0, 2],
};

// Both pieces were touched.
const VERSIONED: Change = Change {
    kind: 3,
    live: true,
    body: &[0, 0, 0, 2, 3],
};

// One run: at byte 709 of page 2 stood 97.
const PATCHED: Change = Change {
    kind: 4,
    live: true,
    body: &[1, 0, 0, 0, 2, 2, 197, 1, 97],
};

const REMOVED: Change = Change {
    kind: 5,
    live: true,
    body: &[],
};

#[tactic(auto, using(crate::proofs::TestLemmas::ample))]
pub(crate) fn set(
    p: &mut MemPages,
    page: PageNo,
    at: u16,
    width: u8,
    value: u64,
) -> Result<(), Fail> {
    if p.count() != 16 || page.0 >= 16 || at > 1_000 {
        return Err(Fail::from("place"));
    }
    let written = match width {
        1 if value < 0x100 => write_field(p, page, at, 1, value),
        2 if value < 0x1_0000 => write_field(p, page, at, 2, value),
        4 if value < 0x1_0000_0000 => write_field(p, page, at, 4, value),
        _ => return Err(Fail::from("width")),
    };
    written.ok().ok_or("set")?;
    Ok(())
}

#[tactic(auto, using(crate::proofs::TestLemmas::ample))]
fn free_pages(p: &mut MemPages) -> Result<u64, Fail> {
    if p.count() != 16 {
        return Err(Fail::from("count"));
    }
    let free = read_field(p, SYSTEM, 62, 4).ok().ok_or("free")?;
    Ok(free)
}

// A store of 16 pages with a log of transaction 7, and a LOB.
#[tactic(auto, using(crate::proofs::TestLemmas::ample))]
pub(crate) fn store(p: &mut MemPages, space: &mut Space) -> Result<(), Fail> {
    if p.count() != 16 {
        return Err(Fail::from("count"));
    }
    make_system(p).ok().ok_or("system")?;
    if p.count() != 16 {
        return Err(Fail::from("count"));
    }
    space.reserve(p, 14).ok().ok_or("reserve")?;
    if p.count() != 16 || space.reserved() == 0 {
        return Err(Fail::from("reserved"));
    }
    begin_log(p, space, TrxId(7)).ok().ok_or("log")?;
    if p.count() != 16 || space.reserved() == 0 {
        return Err(Fail::from("reserved"));
    }
    begin_lob(p, space, TrxId(5)).ok().ok_or("lob")?;
    Ok(())
}

#[tactic(auto, using(crate::proofs::TestLemmas::ample))]
pub(crate) fn add(p: &mut MemPages, space: &mut Space) -> Result<(), Fail> {
    if p.count() != 16 {
        return Err(Fail::from("count"));
    }
    let bytes = [7; 15_680];
    add_piece(p, space, LOB, TrxId(5), &bytes)
        .ok()
        .ok_or("piece")?;
    Ok(())
}

// The row behind the change.
fn row_behind() -> Row
    ensures { IsSoundRow result }
{
    Row {
        doc: DocId(9),
        state: RowState::Live,
        trx: TrxId(7),
        roll: RollPtr(0x1_006b),
        lob: LobRef {
            space: 0,
            page: LOB,
            version: LobVersion(2),
            length: 31_360,
        },
    }
}

#[tactic(auto, using(crate::proofs::TestLemmas::ample, crate::proofs::TestLemmas::below, crate::proofs::TestLemmas::below_again))]
pub(crate) fn put_row(p: &mut MemPages, space: &mut Space, dir: &mut RowDir) -> Result<(), Fail>
    requires below { IsBelow 16 dir.old }
    ensures below { IsBelow 16 dir.new }
{
    dir.reserve()?;
    if p.count() != 16 || space.reserved() == 0 {
        return Err(Fail::from("reserved"));
    }
    dir.put(p, space, &row_behind()).ok().ok_or("put")?;
    Ok(())
}

// Pushes version 2 of the first piece.
#[tactic(auto, using(crate::proofs::TestLemmas::ample))]
fn push(p: &mut MemPages, space: &mut Space) -> Result<(), Fail> {
    if p.count() != 16 {
        return Err(Fail::from("count"));
    }
    let bytes = [8; 15_680];
    let head = Addr { page: LOB, at: 96 };
    push_version(p, space, LOB, head, LobVersion(2), TrxId(7), &bytes)
        .ok()
        .ok_or("push")?;
    Ok(())
}

// Writes the record of the change as the log's only one.
#[tactic(auto, using(crate::proofs::TestLemmas::ample))]
fn write_record(p: &mut MemPages, change: Change) -> Result<(), Fail> {
    let live = u64::from(change.live);
    let size = 51 + change.body.len() as u64;
    for (at, width, value) in [
        (50, 2, 107 + size),
        (95, 4, 1),
        (99, 2, 107),
        (107, 2, size),
        (109, 1, u64::from(change.kind)),
        (114, 4, 9),
        (118, 1, live),
        (121, 4, 5 * live),
        (136, 4, 2 * live),
        (140, 4, live),
        (148, 4, 31_360 * live),
        (152, 4, 0xffff_ffff),
    ] {
        set(p, LOG, at, width, value)?;
    }
    if p.count() != 16 || change.body.len() > 100 {
        return Err(Fail::from("count"));
    }
    p.write(LOG, 158, change.body).ok().ok_or("body")?;
    Ok(())
}

// Makes an event, and answers it with the number of free pages behind it.
#[tactic(auto, using(crate::proofs::TestLemmas::ample, crate::proofs::TestLemmas::below, crate::proofs::TestLemmas::below_again, crate::proofs::TestLemmas::fit, crate::proofs::TestLemmas::fit_again))]
fn step(
    p: &mut MemPages,
    space: &mut Space,
    job: &mut Undoing,
    rows: &mut RowDir,
    flights: &mut [Flight],
) -> Result<(Step, u64), Fail>
    requires log { job.old.log.0 < 16 }
    requires fit { IsFit 16 job.old.reached }
    requires below { IsBelow 16 rows.old }
    ensures log { job.new.log ≡ job.old.log }
    ensures fit { IsFit 16 job.new.reached }
    ensures below { IsBelow 16 rows.new }
{
    if p.count() != 16 {
        return Err(Fail::from("count"));
    }
    let step = undo_step(job, p, space, rows, flights).ok().ok_or("step")?;
    let free = free_pages(p)?;
    Ok((step, free))
}

// Makes events, each of which is to be answered so.
pub(crate) fn run(
    p: &mut MemPages,
    space: &mut Space,
    rows: &mut RowDir,
    flights: &mut [Flight],
    events: &[(Step, u64)],
) -> Result<(), Fail>
    requires below { IsBelow 16 rows.old }
    ensures below { IsBelow 16 rows.new }
{
    let mut job = Undoing::start(LOG);
    'events: for event in events {
        if step(p, space, &mut job, rows, flights)? != *event {
            return Err(Fail::from("event"));
        }
    }
    Ok(())
}

// A document of two pieces, and its change.
fn changed(
    p: &mut MemPages,
    space: &mut Space,
    dir: &mut RowDir,
    change: Change,
) -> Result<(), Fail>
    requires below { IsBelow 16 dir.old }
    ensures below { IsBelow 16 dir.new }
{
    store(p, space)?;
    add(p, space)?;
    add(p, space)?;
    put_row(p, space, dir)?;
    write_record(p, change)
}

// The pieces of the new LOB, or the touched ones, and the record; then its log is gone.
#[test]
fn each_kind_takes_its_events(rt: HostRuntime) -> Result<(), Fail> {
    let inserted = [(Step::More, 12), (Step::More, 12), (Step::Done, 15)];
    let rebuilt = [(Step::More, 12), (Step::More, 12), (Step::Done, 14)];
    let raised = [(Step::More, 11), (Step::More, 11), (Step::Done, 12)];
    let one = [(Step::Done, 12)];
    for (change, events) in [
        (INSERT, inserted.as_slice()),
        (FULL, rebuilt.as_slice()),
        (VERSIONED, raised.as_slice()),
        (REMOVED, one.as_slice()),
    ] {
        let mut p = MemPages::new(rt.alloc(), 16)?;
        let mut space = Space::new();
        let mut rows = RowDir::new(rt.alloc());
        changed(&mut p, &mut space, &mut rows, change)?;
        if change.kind == 3 {
            push(&mut p, &mut space)?;
        }
        run(&mut p, &mut space, &mut rows, &mut [], events)?;
    }
    Ok(())
}

// The byte that stands there.
#[tactic(auto, using(crate::proofs::TestLemmas::ample))]
fn byte(p: &mut MemPages) -> Result<u64, Fail> {
    if p.count() != 16 {
        return Err(Fail::from("count"));
    }
    let byte = read_field(p, LOB, BYTE, 1).ok().ok_or("byte")?;
    Ok(byte)
}

// A read that came to the change's row goes on at the row before, and the old byte stands again.
#[test]
fn a_change_in_place_is_taken_back(rt: HostRuntime) -> Result<(), Fail> {
    let mut p = MemPages::new(rt.alloc(), 16)?;
    let mut space = Space::new();
    let mut rows = RowDir::new(rt.alloc());
    changed(&mut p, &mut space, &mut rows, PATCHED)?;
    let mut flight = Flight::start(rt.alloc(), None, DocId(9));
    flight.row = Some(row_behind());
    let mut flights = [flight];
    run(
        &mut p,
        &mut space,
        &mut rows,
        &mut flights,
        &[(Step::Done, 12)],
    )?;
    assert_eq!(rt; byte(&mut p)?, 97);
    let before = flights[0].row.as_ref().map(|row| row.trx);
    assert_eq!(rt; before, Some(TrxId(5)));
    Ok(())
}
