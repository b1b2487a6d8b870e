ghost use Rattle.std.specs.Prelude.{◌≢◌, ◌≤◌, None};
ghost use Rattle.row_dir.specs.Directory.{IsBelow};
ghost use Rattle.row_dir.specs.Slots.{IsSoundRow};
ghost use Rattle.read_views.specs.Views.{view_in};

use crate::step;
use engine_base::{CommitNo, DocId, PageNo, Pages, SessionNo};
use lob_bytes::{add_piece, begin_lob};
use lob_pages::{LobRef, LobVersion, TrxId, UndoNo};
use mem_disk::MemPages;
use page_space::{Space, make_system};
use read_views::{Flight, Phase, Views};
use row_dir::RowDir;
use std::alloc::Global;
use std::test::Fail;
use undo_records::{Body, RollPtr, Row, RowState, Runs, UndoRecord};

// The LOB's first page; its second piece, or a newer version, stands in the page behind.
pub(crate) const LOB: PageNo = PageNo(1);

const SECOND: PageNo = PageNo(2);

// Where the changed byte of the first piece stands, and the four last ones of the second.
const BYTE: u16 = 697;

const LAST: u16 = 4_387;

// The record of transaction 2's change in place of document 1, by hand: 71 bytes, Patched. Before,
// the row was live, of transaction 1, with version 1 of the LOB at page 1 and 20,022 bytes. Two
// runs: at byte 697 of page 1 stood 7, at byte 4,387 of page 2 stood `bbbb`.
const BOTH: [u8; 71] = [
    0, 71, 4, 0, 0, 0, 0, 0, 0, 0, 1, 1, 0, 0, 0, 0, 0, 1, 0, 0, 0, 0, 0, 0, 0, 0, 0, 0, 0, 0, 0,
    0, 1, 0, 0, 0, 1, 0, 0, 0, 0, 0, 0, 78, 54, 255, 255, 255, 255, 0, 0, 2, 0, 0, 0, 1, 2, 185, 1,
    7, 0, 0, 0, 2, 17, 35, 4, 98, 98, 98, 98,
];

// The roll pointer to the record at byte 107 of page 8.
const ROLL: u64 = 0x8_006b;

pub(crate) fn row(trx: u64, roll: u64, version: u32, length: u32) -> Row
    requires { (trx ≤ 9) × (roll ≤ 0xf_ffff) }
    ensures { IsSoundRow result }
{
    Row {
        doc: DocId(1),
        state: RowState::Live,
        trx: TrxId(trx),
        roll: RollPtr(roll),
        lob: LobRef {
            space: 0,
            page: LOB,
            version: LobVersion(version),
            length,
        },
    }
}

// A store of 16 pages in which document 1 has these pieces, by transaction 1.
#[tactic(auto, using(crate::proofs::TestLemmas::ample))]
pub(crate) fn begin(p: &mut MemPages, space: &mut Space, pieces: &[&[u8]]) -> Result<(), Fail> {
    if p.count() != 16 {
        return Err(Fail::from("count"));
    }
    make_system(p).ok().ok_or("system")?;
    if p.count() != 16 {
        return Err(Fail::from("count"));
    }
    space.reserve(p, 6).ok().ok_or("reserve")?;
    if p.count() != 16 || space.reserved() == 0 {
        return Err(Fail::from("reserved"));
    }
    begin_lob(p, space, TrxId(1)).ok().ok_or("lob")?;
    for bytes in pieces {
        if p.count() != 16 || bytes.len() > 16_327 {
            return Err(Fail::from("piece"));
        }
        add_piece(p, space, LOB, TrxId(1), *bytes)
            .ok()
            .ok_or("piece")?;
    }
    Ok(())
}

// Puts the row of document 1.
#[tactic(auto, using(crate::proofs::TestLemmas::ample, crate::proofs::TestLemmas::below, crate::proofs::TestLemmas::below_again))]
pub(crate) fn put_row(
    p: &mut MemPages,
    space: &mut Space,
    dir: &mut RowDir,
    row: &Row,
) -> Result<(), Fail>
    requires below { IsBelow 16 dir.old }
    requires sound { IsSoundRow row.now }
    ensures below { IsBelow 16 dir.new }
{
    dir.reserve()?;
    if p.count() != 16 || space.reserved() == 0 {
        return Err(Fail::from("reserved"));
    }
    dir.put(p, space, row).ok().ok_or("put")?;
    Ok(())
}

// Writes bytes in a page.
#[tactic(auto, using(crate::proofs::TestLemmas::ample))]
pub(crate) fn write(p: &mut MemPages, page: PageNo, at: u16, bytes: &[u8]) -> Result<(), Fail> {
    if p.count() != 16 || page.0 >= 16 || at > 10_000 || bytes.len() > 100 {
        return Err(Fail::from("place"));
    }
    p.write(page, at, bytes).ok().ok_or("write")?;
    Ok(())
}

// An event of a read by that view leaves it in that phase.
#[tactic(auto, using(crate::proofs::TestLemmas::ample, crate::proofs::TestLemmas::below))]
pub(crate) fn steps_to(
    flight: &mut Flight,
    p: &mut MemPages,
    dir: &RowDir,
    views: &Views,
    view: usize,
    phase: Phase,
) -> Result<(), Fail>
    requires below { IsBelow 16 dir.now }
    requires view { view_in views.now view ≢ None }
{
    if p.count() != 16 {
        return Err(Fail::from("count"));
    }
    flight.view = Some(view);
    let now = step(flight, p, dir, views).ok().ok_or("step")?;
    if now != phase {
        return Err(Fail::from("phase"));
    }
    Ok(())
}

// Lends a buffer of that many bytes, and places for the pages of so many pieces.
pub(crate) fn lend(
    flight: &mut Flight,
    alloc: Global,
    bytes: usize,
    pieces: usize,
) -> Result<(), Fail> {
    let mut buffer = Vec::new(alloc);
    for _byte in 0..bytes {
        buffer.push(0u8)?;
    }
    let mut from = Vec::new(alloc);
    for _piece in 0..pieces {
        from.push(PageNo(0))?;
    }
    flight.lend(buffer, from);
    Ok(())
}

// The buffer has these bytes at these places.
pub(crate) fn shows(flight: &Flight, places: &[usize], bytes: &[u8]) -> Result<(), Fail> {
    for (at, value) in places.iter().zip(bytes) {
        if flight.buffer.get(*at) != Some(value) {
            return Err(Fail::from("byte"));
        }
    }
    Ok(())
}

// Session 1's change of both pieces in place.
fn change_both(p: &mut MemPages, space: &mut Space, dir: &mut RowDir) -> Result<(), Fail>
    requires { IsBelow 16 dir.old }
    ensures { IsBelow 16 dir.new }
{
    write(p, PageNo(8), 107, &BOTH)?;
    write(p, LOB, BYTE, &[8])?;
    write(p, SECOND, LAST, b"cccc")?;
    put_row(p, space, dir, &row(2, ROLL, 1, 20_022))
}

// A document of two pieces: 7 at its second byte, `bbbb` at its end.
fn begin_two(p: &mut MemPages, space: &mut Space, dir: &mut RowDir) -> Result<(), Fail>
    requires { IsBelow 16 dir.old }
    ensures { IsBelow 16 dir.new }
{
    let mut first = [b'a'; 15_680];
    first[1] = 7;
    let mut second = [b'a'; 4_342];
    second[4_338..].copy_from_slice(b"bbbb");
    begin(p, space, &[&first[..], &second[..]])?;
    put_row(p, space, dir, &row(1, 0, 1, 20_022))
}

// A read, between whose copies both pieces are changed.
fn changed_between(
    p: &mut MemPages,
    space: &mut Space,
    dir: &mut RowDir,
    views: &Views,
    view: usize,
    alloc: Global,
) -> Result<(), Fail>
    requires below { IsBelow 16 dir.old }
    requires view { view_in views.now view ≢ None }
{
    let mut flight = Flight::start(alloc, Some(view), DocId(1));
    steps_to(&mut flight, p, dir, views, view, Phase::Found(20_022))?;
    lend(&mut flight, alloc, 20_022, 2)?;
    steps_to(&mut flight, p, dir, views, view, Phase::Pieces)?;
    change_both(p, space, dir)?;
    steps_to(&mut flight, p, dir, views, view, Phase::Unpatch)?;
    shows(&flight, &[20_021], b"c")?;
    steps_to(&mut flight, p, dir, views, view, Phase::Ready)?;
    shows(&flight, &[0, 1, 2, 20_017, 20_018, 20_021], b"a\x07aabb")
}

// Its rollback: the old bytes, the row before, and the record handed on to a read.
fn undo_both(
    p: &mut MemPages,
    space: &mut Space,
    dir: &mut RowDir,
    flight: &mut Flight,
) -> Result<(), Fail>
    requires { IsBelow 16 dir.old }
    ensures { IsBelow 16 dir.new }
{
    write(p, LOB, BYTE, &[7])?;
    write(p, SECOND, LAST, b"bbbb")?;
    put_row(p, space, dir, &row(1, 0, 1, 20_022))?;
    let mut runs = Runs::new();
    runs.push(LOB, BYTE, &[7]);
    runs.push(SECOND, LAST, b"bbbb");
    let rec = UndoRecord {
        number: UndoNo(0),
        doc: DocId(1),
        before: row(1, 0, 1, 20_022),
        body: Body::Patched(runs),
    };
    flight.hand_on(RollPtr(ROLL), &rec);
    Ok(())
}

// A read, behind whose copies the change of both pieces is undone.
fn undone_behind(
    p: &mut MemPages,
    space: &mut Space,
    dir: &mut RowDir,
    views: &Views,
    view: usize,
    alloc: Global,
) -> Result<(), Fail>
    requires below { IsBelow 16 dir.old }
    requires view { view_in views.now view ≢ None }
{
    let mut flight = Flight::start(alloc, Some(view), DocId(1));
    steps_to(&mut flight, p, dir, views, view, Phase::Found(20_022))?;
    lend(&mut flight, alloc, 20_022, 2)?;
    change_both(p, space, dir)?;
    steps_to(&mut flight, p, dir, views, view, Phase::Pieces)?;
    steps_to(&mut flight, p, dir, views, view, Phase::Unpatch)?;
    shows(&flight, &[1], b"\x08")?;
    undo_both(p, space, dir, &mut flight)?;
    steps_to(&mut flight, p, dir, views, view, Phase::Ready)?;
    shows(&flight, &[1, 2, 20_017, 20_018, 20_021], b"\x07aabb")
}

#[test]
fn a_change_between_two_pieces_is_put_back(rt: HostRuntime) -> Result<(), Fail> {
    let mut p = MemPages::new(rt.alloc(), 16)?;
    let mut space = Space::new();
    let mut dir = RowDir::new(rt.alloc());
    let mut views = Views::new(rt.alloc())?;
    begin_two(&mut p, &mut space, &mut dir)?;
    assert!(rt; views.len() == 0);
    let view = views.open(CommitNo(1), SessionNo(2), TrxId(2), &[]);
    changed_between(&mut p, &mut space, &mut dir, &views, view, rt.alloc())
}

#[test]
fn a_change_undone_behind_the_copies_is_put_back(rt: HostRuntime) -> Result<(), Fail> {
    let mut p = MemPages::new(rt.alloc(), 16)?;
    let mut space = Space::new();
    let mut dir = RowDir::new(rt.alloc());
    let mut views = Views::new(rt.alloc())?;
    begin_two(&mut p, &mut space, &mut dir)?;
    assert!(rt; views.len() == 0);
    let view = views.open(CommitNo(1), SessionNo(2), TrxId(2), &[]);
    undone_behind(&mut p, &mut space, &mut dir, &views, view, rt.alloc())
}
