ghost use Rattle.std.specs.Prelude.{◌≡◌};
ghost use Rattle.undo_model.specs.Rows.{IsPresent};
ghost use Rattle.undo_records.specs.Records.{state_of};
ghost use Rattle.row_dir.specs.Directory.{IsBelow};
ghost use Rattle.row_dir.specs.Slots.{IsSoundRow};

use crate::RowDir;
use engine_base::{DocId, PageNo, Pages, read_field};
use lob_pages::{LobRef, LobVersion, TrxId};
use mem_disk::MemPages;
use page_space::{Space, make_system};
use std::test::Fail;
use undo_records::{RollPtr, Row, RowState};

const SYSTEM: PageNo = PageNo(0);

// The first page that a new store takes.
const FIRST: PageNo = PageNo(1);

fn row_in(doc: u32, state: RowState) -> Row
    requires { IsPresent (state_of state) }
    ensures { IsSoundRow result }
{
    Row {
        doc: DocId(doc),
        state,
        trx: TrxId(5),
        roll: RollPtr(0),
        lob: LobRef {
            space: 0,
            page: PageNo(3),
            version: LobVersion(1),
            length: 20_022,
        },
    }
}

// A store of 16 pages, three of which are reserved.
#[tactic(auto, using(crate::proofs::TestLemmas::ample))]
fn begin(p: &mut MemPages, space: &mut Space) -> Result<(), Fail> {
    if p.count() != 16 {
        return Err(Fail::from("count"));
    }
    make_system(p).ok().ok_or("system")?;
    if p.count() != 16 {
        return Err(Fail::from("count"));
    }
    space.reserve(p, 3).ok().ok_or("reserve")?;
    Ok(())
}

// The number in a page.
#[tactic(auto, using(crate::proofs::TestLemmas::ample))]
fn number(p: &mut MemPages, page: PageNo, at: u16, width: u8) -> Result<u64, Fail> {
    if p.count() != 16 || page.0 >= 16 || at > 1_000 || width == 0 || width > 4 {
        return Err(Fail::from("place"));
    }
    let number = read_field(p, page, at, width).ok().ok_or("field")?;
    Ok(number)
}

// Puts the row of a document.
#[tactic(auto, using(crate::proofs::TestLemmas::ample, crate::proofs::TestLemmas::below, crate::proofs::TestLemmas::below_again))]
fn put(p: &mut MemPages, space: &mut Space, dir: &mut RowDir, row: &Row) -> Result<(), Fail>
    requires below { IsBelow 16 dir.old }
    requires sound { IsSoundRow row.now }
    ensures below { IsBelow 16 dir.new }
{
    dir.reserve()?;
    if p.count() != 16 || space.reserved() == 0 {
        return Err(Fail::from("reserved"));
    }
    dir.put(p, space, row).ok().ok_or("put")?;
    Ok(())
}

// Puts rows of the documents from one on up to another.
fn put_all(
    p: &mut MemPages,
    space: &mut Space,
    dir: &mut RowDir,
    from: u32,
    to: u32,
) -> Result<(), Fail>
    requires below { IsBelow 16 dir.old }
    ensures below { IsBelow 16 dir.new }
{
    'rows: for doc in from..to {
        put(p, space, dir, &row_in(doc, RowState::Live))?;
    }
    Ok(())
}

#[tactic(auto, using(crate::proofs::TestLemmas::ample, crate::proofs::TestLemmas::below, crate::proofs::TestLemmas::below_again))]
fn take_out(p: &mut MemPages, space: &mut Space, dir: &mut RowDir, doc: u32) -> Result<(), Fail>
    requires below { IsBelow 16 dir.old }
    ensures below { IsBelow 16 dir.new }
{
    if p.count() != 16 {
        return Err(Fail::from("count"));
    }
    dir.remove(p, space, DocId(doc)).ok().ok_or("remove")?;
    Ok(())
}

#[tactic(auto, using(crate::proofs::TestLemmas::ample, crate::proofs::TestLemmas::below, crate::proofs::TestLemmas::below_again))]
fn found(p: &mut MemPages, dir: &RowDir, doc: u32) -> Result<Option<Row>, Fail>
    requires below { IsBelow 16 dir.now }
{
    if p.count() != 16 {
        return Err(Fail::from("count"));
    }
    let row = dir.get(p, DocId(doc)).ok().ok_or("get")?;
    Ok(row)
}

// Enters the rows of a page.
#[tactic(auto, using(crate::proofs::TestLemmas::ample, crate::proofs::TestLemmas::below, crate::proofs::TestLemmas::below_again))]
fn load(p: &mut MemPages, dir: &mut RowDir, page: PageNo) -> Result<(), Fail>
    requires below { IsBelow 16 dir.old }
    ensures below { IsBelow 16 dir.new }
{
    if p.count() != 16 || page.0 >= 16 {
        return Err(Fail::from("count"));
    }
    dir.load_page(p, page).ok().ok_or("load")?;
    Ok(())
}

// What is done to the rows.
#[derive(Clone, Copy, Debug)]
enum Step {
    // puts live rows of the documents from one on up to another
    Put(u32, u32),
    // puts a document's row as a deleted one
    Mark(u32),
    Remove(u32),
}

fn take_step(p: &mut MemPages, space: &mut Space, dir: &mut RowDir, step: Step) -> Result<(), Fail>
    requires below { IsBelow 16 dir.old }
    ensures below { IsBelow 16 dir.new }
{
    match step {
        Step::Put(from, to) => put_all(p, space, dir, from, to),
        Step::Mark(doc) => put(p, space, dir, &row_in(doc, RowState::Deleted)),
        Step::Remove(doc) => take_out(p, space, dir, doc),
    }
}

// How many row pages and free pages there are, how many rows the first row page has, and the state
// and the document in its second slot, at 92.
fn numbers(p: &mut MemPages) -> Result<[u64; 5], Fail> {
    let pages = number(p, SYSTEM, 66, 4)?;
    let free = number(p, SYSTEM, 62, 4)?;
    let rows = number(p, FIRST, 50, 2)?;
    let state = number(p, FIRST, 92, 1)?;
    let doc = number(p, FIRST, 93, 4)?;
    Ok([pages, free, rows, state, doc])
}

#[test]
fn rows_take_the_first_free_slot(rt: HostRuntime) -> Result<(), Fail> {
    let mut p = MemPages::new(rt.alloc(), 16)?;
    let mut space = Space::new();
    let mut dir = RowDir::new(rt.alloc());
    begin(&mut p, &mut space)?;
    'steps: for (step, want, docs) in [
        (Step::Put(1, 409), [1, 14, 408, 1, 2], 408),
        (Step::Put(409, 410), [2, 13, 408, 1, 2], 409),
        (Step::Remove(2), [2, 13, 407, 0, 2], 408),
        (Step::Put(1_000, 1_001), [2, 13, 408, 1, 1_000], 409),
        (Step::Mark(1_000), [2, 13, 408, 2, 1_000], 409),
        (Step::Put(1_000, 1_001), [2, 13, 408, 1, 1_000], 409),
        (Step::Remove(409), [1, 14, 408, 1, 1_000], 408),
    ] {
        take_step(&mut p, &mut space, &mut dir, step)?;
        assert_eq!(rt; numbers(&mut p)?, want, "{step:?}");
        assert_eq!(rt; dir.docs().len(), docs, "{step:?}");
    }
    Ok(())
}

// Document 9 as transaction 7 left it: live, with its record in page 5 at 107, and with a LOB of
// 20,022 bytes in page 3, version 2.
const NINE: Row = Row {
    doc: DocId(9),
    state: RowState::Live,
    trx: TrxId(7),
    roll: RollPtr(0x0005_006b),
    lob: LobRef {
        space: 0,
        page: PageNo(3),
        version: LobVersion(2),
        length: 20_022,
    },
};

#[test]
#[tactic(auto, using(crate::proofs::TestLemmas::ample))]
fn a_row_has_these_bytes(rt: HostRuntime) -> Result<(), Fail> {
    let mut p = MemPages::new(rt.alloc(), 16)?;
    let mut space = Space::new();
    let mut dir = RowDir::new(rt.alloc());
    begin(&mut p, &mut space)?;
    put(&mut p, &mut space, &mut dir, &NINE)?;
    let mut bytes = [0xee; 41];
    assert!(rt; p.count() == 16);
    p.read(FIRST, 52, &mut bytes).ok().ok_or("read")?;
    let want = [
        1, 0, 0, 0, 9, 0, 0, 0, 0, 0, 7, 0, 0, 0, 0, 5, 0, 107, 0, 0, 0, 0, 0, 0, 0, 3, 0, 0, 0, 2,
        0, 0, 0, 0, 0, 0, 78, 54, 0, 0, 0,
    ];
    assert_eq!(rt; bytes, want);
    Ok(())
}

// Three rows, of which the second is deleted and the third is taken out again.
fn three_rows(p: &mut MemPages, space: &mut Space, dir: &mut RowDir) -> Result<(), Fail>
    requires below { IsBelow 16 dir.old }
    ensures below { IsBelow 16 dir.new }
{
    begin(p, space)?;
    put_all(p, space, dir, 1, 4)?;
    put(p, space, dir, &row_in(2, RowState::Deleted))?;
    take_out(p, space, dir, 3)
}

// The row of that document, where it has one.
fn wanted(doc: u32, state: Option<RowState>) -> Option<Row> {
    match state {
        Some(RowState::Live) => Some(row_in(doc, RowState::Live)),
        Some(RowState::Deleted) => Some(row_in(doc, RowState::Deleted)),
        _ => None,
    }
}

#[test]
fn rows_are_read_as_they_were_put(rt: HostRuntime) -> Result<(), Fail> {
    let mut p = MemPages::new(rt.alloc(), 16)?;
    let mut space = Space::new();
    let mut dir = RowDir::new(rt.alloc());
    three_rows(&mut p, &mut space, &mut dir)?;
    let mut loaded = RowDir::new(rt.alloc());
    load(&mut p, &mut loaded, FIRST)?;
    assert_eq!(rt; dir.docs(), &[DocId(1), DocId(2)][..]);
    assert_eq!(rt; loaded.docs(), &[DocId(1), DocId(2)][..]);
    for (doc, state) in [
        (1, Some(RowState::Live)),
        (2, Some(RowState::Deleted)),
        (3, None),
        (4, None),
    ] {
        assert_eq!(rt; found(&mut p, &dir, doc)?, wanted(doc, state), "of {doc}");
        assert_eq!(rt;
            found(&mut p, &loaded, doc)?,
            wanted(doc, state),
            "of {doc}, loaded"
        );
    }
    Ok(())
}
