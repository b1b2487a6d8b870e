ghost use Rattle.std.specs.Prelude.{◌≡◌, ◌<◌};
ghost use Rattle.row_dir.specs.Directory.{IsBelow};

use crate::{Trx, begin, commit, record_change};
use engine_base::{DocId, PageNo, Pages, read_field};
use lob_pages::{LobRef, LobVersion, TrxId, UndoNo};
use mem_disk::MemPages;
use page_space::{Space, make_system};
use row_dir::RowDir;
use std::test::Fail;
use undo_records::{Body, RollPtr, Row, RowState};

const SYSTEM: PageNo = PageNo(0);

// The first page that a new store takes.
const LOG: PageNo = PageNo(1);

// Where the record behind an insert's stands, and that one, in the log's first page.
const INSERTED: RollPtr = RollPtr(0x80_0000_0001_006b);

const DELETED: RollPtr = RollPtr(0x1_00a2);

fn row(state: RowState) -> Row
    ensures { result.state ≡ state }
{
    Row {
        doc: DocId(9),
        state,
        trx: TrxId(0),
        roll: RollPtr(0),
        lob: LobRef {
            space: 0,
            page: PageNo(3),
            version: LobVersion(1),
            length: 20_022,
        },
    }
}

// A store of 16 pages, eight of which are reserved.
#[tactic(auto, using(crate::proofs::TestLemmas::ample))]
fn store(p: &mut MemPages, space: &mut Space) -> Result<(), Fail> {
    if p.count() != 16 {
        return Err(Fail::from("count"));
    }
    make_system(p).ok().ok_or("system")?;
    if p.count() != 16 {
        return Err(Fail::from("count"));
    }
    space.reserve(p, 8).ok().ok_or("reserve")?;
    Ok(())
}

// The number in a page.
#[tactic(auto, using(crate::proofs::TestLemmas::ample))]
fn number(p: &mut MemPages, page: PageNo, at: u16, width: u8) -> Result<u64, Fail> {
    if p.count() != 16 || page.0 >= 16 || at > 1_000 || width == 0 || width > 8 {
        return Err(Fail::from("place"));
    }
    let number = read_field(p, page, at, width).ok().ok_or("field")?;
    Ok(number)
}

#[tactic(auto, using(crate::proofs::TestLemmas::ample))]
fn start(p: &mut MemPages, space: &mut Space) -> Result<Trx, Fail> {
    if p.count() != 16 || space.reserved() == 0 {
        return Err(Fail::from("count"));
    }
    let trx = begin(p, space).ok().ok_or("begin")?;
    Ok(trx)
}

#[tactic(auto, using(crate::proofs::TestLemmas::ample, crate::proofs::TestLemmas::below, crate::proofs::TestLemmas::below_again))]
fn insert(p: &mut MemPages, space: &mut Space, rows: &mut RowDir, trx: &mut Trx) -> Result<(), Fail>
    requires below { IsBelow 16 rows.old }
    ensures below { IsBelow 16 rows.new }
{
    rows.reserve()?;
    if p.count() != 16 || space.reserved() < 2 || trx.log.0 >= 16 || trx.id.0 >= 16 {
        return Err(Fail::from("count"));
    }
    let before = Row {
        doc: DocId(9),
        state: RowState::Absent,
        trx: TrxId(0),
        roll: RollPtr(0),
        lob: LobRef {
            space: 0,
            page: PageNo(0),
            version: LobVersion(0),
            length: 0,
        },
    };
    let after = row(RowState::Live);
    record_change(
        p,
        space,
        rows,
        trx,
        &before,
        &after,
        Body::Insert(PageNo(3)),
    )
    .ok()
    .ok_or("change")?;
    Ok(())
}

#[tactic(auto, using(crate::proofs::TestLemmas::ample, crate::proofs::TestLemmas::below, crate::proofs::TestLemmas::below_again))]
fn delete(
    p: &mut MemPages,
    space: &mut Space,
    rows: &mut RowDir,
    trx: &mut Trx,
    before: &Row,
) -> Result<(), Fail>
    requires below { IsBelow 16 rows.old }
    ensures below { IsBelow 16 rows.new }
{
    rows.reserve()?;
    if p.count() != 16 || space.reserved() < 2 || trx.log.0 >= 16 || trx.id.0 >= 16 {
        return Err(Fail::from("count"));
    }
    let after = row(RowState::Deleted);
    record_change(p, space, rows, trx, before, &after, Body::Removed)
        .ok()
        .ok_or("change")?;
    Ok(())
}

// The document's row.
#[tactic(auto, using(crate::proofs::TestLemmas::ample, crate::proofs::TestLemmas::below))]
fn found(p: &mut MemPages, rows: &RowDir) -> Result<Row, Fail>
    requires below { IsBelow 16 rows.now }
{
    if p.count() != 16 {
        return Err(Fail::from("count"));
    }
    let row = rows.get(p, DocId(9)).ok().ok_or("get")?;
    let row = row.ok_or("none")?;
    Ok(row)
}

#[tactic(auto, using(crate::proofs::TestLemmas::ample))]
fn end(p: &mut MemPages, trx: &Trx) -> Result<(), Fail> {
    if p.count() != 16 || trx.log.0 >= 16 {
        return Err(Fail::from("count"));
    }
    commit(p, trx).ok().ok_or("commit")?;
    Ok(())
}

// Two transactions are begun; the first inserts a document, deletes it, and is committed.
#[test]
fn a_transaction_is_begun_changes_a_document_twice_and_is_committed(
    rt: HostRuntime,
) -> Result<(), Fail> {
    let mut p = MemPages::new(rt.alloc(), 16)?;
    let mut space = Space::new();
    let mut rows = RowDir::new(rt.alloc());
    store(&mut p, &mut space)?;
    let mut trx = start(&mut p, &mut space)?;
    let first = Trx {
        id: TrxId(1),
        log: LOG,
        records: UndoNo(0),
    };
    assert_eq!(rt; trx, first);
    let other = start(&mut p, &mut space)?;
    assert_eq!(rt; other.id, TrxId(2));
    assert_eq!(rt; number(&mut p, SYSTEM, 38, 8)?, 3);
    assert_eq!(rt; number(&mut p, SYSTEM, 62, 4)?, 13);
    insert(&mut p, &mut space, &mut rows, &mut trx)?;
    let inserted = found(&mut p, &rows)?;
    assert_eq!(rt; inserted.state, RowState::Live);
    assert_eq!(rt; inserted.trx, TrxId(1));
    assert_eq!(rt; inserted.roll, INSERTED);
    assert_eq!(rt; number(&mut p, SYSTEM, 62, 4)?, 12);
    delete(&mut p, &mut space, &mut rows, &mut trx, &inserted)?;
    let deleted = found(&mut p, &rows)?;
    assert_eq!(rt; deleted.state, RowState::Deleted);
    assert_eq!(rt; deleted.roll, DELETED);
    assert_eq!(rt; trx.records, UndoNo(2));
    for (at, width, value) in [
        // the end of the used part, the length of the first record, and its kind
        (50, 2, 213),
        (107, 2, 55),
        (109, 1, 1),
        // of the second one length, kind, number, document, and the pointer of the row before
        (162, 2, 51),
        (164, 1, 5),
        (165, 4, 1),
        (169, 4, 9),
        (180, 7, 0x80_0000_0001_006b),
    ] {
        assert_eq!(rt; number(&mut p, LOG, at, width)?, value, "at {at}");
    }
    end(&mut p, &trx)?;
    assert_eq!(rt; number(&mut p, SYSTEM, 46, 8)?, 1);
    assert_eq!(rt; number(&mut p, LOG, 52, 1)?, 2);
    Ok(())
}
