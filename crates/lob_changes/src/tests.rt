ghost use Rattle.std.specs.Prelude.{◌≡◌};
ghost use Rattle.row_dir.specs.Directory.{IsBelow};

use crate::{add, delete, insert, rebuild};
use engine_base::{DocId, PageNo, Pages, read_field};
use lob_pages::{LobVersion, TrxId};
use mem_disk::MemPages;
use page_space::{Space, make_system};
use row_dir::RowDir;
use std::test::Fail;
use transactions::{Trx, begin};
use undo_records::{RollPtr, Row, RowState};

const SYSTEM: PageNo = PageNo(0);

// The transaction's log takes the first page of a new store, then the LOB the next one, and the row
// the one behind it.
const LOG: PageNo = PageNo(1);

const LOB: PageNo = PageNo(2);

// A store of 16 pages, twelve of which are reserved, and a transaction.
#[tactic(auto, using(crate::proofs::TestLemmas::ample))]
fn store(p: &mut MemPages, space: &mut Space) -> Result<Trx, Fail> {
    if p.count() != 16 {
        return Err(Fail::from("count"));
    }
    make_system(p).ok().ok_or("system")?;
    if p.count() != 16 {
        return Err(Fail::from("count"));
    }
    space.reserve(p, 12).ok().ok_or("reserve")?;
    if p.count() != 16 || space.reserved() == 0 {
        return Err(Fail::from("reserved"));
    }
    let trx = begin(p, space).ok().ok_or("begin")?;
    Ok(trx)
}

// The number in a page.
#[tactic(auto, using(crate::proofs::TestLemmas::ample))]
fn number(p: &mut MemPages, page: PageNo, at: u16, width: u8) -> Result<u64, Fail> {
    if p.count() != 16 || page.0 >= 16 || at > 1_000 || width == 0 || width > 8 {
        return Err(Fail::from("place"));
    }
    let number = read_field(p, page, at, width).ok().ok_or("field")?;
    Ok(number)
}

#[tactic(auto, using(crate::proofs::TestLemmas::ample, crate::proofs::TestLemmas::below, crate::proofs::TestLemmas::below_again))]
fn inserted(
    p: &mut MemPages,
    space: &mut Space,
    rows: &mut RowDir,
    trx: &mut Trx,
) -> Result<PageNo, Fail>
    requires below { IsBelow 16 rows.old }
    ensures below { IsBelow 16 rows.new }
{
    rows.reserve()?;
    if p.count() != 16 || space.reserved() < 3 || trx.log.0 >= 16 || trx.id.0 >= 16 {
        return Err(Fail::from("count"));
    }
    let page = insert(p, space, rows, trx, DocId(9), &[7; 15_680], 15_682)
        .ok()
        .ok_or("insert")?;
    Ok(page)
}

#[tactic(auto, using(crate::proofs::TestLemmas::ample, crate::proofs::TestLemmas::below, crate::proofs::TestLemmas::below_again))]
fn rebuilt(
    p: &mut MemPages,
    space: &mut Space,
    rows: &mut RowDir,
    trx: &mut Trx,
) -> Result<PageNo, Fail>
    requires below { IsBelow 16 rows.old }
    ensures below { IsBelow 16 rows.new }
{
    rows.reserve()?;
    if p.count() != 16 || space.reserved() < 3 || trx.log.0 >= 16 || trx.id.0 >= 16 {
        return Err(Fail::from("count"));
    }
    let page = rebuild(p, space, rows, trx, DocId(9), &[1, 2, 3], 3)
        .ok()
        .ok_or("rebuild")?;
    Ok(page)
}

#[tactic(auto, using(crate::proofs::TestLemmas::ample, crate::proofs::TestLemmas::below, crate::proofs::TestLemmas::below_again))]
fn deleted(
    p: &mut MemPages,
    space: &mut Space,
    rows: &mut RowDir,
    trx: &mut Trx,
) -> Result<(), Fail>
    requires below { IsBelow 16 rows.old }
    ensures below { IsBelow 16 rows.new }
{
    rows.reserve()?;
    if p.count() != 16 || space.reserved() < 2 || trx.log.0 >= 16 || trx.id.0 >= 16 {
        return Err(Fail::from("count"));
    }
    delete(p, space, rows, trx, DocId(9)).ok().ok_or("delete")?;
    Ok(())
}

#[tactic(auto, using(crate::proofs::TestLemmas::ample))]
fn added(p: &mut MemPages, space: &mut Space) -> Result<(), Fail> {
    if p.count() != 16 || space.reserved() < 2 {
        return Err(Fail::from("count"));
    }
    add(p, space, LOB, TrxId(1), &[8, 9]).ok().ok_or("add")?;
    Ok(())
}

// The document's row.
#[tactic(auto, using(crate::proofs::TestLemmas::ample, crate::proofs::TestLemmas::below))]
fn found(p: &mut MemPages, rows: &RowDir) -> Result<Row, Fail>
    requires below { IsBelow 16 rows.now }
{
    if p.count() != 16 {
        return Err(Fail::from("count"));
    }
    let row = rows.get(p, DocId(9)).ok().ok_or("get")?;
    let row = row.ok_or("none")?;
    Ok(row)
}

// A document of two pieces is inserted, made anew with one, and deleted.
#[test]
fn a_document_is_inserted_made_anew_and_deleted(rt: HostRuntime) -> Result<(), Fail> {
    let mut p = MemPages::new(rt.alloc(), 16)?;
    let mut space = Space::new();
    let mut rows = RowDir::new(rt.alloc());
    let mut trx = store(&mut p, &mut space)?;
    assert_eq!(rt; inserted(&mut p, &mut space, &mut rows, &mut trx)?, LOB);
    assert_eq!(rt; number(&mut p, SYSTEM, 62, 4)?, 12);
    let row = found(&mut p, &rows)?;
    assert_eq!(rt; row.state, RowState::Live);
    assert_eq!(rt; row.roll, RollPtr(0x80_0000_0001_006b));
    assert_eq!(rt; row.lob.page, LOB);
    assert_eq!(rt; row.lob.version, LobVersion(1));
    assert_eq!(rt; row.lob.length, 15_682);
    added(&mut p, &mut space)?;
    assert_eq!(rt; number(&mut p, SYSTEM, 62, 4)?, 11);
    // how many pieces the LOB has, and the first byte of each
    assert_eq!(rt; number(&mut p, LOB, 64, 4)?, 2);
    assert_eq!(rt; number(&mut p, LOB, 696, 1)?, 7);
    assert_eq!(rt; number(&mut p, PageNo(4), 49, 2)?, 0x0809);
    assert_eq!(rt;
        rebuilt(&mut p, &mut space, &mut rows, &mut trx)?,
        PageNo(5)
    );
    assert_eq!(rt; number(&mut p, SYSTEM, 62, 4)?, 10);
    let row = found(&mut p, &rows)?;
    assert_eq!(rt; row.lob.page, PageNo(5));
    assert_eq!(rt; row.lob.length, 3);
    // the second record stands behind the first, which has 55 bytes
    assert_eq!(rt; row.roll, RollPtr(0x1_00a2));
    deleted(&mut p, &mut space, &mut rows, &mut trx)?;
    assert_eq!(rt; number(&mut p, SYSTEM, 62, 4)?, 10);
    let row = found(&mut p, &rows)?;
    assert_eq!(rt; row.state, RowState::Deleted);
    assert_eq!(rt; row.roll, RollPtr(0x1_00d9));
    for (at, width, value) in [
        // of each record kind and number
        (109, 1, 1),
        (110, 4, 0),
        (164, 1, 2),
        (165, 4, 1),
        (219, 1, 5),
        (220, 4, 2),
    ] {
        assert_eq!(rt; number(&mut p, LOG, at, width)?, value, "at {at}");
    }
    Ok(())
}
