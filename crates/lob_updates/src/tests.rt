ghost use Rattle.std.specs.Prelude.{◌≡◌, ◌≤◌, ◌<◌, length};
ghost use Rattle.undo_model.specs.Reading.{RunsFit};
ghost use Rattle.row_dir.specs.Directory.{IsBelow};

mod patches;
mod versions;

use crate::{patch, push, raise};
use engine_base::{Addr, DocId, Fault, PageNo, Pages, read_field};
use lob_bytes::{add_piece, begin_lob};
use lob_pages::{LobRef, LobVersion, TrxId, UndoNo};
use mem_disk::MemPages;
use page_space::{Space, make_system};
use row_dir::RowDir;
use std::test::Fail;
use transactions::{Trx, begin, commit, record_change};
use undo_records::{Bits, Body, RollPtr, Row, RowState, Runs, Touched};

const SYSTEM: PageNo = PageNo(0);

// The log of the first transaction takes page 1, the LOB this one, its second piece the next one.
const LOB: PageNo = PageNo(2);

const SECOND: PageNo = PageNo(3);

const ROWS: PageNo = PageNo(4);

// The log of the second transaction.
const LOG: PageNo = PageNo(5);

const DOC: DocId = DocId(9);

// A store of 16 pages, eight of which are reserved.
#[tactic(auto, using(crate::proofs::TestLemmas::ample))]
fn store(p: &mut MemPages, space: &mut Space) -> Result<(), Fail> {
    if p.count() != 16 {
        return Err(Fail::from("count"));
    }
    make_system(p).ok().ok_or("system")?;
    if p.count() != 16 {
        return Err(Fail::from("count"));
    }
    space.reserve(p, 8).ok().ok_or("reserve")?;
    Ok(())
}

// The number in a page.
#[tactic(auto, using(crate::proofs::TestLemmas::ample))]
fn number(p: &mut MemPages, page: PageNo, at: u16, width: u8) -> Result<u64, Fail> {
    if p.count() != 16 || page.0 >= 16 || at > 1_000 || width == 0 || width > 8 {
        return Err(Fail::from("place"));
    }
    let number = read_field(p, page, at, width).ok().ok_or("field")?;
    Ok(number)
}

#[tactic(auto, using(crate::proofs::TestLemmas::ample))]
fn start(p: &mut MemPages, space: &mut Space) -> Result<Trx, Fail> {
    if p.count() != 16 || space.reserved() == 0 {
        return Err(Fail::from("count"));
    }
    let trx = begin(p, space).ok().ok_or("begin")?;
    Ok(trx)
}

#[tactic(auto, using(crate::proofs::TestLemmas::ample))]
fn end(p: &mut MemPages, trx: &Trx) -> Result<(), Fail> {
    if p.count() != 16 || trx.log.0 >= 16 {
        return Err(Fail::from("count"));
    }
    commit(p, trx).ok().ok_or("commit")?;
    Ok(())
}

// A LOB of two pieces, of 15,680 and 200 bytes, each of which is a 7.
#[tactic(auto, using(crate::proofs::TestLemmas::ample))]
fn lob(p: &mut MemPages, space: &mut Space) -> Result<(), Fail> {
    if p.count() != 16 || space.reserved() == 0 {
        return Err(Fail::from("count"));
    }
    begin_lob(p, space, TrxId(1)).ok().ok_or("lob")?;
    if p.count() != 16 {
        return Err(Fail::from("count"));
    }
    let bytes = [7; 15_680];
    add_piece(p, space, LOB, TrxId(1), &bytes)
        .ok()
        .ok_or("first")?;
    if p.count() != 16 {
        return Err(Fail::from("count"));
    }
    let bytes = [7; 200];
    add_piece(p, space, LOB, TrxId(1), &bytes)
        .ok()
        .ok_or("second")?;
    Ok(())
}

fn row(state: RowState, page: PageNo, version: u32, length: u32) -> Row
    ensures { result.state ≡ state }
{
    Row {
        doc: DOC,
        state,
        trx: TrxId(0),
        roll: RollPtr(0),
        lob: LobRef {
            space: 0,
            page,
            version: LobVersion(version),
            length,
        },
    }
}

// The document's row, with that version of the LOB.
#[tactic(auto, using(crate::proofs::TestLemmas::ample, crate::proofs::TestLemmas::below, crate::proofs::TestLemmas::below_again))]
fn insert(
    p: &mut MemPages,
    space: &mut Space,
    rows: &mut RowDir,
    trx: &mut Trx,
    version: u32,
) -> Result<(), Fail>
    requires below { IsBelow 16 rows.old }
    ensures below { IsBelow 16 rows.new }
{
    rows.reserve()?;
    if p.count() != 16 || space.reserved() < 2 || trx.log.0 >= 16 || trx.id.0 >= 16 {
        return Err(Fail::from("count"));
    }
    let before = row(RowState::Absent, SYSTEM, 0, 0);
    let after = row(RowState::Live, LOB, version, 15_880);
    record_change(p, space, rows, trx, &before, &after, Body::Insert(LOB))
        .ok()
        .ok_or("change")?;
    Ok(())
}

// A committed document of transaction 1, and transaction 2 at work.
fn document(
    p: &mut MemPages,
    space: &mut Space,
    rows: &mut RowDir,
    version: u32,
) -> Result<Trx, Fail>
    requires below { IsBelow 16 rows.old }
    ensures below { IsBelow 16 rows.new }
{
    store(p, space)?;
    let mut trx = start(p, space)?;
    lob(p, space)?;
    insert(p, space, rows, &mut trx, version)?;
    end(p, &trx)?;
    start(p, space)
}

// The answer of a raise that touches both pieces.
#[tactic(auto, using(crate::proofs::TestLemmas::ample, crate::proofs::TestLemmas::below, crate::proofs::TestLemmas::below_again))]
fn raised(
    p: &mut MemPages,
    space: &mut Space,
    rows: &mut RowDir,
    trx: &mut Trx,
    doc: DocId,
) -> Result<Result<LobRef, Fault>, Fail>
    requires below { IsBelow 16 rows.old }
    ensures below { IsBelow 16 rows.new }
{
    if p.count() != 16 || space.reserved() < 2 || trx.log.0 >= 16 || trx.id.0 >= 16 {
        return Err(Fail::from("count"));
    }
    let touched = Touched {
        pieces: 2,
        bits: Bits::from_slice(&[3]),
    };
    Ok(raise(p, space, rows, trx, doc, touched))
}

#[tactic(auto, using(crate::proofs::TestLemmas::ample))]
fn pushed(
    p: &mut MemPages,
    space: &mut Space,
    lob: &LobRef,
    at: u16,
    trx: &Trx,
    piece: &[u8],
) -> Result<(), Fail>
    requires short { length piece.now ≤ 15_680 }
{
    if p.count() != 16 || lob.page.0 >= 16 || trx.id.0 >= 16 || at > 1_000 {
        return Err(Fail::from("count"));
    }
    let head = Addr { page: LOB, at };
    push(p, space, lob, head, trx.id, piece).ok().ok_or("push")?;
    Ok(())
}

// The answer of a patch.
#[tactic(auto, using(crate::proofs::TestLemmas::ample, crate::proofs::TestLemmas::below, crate::proofs::TestLemmas::below_again, crate::proofs::TestLemmas::runs_fit))]
fn patched(
    p: &mut MemPages,
    space: &mut Space,
    rows: &mut RowDir,
    trx: &mut Trx,
    doc: DocId,
    runs: &Runs,
) -> Result<Result<(), Fault>, Fail>
    requires below { IsBelow 16 rows.old }
    requires fit { RunsFit 16 runs.now }
    ensures below { IsBelow 16 rows.new }
{
    if p.count() != 16 || space.reserved() < 2 || trx.log.0 >= 16 || trx.id.0 >= 16 {
        return Err(Fail::from("count"));
    }
    Ok(patch(p, space, rows, trx, doc, runs))
}

// Numbers are to stand there: page, offset, bytes, number.
fn check(p: &mut MemPages, table: &[(PageNo, u16, u8, u64)]) -> Result<(), Fail> {
    'rows: for row in table {
        if number(p, row.0, row.1, row.2)? != row.3 {
            return Err(Fail::from("number"));
        }
    }
    Ok(())
}
