ghost use Rattle.std.specs.Prelude.{◌≡◌};
ghost use Rattle.mem_disk.specs.MemPages.{page_state};

use crate::{judge_rows, put_records};
use engine_base::{CommitNo, DocId, Fault, PageNo, Pages, SessionNo};
use lob_pages::{LobRef, LobVersion, TrxId};
use mem_disk::MemPages;
use read_views::{Flight, Phase, Views};
use std::test::Fail;
use undo_records::{RollPtr, Row, RowState};

// The record of transaction 2's change of document 1, by hand: 60 bytes, Patched, undo number 0.
// Before, the row was live, of transaction 1, with version 1 of the LOB at page 3 and 5 bytes.
// There is no record before it. One run: at byte 697 of page 3 stood 7.
const RECORD: [u8; 60] = [
    0, 60, 4, 0, 0, 0, 0, 0, 0, 0, 1, 1, 0, 0, 0, 0, 0, 1, 0, 0, 0, 0, 0, 0, 0, 0, 0, 0, 0, 0, 0,
    0, 3, 0, 0, 0, 1, 0, 0, 0, 0, 0, 0, 0, 5, 255, 255, 255, 255, 0, 0, 1, 0, 0, 0, 3, 2, 185, 1,
    7,
];

fn row(trx: u64, roll: u64) -> Row {
    Row {
        doc: DocId(1),
        state: RowState::Live,
        trx: TrxId(trx),
        roll: RollPtr(roll),
        lob: LobRef {
            space: 0,
            page: PageNo(3),
            version: LobVersion(1),
            length: 5,
        },
    }
}

// The record stands in page 8 at 107.
#[tactic(auto, using(crate::proofs::TestLemmas::ample))]
fn put_record(p: &mut MemPages) -> Result<(), Fault>
    requires { (page_state p.old).count ≡ 16 }
    ensures { (page_state p.new).count ≡ 16 }
{
    p.write(PageNo(8), 107, &RECORD)
}

#[test]
#[tactic(auto, using(crate::proofs::TestLemmas::ample))]
fn a_read_finds_the_row_before_and_puts_the_old_byte_back(rt: HostRuntime) -> Result<(), Fail> {
    let mut p = MemPages::new(rt.alloc(), 16)?;
    let mut views = Views::new(rt.alloc())?;
    assert!(rt; p.count() == 16);
    assert!(rt; views.len() == 0);
    put_record(&mut p).ok().ok_or("record")?;
    // Transaction 1 is committed, 2 is the next one.
    let view = views.open(CommitNo(1), SessionNo(1), TrxId(2), &[]);
    let mut flight = Flight::start(rt.alloc(), Some(view), DocId(1));
    flight.phase = Phase::Seek;
    flight.view = Some(view);
    judge_rows(&mut flight, &mut p, Some(row(2, 0x8_006b)), &views)
        .ok()
        .ok_or("seek")?;
    assert_eq!(rt; flight.phase, Phase::Found(5));
    assert_eq!(rt; flight.row, Some(row(1, 0)));
    let mut buffer = Vec::new(rt.alloc());
    for byte in [1u8, 2, 3, 4, 5] {
        buffer.push(byte)?;
    }
    let mut from = Vec::new(rt.alloc());
    from.push(PageNo(3))?;
    flight.lend(buffer, from);
    flight.piece = 1;
    flight.cursor = RollPtr(0x8_006b);
    flight.phase = Phase::Unpatch;
    put_records(&mut flight, &mut p).ok().ok_or("walk")?;
    assert_eq!(rt; flight.phase, Phase::Ready);
    assert_eq!(rt; flight.buffer.get(1), Some(&7));
    assert_eq!(rt; flight.buffer.get(2), Some(&3));
    Ok(())
}

#[test]
#[tactic(auto, using(crate::proofs::TestLemmas::ample))]
fn a_read_without_a_view_takes_the_present_row(rt: HostRuntime) -> Result<(), Fail> {
    let mut p = MemPages::new(rt.alloc(), 16)?;
    let views = Views::new(rt.alloc())?;
    let mut flight = Flight::start(rt.alloc(), None, DocId(1));
    flight.phase = Phase::Seek;
    flight.view = None;
    judge_rows(&mut flight, &mut p, Some(row(2, 0x8_006b)), &views)
        .ok()
        .ok_or("row")?;
    assert_eq!(rt; flight.phase, Phase::Found(5));
    let mut none = Flight::start(rt.alloc(), None, DocId(1));
    none.phase = Phase::Seek;
    none.view = None;
    judge_rows(&mut none, &mut p, None, &views)
        .ok()
        .ok_or("none")?;
    assert_eq!(rt; none.phase, Phase::Absent);
    Ok(())
}
