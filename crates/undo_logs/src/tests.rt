ghost use Rattle.std.specs.Prelude.{◌≡◌, ◌≤◌};
ghost use Rattle.mem_disk.specs.MemPages.{page_state};

use crate::{
    append, at, begin_log, begin_purge, commit, drop_page, is_purged, last, next_to_purge,
    oldest_committed, pop_last, purge_begun, purged_one,
};
use engine_base::{DocId, Fault, PageNo, Pages, read_field, write_field};
use lob_pages::{LobRef, LobVersion, TrxId, UndoNo};
use mem_disk::MemPages;
use page_space::{Space, make_system};
use std::test::Fail;
use undo_records::{Body, RollPtr, Row, RowState, UndoRecord};

const SYSTEM: PageNo = PageNo(0);

// The first page that a new store takes.
const LOG: PageNo = PageNo(1);

// A store of 16 pages with a log of transaction 7, and seven pages reserved.
#[tactic(auto, using(crate::proofs::TestLemmas::ample))]
fn begun(p: &mut MemPages, space: &mut Space) -> Result<(), Fail>
    requires { (page_state p.old).count ≡ 16 }
{
    make_system(p).ok().ok_or("system")?;
    if p.count() != 16 {
        return Err(Fail::from("count"));
    }
    space.reserve(p, 8).ok().ok_or("reserve")?;
    if p.count() != 16 || space.reserved() == 0 {
        return Err(Fail::from("reserved"));
    }
    let log = begin_log(p, space, TrxId(7)).ok().ok_or("begin")?;
    if log == LOG {
        Ok(())
    } else {
        Err(Fail::from("page"))
    }
}

// Appends the record of a deletion, of 51 bytes.
fn remove(p: &mut MemPages, space: &mut Space, number: u32) -> Result<RollPtr, Fault>
    requires pages { (page_state p.old).count ≡ 16 }
    requires one { 1 ≤ space.old }
{
    let rec = UndoRecord {
        number: UndoNo(number),
        doc: DocId(9),
        before: Row {
            doc: DocId(9),
            state: RowState::Live,
            trx: TrxId(5),
            roll: RollPtr(0),
            lob: LobRef {
                space: 0,
                page: PageNo(3),
                version: LobVersion(1),
                length: 20_022,
            },
        },
        body: Body::Removed,
    };
    append(p, space, LOG, &rec)
}

// The record where the log's first one is.
fn first_record(p: &mut MemPages) -> Result<UndoRecord, Fault>
    requires { (page_state p.old).count ≡ 16 }
{
    at(p, RollPtr(0x1_006b))
}

#[test]
#[tactic(auto, using(crate::proofs::TestLemmas::ample))]
fn a_third_record_that_does_not_fit_takes_a_page(rt: HostRuntime) -> Result<(), Fail> {
    let mut p = MemPages::new(rt.alloc(), 16)?;
    let mut space = Space::new();
    assert!(rt; p.count() == 16);
    begun(&mut p, &mut space)?;
    // The second record fits exactly before the trailer, which begins at 16,376.
    for (number, (end, roll, free)) in [
        (107, 0x1_006b, 14),
        (16_325, 0x1_3fc5, 14),
        (16_376, 0x2_0038, 13),
    ]
    .into_iter()
    .enumerate()
    {
        assert!(rt; p.count() == 16);
        write_field(&mut p, LOG, 50, 2, end).ok().ok_or("end")?;
        assert!(rt; p.count() == 16 && space.reserved() > 0);
        let answer = remove(&mut p, &mut space, number as u32);
        assert_eq!(rt; answer, Ok(RollPtr(roll)), "record {number}");
        assert!(rt; p.count() == 16);
        assert_eq!(rt;
            last(&mut p, LOG),
            Ok(Some(RollPtr(roll))),
            "record {number}"
        );
        assert!(rt; p.count() == 16);
        assert_eq!(rt;
            read_field(&mut p, SYSTEM, 62, 4),
            Ok(free),
            "record {number}"
        );
    }
    assert!(rt; p.count() == 16);
    let found = first_record(&mut p).ok().ok_or("first")?;
    assert_eq!(rt; (found.number, found.doc), (UndoNo(0), DocId(9)));
    Ok(())
}

// The log with three records, the third of which is on a page of its own.
#[tactic(auto, using(crate::proofs::TestLemmas::ample))]
fn three_records(p: &mut MemPages, space: &mut Space) -> Result<(), Fail>
    requires { (page_state p.old).count ≡ 16 }
{
    begun(p, space)?;
    for (number, end) in [107, 158, 16_376].into_iter().enumerate() {
        if p.count() != 16 {
            return Err(Fail::from("count"));
        }
        write_field(p, LOG, 50, 2, end).ok().ok_or("end")?;
        if p.count() != 16 || space.reserved() == 0 {
            return Err(Fail::from("reserved"));
        }
        remove(p, space, number as u32).ok().ok_or("append")?;
    }
    if p.count() != 16 {
        return Err(Fail::from("count"));
    }
    write_field(p, LOG, 50, 2, 209).ok().ok_or("end")?;
    Ok(())
}

#[test]
#[tactic(auto, using(crate::proofs::TestLemmas::ample))]
fn popped_records_give_their_page_back_and_then_the_log(rt: HostRuntime) -> Result<(), Fail> {
    let mut p = MemPages::new(rt.alloc(), 16)?;
    let mut space = Space::new();
    assert!(rt; p.count() == 16);
    three_records(&mut p, &mut space)?;
    for (left, (more, roll, free, active)) in [
        (true, 0x1_009e, 14, 1),
        (true, 0x1_006b, 14, 1),
        (false, 0, 15, 0),
    ]
    .into_iter()
    .enumerate()
    {
        assert!(rt; p.count() == 16);
        assert_eq!(rt;
            pop_last(&mut p, &mut space, LOG),
            Ok(more),
            "popping {left}"
        );
        assert!(rt; p.count() == 16);
        assert_eq!(rt;
            read_field(&mut p, SYSTEM, 62, 4),
            Ok(free),
            "popping {left}"
        );
        assert!(rt; p.count() == 16);
        assert_eq!(rt;
            read_field(&mut p, SYSTEM, 82, 4),
            Ok(active),
            "popping {left}"
        );
        if more {
            assert!(rt; p.count() == 16);
            assert_eq!(rt;
                last(&mut p, LOG),
                Ok(Some(RollPtr(roll))),
                "popping {left}"
            );
        }
    }
    Ok(())
}

#[test]
#[tactic(auto, using(crate::proofs::TestLemmas::ample))]
fn purge_goes_from_record_to_record_and_then_page_by_page(rt: HostRuntime) -> Result<(), Fail> {
    let mut p = MemPages::new(rt.alloc(), 16)?;
    let mut space = Space::new();
    assert!(rt; p.count() == 16);
    three_records(&mut p, &mut space)?;
    assert!(rt; p.count() == 16);
    assert_eq!(rt; commit(&mut p, LOG), Ok(()));
    assert!(rt; p.count() == 16);
    assert_eq!(rt; purge_begun(&mut p, LOG), Ok(false));
    assert!(rt; p.count() == 16);
    assert_eq!(rt; begin_purge(&mut p, LOG), Ok(()));
    assert!(rt; p.count() == 16);
    assert_eq!(rt; purge_begun(&mut p, LOG), Ok(true));
    for roll in [0x1_006b, 0x1_009e, 0x2_0038] {
        assert!(rt; p.count() == 16);
        assert_eq!(rt; next_to_purge(&mut p, LOG), Ok(Some(RollPtr(roll))));
        assert!(rt; p.count() == 16);
        assert_eq!(rt; purged_one(&mut p, LOG), Ok(()));
    }
    assert!(rt; p.count() == 16);
    assert_eq!(rt; next_to_purge(&mut p, LOG), Ok(None));
    // The log's pages, the free ones, and the commits that are purged.
    for (left, free, purged) in [(true, 14, 0), (false, 15, 1)] {
        assert!(rt; p.count() == 16);
        assert_eq!(rt; drop_page(&mut p, &mut space, LOG), Ok(left));
        assert!(rt; p.count() == 16);
        assert_eq!(rt; read_field(&mut p, SYSTEM, 62, 4), Ok(free));
        assert!(rt; p.count() == 16);
        assert_eq!(rt; read_field(&mut p, SYSTEM, 54, 8), Ok(purged));
    }
    assert!(rt; p.count() == 16);
    assert_eq!(rt; oldest_committed(&mut p), Ok(None));
    Ok(())
}

#[test]
#[tactic(auto, using(crate::proofs::TestLemmas::ample))]
fn a_log_is_committed_behind_those_before_it(rt: HostRuntime) -> Result<(), Fail> {
    let mut p = MemPages::new(rt.alloc(), 16)?;
    let mut space = Space::new();
    assert!(rt; p.count() == 16);
    begun(&mut p, &mut space)?;
    assert!(rt; p.count() == 16 && space.reserved() > 0);
    let second = begin_log(&mut p, &mut space, TrxId(8));
    assert_eq!(rt; second, Ok(PageNo(2)));
    assert!(rt; p.count() == 16);
    assert_eq!(rt; oldest_committed(&mut p), Ok(None));
    for (log, number, active) in [(PageNo(2), 1, 1), (LOG, 2, 0)] {
        assert!(rt; p.count() == 16 && log.0 < 16);
        assert_eq!(rt; commit(&mut p, log), Ok(()));
        assert!(rt; p.count() == 16);
        assert_eq!(rt; read_field(&mut p, log, 59, 8), Ok(number));
        assert!(rt; p.count() == 16);
        assert_eq!(rt; read_field(&mut p, SYSTEM, 46, 8), Ok(number));
        assert!(rt; p.count() == 16);
        assert_eq!(rt; read_field(&mut p, SYSTEM, 82, 4), Ok(active));
        assert!(rt; p.count() == 16);
        assert_eq!(rt; oldest_committed(&mut p), Ok(Some(PageNo(2))));
    }
    Ok(())
}

#[test]
#[tactic(auto, using(crate::proofs::TestLemmas::ample))]
fn a_record_is_purged_by_its_page_its_transaction_and_its_number(
    rt: HostRuntime,
) -> Result<(), Fail> {
    let mut p = MemPages::new(rt.alloc(), 16)?;
    let mut space = Space::new();
    assert!(rt; p.count() == 16);
    three_records(&mut p, &mut space)?;
    // No pointer, another transaction's, a page that isn't used, one that is no log's, one past the
    // store's, and the records of a log that is active.
    for (roll, trx, purged) in [
        (0, 7, true),
        (0x1_006b, 8, true),
        (0x5_006b, 7, true),
        (0x0_006b, 7, true),
        (0x10_006b, 7, true),
        (0x2_0038, 7, false),
    ] {
        assert!(rt; p.count() == 16);
        assert_eq!(rt;
            is_purged(&mut p, RollPtr(roll), TrxId(trx)),
            Ok(purged),
            "{roll}"
        );
    }
    assert!(rt; p.count() == 16);
    assert_eq!(rt; commit(&mut p, LOG), Ok(()));
    assert!(rt; p.count() == 16);
    assert_eq!(rt; begin_purge(&mut p, LOG), Ok(()));
    // The three records, and a place between the first two, as purge passes them.
    for passed in [
        [false, true, false, false],
        [true, true, false, false],
        [true, true, true, false],
        [true, true, true, true],
    ] {
        for (roll, purged) in [0x1_006b, 0x1_0070, 0x1_009e, 0x2_0038]
            .into_iter()
            .zip(passed)
        {
            assert!(rt; p.count() == 16);
            assert_eq!(rt;
                is_purged(&mut p, RollPtr(roll), TrxId(7)),
                Ok(purged),
                "{roll}"
            );
        }
        assert!(rt; p.count() == 16);
        if next_to_purge(&mut p, LOG) != Ok(None) {
            assert!(rt; p.count() == 16);
            assert_eq!(rt; purged_one(&mut p, LOG), Ok(()));
        }
    }
    Ok(())
}
