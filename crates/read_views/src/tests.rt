use crate::{Flight, Phase, Views};
use engine_base::{Addr, CommitNo, DocId, PageNo, SessionNo};
use lob_pages::{LobRef, LobVersion, TrxId, UndoNo};
use std::alloc::Global;
use std::test::Fail;
use undo_records::{Body, RollPtr, Row, RowState, Runs, UndoRecord};

#[test]
fn views_see_what_was_committed_and_the_limit_is_the_oldest_one_s(
    rt: HostRuntime,
) -> Result<(), Fail> {
    let mut views = Views::new(rt.alloc())?;
    assert!(rt; views.len() == 0);
    assert_eq!(rt; views.limit(CommitNo(9)), CommitNo(9));
    // Transactions 3 and 5 are at work, 6 is the next one.
    let early = views.open(CommitNo(2), SessionNo(1), TrxId(6), &[TrxId(3), TrxId(5)]);
    for (trx, sees) in [
        (0, true),
        (1, true),
        (2, true),
        (3, false),
        (4, true),
        (5, false),
        (6, false),
        (7, false),
    ] {
        assert_eq!(rt; views.sees(early, TrxId(trx)), sees, "transaction {trx}");
    }
    Ok(())
}

#[test]
fn the_limit_is_the_least_count_of_an_open_view(rt: HostRuntime) -> Result<(), Fail> {
    let mut views = Views::new(rt.alloc())?;
    assert!(rt; views.len() == 0);
    let first = views.open(CommitNo(4), SessionNo(1), TrxId(6), &[]);
    let second = views.open(CommitNo(2), SessionNo(2), TrxId(4), &[]);
    let third = views.open(CommitNo(7), SessionNo(3), TrxId(9), &[]);
    assert_eq!(rt; views.limit(CommitNo(9)), CommitNo(2));
    views.close(second);
    assert_eq!(rt; views.limit(CommitNo(9)), CommitNo(4));
    views.close(first);
    assert_eq!(rt; views.limit(CommitNo(9)), CommitNo(7));
    views.close(third);
    assert_eq!(rt; views.limit(CommitNo(9)), CommitNo(9));
    Ok(())
}

fn row(trx: u64, roll: u64) -> Row {
    Row {
        doc: DocId(1),
        state: RowState::Live,
        trx: TrxId(trx),
        roll: RollPtr(roll),
        lob: LobRef {
            space: 0,
            page: PageNo(3),
            version: LobVersion(1),
            length: 15_684,
        },
    }
}

// The change of document `doc` that wrote over 7 at place 697 of page 3 and "bb" at 49 of page 4.
fn change(doc: u32) -> UndoRecord {
    let mut runs = Runs::new();
    runs.push(PageNo(3), 697, &[7]);
    runs.push(PageNo(4), 49, &[98, 98]);
    UndoRecord {
        number: UndoNo(0),
        doc: DocId(doc),
        before: row(1, 0),
        body: Body::Patched(runs),
    }
}

// A read of document 1 with two pieces, of 15,680 bytes and of 4, of which so many are copied.
fn copying(alloc: Global, piece: u32) -> Result<Flight, Fail> {
    let mut buffer = Vec::new(alloc);
    for _ in 0..15_684u32 {
        buffer.push(99)?;
    }
    let mut from = Vec::new(alloc);
    from.push(PageNo(3))?;
    from.push(PageNo(4))?;
    let mut flight = Flight::start(alloc, None, DocId(1));
    flight.row = Some(row(1, 0));
    flight.lend(buffer, from);
    flight.piece = piece;
    Ok(flight)
}

#[test]
fn a_record_that_is_undone_goes_into_the_copied_pieces_of_its_document_alone(
    rt: HostRuntime,
) -> Result<(), Fail> {
    // The phase, how many pieces are copied, where the cursor leads, the record's document; then
    // the bytes at 1 and at 15,680, and where the cursor leads.
    for (case, (phase, piece, cursor, doc, first, second, leads)) in [
        (Phase::Pieces, 0, 0, 1, 99, 99, 0),
        (Phase::Pieces, 1, 0, 1, 7, 99, 0),
        (Phase::Pieces, 1, 0, 2, 99, 99, 0),
        (Phase::Pieces, 2, 0, 1, 7, 98, 0),
        (Phase::Unpatch, 2, 0x8_006b, 1, 7, 98, 0),
        (Phase::Unpatch, 2, 0x9_006b, 1, 99, 99, 0x9_006b),
        (Phase::Unpatch, 2, 0x8_006b, 2, 99, 99, 0x8_006b),
        (Phase::Ready, 2, 0x8_006b, 1, 99, 99, 0x8_006b),
    ]
    .into_iter()
    .enumerate()
    {
        let mut flight = copying(rt.alloc(), piece)?;
        flight.phase = phase;
        flight.cursor = RollPtr(cursor);
        flight.hand_on(RollPtr(0x8_006b), &change(doc));
        assert_eq!(rt; flight.buffer.get(1), Some(&first), "case {case}");
        assert_eq!(rt; flight.buffer.get(15_680), Some(&second), "case {case}");
        assert_eq!(rt; flight.cursor, RollPtr(leads), "case {case}");
    }
    Ok(())
}

#[test]
fn a_seeking_read_judges_the_row_before_and_a_search_goes_on_from_the_head(
    rt: HostRuntime,
) -> Result<(), Fail> {
    let head = Addr {
        page: PageNo(3),
        at: 96,
    };
    let node = Addr {
        page: PageNo(3),
        at: 156,
    };
    let mut flight = copying(rt.alloc(), 0)?;
    flight.node = Some(node);
    flight.moved(head, node);
    assert_eq!(rt; flight.node, Some(node));
    flight.moved(node, head);
    assert_eq!(rt; flight.node, Some(head));
    for (case, (roll, doc, trx)) in [(0x8_006b, 1, 1), (0x9_006b, 1, 2), (0x8_006b, 2, 2)]
        .into_iter()
        .enumerate()
    {
        flight.phase = Phase::Seek;
        flight.row = Some(row(2, roll));
        flight.hand_on(RollPtr(0x8_006b), &change(doc));
        let found = flight.row.map(|r: Row| -> TrxId { r.trx });
        assert_eq!(rt; found, Some(TrxId(trx)), "case {case}");
    }
    Ok(())
}
