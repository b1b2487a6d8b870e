ghost use Rattle.row_dir.specs.Directory.{IsBelow};

use crate::Step;
use crate::tests::{LOG, add, put_row, run, set, store};
use engine_base::{DocId, PageNo, Pages};
use lob_pages::TrxId;
use mem_disk::MemPages;
use page_space::Space;
use row_dir::RowDir;
use std::test::Fail;
use undo_logs::{begin_log, begin_purge, commit, drop_page, purged_one};
use undo_records::RowState;

// The log of transaction 5 is begun behind a LOB of two pieces.
const OLDER: PageNo = PageNo(4);

// A record of a change of document 9, of which the LOB begins in page 2: its place and that of the
// record made before it, its kind, the state of the row before and that one's transaction and
// record, and its body.
#[derive(Clone, Copy)]
struct Record {
    at: u16,
    previous: u16,
    kind: u8,
    state: u8,
    trx: u8,
    roll: (u8, u8),
    body: &'static [u8],
}

const INSERT: Record = Record {
    at: 107,
    previous: 0,
    kind: 1,
    state: 0,
    trx: 0,
    roll: (0, 0),
    body: &[0, 0, 0, 2],
};

// Over the row that transaction 5 deleted, by its log's first record.
const INSERT_OVER: Record = Record {
    at: 107,
    previous: 0,
    kind: 1,
    state: 2,
    trx: 5,
    roll: (4, 107),
    body: &[0, 0, 0, 2],
};

// Behind the insert: at byte 709 of page 2 stood 97.
const PATCHED: Record = Record {
    at: 162,
    previous: 107,
    kind: 4,
    state: 1,
    trx: 7,
    roll: (1, 107),
    body: &[1, 0, 0, 0, 2, 2, 197, 1, 97],
};

const REMOVED: Record = Record {
    at: 107,
    previous: 0,
    kind: 5,
    state: 1,
    trx: 3,
    roll: (0, 0),
    body: &[],
};

// Writes the record as the newest one of the log in that page.
#[tactic(auto, using(crate::proofs::TestLemmas::ample))]
fn write_record(p: &mut MemPages, log: PageNo, rec: Record) -> Result<(), Fail> {
    if p.count() != 16 || log.0 >= 16 || rec.at > 500 || rec.body.len() > 100 {
        return Err(Fail::from("record"));
    }
    let size = 51 + rec.body.len() as u64;
    p.write(log, rec.at + 51, rec.body).ok().ok_or("body")?;
    let previous = if rec.previous > 0 { log.0 } else { 0xffff_ffff };
    for (behind, width, value) in [
        (0, 2, size),
        (2, 1, u64::from(rec.kind)),
        (7, 4, 9),
        (11, 1, u64::from(rec.state)),
        (14, 4, u64::from(rec.trx)),
        (19, 4, u64::from(rec.roll.0)),
        (23, 2, u64::from(rec.roll.1)),
        (29, 4, 2),
        (33, 4, 1),
        (41, 4, 31_360),
        (45, 4, u64::from(previous)),
        (49, 2, u64::from(rec.previous)),
    ] {
        set(p, log, rec.at.saturating_add(behind), width, value)?;
    }
    set(p, log, 50, 2, u64::from(rec.at) + size)?;
    set(p, log, 95, 4, u64::from(log.0))?;
    set(p, log, 99, 2, u64::from(rec.at))
}

// A document of so many pieces.
fn document(p: &mut MemPages, space: &mut Space, rows: &mut RowDir, pieces: u8) -> Result<(), Fail>
    requires below { IsBelow 16 rows.old }
    ensures below { IsBelow 16 rows.new }
{
    store(p, space)?;
    for _ in 0..pieces {
        add(p, space)?;
    }
    put_row(p, space, rows)
}

// The change in place is undone, then the insert, piece by piece.
#[test]
fn a_log_of_two_records_is_undone_to_the_end(rt: HostRuntime) -> Result<(), Fail> {
    let mut p = MemPages::new(rt.alloc(), 16)?;
    let mut space = Space::new();
    let mut rows = RowDir::new(rt.alloc());
    document(&mut p, &mut space, &mut rows, 2)?;
    write_record(&mut p, LOG, INSERT)?;
    write_record(&mut p, LOG, PATCHED)?;
    let events = [
        (Step::More, 11),
        (Step::More, 12),
        (Step::More, 12),
        (Step::Done, 15),
    ];
    run(&mut p, &mut space, &mut rows, &mut [], &events)
}

// Eleven pieces take an index page, which goes behind the first piece.
#[test]
fn index_pages_go_behind_the_pieces(rt: HostRuntime) -> Result<(), Fail> {
    let mut p = MemPages::new(rt.alloc(), 16)?;
    let mut space = Space::new();
    let mut rows = RowDir::new(rt.alloc());
    document(&mut p, &mut space, &mut rows, 11)?;
    write_record(&mut p, LOG, INSERT)?;
    let events = [
        (Step::More, 2),
        (Step::More, 3),
        (Step::More, 4),
        (Step::More, 5),
        (Step::More, 6),
        (Step::More, 7),
        (Step::More, 8),
        (Step::More, 9),
        (Step::More, 10),
        (Step::More, 11),
        (Step::More, 11),
        (Step::More, 12),
        (Step::Done, 15),
    ];
    run(&mut p, &mut space, &mut rows, &mut [], &events)
}

// The log of transaction 5, committed with its deletion.
#[tactic(auto, using(crate::proofs::TestLemmas::ample))]
fn deletion(p: &mut MemPages, space: &mut Space) -> Result<(), Fail> {
    if p.count() != 16 || space.reserved() == 0 {
        return Err(Fail::from("reserved"));
    }
    begin_log(p, space, TrxId(5)).ok().ok_or("log")?;
    write_record(p, OLDER, REMOVED)?;
    if p.count() != 16 {
        return Err(Fail::from("count"));
    }
    commit(p, OLDER).ok().ok_or("commit")?;
    Ok(())
}

// Its purge: the deletion is passed, and maybe the log given back.
#[tactic(auto, using(crate::proofs::TestLemmas::ample))]
fn purge(p: &mut MemPages, space: &mut Space, whole: bool) -> Result<(), Fail> {
    if p.count() != 16 {
        return Err(Fail::from("count"));
    }
    begin_purge(p, OLDER).ok().ok_or("begin")?;
    if p.count() != 16 {
        return Err(Fail::from("count"));
    }
    purged_one(p, OLDER).ok().ok_or("pass")?;
    if p.count() != 16 {
        return Err(Fail::from("count"));
    }
    if whole {
        drop_page(p, space, OLDER).ok().ok_or("drop")?;
    }
    Ok(())
}

// The state of the document's row.
#[tactic(auto, using(crate::proofs::TestLemmas::ample, crate::proofs::TestLemmas::below))]
fn state(p: &mut MemPages, rows: &RowDir) -> Result<Option<RowState>, Fail>
    requires below { IsBelow 16 rows.now }
{
    if p.count() != 16 {
        return Err(Fail::from("count"));
    }
    let row = rows.get(p, DocId(9)).ok().ok_or("row")?;
    Ok(row.map(|row| row.state))
}

#[derive(Clone, Copy, PartialEq, Eq)]
enum Purged {
    Nothing,
    Record,
    Log,
}

// An insert over a deleted row: undone, it leaves that row, and none once the deletion is purged.
#[test]
fn an_insert_over_a_deletion_is_undone(rt: HostRuntime) -> Result<(), Fail> {
    let stays = [(Step::More, 11), (Step::More, 11), (Step::Done, 13)];
    let goes = [(Step::More, 11), (Step::More, 11), (Step::Done, 14)];
    let alone = [(Step::More, 12), (Step::More, 12), (Step::Done, 15)];
    for (purged, events, left) in [
        (Purged::Nothing, stays, Some(RowState::Deleted)),
        (Purged::Record, goes, None),
        (Purged::Log, alone, None),
    ] {
        let mut p = MemPages::new(rt.alloc(), 16)?;
        let mut space = Space::new();
        let mut rows = RowDir::new(rt.alloc());
        store(&mut p, &mut space)?;
        add(&mut p, &mut space)?;
        add(&mut p, &mut space)?;
        deletion(&mut p, &mut space)?;
        put_row(&mut p, &mut space, &mut rows)?;
        write_record(&mut p, LOG, INSERT_OVER)?;
        if purged != Purged::Nothing {
            purge(&mut p, &mut space, purged == Purged::Log)?;
        }
        run(&mut p, &mut space, &mut rows, &mut [], &events)?;
        assert_eq!(rt; state(&mut p, &rows)?, left);
    }
    Ok(())
}
