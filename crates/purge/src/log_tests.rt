ghost use Rattle.row_dir.specs.Directory.{IsBelow};

use crate::tests::{LOB, LOG, add, run, set, store};
use crate::{Purging, Step};
use engine_base::{Addr, Pages};
use lob_pages::{LobVersion, TrxId};
use lob_versions::push_version;
use mem_disk::MemPages;
use page_space::Space;
use row_dir::RowDir;
use std::test::Fail;
use undo_logs::commit;

// A record of a change of document 9, whose LOB before begins in page 2: its place, its length, its
// kind, whether the row before was live, and the first five bytes of its body.
#[derive(Clone, Copy)]
struct Record {
    at: u16,
    size: u8,
    kind: u8,
    live: bool,
    first: u32,
    bits: u8,
}

const INSERT: Record = Record {
    at: 107,
    size: 55,
    kind: 1,
    live: false,
    first: 2,
    bits: 0,
};

// Behind the insert.
const REMOVED: Record = Record {
    at: 162,
    size: 51,
    kind: 5,
    live: true,
    first: 0,
    bits: 0,
};

const FULL: Record = Record {
    at: 107,
    size: 55,
    kind: 2,
    live: true,
    first: 5,
    bits: 0,
};

// Both pieces were touched.
const VERSIONED: Record = Record {
    at: 107,
    size: 56,
    kind: 3,
    live: true,
    first: 2,
    bits: 3,
};

// Writes the record as the newest one of the log.
fn write_record(p: &mut MemPages, rec: Record) -> Result<(), Fail> {
    let live = u64::from(rec.live);
    for (behind, width, value) in [
        (0, 2, u64::from(rec.size)),
        (2, 1, u64::from(rec.kind)),
        (7, 4, 9),
        (11, 1, live),
        (14, 4, 5 * live),
        (29, 4, 2 * live),
        (33, 4, live),
        (41, 4, 31_360 * live),
        (45, 4, 0xffff_ffff),
        (51, 4, u64::from(rec.first)),
        (55, 1, u64::from(rec.bits)),
    ] {
        set(p, rec.at.saturating_add(behind), width, value)?;
    }
    set(p, 50, 2, u64::from(rec.at) + u64::from(rec.size))
}

// Version 2 of a piece.
#[tactic(auto, using(crate::proofs::TestLemmas::ample))]
fn push(p: &mut MemPages, space: &mut Space, at: u16) -> Result<(), Fail> {
    if p.count() != 16 || at > 1_000 {
        return Err(Fail::from("count"));
    }
    let bytes = [8; 15_680];
    let head = Addr { page: LOB, at };
    push_version(p, space, LOB, head, LobVersion(2), TrxId(7), &bytes)
        .ok()
        .ok_or("push")?;
    Ok(())
}

// A LOB of so many pieces.
fn lob(p: &mut MemPages, space: &mut Space, pieces: u8) -> Result<(), Fail> {
    store(p, space)?;
    for _ in 0..pieces {
        add(p, space)?;
    }
    Ok(())
}

// Commits the log and makes events, each of which is to be answered so.
#[tactic(auto, using(crate::proofs::TestLemmas::ample))]
fn purged(
    p: &mut MemPages,
    space: &mut Space,
    rows: &mut RowDir,
    events: &[(Step, u64)],
) -> Result<(), Fail>
    requires below { IsBelow 16 rows.old }
{
    if p.count() != 16 {
        return Err(Fail::from("count"));
    }
    commit(p, LOG).ok().ok_or("commit")?;
    let mut job = Purging::start(LOG);
    run(p, space, &mut job, rows, events)
}

// The insert is passed, then the LOB goes with the deletion, and then the log.
#[test]
fn a_log_of_two_records_is_purged_to_the_end(rt: HostRuntime) -> Result<(), Fail> {
    let mut p = MemPages::new(rt.alloc(), 16)?;
    let mut space = Space::new();
    lob(&mut p, &mut space, 2)?;
    write_record(&mut p, INSERT)?;
    write_record(&mut p, REMOVED)?;
    let mut rows = RowDir::new(rt.alloc());
    let events = [
        (Step::More, 12),
        (Step::More, 12),
        (Step::More, 13),
        (Step::More, 13),
        (Step::More, 14),
        (Step::Done, 15),
    ];
    purged(&mut p, &mut space, &mut rows, &events)
}

// Eleven pieces take an index page, which goes behind the first piece.
#[test]
fn index_pages_go_behind_the_pieces(rt: HostRuntime) -> Result<(), Fail> {
    let mut p = MemPages::new(rt.alloc(), 16)?;
    let mut space = Space::new();
    lob(&mut p, &mut space, 11)?;
    write_record(&mut p, FULL)?;
    let mut rows = RowDir::new(rt.alloc());
    let events = [
        (Step::More, 2),
        (Step::More, 3),
        (Step::More, 4),
        (Step::More, 5),
        (Step::More, 6),
        (Step::More, 7),
        (Step::More, 8),
        (Step::More, 9),
        (Step::More, 10),
        (Step::More, 11),
        (Step::More, 12),
        (Step::More, 12),
        (Step::More, 13),
        (Step::More, 14),
        (Step::Done, 15),
    ];
    purged(&mut p, &mut space, &mut rows, &events)
}

// The older version of the first piece lies in the LOB's first page, which stays; that of the second
// one gives its page back.
#[test]
fn older_versions_go(rt: HostRuntime) -> Result<(), Fail> {
    let mut p = MemPages::new(rt.alloc(), 16)?;
    let mut space = Space::new();
    lob(&mut p, &mut space, 2)?;
    push(&mut p, &mut space, 96)?;
    push(&mut p, &mut space, 156)?;
    write_record(&mut p, VERSIONED)?;
    let mut rows = RowDir::new(rt.alloc());
    let events = [
        (Step::More, 10),
        (Step::More, 10),
        (Step::More, 11),
        (Step::More, 11),
        (Step::Done, 12),
    ];
    purged(&mut p, &mut space, &mut rows, &events)
}
