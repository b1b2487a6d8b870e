ghost use Rattle.std.specs.Prelude.{◌≤◌};
ghost use Rattle.row_dir.specs.Directory.{IsBelow};

use crate::event_tests::{LOB, begin, lend, put_row, row, shows, steps_to, write};
use engine_base::{Addr, CommitNo, DocId, PageNo, Pages, SessionNo};
use lob_pages::{LobVersion, TrxId};
use lob_versions::push_version;
use mem_disk::MemPages;
use page_space::Space;
use read_views::{Flight, Phase, Views};
use row_dir::RowDir;
use std::alloc::Global;
use std::test::Fail;

// Three changes of a document of one piece with 213 bytes, a text of 200 `a` from byte 13 on: its
// first character in place, 150 characters by a new version, the first one in place again.
// Transactions 2, 3 and 4, whose records stand at byte 107 of pages 8, 9 and 10.
const SMALL: [u8; 60] = [
    0, 60, 4, 0, 0, 0, 0, 0, 0, 0, 1, 1, 0, 0, 0, 0, 0, 1, 0, 0, 0, 0, 0, 0, 0, 0, 0, 0, 0, 0, 0,
    0, 1, 0, 0, 0, 1, 0, 0, 0, 0, 0, 0, 0, 213, 255, 255, 255, 255, 0, 0, 1, 0, 0, 0, 1, 2, 197, 1,
    97,
];

const LARGE: [u8; 56] = [
    0, 56, 3, 0, 0, 0, 0, 0, 0, 0, 1, 1, 0, 0, 0, 0, 0, 2, 0, 0, 0, 0, 8, 0, 107, 0, 0, 0, 0, 0, 0,
    0, 1, 0, 0, 0, 1, 0, 0, 0, 0, 0, 0, 0, 213, 255, 255, 255, 255, 0, 0, 0, 0, 0, 1, 1,
];

const AGAIN: [u8; 60] = [
    0, 60, 4, 0, 0, 0, 0, 0, 0, 0, 1, 1, 0, 0, 0, 0, 0, 3, 0, 0, 0, 0, 9, 0, 107, 0, 0, 0, 0, 0, 0,
    0, 1, 0, 0, 0, 2, 0, 0, 0, 0, 0, 0, 0, 213, 255, 255, 255, 255, 0, 0, 1, 0, 0, 0, 3, 0, 62, 1,
    99,
];

// The version 2 of the piece, by transaction 3.
#[tactic(auto, using(crate::proofs::TestLemmas::ample))]
fn push_large(p: &mut MemPages, space: &mut Space) -> Result<(), Fail> {
    let mut bytes = [b'a'; 213];
    for at in 13..163usize {
        bytes[at] = b'c';
    }
    if p.count() != 16 {
        return Err(Fail::from("count"));
    }
    let head = Addr { page: LOB, at: 96 };
    push_version(p, space, LOB, head, LobVersion(2), TrxId(3), &bytes)
        .ok()
        .ok_or("push")?;
    Ok(())
}

fn begin_versions(p: &mut MemPages, space: &mut Space, dir: &mut RowDir) -> Result<(), Fail>
    requires { IsBelow 16 dir.old }
    ensures { IsBelow 16 dir.new }
{
    let text = [b'a'; 213];
    begin(p, space, &[&text[..]])?;
    put_row(p, space, dir, &row(1, 0, 1, 213))?;
    write(p, PageNo(8), 107, &SMALL)?;
    write(p, LOB, 709, b"b")?;
    write(p, PageNo(9), 107, &LARGE)?;
    push_large(p, space)?;
    write(p, PageNo(10), 107, &AGAIN)?;
    write(p, PageNo(3), 62, b"d")?;
    put_row(p, space, dir, &row(4, 0xa_006b, 2, 213))
}

// A read by the view of the first commits shows this.
fn reads_by(
    p: &mut MemPages,
    dir: &RowDir,
    alloc: Global,
    commits: u64,
    seen: &[u8],
) -> Result<(), Fail>
    requires below { IsBelow 16 dir.now }
    requires few { commits ≤ 9 }
{
    let mut views = Views::new(alloc)?;
    if views.len() != 0 {
        return Err(Fail::from("views"));
    }
    let view = views.open(CommitNo(commits), SessionNo(2), TrxId(commits + 1), &[]);
    let mut flight = Flight::start(alloc, Some(view), DocId(1));
    steps_to(&mut flight, p, dir, &views, view, Phase::Found(213))?;
    lend(&mut flight, alloc, 213, 1)?;
    steps_to(&mut flight, p, dir, &views, view, Phase::Unpatch)?;
    steps_to(&mut flight, p, dir, &views, view, Phase::Ready)?;
    shows(&flight, &[13, 14, 163], seen)
}

#[test]
fn each_view_reads_its_version(rt: HostRuntime) -> Result<(), Fail> {
    let mut p = MemPages::new(rt.alloc(), 16)?;
    let mut space = Space::new();
    let mut dir = RowDir::new(rt.alloc());
    begin_versions(&mut p, &mut space, &mut dir)?;
    reads_by(&mut p, &dir, rt.alloc(), 1, b"aaa")?;
    reads_by(&mut p, &dir, rt.alloc(), 2, b"baa")?;
    reads_by(&mut p, &dir, rt.alloc(), 3, b"cca")?;
    reads_by(&mut p, &dir, rt.alloc(), 4, b"dca")
}
