//! The kernels over a LOB in pages in memory. Every piece is full, and has its head's address from
//! the head before it.
use crate::report::Report;
use crate::request::{Kernel, Request};
use crate::store::{COUNT, reserved};
use anyhow::{Result, bail, ensure};
use engine_base::{Addr, PageNo, Pages};
use lob_bytes::{add_piece, begin_lob, read_piece};
use lob_index::{head, next_head};
use lob_pages::{LobVersion, TrxId};
use lob_versions::{Found, find_version, pop_version, push_version};
use mem_disk::MemPages;
use page_space::{Space, make_system};
use std::alloc::Global;
use std::time::Instant;

const TRX: TrxId = TrxId(7);

const PIECE: [u8; 16_327] = [7; 16_327];

// The first piece is as long as the first page has room for.
const FIRST: [u8; 15_680] = [7; 15_680];

/// A LOB of so many pieces.
#[tactic(auto, using(crate::proofs::Ample::ample))]
pub fn built(p: &mut MemPages, space: &mut Space, pieces: u16) -> Result<PageNo> {
    ensure!(p.count() == COUNT, "the pages are gone");
    reserved(p, space, 2)?;
    ensure!(
        p.count() == COUNT && space.reserved() > 0,
        "the pages are gone"
    );
    let Ok(first) = begin_lob(p, space, TRX) else {
        bail!("no LOB");
    };
    for k in 0..pieces {
        reserved(p, space, 2)?;
        let bytes = if k == 0 { &FIRST[..] } else { &PIECE[..] };
        ensure!(p.count() == COUNT && first.0 < COUNT, "the pages are gone");
        ensure!(add_piece(p, space, first, TRX, bytes).is_ok(), "no piece");
    }
    Ok(first)
}

// The head of the piece behind k others, from that of the piece before it.
#[tactic(auto, using(crate::proofs::Ample::ample))]
fn head_behind(p: &mut MemPages, first: PageNo, before: Option<Addr>, k: u16) -> Result<Addr> {
    ensure!(p.count() == COUNT && first.0 < COUNT, "the pages are gone");
    let found = match before {
        None => head(p, first, 0),
        Some(node) => {
            ensure!(node.page.0 < COUNT && node.at <= 16_324, "no head");
            next_head(p, node, u32::from(k.saturating_sub(1)))
        }
    };
    match found {
        Ok(Some(node)) => Ok(node),
        _ => bail!("no piece"),
    }
}

// The sum of the bytes, so that each of them is read.
fn sum_of(bytes: &[u8]) -> u64 {
    let mut sum = 0u64;
    for byte in bytes {
        sum = sum.wrapping_add(u64::from(*byte));
    }
    sum
}

// Reads each piece at its newest version, and sums up the bytes.
#[tactic(auto, using(crate::proofs::Ample::ample))]
fn read_all(p: &mut MemPages, first: PageNo, pieces: u16) -> Result<u64> {
    let mut into = [0; 16_327];
    let (mut at, mut sum) = (None, 0u64);
    for k in 0..pieces {
        let node = head_behind(p, first, at, k)?;
        ensure!(
            p.count() == COUNT && node.page.0 < COUNT,
            "the pages are gone"
        );
        ensure!(node.at <= 16_324, "no head");
        let Ok(Found::At(entry)) = find_version(p, node, node, LobVersion(u32::MAX)) else {
            bail!("no version");
        };
        ensure!(p.count() == COUNT, "the pages are gone");
        ensure!(entry.page.0 < COUNT && entry.at <= 16_324, "no entry");
        let Ok(len) = read_piece(p, entry, &mut into) else {
            bail!("no data");
        };
        sum = sum.wrapping_add(sum_of(&into[..len]));
        at = Some(node);
    }
    Ok(sum)
}

// Pushes a version in each piece.
#[tactic(auto, using(crate::proofs::Ample::ample))]
fn push_all(
    p: &mut MemPages,
    space: &mut Space,
    first: PageNo,
    pieces: u16,
    version: u32,
) -> Result<()> {
    let mut at = None;
    for k in 0..pieces {
        reserved(p, space, 2)?;
        let node = head_behind(p, first, at, k)?;
        let bytes = if k == 0 { &FIRST[..] } else { &PIECE[..] };
        ensure!(p.count() == COUNT && first.0 < COUNT, "the pages are gone");
        ensure!(node.page.0 < COUNT && node.at <= 16_324, "no head");
        let pushed = push_version(p, space, first, node, LobVersion(version), TRX, bytes);
        ensure!(pushed.is_ok(), "no push");
        at = Some(node);
    }
    Ok(())
}

// Takes the newest version of each piece back.
#[tactic(auto, using(crate::proofs::Ample::ample))]
fn pop_all(p: &mut MemPages, space: &mut Space, first: PageNo, pieces: u16) -> Result<()> {
    let mut at = None;
    for k in 0..pieces {
        let node = head_behind(p, first, at, k)?;
        ensure!(p.count() == COUNT && first.0 < COUNT, "the pages are gone");
        ensure!(node.page.0 < COUNT && node.at <= 16_324, "no head");
        ensure!(pop_version(p, space, first, node).is_ok(), "no pop");
        at = Some(node);
    }
    Ok(())
}

// What is to be timed, and the sum of the bytes, or the number of pieces.
fn timed(
    p: &mut MemPages,
    space: &mut Space,
    first: PageNo,
    request: Request,
    version: u32,
) -> Result<u64> {
    let pieces = u16::try_from(request.size)?;
    match request.kernel {
        Kernel::LobRead => read_all(p, first, pieces),
        Kernel::LobPush => {
            push_all(p, space, first, pieces, version)?;
            pop_all(p, space, first, pieces)?;
            Ok(u64::from(pieces))
        }
        _ => {
            built(p, space, pieces)?;
            Ok(u64::from(pieces))
        }
    }
}

#[tactic(auto, using(crate::proofs::Ample::ample))]
pub fn lob_rounds(rt: &HostRuntime, request: Request) -> Result<Report> {
    let alloc: Global = rt.alloc();
    let mut p = MemPages::new(alloc, COUNT)?;
    let mut space = Space::new();
    ensure!(p.count() == COUNT, "the pages are gone");
    ensure!(make_system(&mut p).is_ok(), "no system page");
    let first = built(&mut p, &mut space, u16::try_from(request.size)?)?;
    let mut count = 0u64;
    let start = Instant::now(rt)?;
    for round in 0..u32::try_from(request.rounds)? {
        let version = round.saturating_add(2);
        let counted = timed(&mut p, &mut space, first, request, version)?;
        count = count.saturating_add(counted);
    }
    let spent = start.elapsed(rt)?;
    Ok(Report { spent, count })
}
