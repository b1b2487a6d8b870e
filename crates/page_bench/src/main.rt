// Runs a named kernel over pages or over a store's file, and prints what it counted; the time that
// it took goes to standard error.
#![tactic(auto)]

mod flush;
mod lob;
mod reads;
mod report;
mod request;
mod rows;
mod store;
mod undo;

use anyhow::{Result, bail};
use report::Report;
use request::{Kernel, Request};
use std::env;
use std::rt::Env;

// The words behind the program's own name.
fn words<R: Env + AllocGlobal>(rt: &R) -> Result<Vec<String>> {
    let mut words = Vec::new(rt.alloc());
    for word in env::args(rt)?.skip(1) {
        words.push(word)?;
    }
    Ok(words)
}

fn requested(words: &[String]) -> Result<Request> {
    let [name, rounds, size] = words else {
        bail!(
            "usage: page_bench flush|raw|lob-build|lob-read|lob-push|copy|read-pieces|\
             read-records|row-put|row-read|row-remove|undo-append|undo-pop ROUNDS SIZE"
        );
    };
    let Some(kernel) = Kernel::named(name.as_str()) else {
        bail!("no kernel has that name");
    };
    Ok(Request {
        kernel,
        rounds: rounds.as_str().parse::<u64>()?,
        size: size.as_str().parse::<u32>()?,
    })
}

fn measured(rt: &HostRuntime, request: Request) -> Result<Report> {
    match request.kernel {
        Kernel::Flush => flush::flush_rounds(rt, request.rounds, u16::try_from(request.size)?),
        Kernel::Raw => flush::raw_rounds(rt, request.rounds, u16::try_from(request.size)?),
        Kernel::LobBuild | Kernel::LobRead | Kernel::LobPush => lob::lob_rounds(rt, request),
        Kernel::Copy => reads::copy_rounds(rt, request),
        Kernel::ReadPieces | Kernel::ReadRecords => reads::read_rounds(rt, request),
        Kernel::RowPut | Kernel::RowRead | Kernel::RowRemove => rows::row_rounds(rt, request),
        Kernel::UndoAppend | Kernel::UndoPop => undo::undo_rounds(rt, request),
    }
}

fn main(rt: HostRuntime) -> Result<()> {
    let words = words(&rt)?;
    let request = requested(&words)?;
    let report = measured(&rt, request)?;
    let (name, rounds, size) = (request.kernel.name(), request.rounds, request.size);
    let count = report.count;
    println!(&rt; "{name} rounds {rounds} size {size} counted {count}")?;
    let nanoseconds = report.spent.as_nanos();
    eprintln!(&rt; "{nanoseconds} ns")?;
    Ok(())
}
