// Runs a named kernel over made input, and prints a checksum; the time that it took goes to
// standard error.
#![tactic(auto)]

mod checksum;
mod coding;
mod draw;
mod fuzz;
mod made;
mod member;
mod report;
mod request;

use anyhow::{Result, bail};
use report::Report;
use request::{Kernel, Request};
use std::alloc::Global;
use std::env;
use std::rt::{Clock, Env};

// The words behind the program's own name.
fn words<R: Env + AllocGlobal>(rt: &R) -> Result<Vec<String>> {
    let mut words = Vec::new(rt.alloc());
    for word in env::args(rt)?.skip(1) {
        words.push(word)?;
    }
    Ok(words)
}

fn requested(words: &[String]) -> Result<Request> {
    let [name, rounds, size] = words else {
        bail!("usage: lob_bench encode|decode|print|used|member|refuse ROUNDS SIZE");
    };
    let Some(kernel) = Kernel::named(name.as_str()) else {
        bail!("no kernel has that name");
    };
    Ok(Request {
        kernel,
        rounds: rounds.as_str().parse::<u64>()?,
        size: size.as_str().parse::<u32>()?,
    })
}

fn measured<R: Clock>(rt: &R, alloc: Global, request: Request) -> Result<Report> {
    match request.kernel {
        Kernel::Encode => coding::encode_rounds(rt, alloc, request.rounds, request.size),
        Kernel::Decode => coding::decode_rounds(rt, alloc, request.rounds, request.size),
        Kernel::Print => coding::print_rounds(rt, alloc, request.rounds, request.size),
        Kernel::Used => coding::used_rounds(rt, alloc, request.rounds, request.size),
        Kernel::Member => member::member_rounds(rt, alloc, request.rounds, request.size),
        Kernel::Refuse => fuzz::refuse_rounds(rt, alloc, request.rounds, request.size),
    }
}

fn main(rt: HostRuntime) -> Result<()> {
    let words = words(&rt)?;
    let request = requested(&words)?;
    let report = measured(&rt, rt.alloc(), request)?;
    let (name, counted) = (request.kernel.name(), request.kernel.counted());
    let (rounds, size) = (request.rounds, request.size);
    let (count, sum) = (report.count, report.checksum);
    println!(&rt; "{name} rounds {rounds} size {size} {counted} {count} checksum {sum}")?;
    let nanoseconds = report.spent.as_nanos();
    eprintln!(&rt; "{nanoseconds} ns")?;
    Ok(())
}
