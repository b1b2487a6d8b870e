//! Kernels over a whole document: an array of small objects.
use crate::checksum::{START, checksum, mixed};
use crate::draw::generator;
use crate::made::{encoded, objects};
use crate::report::Report;
use anyhow::{Result, ensure};
use json_binary::{MAX_DOCUMENT_BYTES, decode, print, used};
use json_tree::Json;
use std::alloc::Global;
use std::rt::Clock;
use std::time::Instant;

/// Encodes the document once a round.
pub fn encode_rounds<R: Clock>(rt: &R, alloc: Global, rounds: u64, size: u32) -> Result<Report> {
    let tree = objects(alloc, &mut generator(), size)?;
    let mut bytes = Vec::new(alloc);
    let start = Instant::now(rt)?;
    for _ in 0..rounds {
        bytes = encoded(alloc, &tree)?;
    }
    let spent = start.elapsed(rt)?;
    Ok(Report {
        spent,
        count: bytes.len() as u64,
        checksum: checksum(&bytes),
    })
}

/// Decodes the document once a round. The checksum is that of the tree's encoding.
pub fn decode_rounds<R: Clock>(rt: &R, alloc: Global, rounds: u64, size: u32) -> Result<Report> {
    let bytes = encoded(alloc, &objects(alloc, &mut generator(), size)?)?;
    let mut tree = Json::Null;
    let start = Instant::now(rt)?;
    for _ in 0..rounds {
        tree = decode(alloc, &bytes)?;
    }
    let spent = start.elapsed(rt)?;
    Ok(Report {
        spent,
        count: bytes.len() as u64,
        checksum: checksum(&encoded(alloc, &tree)?),
    })
}

/// Prints the document from its bytes once a round. The checksum is that of the text.
pub fn print_rounds<R: Clock>(rt: &R, alloc: Global, rounds: u64, size: u32) -> Result<Report> {
    let bytes = encoded(alloc, &objects(alloc, &mut generator(), size)?)?;
    let mut text = Vec::new(alloc);
    let start = Instant::now(rt)?;
    for _ in 0..rounds {
        text = Vec::new(alloc);
        print(&bytes, &mut text)?;
    }
    let spent = start.elapsed(rt)?;
    Ok(Report {
        spent,
        count: text.len() as u64,
        checksum: checksum(&text),
    })
}

/// Sums up how much of the document is in use once a round.
pub fn used_rounds<R: Clock>(rt: &R, alloc: Global, rounds: u64, size: u32) -> Result<Report> {
    let bytes = encoded(alloc, &objects(alloc, &mut generator(), size)?)?;
    ensure!(
        bytes.len() <= MAX_DOCUMENT_BYTES,
        "the document is too large"
    );
    let _tree = decode(alloc, &bytes)?;
    let mut sum = START;
    let start = Instant::now(rt)?;
    for _ in 0..rounds {
        sum = mixed(sum, u64::from(used(&bytes)));
    }
    let spent = start.elapsed(rt)?;
    Ok(Report {
        spent,
        count: bytes.len() as u64,
        checksum: sum,
    })
}
