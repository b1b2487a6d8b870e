//! The kernel that looks up keys in a wide object, in place.
use crate::checksum::{START, mixed};
use crate::draw::{draw, generator};
use crate::made::{encoded, wide_object};
use crate::report::Report;
use anyhow::{Result, bail, ensure};
use json_binary::{container_in, member, root};
use std::alloc::{AllocError, Global};
use std::rt::Clock;
use std::time::Instant;

/// How many keys are looked up in a round.
const KEYS: u32 = 1_024;

// Keys of an object of so many members, and as many that it doesn't have.
fn keys(alloc: Global, size: u32) -> Result<Vec<String>, AllocError> {
    let mut rng = generator();
    let bound = size.saturating_mul(2).max(1);
    let mut keys = Vec::with_capacity(alloc, KEYS as usize)?;
    for _ in 0..KEYS {
        let k = draw(&mut rng, bound);
        keys.push(format!(in alloc; "k{k}")?)?;
    }
    Ok(keys)
}

/// Looks up each of the keys once a round.
pub fn member_rounds<R: Clock>(rt: &R, alloc: Global, rounds: u64, size: u32) -> Result<Report> {
    let bytes = encoded(alloc, &wide_object(alloc, size)?)?;
    let keys = keys(alloc, size)?;
    ensure!(!bytes.is_empty(), "no document");
    let Some(object) = container_in(&bytes, root(&bytes)) else {
        bail!("no container");
    };
    ensure!(object.is_object, "no object");
    let (mut found, mut sum) = (0u64, START);
    let start = Instant::now(rt)?;
    for _ in 0..rounds {
        for key in &keys {
            if let Some(k) = member(&bytes, object, key.as_str()) {
                found = found.saturating_add(1);
                sum = mixed(sum, k as u64);
            }
        }
    }
    let spent = start.elapsed(rt)?;
    Ok(Report {
        spent,
        count: found,
        checksum: sum,
    })
}
