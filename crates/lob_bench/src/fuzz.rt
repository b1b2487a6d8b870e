//! The kernel that decodes random bytes, and documents with changes.
ghost use Rattle.std.specs.Prelude.{◌≤◌, length};

use crate::checksum::{START, mixed};
use crate::draw::{draw, generator};
use crate::made::{encoded, objects};
use crate::report::Report;
use anyhow::{Result, bail, ensure};
use json_binary::{DecodeError, decode};
use rand_pcg::Pcg32;
use std::alloc::{AllocError, Global};
use std::rt::Clock;
use std::time::Instant;

/// The most random bytes, but for one.
const MAX_RANDOM: u32 = 256;

/// The most places that are changed.
const MAX_CHANGES: u32 = 8;

fn random_byte(rng: &mut Pcg32) -> u8 {
    draw(rng, 256) as u8
}

fn random(alloc: Global, rng: &mut Pcg32) -> Result<Vec<u8>, AllocError> {
    let mut bytes = Vec::new(alloc);
    // Most codes are no type: half of the inputs begin with one of the first 16.
    let bound = if draw(rng, 2) == 0 { 16 } else { 256 };
    bytes.push(draw(rng, bound) as u8)?;
    for _ in 0..draw(rng, MAX_RANDOM) {
        bytes.push(random_byte(rng))?;
    }
    Ok(bytes)
}

// A document with some places changed; one in eight is cut short as well.
fn changed(alloc: Global, rng: &mut Pcg32, document: &[u8]) -> Result<Vec<u8>, AllocError>
    requires { 1 ≤ length document.now }
{
    let mut bytes = document.to_vec(alloc)?;
    for _ in 0..1 + draw(rng, MAX_CHANGES) {
        let at = draw(rng, u32::MAX) as usize % bytes.len();
        bytes[at] = random_byte(rng);
    }
    if draw(rng, 8) == 0 {
        bytes.truncate(draw(rng, u32::MAX) as usize % document.len());
    }
    Ok(bytes)
}

// The number of a fault, and its place or code.
fn fault_word(fault: &DecodeError) -> u64 {
    let (number, place) = match fault {
        DecodeError::Truncated(place) => (1, *place),
        DecodeError::BadType(place, _) => (2, *place),
        DecodeError::BadOffset(place) => (3, *place),
        DecodeError::BadUtf8(place) => (4, *place),
        DecodeError::KeyOrder(place) => (5, *place),
        DecodeError::Unsupported(code) => (6, usize::from(*code)),
        DecodeError::Deep(place) => (7, *place),
        DecodeError::Trailing(place) => (8, *place),
        DecodeError::Memory => (9, 0),
    };
    mixed(number, place as u64)
}

/// Decodes one input a round, and counts those that are refused.
pub fn refuse_rounds<R: Clock>(rt: &R, alloc: Global, rounds: u64, size: u32) -> Result<Report> {
    let mut rng = generator();
    let document = encoded(alloc, &objects(alloc, &mut rng, size)?)?;
    ensure!(!document.is_empty(), "no document");
    let (mut refused, mut sum) = (0u64, START);
    let start = Instant::now(rt)?;
    for round in 0..rounds {
        let bytes = if round % 2 == 0 {
            random(alloc, &mut rng)?
        } else {
            changed(alloc, &mut rng, &document)?
        };
        match decode(alloc, &bytes) {
            Ok(_) => {}
            Err(DecodeError::Memory) => bail!("out of memory"),
            Err(fault) => {
                refused = refused.saturating_add(1);
                sum = mixed(sum, fault_word(&fault));
            }
        }
    }
    let spent = start.elapsed(rt)?;
    Ok(Report {
        spent,
        count: refused,
        checksum: sum,
    })
}
