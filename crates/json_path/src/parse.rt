// The path of a text.
ghost use Rattle.std.specs.Prelude.{◌≡◌, ◌<◌, length, map};
ghost use Rattle.std.specs.List.{list_any};
ghost use Rattle.path_model.specs.PathText as spec;
ghost use Rattle.json_path.specs.View.{leg_of};
ghost use Rattle.json_path.specs.Parsing.{IsParsed, ReadsLeg, ReadsLegs};

use crate::index::index;
use crate::key::member;
use crate::{Leg, MAX_LEGS, Path, PathError};
use json_tree::MAX_KEY_BYTES;
use std::alloc::Global;

/// A leg, and the place behind it.
#[derive(Drop)]
pub struct Parsed {
    pub leg: Leg,
    pub end: usize,
}

impl Path {
    /// The path that a text is.
    pub fn parse(alloc: Global, text: &str) -> Result<Path, PathError>
        ensures { IsParsed text.now result }
    {
        let legs = legs_of(alloc, text)?;
        if has_long_key(&legs) {
            return Err(PathError::LongKey);
        }
        Ok(Path { legs })
    }
}

fn legs_of(alloc: Global, text: &str) -> Result<Vec<Leg>, PathError>
    ensures { ReadsLegs text.now result }
{
    let bytes = text.as_bytes();
    if bytes.first() != Some(&b'$') {
        return Err(PathError::Syntax(0));
    }
    let mut legs = Vec::new(alloc);
    let mut at = 1;
    while at < bytes.len() {
        let parsed = leg_at(alloc, text, at, legs.len())?;
        legs.push(parsed.leg)?;
        at = parsed.end;
    }
    Ok(legs)
}

// The leg that begins at this place, behind so many others.
fn leg_at(alloc: Global, text: &str, at: usize, count: usize) -> Result<Parsed, PathError>
    requires { at < length text.now }
    ensures { ReadsLeg text.now at count result }
{
    let bytes = text.as_bytes();
    match bytes[at] {
        b'*' => Err(PathError::Wildcard(at)),
        b'.' if count < MAX_LEGS => member(alloc, text, at + 1),
        b'[' if count < MAX_LEGS => index(bytes, at + 1),
        _ => Err(PathError::Syntax(at)),
    }
}

fn has_long_key(legs: &[Leg]) -> bool
    ensures { result ≡ list_any spec.is_long (map leg_of legs.now) }
{
    for leg in legs {
        if is_long(leg) {
            return true;
        }
    }
    false
}

fn is_long(leg: &Leg) -> bool
    ensures { result ≡ spec.is_long (leg_of leg.now) }
{
    match leg {
        Leg::Member(key) => key.len() > MAX_KEY_BYTES,
        _ => false,
    }
}
