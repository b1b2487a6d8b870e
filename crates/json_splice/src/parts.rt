//! The parts that a container is laid anew from.
ghost use Rattle.std.specs.Prelude.{◌≡◌, ◌≤◌, ◌<◌, ◌==◌, ℕ, List, slice_range, IfOk, IfSome, true, if◌then◌else◌};
ghost use Rattle.tree_model.specs.Tree.{Tree, Trees, depth};
ghost use Rattle.binary_model.specs.Layout as layout;
ghost use Rattle.binary_model.specs.Stands.{IsValue};
ghost use Rattle.binary_model.specs.Canonical.{spelling, spellings};
ghost use Rattle.binary_model.proofs.in_place.RefitLemmas.{with_element};
ghost use Rattle.json_binary.specs.Place.{container_of, IsFramed};
ghost use Rattle.json_binary.specs.Writing.{spelling_of};
ghost use Rattle.json_splice.specs.Spelled.{NamesKeys, HoldsTrees};
ghost use Rattle.json_splice.specs.Parts.{key_in, part_in, keys_in, parts_in};

use crate::canonical::canonical_size;
use json_binary::{Container, Kind, Spelled, child};
use std::alloc::{AllocError, Global};

/// A range of bytes.
#[derive(Clone, Copy)]
pub struct Range {
    pub start: usize,
    pub end: usize,
}

/// A value, by where it stands.
#[derive(Clone, Copy)]
pub struct Part {
    pub kind: Kind,
    /// Whether it stands among the new bytes, and not in the document.
    pub is_new: bool,
    pub range: Range,
}

/// The bytes of a range; what it has outside them counts for nothing.
pub fn key_bytes(bytes: &[u8], range: Range) -> &[u8]
    ensures { result.now ≡ key_in bytes.now range }
{
    let end = range.end.min(bytes.len());
    let start = range.start.min(end);
    &bytes[start..end]
}

/// A value's bytes.
pub fn part_bytes<'a>(old: &'a [u8], new: &'a [u8], part: Part) -> &'a [u8]
    ensures { result.now ≡ (part_in old.now new.now part).1 }
{
    if part.is_new {
        key_bytes(new, part.range)
    } else {
        key_bytes(old, part.range)
    }
}

/// Where a container's keys stand; an array has none.
pub fn keys_of(alloc: Global, bytes: &[u8], container: Container) -> Result<Vec<Range>, AllocError>
    requires framed { IsFramed bytes.now container }
    ensures { IfOk result (λ rs. (ks : List (List ℕ))
        → NamesKeys bytes.now (container_of container) ks → keys_in bytes.now rs.items ≡ ks) }
{
    if container.is_object {
        object_keys(alloc, bytes, container)
    } else {
        Ok(Vec::new(alloc))
    }
}

fn object_keys(alloc: Global, bytes: &[u8], container: Container) -> Result<Vec<Range>, AllocError>
    requires framed { IsFramed bytes.now container }
    requires object { container.is_object ≡ true }
    ensures { IfOk result (λ rs. (ks : List (List ℕ))
        → NamesKeys bytes.now (container_of container) ks → keys_in bytes.now rs.items ≡ ks) }
{
    let count = container.count(bytes);
    let mut keys = Vec::with_capacity(alloc, count)?;
    for k in 0..count {
        let (start, end) = container.key_range(bytes, k);
        keys.push(Range { start, end })?;
    }
    Ok(keys)
}

/// The values of a container with another as its value of that number. None, where one of the
/// others doesn't stand canonically.
pub fn parts_of(
    alloc: Global,
    bytes: &[u8],
    container: Container,
    number: usize,
    value: &Spelled,
    nesting: u32,
) -> Result<Option<Vec<Part>>, AllocError>
    requires framed { IsFramed bytes.now container }
    ensures { IfOk result (λ found. IfSome found (λ ps. (ts : Trees) (w : Tree)
        → HoldsTrees bytes.now (container_of container) nesting ts →
        spelling_of value.now ≡ spelling w →
        parts_in bytes.now value.now.bytes.items ps.items
        ≡ spellings (with_element ts number w))) }
{
    let count = container.count(bytes);
    let mut parts = Vec::with_capacity(alloc, count)?;
    for k in 0..count {
        match part_at(bytes, container, k, number, value, nesting) {
            Some(part) => parts.push(part)?,
            None => return Ok(None),
        }
    }
    Ok(Some(parts))
}

// The k-th of these values.
fn part_at(
    bytes: &[u8],
    container: Container,
    k: usize,
    number: usize,
    value: &Spelled,
    nesting: u32,
) -> Option<Part>
    requires framed { IsFramed bytes.now container }
    requires inside { k < layout.count bytes.now (container_of container) }
    ensures { IfSome result (λ p. (t w : Tree)
        → IsValue bytes.now t (layout.child bytes.now (container_of container) k) →
        depth t ≤ nesting → spelling_of value.now ≡ spelling w →
        part_in bytes.now value.now.bytes.items p
        ≡ spelling (if k == number then w else t)) }
{
    if k == number {
        Some(new_part(value))
    } else {
        old_part(bytes, container, k, nesting)
    }
}

fn new_part(value: &Spelled) -> Part
    ensures { (bytes : List ℕ) → part_in bytes value.now.bytes.items result
        ≡ spelling_of value.now }
{
    let range = Range {
        start: 0,
        end: value.bytes.len(),
    };
    Part {
        kind: value.kind,
        is_new: true,
        range,
    }
}

fn old_part(bytes: &[u8], container: Container, k: usize, nesting: u32) -> Option<Part>
    requires framed { IsFramed bytes.now container }
    requires inside { k < layout.count bytes.now (container_of container) }
    ensures { IfSome result (λ p. (t : Tree) (new : List ℕ)
        → IsValue bytes.now t (layout.child bytes.now (container_of container) k) →
        depth t ≤ nesting → part_in bytes.now new p ≡ spelling t) }
{
    let spot = child(bytes, container, k)?;
    let kind = Kind::of(bytes[spot.type_at])?;
    let size = canonical_size(bytes, spot, nesting)?;
    let range = Range {
        start: spot.at,
        end: spot.at.checked_add(size)?,
    };
    Some(Part {
        kind,
        is_new: false,
        range,
    })
}
