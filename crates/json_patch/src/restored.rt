//! Whether edits in place have left a document's tree as it was.
ghost use Rattle.std.specs.Prelude.{◌≡◌, ◌≤◌, ℕ, List, length, map, IfOk, IfSome};
ghost use Rattle.tree_model.specs.Tree.{Tree};
ghost use Rattle.binary_model.specs.Layout as layout;
ghost use Rattle.binary_model.specs.Stands.{Stands, IsValue};
ghost use Rattle.json_binary.specs.Place.{spot_of, IsInside};
ghost use Rattle.json_patch.specs.Led.{StandsFor};
ghost use Rattle.json_patch.specs.Touched.{value_at, same_where, same_at};

use json_binary::{Spot, child, container_in, decode_value, equals, root};
use std::alloc::{AllocError, Global};

/// Whether the old and the new bytes have the same values at the touched places: nothing but these
/// values is read.
pub fn is_restored(
    alloc: Global,
    old: &[u8],
    new: &[u8],
    touched: &[Vec<usize>],
) -> Result<bool, AllocError>
    requires old { 1 ≤ length old.now }
    requires new { 1 ≤ length new.now }
    ensures { IfOk result (λ same. (t u : Tree) → Stands old.now t
        → IsValue new.now u (layout.root new.now) →
        same ≡ same_at (map (λ ks. ks.items) touched.now) t u) }
{
    for place in touched {
        if !same_value(alloc, old, new, place)? {
            return Ok(false);
        }
    }
    Ok(true)
}

// Whether both have the same value at a place; one that isn't in both lies within another place.
fn same_value(alloc: Global, old: &[u8], new: &[u8], place: &[usize]) -> Result<bool, AllocError>
    requires old { 1 ≤ length old.now }
    requires new { 1 ≤ length new.now }
    ensures { IfOk result (λ same. (t u : Tree) → Stands old.now t
        → IsValue new.now u (layout.root new.now) →
        same ≡ same_where (value_at place.now t) (value_at place.now u)) }
{
    let Some(before) = value_spot(old, root(old), place) else {
        return Ok(true);
    };
    let Some(after) = value_spot(new, root(new), place) else {
        return Ok(true);
    };
    let value = decode_value(alloc, old, before)?;
    Ok(equals(new, after, &value))
}

// The value that positions lead to from a value; none where there is none.
fn value_spot(bytes: &[u8], spot: Spot, positions: &[usize]) -> Option<Spot>
    requires inside { IsInside bytes.now spot }
    ensures at { (t : Tree) → IsValue bytes.now t (spot_of spot)
        → StandsFor bytes.now (value_at positions.now t) result }
    ensures within { IfSome result (IsInside bytes.now) }
{
    let [k, rest @ ..] = positions else {
        return Some(spot);
    };
    let Some(container) = container_in(bytes, spot) else {
        return None;
    };
    if *k >= container.count(bytes) {
        return None;
    }
    match child(bytes, container, *k) {
        Some(inner) => value_spot(bytes, inner, rest),
        None => None,
    }
}
