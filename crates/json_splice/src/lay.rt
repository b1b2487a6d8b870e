//! A value with another one inside, laid anew along the way to it.
ghost use Rattle.std.specs.Prelude.{◌≡◌, ◌≤◌, ◌<◌, ℕ, List, IfOk, IfSome};
ghost use Rattle.tree_model.specs.Tree.{Tree, depth};
ghost use Rattle.binary_model.specs.Stands.{IsValue};
ghost use Rattle.binary_model.specs.Canonical.{spelling};
ghost use Rattle.binary_model.proofs.in_place.PositionLemmas.{put_at};
ghost use Rattle.json_binary.specs.Place.{spot_of, IsInside};
ghost use Rattle.json_binary.specs.Writing.{spelling_of};

use crate::parts::{keys_of, parts_of};
use crate::shape::spelled;
use json_binary::{Spelled, Spot, child, container_in};
use std::alloc::{AllocError, Global};

/// The canonical spelling of the value at a spot, with another value at the end of these positions:
/// the containers on the way are laid anew, and the values beside it are copied. None, where one of
/// them doesn't stand canonically, or the spelling is longer than a document can be.
#[cycle(laid)]
pub fn laid(
    alloc: Global,
    bytes: &[u8],
    spot: Spot,
    positions: &[usize],
    value: Spelled,
    nesting: u32,
) -> Result<Option<Spelled>, AllocError>
    requires inside { IsInside bytes.now spot }
    ensures { IfOk result (λ found. IfSome found (λ s. (t w : Tree)
        → IsValue bytes.now t (spot_of spot) → depth t ≤ nesting →
        spelling_of value ≡ spelling w → spelling_of s ≡ spelling (put_at positions.now w t))) }
{
    let [number, rest @ ..] = positions else {
        return Ok(Some(value));
    };
    let Some(container) = container_in(bytes, spot) else {
        return Ok(None);
    };
    if nesting == 0 || container.count(bytes) <= *number {
        return Ok(None);
    }
    let Some(inner) = child(bytes, container, *number) else {
        return Ok(None);
    };
    let Some(value) = laid(alloc, bytes, inner, rest, value, nesting - 1)? else {
        return Ok(None);
    };
    let Some(values) = parts_of(alloc, bytes, container, *number, &value, nesting - 1)? else {
        return Ok(None);
    };
    let keys = keys_of(alloc, bytes, container)?;
    spelled(
        alloc,
        bytes,
        &value.bytes,
        container.is_object,
        &keys,
        &values,
    )
}
