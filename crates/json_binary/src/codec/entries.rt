//! The checks of one value's entry, and of an object's keys.
ghost use Rattle.std.specs.Prelude.{◌≡◌, ◌≤◌, ◌<◌, ◌+◌, ◌^◌, ℕ, true, length, IfOk, OnOk, IsOk, Some, None};
ghost use Rattle.std.specs.Option.{option_copied};
ghost use Rattle.binary_model.specs.Layout as layout;
ghost use Rattle.binary_model.specs.Stands.{IsFrame};
ghost use Rattle.binary_model.specs.FirstFault as reading;
ghost use Rattle.json_binary.specs.Place.{container_of, spot_of, IsFramed, IsInside};
ghost use Rattle.json_binary.specs.Decoding.{Gives, fault_of, entered, next_key};

use crate::DecodeError;
use crate::cursor::layout::Kind;
use crate::cursor::place::{Container, Spot};
use json_tree::{Text, key_order};
use std::alloc::Global;
use std::cmp::Ordering;

/// What a type byte that no tree has is refused with.
pub fn type_fault(place: usize, code: u8) -> DecodeError
    ensures { fault_of result ≡ Some (reading.type_fault place code) }
{
    match code {
        11 | 15 => DecodeError::Unsupported(code),
        _ => DecodeError::BadType(place, code),
    }
}

/// The k-th value, where its type is known and it begins behind the floor and within the size.
pub fn entered_value(
    bytes: &[u8],
    container: Container,
    k: usize,
    floor: usize,
) -> Result<Spot, DecodeError>
    requires framed { IsFramed bytes.now container }
    requires inside { k < layout.count bytes.now (container_of container) }
    ensures gives { Gives spot_of result (entered bytes.now (container_of container) k floor) }
    ensures inside { IfOk result (IsInside bytes.now) }
{
    let spot = container.child(bytes, k);
    let code = bytes[spot.type_at];
    let Some(kind) = Kind::of(code) else {
        return Err(type_fault(spot.type_at, code));
    };
    if !kind.is_inlined(container.form) && (spot.at < floor || spot.limit < spot.at) {
        return Err(DecodeError::BadOffset(spot.type_at));
    }
    Ok(spot)
}

/// The k-th key, where it is a text behind the floor, within the size, and greater than the key
/// before.
fn checked_key(
    alloc: Global,
    bytes: &[u8],
    container: Container,
    k: usize,
    floor: usize,
    before: Option<&Text>,
) -> Result<Text, DecodeError>
    requires framed { IsFramed bytes.now container }
    requires object { container.is_object ≡ true }
    requires inside { k < layout.count bytes.now (container_of container) }
    ensures { Gives (λ key. key) result
        (next_key bytes.now (container_of container) k floor (option_copied before.entry)) }
{
    let (start, end) = container.key_range(bytes, k);
    let entry = container.key_entry(bytes, k);
    if start < floor || container.end(bytes) < end {
        return Err(DecodeError::BadOffset(entry));
    }
    let Ok(key) = str::from_utf8(&bytes[start..end]) else {
        return Err(DecodeError::BadUtf8(start));
    };
    if !follows(before, key) {
        return Err(DecodeError::KeyOrder(entry));
    }
    Ok(Text::new(String::from_str(alloc, key)?))
}

fn follows(before: Option<&Text>, key: &str) -> bool
    ensures { result ≡ reading.is_after (option_copied before.entry) key.now }
{
    match before {
        Some(before) => key_order(before.as_str(), key) == Ordering::Less,
        None => true,
    }
}

/// The keys of an object, in order.
pub fn read_keys(
    alloc: Global,
    bytes: &[u8],
    container: Container,
) -> Result<Vec<Text>, DecodeError>
    requires framed { IsFramed bytes.now container }
    requires object { container.is_object ≡ true }
    ensures { Gives (λ keys. keys.items) result
        (reading.read_keys bytes.now (container_of container)
        (layout.count bytes.now (container_of container)) 0
        (layout.entries_end bytes.now (container_of container)) None) }
{
    let count = container.count(bytes);
    let mut keys = Vec::with_capacity(alloc, count)?;
    let mut floor = container.entries_end(bytes);
    for k in 0..count {
        let key = checked_key(alloc, bytes, container, k, floor, keys.last())?;
        keys.push(key)?;
        floor = container.key_range(bytes, k).1;
    }
    Ok(keys)
}
