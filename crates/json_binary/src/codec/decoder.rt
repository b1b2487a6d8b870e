//! The tree that bytes stand for, or the first check that fails.
ghost use Rattle.std.specs.Prelude.{◌≡◌, ◌≤◌, ◌<◌, ◌-◌, ◌+◌, ◌^◌, ℕ, true, false, length, IfOk, OnOk, Ok, None};
ghost use Rattle.binary_model.specs.Layout as layout;
ghost use Rattle.binary_model.specs.Stands.{Stands, IsValue, max_nested};
ghost use Rattle.binary_model.specs.Canonical.{canonical};
ghost use Rattle.binary_model.specs.FirstFault as reading;
ghost use Rattle.json_tree.specs.View.{tree_of};
ghost use Rattle.tree_model.specs.Tree.{Tree, IsTree, depth};
ghost use Rattle.json_binary.specs.View.{form_of};
ghost use Rattle.json_binary.specs.Place.{container_of, spot_of, IsFramed, IsInside};
ghost use Rattle.json_binary.specs.Decoding.{Gives, RefusesNoTree, values_of, members_of};

use crate::DecodeError;
use crate::codec::entries::{entered_value, read_keys, type_fault};
use crate::cursor::frame::check_frame;
use crate::cursor::layout::{Form, Kind};
use crate::cursor::place::{Container, Spot};
use crate::cursor::scalars::{Found, read_literal, read_signed, read_text, read_unsigned};
use json_tree::{Json, List, MAX_DEPTH, Members, Text};
use std::alloc::{AllocError, Global};

/// The tree of a document: one type byte and one value, with nothing behind it. Gaps between the
/// parts of a container are allowed (MySQL 8.0, json_binary.h).
pub fn decode(alloc: Global, bytes: &[u8]) -> Result<Json, DecodeError>
    // The tree that the bytes stand for, which is the only one.
    ensures stands { IfOk result (λ tree. Stands bytes.now (tree_of tree)) }
    // Bytes that stand for a tree are read, unless memory runs out.
    ensures refused { RefusesNoTree bytes.now result }
    // A canonical encoding is read as its tree.
    ensures back { (t : Tree) → IsTree t → depth t ≤ max_nested → length (canonical t) < 2 ^ 32 →
        bytes.now ≡ canonical t → Gives tree_of result (Ok t) }
    // Which fault it is: the first check that fails, and its place.
    ensures first { Gives tree_of result (reading.first_fault bytes.now) }
{
    read_document(alloc, bytes)
}

fn read_document(alloc: Global, bytes: &[u8]) -> Result<Json, DecodeError>
    ensures { Gives tree_of result (reading.first_fault bytes.now) }
{
    if bytes.is_empty() {
        return Err(DecodeError::Truncated(0));
    }
    let root = Spot {
        type_at: 0,
        at: 1,
        limit: bytes.len(),
    };
    let found = read_value(alloc, bytes, root, MAX_DEPTH)?;
    if found.end != bytes.len() {
        return Err(DecodeError::Trailing(found.end));
    }
    Ok(found.value)
}

/// The tree that stands at a spot of a document, read there alone: nothing outside the value is
/// looked at. Where a tree stands, only memory can run out; bytes in which none is found are
/// answered by the same error.
pub fn decode_value(alloc: Global, bytes: &[u8], spot: Spot) -> Result<Json, AllocError>
    requires inside { IsInside bytes.now spot }
    ensures { (t : Tree) → IsTree t → IsValue bytes.now t (spot_of spot) → depth t ≤ max_nested →
        IfOk result (λ tree. tree_of tree ≡ t) }
{
    match read_value(alloc, bytes, spot, MAX_DEPTH) {
        Ok(found) => Ok(found.value),
        Err(_) => Err(AllocError),
    }
}

// The value in place, where so many more containers may be nested.
#[cycle(value)]
fn read_value(alloc: Global, bytes: &[u8], spot: Spot, nesting: u32) -> Result<Found, DecodeError>
    requires inside { IsInside bytes.now spot }
    ensures value { Gives (λ f. tree_of f.value) result
        (reading.read_value nesting bytes.now (spot_of spot)) }
    ensures end { IfOk result (λ f. f.end ≡ layout.value_end bytes.now (spot_of spot)) }
{
    let code = bytes[spot.type_at];
    match Kind::of(code) {
        Some(Kind::Literal) => read_literal(bytes, spot),
        Some(Kind::Signed(width)) => read_signed(bytes, spot, width),
        Some(Kind::Unsigned(width)) => read_unsigned(bytes, spot, width),
        Some(Kind::Text) => read_text(alloc, bytes, spot),
        Some(Kind::Array(form)) => read_array(alloc, bytes, spot, form, nesting),
        Some(Kind::Object(form)) => read_object(alloc, bytes, spot, form, nesting),
        None => Err(type_fault(spot.type_at, code)),
    }
}

#[cycle(value)]
fn read_array(
    alloc: Global,
    bytes: &[u8],
    spot: Spot,
    form: Form,
    nesting: u32,
) -> Result<Found, DecodeError>
    requires inside { IsInside bytes.now spot }
    requires kind { layout.kind_at bytes.now spot.type_at ≡ layout.array_in (form_of form) }
    ensures value { Gives (λ f. tree_of f.value) result
        (reading.read_value nesting bytes.now (spot_of spot)) }
    ensures end { IfOk result (λ f. f.end ≡ layout.value_end bytes.now (spot_of spot)) }
{
    if nesting == 0 {
        return Err(DecodeError::Deep(spot.at));
    }
    let container = Container {
        form,
        is_object: false,
        at: spot.at,
    };
    check_frame(bytes, container, spot.limit)?;
    let list = read_elements(alloc, bytes, container, nesting - 1)?;
    Ok(Found {
        value: Json::List(list),
        end: container.end(bytes),
    })
}

#[cycle(value)]
fn read_object(
    alloc: Global,
    bytes: &[u8],
    spot: Spot,
    form: Form,
    nesting: u32,
) -> Result<Found, DecodeError>
    requires inside { IsInside bytes.now spot }
    requires kind { layout.kind_at bytes.now spot.type_at ≡ layout.object_in (form_of form) }
    ensures value { Gives (λ f. tree_of f.value) result
        (reading.read_value nesting bytes.now (spot_of spot)) }
    ensures end { IfOk result (λ f. f.end ≡ layout.value_end bytes.now (spot_of spot)) }
{
    if nesting == 0 {
        return Err(DecodeError::Deep(spot.at));
    }
    let container = Container {
        form,
        is_object: true,
        at: spot.at,
    };
    check_frame(bytes, container, spot.limit)?;
    let keys = read_keys(alloc, bytes, container)?;
    let members = read_members(alloc, bytes, container, keys, nesting - 1)?;
    Ok(Found {
        value: Json::Object(members),
        end: container.end(bytes),
    })
}

// The elements of an array.
#[cycle(value)]
fn read_elements(
    alloc: Global,
    bytes: &[u8],
    container: Container,
    nesting: u32,
) -> Result<List, DecodeError>
    requires framed { IsFramed bytes.now container }
    requires array { container.is_object ≡ false }
    ensures { Gives (λ list. list) result (values_of nesting bytes.now (container_of container)) }
{
    let count = container.count(bytes);
    let mut list = List::with_capacity(alloc, count)?;
    let mut floor = container.entries_end(bytes);
    for k in 0..count {
        let spot = entered_value(bytes, container, k, floor)?;
        let found = read_value(alloc, bytes, spot, nesting)?;
        list.push(found.value)?;
        if !container.inlines(bytes, spot.type_at) {
            floor = found.end;
        }
    }
    Ok(list)
}

// The members of an object, whose keys are read and checked.
#[cycle(value)]
fn read_members(
    alloc: Global,
    bytes: &[u8],
    container: Container,
    keys: Vec<Text>,
    nesting: u32,
) -> Result<Members, DecodeError>
    requires framed { IsFramed bytes.now container }
    requires object { container.is_object ≡ true }
    requires keys { reading.read_keys bytes.now (container_of container)
        (layout.count bytes.now (container_of container)) 0
        (layout.entries_end bytes.now (container_of container)) None ≡ Ok keys.items }
    ensures { Gives (λ members. members) result
        (members_of keys.items (values_of nesting bytes.now (container_of container))) }
{
    let mut members = Members::with_capacity(alloc, keys.len())?;
    let mut floor = container.values_floor(bytes);
    let mut k = 0;
    for key in keys {
        let spot = entered_value(bytes, container, k, floor)?;
        let found = read_value(alloc, bytes, spot, nesting)?;
        members.push(key, found.value)?;
        if !container.inlines(bytes, spot.type_at) {
            floor = found.end;
        }
        k += 1;
    }
    Ok(members)
}
