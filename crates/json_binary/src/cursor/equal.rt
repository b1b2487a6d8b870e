//! Whether a value in place is a tree: read up to the first difference, and nothing built.
ghost use Rattle.std.specs.Prelude.{◌≡◌, ◌≢◌, ◌<◌, ◌≤◌, ◌&&◌, ℕ, List, true, map, length, bytes_eq, Ok, IfErr};
ghost use Rattle.tree_model.specs.Tree.{Tree, Trees, Members, array, object, text, trees, members, tree_list, member_list};
ghost use Rattle.tree_model.specs.Same.{same_tree, same_trees, same_members};
ghost use Rattle.binary_model.specs.Layout as layout;
ghost use Rattle.binary_model.specs.Stands.{IsValue, AreKeys, AreElements, HoldValues};
ghost use Rattle.json_tree.specs.View.{tree_of, pair_of};
ghost use Rattle.json_binary.specs.View.{form_of};
ghost use Rattle.json_binary.specs.Place.{container_of, spot_of, IsFramed, IsInside};
ghost use Rattle.json_binary.specs.Decoding.{Gives};
ghost use Rattle.json_binary.specs.declared.error.DecodeError.TheVariants.{Memory};

use crate::DecodeError;
use crate::cursor::containers::child;
use crate::cursor::frame::check_frame;
use crate::cursor::layout::{Form, Kind};
use crate::cursor::place::{Container, Spot};
use crate::cursor::scalars::{Found, read_literal, read_signed, read_unsigned, text_range};
use json_tree::{Json, Member};

/// Whether the value at a spot of a document is this tree. It is read in place, up to the first
/// difference; nothing is built.
#[cycle(equals)]
pub fn equals(bytes: &[u8], spot: Spot, tree: &Json) -> bool
    requires inside { IsInside bytes.now spot }
    ensures { (t : Tree) → IsValue bytes.now t (spot_of spot)
        → result ≡ same_tree t (tree_of tree.now) }
{
    match (Kind::of(bytes[spot.type_at]), tree) {
        (Some(Kind::Literal), _) => found_equals(read_literal(bytes, spot), tree),
        (Some(Kind::Signed(width)), _) => found_equals(read_signed(bytes, spot, width), tree),
        (Some(Kind::Unsigned(width)), _) => found_equals(read_unsigned(bytes, spot, width), tree),
        (Some(Kind::Text), Json::Text(text)) => text_equals(bytes, spot, text.as_str()),
        (Some(Kind::Array(form)), Json::List(list)) => {
            array_equals(bytes, spot, form, list.as_slice())
        }
        (Some(Kind::Object(form)), Json::Object(members)) => {
            object_equals(bytes, spot, form, members.as_slice())
        }
        _ => false,
    }
}

// A scalar that was read.
fn found_equals(found: Result<Found, DecodeError>, tree: &Json) -> bool
    requires lean { IfErr found (λ e. e ≢ Memory) }
    ensures { (t : Tree) → Gives (λ f. tree_of f.value) found (Ok t)
        → result ≡ same_tree t (tree_of tree.now) }
{
    match found {
        Ok(found) => found.value.same(tree),
        Err(_) => false,
    }
}

fn text_equals(bytes: &[u8], spot: Spot, letters: &str) -> bool
    requires inside { IsInside bytes.now spot }
    requires kind { layout.kind_at bytes.now spot.type_at ≡ layout.string }
    ensures { (t : Tree) → IsValue bytes.now t (spot_of spot)
        → result ≡ same_tree t (text letters.now) }
{
    match text_range(bytes, spot) {
        Some((start, end)) => &bytes[start..end] == letters.as_bytes(),
        None => false,
    }
}

#[cycle(equals)]
fn array_equals(bytes: &[u8], spot: Spot, form: Form, items: &[Json]) -> bool
    requires inside { IsInside bytes.now spot }
    requires kind { layout.kind_at bytes.now spot.type_at ≡ layout.array_in (form_of form) }
    ensures { (t : Tree) → IsValue bytes.now t (spot_of spot) →
        result ≡ same_tree t (array (trees (map tree_of items.now))) }
{
    let container = Container {
        form,
        is_object: false,
        at: spot.at,
    };
    let Ok(()) = check_frame(bytes, container, spot.limit) else {
        return false;
    };
    elements_equal(bytes, container, items)
}

#[cycle(equals)]
fn object_equals(bytes: &[u8], spot: Spot, form: Form, pairs: &[Member]) -> bool
    requires inside { IsInside bytes.now spot }
    requires kind { layout.kind_at bytes.now spot.type_at ≡ layout.object_in (form_of form) }
    ensures { (t : Tree) → IsValue bytes.now t (spot_of spot) →
        result ≡ same_tree t (object (members (map pair_of pairs.now))) }
{
    let container = Container {
        form,
        is_object: true,
        at: spot.at,
    };
    let Ok(()) = check_frame(bytes, container, spot.limit) else {
        return false;
    };
    members_equal(bytes, container, pairs)
}

#[cycle(equals)]
fn elements_equal(bytes: &[u8], container: Container, items: &[Json]) -> bool
    requires framed { IsFramed bytes.now container }
    ensures { (ts : Trees) (floor : ℕ) → AreElements bytes.now (container_of container) 0 floor ts →
        length (tree_list ts) ≡ layout.count bytes.now (container_of container) →
        result ≡ same_trees ts (trees (map tree_of items.now)) }
{
    if container.count(bytes) != items.len() {
        return false;
    }
    for k in 0..items.len() {
        if !child_equals(bytes, container, k, &items[k]) {
            return false;
        }
    }
    true
}

#[cycle(equals)]
fn members_equal(bytes: &[u8], container: Container, pairs: &[Member]) -> bool
    requires framed { IsFramed bytes.now container }
    requires object { container.is_object ≡ true }
    ensures { (ms : Members) (start floor : ℕ) →
        AreKeys bytes.now (container_of container) 0 start (map (λ m. m.0) (member_list ms)) →
        HoldValues bytes.now (container_of container) 0 floor ms →
        length (member_list ms) ≡ layout.count bytes.now (container_of container) →
        result ≡ same_members ms (members (map pair_of pairs.now)) }
{
    if container.count(bytes) != pairs.len() {
        return false;
    }
    for k in 0..pairs.len() {
        if !member_equals(bytes, container, k, &pairs[k]) {
            return false;
        }
    }
    true
}

#[cycle(equals)]
fn member_equals(bytes: &[u8], container: Container, k: usize, member: &Member) -> bool
    requires framed { IsFramed bytes.now container }
    requires object { container.is_object ≡ true }
    requires inside { k < layout.count bytes.now (container_of container) }
    ensures { (t : Tree) → layout.key_end bytes.now (container_of container) k ≤ length bytes.now →
        IsValue bytes.now t (layout.child bytes.now (container_of container) k) →
        result ≡ (bytes_eq (layout.key_of bytes.now (container_of container) k) member.now.key
        && same_tree t (tree_of member.now.value)) }
{
    key_equals(bytes, container, k, member.key.as_str())
        && child_equals(bytes, container, k, &member.value)
}

fn key_equals(bytes: &[u8], container: Container, k: usize, key: &str) -> bool
    requires framed { IsFramed bytes.now container }
    requires object { container.is_object ≡ true }
    requires inside { k < layout.count bytes.now (container_of container) }
    ensures { layout.key_end bytes.now (container_of container) k ≤ length bytes.now →
        result ≡ bytes_eq (layout.key_of bytes.now (container_of container) k) key.now }
{
    let (start, end) = container.key_range(bytes, k);
    end <= bytes.len() && &bytes[start..end] == key.as_bytes()
}

#[cycle(equals)]
fn child_equals(bytes: &[u8], container: Container, k: usize, tree: &Json) -> bool
    requires framed { IsFramed bytes.now container }
    requires inside { k < layout.count bytes.now (container_of container) }
    ensures { (t : Tree) → IsValue bytes.now t (layout.child bytes.now (container_of container) k) →
        result ≡ same_tree t (tree_of tree.now) }
{
    match child(bytes, container, k) {
        Some(spot) => equals(bytes, spot, tree),
        None => false,
    }
}
