//! How much of a document's bytes is in use: changes in place leave gaps.
ghost use Rattle.std.specs.Prelude.{◌≡◌, ◌≤◌, ◌+◌, ◌-◌, ◌<◌, ℕ, List, suc, true, false, map, length, if◌then◌else◌};
ghost use Rattle.tree_model.specs.Tree as tree;
ghost use Rattle.tree_model.specs.Tree.{Tree, Trees, Members, depth, trees_depth, members_depth, tree_list, member_list};
ghost use Rattle.binary_model.specs.Layout as layout;
ghost use Rattle.binary_model.specs.Canonical.{max_document_bytes};
ghost use Rattle.binary_model.specs.Stands as stands;
ghost use Rattle.binary_model.specs.Stands.{IsValue, IsFrame, AreKeys, AreElements, HoldValues, Stands};
ghost use Rattle.json_binary.specs.View.{form_of};
ghost use Rattle.json_binary.specs.Place.{container_of, spot_of, IsFramed, IsInside};
ghost use Rattle.json_binary.specs.Sizes.{capped};
ghost use Rattle.json_binary.specs.Usage.{IsDocument, total_length};

use crate::cursor::frame::check_frame;
use crate::cursor::layout::{Form, Kind};
use crate::cursor::place::{Container, Spot};
use crate::cursor::scalars::text_range;
use json_tree::MAX_DEPTH;

/// The used length of a document (ours): its type byte and what its value uses. A scalar uses its
/// bytes; a container its header, its entries, its keys' bytes, and what its values use that don't
/// stand in their entries.
pub fn used(bytes: &[u8]) -> u32
    requires document { IsDocument bytes.now }
    requires small { length bytes.now ≤ max_document_bytes }
    ensures { (t : Tree) → Stands bytes.now t → result ≡ stands.used bytes.now t }
{
    let root = Spot {
        type_at: 0,
        at: 1,
        limit: bytes.len(),
    };
    1 + value_used(bytes, root, MAX_DEPTH) as u32
}

// What a value uses where it stands for a tree that has so many containers nested at most. Sums
// stand still at their type's end.
#[cycle(used)]
fn value_used(bytes: &[u8], spot: Spot, nesting: u32) -> usize
    requires inside { IsInside bytes.now spot }
    ensures { (t : Tree) → IsValue bytes.now t (spot_of spot) → depth t ≤ nesting →
        result ≡ capped (stands.used_in bytes.now t (spot_of spot)) }
{
    match Kind::of(bytes[spot.type_at]) {
        Some(Kind::Array(form)) => array_used(bytes, spot, form, nesting),
        Some(Kind::Object(form)) => object_used(bytes, spot, form, nesting),
        Some(Kind::Literal) => 1,
        Some(Kind::Signed(width)) => width.bytes(),
        Some(Kind::Unsigned(width)) => width.bytes(),
        Some(Kind::Text) => text_used(bytes, spot),
        None => 0,
    }
}

fn text_used(bytes: &[u8], spot: Spot) -> usize
    requires inside { IsInside bytes.now spot }
    ensures { result ≡ layout.end_as bytes.now layout.string (spot_of spot) - spot.at }
{
    match text_range(bytes, spot) {
        Some((_, end)) => end - spot.at,
        None => 0,
    }
}

#[cycle(used)]
fn array_used(bytes: &[u8], spot: Spot, form: Form, nesting: u32) -> usize
    requires inside { IsInside bytes.now spot }
    requires kind { layout.kind_at bytes.now spot.type_at ≡ layout.array_in (form_of form) }
    ensures { (t : Tree) → IsValue bytes.now t (spot_of spot) → depth t ≤ nesting →
        result ≡ capped (stands.used_in bytes.now t (spot_of spot)) }
{
    let container = Container {
        form,
        is_object: false,
        at: spot.at,
    };
    if nesting == 0 {
        return 0;
    }
    let Ok(()) = check_frame(bytes, container, spot.limit) else {
        return 0;
    };
    let entries = container.entries_end(bytes) - spot.at;
    entries.saturating_add(values_used(bytes, container, nesting - 1))
}

#[cycle(used)]
fn object_used(bytes: &[u8], spot: Spot, form: Form, nesting: u32) -> usize
    requires inside { IsInside bytes.now spot }
    requires kind { layout.kind_at bytes.now spot.type_at ≡ layout.object_in (form_of form) }
    ensures { (t : Tree) → IsValue bytes.now t (spot_of spot) → depth t ≤ nesting →
        result ≡ capped (stands.used_in bytes.now t (spot_of spot)) }
{
    let container = Container {
        form,
        is_object: true,
        at: spot.at,
    };
    if nesting == 0 {
        return 0;
    }
    let Ok(()) = check_frame(bytes, container, spot.limit) else {
        return 0;
    };
    let entries = container.entries_end(bytes) - spot.at;
    entries
        .saturating_add(keys_used(bytes, container))
        .saturating_add(values_used(bytes, container, nesting - 1))
}

// The bytes of an object's keys.
fn keys_used(bytes: &[u8], container: Container) -> usize
    requires framed { IsFramed bytes.now container }
    requires object { container.is_object ≡ true }
    ensures { (ks : List (List ℕ)) (floor : ℕ)
        → AreKeys bytes.now (container_of container) 0 floor ks →
        length ks ≡ layout.count bytes.now (container_of container)
        → result ≡ capped (total_length ks) }
{
    let mut total = 0usize;
    for k in 0..container.count(bytes) {
        let (start, end) = container.key_range(bytes, k);
        total = total.saturating_add(end - start);
    }
    total
}

// What the values of a container use that don't stand in their entries.
#[cycle(used)]
fn values_used(bytes: &[u8], container: Container, nesting: u32) -> usize
    requires framed { IsFramed bytes.now container }
    ensures { (ts : Trees) (floor : ℕ) → AreElements bytes.now (container_of container) 0 floor ts →
        length (tree_list ts) ≡ layout.count bytes.now (container_of container)
        → trees_depth ts ≤ nesting →
        result ≡ capped (stands.elements_used bytes.now (container_of container) 0 ts) }
{
    let mut total = 0usize;
    for k in 0..container.count(bytes) {
        total = total.saturating_add(behind_used(bytes, container, k, nesting));
    }
    total
}

// What the k-th value uses, where it doesn't stand in its entry.
#[cycle(used)]
fn behind_used(bytes: &[u8], container: Container, k: usize, nesting: u32) -> usize
    requires framed { IsFramed bytes.now container }
    requires inside { k < layout.count bytes.now (container_of container) }
    ensures { (t : Tree) → IsValue bytes.now t (layout.child bytes.now (container_of container) k)
        → depth t ≤ nesting →
        result ≡ (if layout.inlined bytes.now (container_of container) k then 0
        else capped (stands.used_in bytes.now t
        (layout.child bytes.now (container_of container) k))) }
{
    let spot = container.child(bytes, k);
    if container.inlines(bytes, spot.type_at) {
        return 0;
    }
    if spot.limit < spot.at {
        return 0;
    }
    value_used(bytes, spot, nesting)
}
