//! A document read in place: its values, their containers, and a member by its key.
ghost use Rattle.std.specs.Prelude.{◌≡◌, ◌<◌, ◌≤◌, ◌+◌, ℕ, List, true, map, length, slice_get, Some, None, IfSome, IfNone};
ghost use Rattle.tree_model.specs.Tree.{Tree, Trees, tree_list, Members, AreMembers, member_list, get, key_cmp};
ghost use Rattle.binary_model.specs.Layout as layout;
ghost use Rattle.binary_model.specs.Stands.{IsValue, AreKeys, AreElements, HoldValues};
ghost use Rattle.json_binary.specs.Place.{container_of, spot_of, IsFramed, IsInside};
ghost use Rattle.std.specs.declared.cmp.Ordering.TheVariants.{Equal};

use crate::cursor::frame::check_frame;
use crate::cursor::layout::Kind;
use crate::cursor::place::{Container, Spot};
use json_tree::key_bytes_order;
use std::cmp::Ordering;

/// The value of a document.
pub fn root(bytes: &[u8]) -> Spot
    requires { 1 ≤ length bytes.now }
    ensures place { spot_of result ≡ layout.root bytes.now }
    ensures inside { IsInside bytes.now result }
{
    Spot {
        type_at: 0,
        at: 1,
        limit: bytes.len(),
    }
}

/// The container that a value is, if it is one and its entries lie within its size.
pub fn container_in(bytes: &[u8], spot: Spot) -> Option<Container>
    requires inside { IsInside bytes.now spot }
    ensures framed { IfSome result (IsFramed bytes.now) }
    ensures place { IfSome result (λ c.
        layout.container_at bytes.now (spot_of spot) ≡ Some (container_of c)) }
    // Where the bytes stand for a tree, it is a scalar that has none.
    ensures stands { IfNone result ((t : Tree) → IsValue bytes.now t (spot_of spot) →
        layout.container_at bytes.now (spot_of spot) ≡ None) }
{
    let at = spot.at;
    match Kind::of(bytes[spot.type_at]) {
        Some(Kind::Object(form)) => {
            let is_object = true;
            framed(
                bytes,
                spot,
                Container {
                    form,
                    is_object,
                    at,
                },
            )
        }
        Some(Kind::Array(form)) => {
            let is_object = false;
            framed(
                bytes,
                spot,
                Container {
                    form,
                    is_object,
                    at,
                },
            )
        }
        _ => None,
    }
}

fn framed(bytes: &[u8], spot: Spot, container: Container) -> Option<Container>
    requires inside { IsInside bytes.now spot }
    requires here { layout.container_at bytes.now (spot_of spot) ≡ Some (container_of container) }
    requires place { container.at ≡ spot.at }
    ensures framed { IfSome result (IsFramed bytes.now) }
    ensures place { IfSome result (λ c.
        layout.container_at bytes.now (spot_of spot) ≡ Some (container_of c)) }
    ensures stands { IfNone result ((t : Tree) → IsValue bytes.now t (spot_of spot) →
        layout.container_at bytes.now (spot_of spot) ≡ None) }
{
    match check_frame(bytes, container, spot.limit) {
        Ok(()) => Some(container),
        Err(_) => None,
    }
}

/// The k-th value of a container, if it begins within it.
pub fn child(bytes: &[u8], container: Container, k: usize) -> Option<Spot>
    requires framed { IsFramed bytes.now container }
    requires inside { k < layout.count bytes.now (container_of container) }
    ensures place { IfSome result (λ spot.
        spot_of spot ≡ layout.child bytes.now (container_of container) k) }
    ensures inside { IfSome result (IsInside bytes.now) }
    // Where the bytes stand for a tree, it stands for the tree's k-th value.
    ensures element { IfSome result (λ spot. (ts : Trees) (floor : ℕ) (t : Tree) →
        AreElements bytes.now (container_of container) 0 floor ts
        → slice_get (tree_list ts) k ≡ Some t →
        IsValue bytes.now t (spot_of spot)) }
    ensures value { IfSome result (λ spot. (ms : Members) (floor : ℕ) (m : List ℕ × Tree) →
        HoldValues bytes.now (container_of container) 0 floor ms
        → slice_get (member_list ms) k ≡ Some m →
        IsValue bytes.now m.1 (spot_of spot)) }
    ensures none { IfNone result ((t : Tree) →
        IsValue bytes.now t (layout.child bytes.now (container_of container) k) → ⊥) }
{
    let spot = container.child(bytes, k);
    if spot.limit < spot.at {
        return None;
    }
    Some(spot)
}

/// The number of an object's member with that key, by halving: about as many keys are read as the
/// count has binary digits.
pub fn member(bytes: &[u8], container: Container, key: &str) -> Option<usize>
    requires framed { IsFramed bytes.now container }
    requires object { container.is_object ≡ true }
    ensures found { IfSome result (λ k. (k < layout.count bytes.now (container_of container))
        × (layout.key_of bytes.now (container_of container) k ≡ key.now)) }
    // Where the bytes stand for members, none of them has the key.
    ensures absent { IfNone result ((ms : Members) (floor : ℕ) → AreMembers (member_list ms) →
        AreKeys bytes.now (container_of container) 0 floor (map (λ m. m.0) (member_list ms)) →
        length (map (λ m. m.0) (member_list ms)) ≡ layout.count bytes.now (container_of container) →
        get key.now ms ≡ None) }
{
    let mut low = 0usize;
    let mut high = container.count(bytes);
    while low < high {
        let middle = low + (high - low) / 2;
        match compare(bytes, container, middle, key.as_bytes()) {
            Ordering::Less => low = middle + 1,
            Ordering::Greater => high = middle,
            Ordering::Equal => return Some(middle),
        }
    }
    None
}

// How the k-th key of an object compares with another; one that passes the bytes is smaller.
fn compare(bytes: &[u8], container: Container, k: usize, key: &[u8]) -> Ordering
    requires framed { IsFramed bytes.now container }
    requires object { container.is_object ≡ true }
    requires inside { k < layout.count bytes.now (container_of container) }
    ensures order { layout.key_end bytes.now (container_of container) k ≤ length bytes.now →
        result ≡ key_cmp (layout.key_of bytes.now (container_of container) k) key.now }
    ensures equal { result ≡ Equal → layout.key_of bytes.now (container_of container) k ≡ key.now }
{
    let (start, end) = container.key_range(bytes, k);
    if bytes.len() < end {
        return Ordering::Less;
    }
    key_bytes_order(&bytes[start..end], key)
}
