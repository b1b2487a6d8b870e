//! How deep a value in place is: read up to the first container too many, and nothing built.
ghost use Rattle.std.specs.Prelude.{◌≡◌, ◌<◌, ℕ, length, nat_lt};
ghost use Rattle.tree_model.specs.Tree.{Tree, Trees, depth, trees_depth, tree_list};
ghost use Rattle.binary_model.specs.Layout as layout;
ghost use Rattle.binary_model.specs.Stands.{IsValue, AreElements};
ghost use Rattle.json_binary.specs.Place.{container_of, spot_of, IsFramed, IsInside};

use crate::cursor::containers::{child, container_in};
use crate::cursor::place::{Container, Spot};

/// Whether more than so many containers are nested in the value at a spot, itself among them. It is
/// read in place, up to the first one too many; nothing is built.
#[cycle(nests)]
pub fn nests(bytes: &[u8], spot: Spot, most: u32) -> bool
    requires inside { IsInside bytes.now spot }
    ensures { (t : Tree) → IsValue bytes.now t (spot_of spot) → result ≡ nat_lt most (depth t) }
{
    match container_in(bytes, spot) {
        Some(_) if most == 0 => true,
        Some(container) => values_nest(bytes, container, most - 1),
        None => false,
    }
}

// Whether one of a container's values nests more.
#[cycle(nests)]
fn values_nest(bytes: &[u8], container: Container, most: u32) -> bool
    requires framed { IsFramed bytes.now container }
    ensures { (ts : Trees) (floor : ℕ) → AreElements bytes.now (container_of container) 0 floor ts →
        length (tree_list ts) ≡ layout.count bytes.now (container_of container) →
        result ≡ nat_lt most (trees_depth ts) }
{
    let count = container.count(bytes);
    for k in 0..count {
        if child_nests(bytes, container, k, most) {
            return true;
        }
    }
    false
}

#[cycle(nests)]
fn child_nests(bytes: &[u8], container: Container, k: usize, most: u32) -> bool
    requires framed { IsFramed bytes.now container }
    requires inside { k < layout.count bytes.now (container_of container) }
    ensures { (t : Tree) → IsValue bytes.now t (layout.child bytes.now (container_of container) k) →
        result ≡ nat_lt most (depth t) }
{
    match child(bytes, container, k) {
        Some(spot) => nests(bytes, spot, most),
        None => false,
    }
}
