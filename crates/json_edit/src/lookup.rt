// What a path finds.
ghost use Rattle.std.specs.Prelude.{◌≡◌, option_map, map};
ghost use Rattle.json_tree.specs.View.{tree_of};
ghost use Rattle.json_path.specs.View.{leg_of};
ghost use Rattle.tree_model.specs.Path as spec;

use crate::children::child;
use json_path::{Leg, Path};
use json_tree::Json;

/// The tree at the path. On a value that isn't a list, position 0 from either end is the value
/// itself.
pub fn find<'a>(tree: &'a Json, path: &Path) -> Option<&'a Json>
    ensures { option_map (λ t. tree_of t.now) result ≡ spec.find path.now (tree_of tree.now) }
{
    find_below(tree, path.legs())
}

fn find_below<'a>(tree: &'a Json, legs: &[Leg]) -> Option<&'a Json>
    ensures { option_map (λ t. tree_of t.now) result
        ≡ spec.find (map leg_of legs.now) (tree_of tree.now) }
{
    let mut here = tree;
    for leg in legs {
        match child(here, leg) {
            Some(found) => here = found,
            None => return None,
        }
    }
    Some(here)
}
