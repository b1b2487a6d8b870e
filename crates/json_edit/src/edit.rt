// The edits of one pair.
ghost use Rattle.std.specs.Prelude.{◌≡◌, ◌∷◌, map, IfOk, OnErr};
ghost use Rattle.std.specs.List.{AllByRecursion};
ghost use Rattle.json_tree.specs.View.{tree_of};
ghost use Rattle.json_path.specs.View.{leg_of, IsLeg};
ghost use Rattle.tree_model.specs.Edit.{at_parent, try_set, try_replace, try_remove};
ghost use Rattle.json_edit.specs.Acts.{Acts, act_of, IsSet};

use crate::action::{Action, act};
use crate::children::{put_child, take_child};
use json_path::{Leg, Path};
use json_tree::Json;
use std::alloc::{AllocError, Global};

/// Gives the path that value: in place of what it finds, or added at its last leg. Answers
/// whether there was a place to act.
/// At `Err` the tree is as it was.
pub fn set(alloc: Global, tree: &mut Json, path: &Path, value: Json) -> Result<bool, AllocError>
    ensures ok { IfOk result
        (λ acted. Acts (try_set path.now (tree_of value) (tree_of tree.old))
        (tree_of tree.old) (tree_of tree.new) acted) }
    ensures err { OnErr result (tree_of tree.new ≡ tree_of tree.old) }
{
    match path.legs() {
        [] => {
            *tree = value;
            Ok(true)
        }
        [leg, rest @ ..] => edit_below(tree, leg, rest, Action::Set(alloc, value)),
    }
}

/// Puts the value in the place of what the path finds. Answers whether it finds something.
pub fn replace(tree: &mut Json, path: &Path, value: Json) -> bool
    ensures { Acts (try_replace path.now (tree_of value) (tree_of tree.old))
        (tree_of tree.old) (tree_of tree.new) result }
{
    match path.legs() {
        [] => {
            *tree = value;
            true
        }
        [leg, rest @ ..] => edit_below(tree, leg, rest, Action::Replace(value)).unwrap(),
    }
}

/// Takes what the path finds out of its object or list. Answers whether it finds something there.
pub fn remove(tree: &mut Json, path: &Path) -> bool
    ensures { Acts (try_remove path.now (tree_of tree.old))
        (tree_of tree.old) (tree_of tree.new) result }
{
    match path.legs() {
        [] => false,
        [leg, rest @ ..] => edit_below(tree, leg, rest, Action::Remove).unwrap(),
    }
}

// Acts where the legs but the last lead. Each child on the way is taken out, edited and put
// back, so nothing beside the path moves.
fn edit_below(tree: &mut Json, leg: &Leg, rest: &[Leg], action: Action) -> Result<bool, AllocError>
    requires { AllByRecursion IsLeg (leg_of leg.now ∷ map leg_of rest.now) }
    ensures ok { IfOk result
        (λ acted. Acts (at_parent (act_of action) (leg_of leg.now) (map leg_of rest.now)
        (tree_of tree.old))
        (tree_of tree.old) (tree_of tree.new) acted) }
    ensures err { OnErr result (tree_of tree.new ≡ tree_of tree.old) }
    ensures only_set { OnErr result (IsSet action) }
{
    match rest {
        [] => act(tree, leg, action),
        [next, others @ ..] => {
            let Some(mut child) = take_child(tree, leg) else {
                return Ok(false);
            };
            let acted = edit_below(&mut child, next, others, action);
            put_child(tree, leg, child);
            acted
        }
    }
}
