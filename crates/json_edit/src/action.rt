// What is done at the parent of a path's last leg.
ghost use Rattle.std.specs.Prelude.{◌≡◌, IfOk, OnErr, IsNone};
ghost use Rattle.json_tree.specs.View.{tree_of};
ghost use Rattle.json_path.specs.View.{leg_of, IsLeg};
ghost use Rattle.tree_model.specs.Path as spec;
ghost use Rattle.tree_model.specs.Edit.{set_at, added, replaced, taken_out};
ghost use Rattle.json_edit.specs.Acts.{Acts, act_of, IsSet};

use crate::children::{child, place_in_list, put_child, take_child};
use json_path::Leg;
use json_tree::{Json, List};
use std::alloc::{AllocError, Global};

#[derive(Drop)]
pub enum Action {
    /// With the memory that a new member takes.
    Set(Global, Json),
    Replace(Json),
    Remove,
}

/// Whether there was a place to act. At `Err` the tree is as it was.
pub fn act(tree: &mut Json, leg: &Leg, action: Action) -> Result<bool, AllocError>
    requires { IsLeg (leg_of leg.now) }
    ensures ok { IfOk result
        (λ acted. Acts (act_of action (tree_of tree.old) (leg_of leg.now))
        (tree_of tree.old) (tree_of tree.new) acted) }
    ensures err { OnErr result (tree_of tree.new ≡ tree_of tree.old) }
    ensures only_set { OnErr result (IsSet action) }
{
    match action {
        Action::Set(alloc, value) => set_child(alloc, tree, leg, value),
        Action::Replace(value) => Ok(replace_child(tree, leg, value)),
        Action::Remove => Ok(remove_child(tree, leg)),
    }
}

fn set_child(alloc: Global, tree: &mut Json, leg: &Leg, value: Json) -> Result<bool, AllocError>
    requires { IsLeg (leg_of leg.now) }
    ensures ok { IfOk result
        (λ acted. Acts (set_at (tree_of value) (tree_of tree.old) (leg_of leg.now))
        (tree_of tree.old) (tree_of tree.new) acted) }
    ensures err { OnErr result (tree_of tree.new ≡ tree_of tree.old) }
{
    if child(tree, leg).is_some() {
        put_child(tree, leg, value);
        return Ok(true);
    }
    add_child(alloc, tree, leg, value)
}

// What a leg that finds nothing adds.
fn add_child(alloc: Global, tree: &mut Json, leg: &Leg, value: Json) -> Result<bool, AllocError>
    requires { IsLeg (leg_of leg.now) }
    ensures ok { IfOk result
        (λ acted. Acts (added (tree_of value) (tree_of tree.old) (leg_of leg.now))
        (tree_of tree.old) (tree_of tree.new) acted) }
    ensures err { OnErr result (tree_of tree.new ≡ tree_of tree.old) }
{
    match leg {
        Leg::Member(key) => match tree {
            Json::Object(members) => {
                let key = key.copy(alloc)?;
                members.put(key, value)?;
                Ok(true)
            }
            _ => Ok(false),
        },
        Leg::Cell(_) => match tree {
            Json::List(list) => {
                list.push(value)?;
                Ok(true)
            }
            _ => {
                let list = List::pair(alloc, tree, value)?;
                *tree = Json::List(list);
                Ok(true)
            }
        },
        Leg::Last(_) => Ok(false),
    }
}

fn replace_child(tree: &mut Json, leg: &Leg, value: Json) -> bool
    ensures { Acts (replaced (tree_of value) (tree_of tree.old) (leg_of leg.now))
        (tree_of tree.old) (tree_of tree.new) result }
{
    if child(tree, leg).is_none() {
        return false;
    }
    put_child(tree, leg, value);
    true
}

fn remove_child(tree: &mut Json, leg: &Leg) -> bool
    ensures { Acts (taken_out (tree_of tree.old) (leg_of leg.now))
        (tree_of tree.old) (tree_of tree.new) result }
{
    match tree {
        Json::List(list) => match place_in_list(list.len(), leg) {
            Some(at) => {
                list.remove(at);
                true
            }
            None => false,
        },
        Json::Object(members) => match leg {
            Leg::Member(key) => members.remove(key.as_str()).is_some(),
            _ => false,
        },
        _ => false,
    }
}
