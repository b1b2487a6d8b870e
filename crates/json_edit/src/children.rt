// What one leg finds in a tree: shown, taken out, and put back.
ghost use Rattle.std.specs.Prelude.{◌≡◌, ◌<◌, option_map, Some, IsSome, IsNone, IfSome, true, false};
ghost use Rattle.json_tree.specs.View.{tree_of};
ghost use Rattle.json_path.specs.View.{leg_of};
ghost use Rattle.tree_model.specs.Tree.{null};
ghost use Rattle.tree_model.specs.Path as spec;
ghost use Rattle.tree_model.specs.Path.{with_child};
ghost use Rattle.json_edit.specs.Places as places;
ghost use Rattle.json_edit.specs.Places.{place_in};

use json_path::Leg;
use json_tree::Json;
use std::mem;

/// A leg's position in a list of so many elements.
pub fn place_in_list(count: usize, leg: &Leg) -> Option<usize>
    ensures place { result ≡ place_in count (leg_of leg.now) }
    ensures within { IfSome result (λ k. k < count) }
{
    match leg {
        Leg::Member(_) => None,
        Leg::Cell(at) => {
            let at = *at as usize;
            if at < count { Some(at) } else { None }
        }
        Leg::Last(back) => {
            let back = *back as usize;
            if back < count {
                Some(count - 1 - back)
            } else {
                None
            }
        }
    }
}

/// Whether a leg on a value that isn't a list finds the value itself.
pub fn is_itself(leg: &Leg) -> bool
    ensures { result ≡ places.is_itself (leg_of leg.now) }
{
    matches!(leg, Leg::Cell(0) | Leg::Last(0))
}

/// What the leg finds.
pub fn child<'a>(tree: &'a Json, leg: &Leg) -> Option<&'a Json>
    ensures { option_map (λ t. tree_of t.now) result
        ≡ spec.child (tree_of tree.now) (leg_of leg.now) }
{
    match (tree, leg) {
        (Json::List(list), _) => match place_in_list(list.len(), leg) {
            Some(at) => list.get(at),
            None => None,
        },
        (Json::Object(members), Leg::Member(key)) => members.get(key.as_str()),
        _ => { if is_itself(leg) { Some(tree) } else { None } }
    }
}

/// Takes out what the leg finds. Null stands in its place until something is put back.
pub fn take_child(tree: &mut Json, leg: &Leg) -> Option<Json>
    ensures found { option_map tree_of result ≡ spec.child (tree_of tree.old) (leg_of leg.now) }
    ensures taken { IsSome result
        → tree_of tree.new ≡ with_child (tree_of tree.old) (leg_of leg.now) null }
    ensures restores { IfSome result
        (λ t. with_child (tree_of tree.new) (leg_of leg.now) (tree_of t) ≡ tree_of tree.old) }
    ensures absent { IsNone result → tree_of tree.new ≡ tree_of tree.old }
{
    match tree {
        Json::List(list) => match place_in_list(list.len(), leg) {
            Some(at) => Some(list.replace(at, Json::Null)),
            None => None,
        },
        Json::Object(members) => match leg {
            Leg::Member(key) => members.replace(key.as_str(), Json::Null),
            _ => take_itself(tree, leg),
        },
        _ => take_itself(tree, leg),
    }
}

fn take_itself(tree: &mut Json, leg: &Leg) -> Option<Json>
    ensures found { IsSome result
        → (places.is_itself (leg_of leg.now) ≡ true)
        × (option_map tree_of result ≡ Some (tree_of tree.old)) × (tree_of tree.new ≡ null) }
    ensures absent { IsNone result
        → (places.is_itself (leg_of leg.now) ≡ false) × (tree_of tree.new ≡ tree_of tree.old) }
{
    if is_itself(leg) {
        Some(mem::replace(tree, Json::Null))
    } else {
        None
    }
}

/// Puts a value in the place of what the leg finds.
pub fn put_child(tree: &mut Json, leg: &Leg, value: Json)
    ensures { IsSome (spec.child (tree_of tree.old) (leg_of leg.now))
        → tree_of tree.new ≡ with_child (tree_of tree.old) (leg_of leg.now) (tree_of value) }
{
    match tree {
        Json::List(list) => {
            if let Some(at) = place_in_list(list.len(), leg) {
                list.replace(at, value);
            }
        }
        Json::Object(members) => match leg {
            Leg::Member(key) => {
                members.replace(key.as_str(), value);
            }
            _ => *tree = value,
        },
        _ => *tree = value,
    }
}
