//! Where a path leads in a document's bytes.
ghost use Rattle.std.specs.Prelude.{◌≡◌, ◌≤◌, ◌<◌, ℕ, length, map, None, IfOk, IfSome, is_some};
ghost use Rattle.tree_model.specs.Tree.{Tree, IsTree};
ghost use Rattle.tree_model.specs.Path as path;
ghost use Rattle.tree_model.specs.Edit.{at_parent, set_at};
ghost use Rattle.binary_model.specs.Layout as layout;
ghost use Rattle.binary_model.specs.Stands.{IsValue};
ghost use Rattle.json_path.specs.View.{leg_of};
ghost use Rattle.json_binary.specs.Place.{container_of, spot_of, IsFramed, IsInside};
ghost use Rattle.json_patch.specs.Led.{IsLed, EndsInside, IsEntered, EntersInside, IsNumber, staying};

use json_binary::{Container, Spot, child, container_in, member, root};
use json_edit::{is_itself, place_in_list};
use json_path::Leg;
use std::alloc::{AllocError, Global};

/// A value in its container.
#[derive(Clone, Copy)]
pub struct Place {
    pub container: Container,
    /// Which of the container's values it is.
    pub number: usize,
    pub spot: Spot,
    /// Whether a removal takes it out: not by a position 0 on what isn't a list.
    pub taken: bool,
}

/// What a path finds.
#[derive(Clone, Copy)]
pub enum End {
    /// The document's own value.
    Root,
    Value(Place),
    /// Nothing; whether a set adds a value: a member to an object, an element to a list, or one
    /// behind a value that isn't a list, which becomes one. A position from the end adds nothing.
    Nothing(bool),
}

/// Where a path leads.
#[derive(Drop)]
pub struct Led {
    /// The positions of the values that it enters, from the root on.
    pub positions: Vec<usize>,
    pub end: End,
}

/// What one leg enters.
#[derive(Clone, Copy)]
pub enum Entered {
    /// The leg finds nothing.
    Nothing,
    /// A position 0 on what isn't a list: the value itself.
    Itself,
    Value(Container, usize, Spot),
}

impl End {
    /// The same end, by one leg more that stays there.
    fn staying(self) -> End
        ensures { result ≡ staying self }
    {
        match self {
            End::Value(place) => End::Value(Place {
                container: place.container,
                number: place.number,
                spot: place.spot,
                taken: false,
            }),
            other => other,
        }
    }
}

/// Follows the legs of a path from the document's value on. Nothing is read but the entries and
/// keys on the way.
pub fn lead(alloc: Global, bytes: &[u8], legs: &[Leg]) -> Result<Led, AllocError>
    requires some { 1 ≤ length bytes.now }
    ensures led { IfOk result (λ led. (t : Tree) → IsTree t
        → IsValue bytes.now t (layout.root bytes.now) →
        IsLed bytes.now t (map leg_of legs.now) led) }
    ensures within { IfOk result (λ led. EndsInside bytes.now led.end) }
{
    let mut positions = Vec::new(alloc);
    let mut end = End::Root;
    let mut spot = root(bytes);
    let mut left = legs;
    while let [leg, rest @ ..] = left {
        match enter(bytes, spot, leg) {
            Entered::Nothing => {
                let end = End::Nothing(adds(bytes, spot, leg, rest));
                return Ok(Led { positions, end });
            }
            Entered::Itself => end = end.staying(),
            Entered::Value(container, number, inner) => {
                positions.push(number)?;
                spot = inner;
                end = End::Value(Place {
                    container,
                    number,
                    spot,
                    taken: true,
                });
            }
        }
        left = rest;
    }
    Ok(Led { positions, end })
}

// Whether a set adds a value where a leg finds nothing, with more legs behind it.
fn adds(bytes: &[u8], spot: Spot, leg: &Leg, rest: &[Leg]) -> bool
    requires inside { IsInside bytes.now spot }
    ensures { (t u : Tree) → IsValue bytes.now t (spot_of spot)
        → path.child t (leg_of leg.now) ≡ None →
        is_some (at_parent (set_at u) (leg_of leg.now) (map leg_of rest.now) t) ≡ result }
{
    if !rest.is_empty() {
        return false;
    }
    match leg {
        Leg::Cell(_) => true,
        Leg::Last(_) => false,
        Leg::Member(_) => match container_in(bytes, spot) {
            Some(container) => container.is_object,
            None => false,
        },
    }
}

// What a leg enters from a value.
fn enter(bytes: &[u8], spot: Spot, leg: &Leg) -> Entered
    requires inside { IsInside bytes.now spot }
    ensures entered { (t : Tree) → IsTree t → IsValue bytes.now t (spot_of spot) →
        IsEntered bytes.now (spot_of spot) t (leg_of leg.now) result }
    ensures within { EntersInside bytes.now result }
{
    let Some(container) = container_in(bytes, spot) else {
        if is_itself(leg) {
            return Entered::Itself;
        }
        return Entered::Nothing;
    };
    let Some(k) = number_of(bytes, container, leg) else {
        let stays = container.is_object && is_itself(leg);
        if stays {
            return Entered::Itself;
        }
        return Entered::Nothing;
    };
    match child(bytes, container, k) {
        Some(inner) => Entered::Value(container, k, inner),
        None => Entered::Nothing,
    }
}

// The number of the value that a leg finds in a container.
fn number_of(bytes: &[u8], container: Container, leg: &Leg) -> Option<usize>
    requires framed { IsFramed bytes.now container }
    ensures number { IsNumber bytes.now (container_of container) (leg_of leg.now) result }
    ensures within { IfSome result (λ k. k < layout.count bytes.now (container_of container)) }
{
    if container.is_object {
        return match leg {
            Leg::Member(key) => member(bytes, container, key.as_str()),
            _ => None,
        };
    }
    place_in_list(container.count(bytes), leg)
}
