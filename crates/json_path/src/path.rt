// A path as contracts see it: a list of legs.
ghost use Rattle.std.specs.Prelude.{◌≡◌, map};
ghost use Rattle.json_path.specs.View.{leg_of, IsPath};

use json_tree::Text;
use std::marker::Model;

/// One step into a tree.
#[derive(Drop)]
pub enum Leg {
    /// To the member of that key.
    Member(Text),
    /// To the element at that position, from 0.
    Cell(u32),
    /// To the element so many before the last one.
    Last(u32),
}

/// A path into a tree: at most `MAX_LEGS` legs, with keys of at most `MAX_KEY_BYTES` bytes.
#[derive(Drop)]
pub struct Path {
    pub(crate) legs: Vec<Leg>,
}

impl Model for Path {
    ghost use Rattle.std.specs.Prelude.{map, List};
    ghost use Rattle.tree_model.specs.Path.{Leg as ModelLeg};
    ghost use Rattle.json_path.specs.LegCode.{path_code};

    ghost Value = { List ModelLeg };

    ghost coded = { path_code };

    ghost use Rattle.json_path.specs.View.{leg_of, IsPath};

    ghost view = { λ a. map leg_of a.legs.items };

    ghost invariant = { λ a. IsPath (map leg_of a.legs.items) };
}

impl Path {
    /// The legs, from the root on.
    pub fn legs(&self) -> &[Leg]
        ensures legs { map leg_of result.now ≡ self.now }
        ensures kept { IsPath self.now }
    {
        self.legs.as_slice()
    }
}
