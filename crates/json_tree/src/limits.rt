// The limits of trees and of their texts, which are those of the definitions.
ghost use Rattle.std.specs.Prelude.{◌≡◌};
ghost use Rattle.tree_model.specs.Tree.{max_key_bytes};
ghost use Rattle.tree_model.specs.Text.{max_depth};

/// How many brackets of a text may be open, and so how many containers are nested in its tree.
pub const MAX_DEPTH: u32 = 100;

/// The longest key, in bytes.
pub const MAX_KEY_BYTES: usize = 65_535;

/// They are the limits that the definitions have.
pub fn limits_are_defined()
    ensures depth { MAX_DEPTH ≡ max_depth }
    ensures key { MAX_KEY_BYTES ≡ max_key_bytes }
{}
