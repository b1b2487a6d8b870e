//! What one pair makes of a document's bytes in place.
ghost use Rattle.std.specs.Prelude.{◌≡◌, ◌≤◌, ◌+◌, Bool, length, nat_lt, IfOk};
ghost use Rattle.tree_model.specs.Tree.{Tree, depth};
ghost use Rattle.tree_model.specs.Text.{max_depth};
ghost use Rattle.json_tree.specs.View.{tree_of};
ghost use Rattle.json_patch.specs.Made.{StandFor, HasTree, Makes};

use crate::lead::{End, lead};
use crate::writes::{Write, replacing};
use json_binary::{equals, root};
use json_edit::Pair;
use json_tree::MAX_DEPTH;
use std::alloc::{AllocError, Global};

/// What a pair makes of a document.
#[derive(Drop)]
pub enum Made {
    /// Nothing: the tree stays equal.
    Kept,
    /// The value that these positions lead to is replaced by writes.
    Written(Vec<usize>, Vec<Write>),
    /// What can't be made in place.
    Anew,
}

/// Whether a pair's legs and the containers nested in its value are together more than may be
/// nested. Its value may be less deep where it is put, since a leg may stay where it is.
pub fn nests_over(pair: &Pair) -> bool
    ensures { result ≡ nat_lt max_depth (length pair.now.path + depth (tree_of pair.now.value)) }
{
    let legs = pair.path.legs().len() as u32;
    legs > MAX_DEPTH || pair.value.depth() > MAX_DEPTH - legs
}

/// What a pair makes of a document, which may add a value or not: nothing of it is read but the
/// path, the value that it finds and the entries around that. A value that is added has no place
/// yet.
pub fn make_pair(alloc: Global, bytes: &[u8], pair: &Pair, adding: bool) -> Result<Made, AllocError>
    requires { HasTree bytes.now }
    ensures { IfOk result (λ made. (u : Tree) → StandFor bytes.now u →
        Makes bytes.now u adding pair.now.path (tree_of pair.now.value) made) }
{
    let led = lead(alloc, bytes, pair.path.legs())?;
    match led.end {
        End::Root => {
            if equals(bytes, root(bytes), &pair.value) {
                return Ok(Made::Kept);
            }
            Ok(Made::Anew)
        }
        End::Nothing(adds) => {
            if adding && adds {
                return Ok(Made::Anew);
            }
            Ok(Made::Kept)
        }
        End::Value(place) => {
            if equals(bytes, place.spot, &pair.value) {
                return Ok(Made::Kept);
            }
            match replacing(alloc, bytes, place.container, place.number, &pair.value)? {
                Some(writes) => Ok(Made::Written(led.positions, writes)),
                None => Ok(Made::Anew),
            }
        }
    }
}
