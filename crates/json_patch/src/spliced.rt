//! A document's new encoding where one pair replaces a value, from the document's bytes.
ghost use Rattle.std.specs.Prelude.{◌≡◌, ◌≤◌, ◌<◌, ◌∷◌, Bool, List, ℕ, Some, [], length, map, IfOk, IfSome};
ghost use Rattle.tree_model.specs.Tree.{Tree, IsTree};
ghost use Rattle.tree_model.specs.Path.{Path};
ghost use Rattle.binary_model.specs.Layout.{code_of};
ghost use Rattle.binary_model.specs.Stands.{Stands};
ghost use Rattle.binary_model.specs.Change.{positions};
ghost use Rattle.binary_model.specs.Canonical.{canonical, spelling, max_document_bytes};
ghost use Rattle.json_tree.specs.View.{tree_of};
ghost use Rattle.json_binary.specs.View.{kind_of};
ghost use Rattle.json_binary.specs.Usage.{IsDocument};
ghost use Rattle.json_binary.specs.Writing.{spelling_of};
ghost use Rattle.json_patch.specs.Led.{IsLed};
ghost use Rattle.json_patch.specs.Spliced.{IsReplaced};

use crate::lead::{End, Led, lead};
use json_binary::{EncodeError, MAX_DOCUMENT_BYTES, Spelled, root, value_bytes};
use json_edit::Pair;
use json_splice::laid;
use json_tree::{Json, MAX_DEPTH};
use std::alloc::{AllocError, Global};

/// The encoding of a document with a pair's value where its path finds one. Nothing of the document
/// is built: the containers on the path are laid anew, and all else is copied. None, where the path
/// finds nothing, a value beside the path doesn't stand canonically, or the encoding is longer than
/// a document can be.
pub fn replaced(alloc: Global, bytes: &[u8], pair: &Pair) -> Result<Option<Vec<u8>>, AllocError>
    requires document { IsDocument bytes.now }
    ensures { IfOk result (λ found. IfSome found (λ out. (t : Tree) → Stands bytes.now t →
        IsReplaced t pair.now.path (tree_of pair.now.value) out.items)) }
{
    let led = lead(alloc, bytes, pair.path.legs())?;
    let Some(positions) = found_at(alloc, led) else {
        return Ok(None);
    };
    let Some(value) = spelled(alloc, &pair.value)? else {
        return Ok(None);
    };
    match laid(alloc, bytes, root(bytes), &positions, value, MAX_DEPTH)? {
        Some(whole) => document(whole),
        None => Ok(None),
    }
}

// The positions of the value that a path finds.
fn found_at(alloc: Global, led: Led) -> Option<Vec<usize>>
    ensures { IfSome result (λ ks. (bytes : List ℕ) (t : Tree) (path : Path)
        → IsLed bytes t path led → positions path t ≡ Some ks.items) }
{
    match led.end {
        End::Root => Some(Vec::new(alloc)),
        End::Value(_) => Some(led.positions),
        End::Nothing(_) => None,
    }
}

// A value spelled; none, where it is longer than a document can hold.
fn spelled(alloc: Global, value: &Json) -> Result<Option<Spelled>, AllocError>
    ensures spelled { IfOk result (λ found. IfSome found (λ v.
        spelling_of v ≡ spelling (tree_of value.now))) }
    ensures is_tree { IfOk result (λ found. IfSome found (λ v. IsTree (tree_of value.now))) }
{
    match value_bytes(alloc, value) {
        Ok(spelled) => Ok(Some(spelled)),
        Err(EncodeError::Large) => Ok(None),
        Err(EncodeError::Memory) => Err(AllocError),
    }
}

// A document of a spelled value; none, where it is too long.
fn document(whole: Spelled) -> Result<Option<Vec<u8>>, AllocError>
    ensures is { IfOk result (λ found. IfSome found (λ out.
        out.items ≡ code_of (kind_of whole.kind) ∷ whole.bytes.items)) }
    ensures fits { IfOk result (λ found. IfSome found (λ out.
        length out.items ≤ max_document_bytes)) }
{
    let Spelled { kind, mut bytes } = whole;
    if bytes.len() >= MAX_DOCUMENT_BYTES {
        return Ok(None);
    }
    bytes.insert(0, kind.code())?;
    Ok(Some(bytes))
}
