//! Which bytes of a stored document an edit touches.
ghost use Rattle.std.specs.Prelude.{◌≡◌, ◌≤◌, ◌+◌, ◌∷◌, ℕ, List, [], length, map, Some, None, Ok, IfOk, IfSome};
ghost use Rattle.tree_model.specs.Tree.{Tree, depth};
ghost use Rattle.tree_model.specs.Edit.{Edit as ModelEdit};
ghost use Rattle.tree_model.specs.Text.{max_depth};
ghost use Rattle.binary_model.specs.Stands.{Stands};
ghost use Rattle.binary_model.specs.Change as change;
ghost use Rattle.binary_model.specs.Canonical.{canonical, canonical_length, max_document_bytes};
ghost use Rattle.json_tree.specs.View.{tree_of};
ghost use Rattle.json_edit.specs.Edits.{assigned, edit_of};
ghost use Rattle.json_binary.specs.Usage.{IsDocument};
ghost use Rattle.json_patch.specs.Made.{edit_by};
ghost use Rattle.json_patch.specs.Draft.{IsDraftOf, IsNoted};
ghost use Rattle.json_patch.specs.Answer.{IsAnswer, IsEncoded, StaysInPlace, Plans, PlansOrNot, PlansInPlace};

use crate::PlanError;
use crate::draft::{Draft, put_pairs};
use crate::pair::{Made, make_pair, nests_over};
use crate::parts::Parts;
use crate::removal::plan_removals;
use crate::restored::is_restored;
use crate::spans::runs_in_spans;
use crate::spliced::replaced;
use crate::touched::runs_of_writes;
use json_binary::{EncodeError, decode, encode, nests, root};
use json_edit::{Edit, Pair, edit_all};
use json_tree::{Json, MAX_DEPTH};
use std::alloc::{AllocError, Global};

/// How an edit is stored.
#[derive(Drop)]
pub enum Planned {
    /// The tree stays as it is.
    Same,
    /// The bytes are changed in place.
    Parts(Parts),
    /// The new tree's encoding takes the place of the old one.
    Full(Vec<u8>),
}

/// What an edit makes of a stored document: nothing where the tree stays equal; else patches where
/// each pair could be made in place; else a new encoding. Where one pair replaces a value that has
/// no room, and what is beside its path stands canonically, that encoding is laid from the
/// document's bytes. The document's tree is built only where others can't be made in place, even if
/// the tree then proves equal, too deep or too large. An edit of one pair that replaces a value in
/// place, or leaves it equal, costs its path, the value there and the entries up to the nearest
/// values beside it that don't stand in theirs; a removal by one path costs that path and its
/// container's entries. By several pairs or paths the bytes are copied once, and compared with the
/// old ones where they were written.
pub fn plan(alloc: Global, bytes: &[u8], edit: &Edit) -> Result<Planned, PlanError>
    requires document { IsDocument bytes.now }
    requires small { length bytes.now ≤ max_document_bytes }
    // Each answer exactly, unless memory runs out; bytes changed in place, and a new encoding,
    // stand for the edited tree.
    ensures { Plans bytes.now (edit_of edit.now) result }
{
    match plan_in_place(alloc, bytes, edit)? {
        Some(planned) => Ok(planned),
        None => encode_anew(alloc, bytes, edit),
    }
}

// The plan of an edit that is made in place; none, where one of its pairs can't be.
fn plan_in_place(alloc: Global, bytes: &[u8], edit: &Edit) -> Result<Option<Planned>, PlanError>
    requires document { IsDocument bytes.now }
    requires small { length bytes.now ≤ max_document_bytes }
    ensures { PlansInPlace bytes.now (edit_of edit.now) result }
{
    match edit {
        Edit::Set(pairs) => plan_pairs(alloc, bytes, pairs.as_slice(), true),
        Edit::Replace(pairs) => plan_pairs(alloc, bytes, pairs.as_slice(), false),
        Edit::Remove(paths) => {
            let planned = plan_removals(alloc, bytes, paths.as_slice())?;
            Ok(Some(planned))
        }
    }
}

// The same, of an edit by pairs, which may add values or not.
fn plan_pairs(
    alloc: Global,
    bytes: &[u8],
    pairs: &[Pair],
    adding: bool,
) -> Result<Option<Planned>, PlanError>
    requires document { IsDocument bytes.now }
    requires small { length bytes.now ≤ max_document_bytes }
    ensures { PlansInPlace bytes.now (edit_by adding (map assigned pairs.now)) result }
{
    if let [pair] = pairs {
        if !nests_over(pair) {
            let planned = plan_pair(alloc, bytes, pair, adding)?;
            return Ok(planned);
        }
    }
    match put_pairs(alloc, bytes, pairs, adding)? {
        Some(draft) => finish(alloc, bytes, draft),
        None => Ok(None),
    }
}

// The plan of one pair that can't nest too deep, where it can be made in place.
fn plan_pair(
    alloc: Global,
    bytes: &[u8],
    pair: &Pair,
    adding: bool,
) -> Result<Option<Planned>, AllocError>
    requires document { IsDocument bytes.now }
    requires small { length bytes.now ≤ max_document_bytes }
    requires shallow { length pair.now.path + depth (tree_of pair.now.value) ≤ max_depth }
    ensures { IfOk result (PlansOrNot bytes.now (edit_by adding (assigned pair.now ∷ []))) }
{
    match make_pair(alloc, bytes, pair, adding)? {
        Made::Kept => Ok(Some(Planned::Same)),
        Made::Written(_, writes) => {
            let parts = runs_of_writes(alloc, bytes, &writes)?;
            Ok(Some(Planned::Parts(parts)))
        }
        Made::Anew => Ok(None),
    }
}

// What is stored where each pair was made in place.
fn finish(alloc: Global, bytes: &[u8], draft: Draft) -> Result<Option<Planned>, PlanError>
    requires document { IsDocument bytes.now }
    requires small { length bytes.now ≤ max_document_bytes }
    requires draft { (e : ModelEdit) × IsDraftOf bytes.now e (Some draft) }
    requires noted { IsNoted bytes.now draft }
    ensures { (e : ModelEdit) → IsDraftOf bytes.now e (Some draft)
        → PlansInPlace bytes.now e result }
{
    if draft.deep && nests(&draft.bytes, root(&draft.bytes), MAX_DEPTH) {
        return Err(PlanError::Deep);
    }
    if is_restored(alloc, bytes, &draft.bytes, &draft.touched)? {
        return Ok(Some(Planned::Same));
    }
    let spans = draft.spans;
    let parts = runs_in_spans(alloc, bytes, &draft.bytes, spans)?;
    Ok(Some(Planned::Parts(parts)))
}

// A new encoding that is laid from the document's bytes, of an edit that can't be made in place:
// where one pair replaces a value, and what is beside its path stands canonically.
fn plan_copied(alloc: Global, bytes: &[u8], edit: &Edit) -> Result<Option<Planned>, AllocError>
    requires document { IsDocument bytes.now }
    requires anew { PlansOrNot bytes.now (edit_of edit.now) None }
    ensures { IfOk result (λ found. IfSome found (λ planned.
        Plans bytes.now (edit_of edit.now) (Ok planned))) }
{
    match edit {
        Edit::Set(pairs) => copy_pairs(alloc, bytes, pairs.as_slice(), true),
        Edit::Replace(pairs) => copy_pairs(alloc, bytes, pairs.as_slice(), false),
        Edit::Remove(_) => Ok(None),
    }
}

// The same, of an edit by pairs.
fn copy_pairs(
    alloc: Global,
    bytes: &[u8],
    pairs: &[Pair],
    adding: bool,
) -> Result<Option<Planned>, AllocError>
    requires document { IsDocument bytes.now }
    requires anew { PlansOrNot bytes.now (edit_by adding (map assigned pairs.now)) None }
    ensures { IfOk result (λ found. IfSome found (λ planned.
        Plans bytes.now (edit_by adding (map assigned pairs.now)) (Ok planned))) }
{
    let [pair] = pairs else {
        return Ok(None);
    };
    if nests_over(pair) {
        return Ok(None);
    }
    match replaced(alloc, bytes, pair)? {
        Some(encoding) => Ok(Some(Planned::Full(encoding))),
        None => Ok(None),
    }
}

// What is stored where a pair can't be made in place.
fn encode_anew(alloc: Global, bytes: &[u8], edit: &Edit) -> Result<Planned, PlanError>
    requires document { IsDocument bytes.now }
    requires anew { PlansOrNot bytes.now (edit_of edit.now) None }
    ensures { Plans bytes.now (edit_of edit.now) result }
{
    if let Some(planned) = plan_copied(alloc, bytes, edit)? {
        return Ok(planned);
    }
    let Ok(before) = decode(alloc, bytes) else {
        return Err(PlanError::Memory);
    };
    let after = edit_all(alloc, &before, edit)?;
    if before.same(&after) {
        return Ok(Planned::Same);
    }
    if after.depth() > MAX_DEPTH {
        return Err(PlanError::Deep);
    }
    encoded(alloc, &after)
}

fn encoded(alloc: Global, tree: &Json) -> Result<Planned, PlanError>
    requires { depth (tree_of tree.now) ≤ max_depth }
    ensures answer { IsAnswer (change.Full (canonical (tree_of tree.now)))
        (depth (tree_of tree.now))
        (canonical_length (tree_of tree.now)) result }
    ensures encoded { IsEncoded (tree_of tree.now) result }
    ensures in_place { (bytes : List ℕ) → StaysInPlace bytes (tree_of tree.now) result }
{
    let mut out = Vec::new(alloc);
    match encode(tree, &mut out) {
        Ok(()) => Ok(Planned::Full(out)),
        Err(EncodeError::Large) => Err(PlanError::Large),
        Err(EncodeError::Memory) => Err(PlanError::Memory),
    }
}
