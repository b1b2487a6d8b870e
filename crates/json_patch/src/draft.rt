//! A document's bytes under an edit, while each of its pairs is made in place.
ghost use Rattle.std.specs.Prelude.{◌≡◌, ◌≤◌, ◌++◌, ◌∷◌, ◌||◌, ℕ, List, [], length, map, IfOk, IfSome, false};
ghost use Rattle.tree_model.specs.Tree.{Tree};
ghost use Rattle.binary_model.specs.Change as change;
ghost use Rattle.binary_model.specs.Canonical.{max_document_bytes};
ghost use Rattle.json_tree.specs.View.{tree_of};
ghost use Rattle.json_edit.specs.Edits.{assigned};
ghost use Rattle.json_binary.specs.Usage.{IsDocument};
ghost use Rattle.json_patch.specs.Writes.{put_writes, AreInside};
ghost use Rattle.json_patch.specs.Made.{HasTree, act_by, edit_by, in_place};
ghost use Rattle.json_patch.specs.Draft.{IsDraft, IsPairPut, IsNoted, IsDraftOf};

use crate::pair::{Made, make_pair, nests_over};
use crate::spans::Span;
use crate::writes::{Write, write_all};
use json_edit::Pair;
use std::alloc::{AllocError, Global};

/// The bytes so far, and where they were touched.
#[derive(Drop)]
pub struct Draft {
    pub bytes: Vec<u8>,
    /// Where bytes were written.
    pub spans: Vec<Span>,
    /// The positions of each value that was replaced, from the root on.
    pub touched: Vec<Vec<usize>>,
    /// Whether a value was put where it might nest too deep.
    pub deep: bool,
}

/// Makes pairs in place, from left to right; none, where one of them can't be. A pair whose path
/// finds nothing adds its value only where `adding`, and what is added has no place yet.
pub fn put_pairs(
    alloc: Global,
    bytes: &[u8],
    pairs: &[Pair],
    adding: bool,
) -> Result<Option<Draft>, AllocError>
    requires document { IsDocument bytes.now }
    requires small { length bytes.now ≤ max_document_bytes }
    ensures put { IfOk result (IsDraftOf bytes.now (edit_by adding (map assigned pairs.now))) }
    ensures noted { IfOk result (λ found. IfSome found (IsNoted bytes.now)) }
{
    let mut draft = start(alloc, bytes)?;
    for pair in pairs {
        match put_pair(alloc, draft, pair, adding)? {
            Some(next) => draft = next,
            None => return Ok(None),
        }
    }
    Ok(Some(draft))
}

fn start(alloc: Global, bytes: &[u8]) -> Result<Draft, AllocError>
    ensures same { IfOk result (λ d. (d.bytes.items ≡ bytes.now) × (d.touched.items ≡ [])
        × (d.deep ≡ false)) }
    ensures noted { IfOk result (IsNoted bytes.now) }
{
    let mut copy = Vec::new(alloc);
    copy.extend_from_slice(bytes)?;
    Ok(Draft {
        bytes: copy,
        spans: Vec::new(alloc),
        touched: Vec::new(alloc),
        deep: false,
    })
}

fn put_pair(
    alloc: Global,
    draft: Draft,
    pair: &Pair,
    adding: bool,
) -> Result<Option<Draft>, AllocError>
    requires { HasTree draft.bytes.items }
    ensures put { IfOk result (λ found. (t u : Tree) → IsDraft t draft u →
        IsPairPut t (change.replaced_by (act_by adding) pair.now.path (tree_of pair.now.value)
        (in_place draft.bytes.items u)) found) }
    ensures noted { IfOk result (λ found. (old : List ℕ) → IsNoted old draft
        → IfSome found (IsNoted old)) }
{
    match make_pair(alloc, &draft.bytes, pair, adding)? {
        Made::Kept => Ok(Some(draft)),
        Made::Anew => Ok(None),
        Made::Written(place, writes) => {
            let touched = touch(draft, place, &writes, nests_over(pair))?;
            Ok(Some(touched))
        }
    }
}

// The draft with writes made, at a place that is touched by them.
fn touch(draft: Draft, place: Vec<usize>, writes: &[Write], deep: bool) -> Result<Draft, AllocError>
    requires { AreInside (length draft.bytes.items) writes.now }
    ensures put { IfOk result (λ d. (d.bytes.items ≡ put_writes writes.now draft.bytes.items)
        × (d.touched.items ≡ draft.touched.items ++ place ∷ []) × (d.deep ≡ (draft.deep || deep))) }
    ensures noted { IfOk result (λ d. (old : List ℕ) → IsNoted old draft → IsNoted old d) }
{
    let Draft {
        mut bytes,
        mut spans,
        mut touched,
        deep: before,
    } = draft;
    touched.push(place)?;
    write_all(&mut bytes, &mut spans, writes)?;
    Ok(Draft {
        bytes,
        spans,
        touched,
        deep: before || deep,
    })
}
