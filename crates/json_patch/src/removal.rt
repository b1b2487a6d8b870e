//! The plan of an edit that removes by paths.
ghost use Rattle.std.specs.Prelude.{◌≡◌, ◌≤◌, ◌∷◌, ℕ, List, [], length, option_map, Ok, IfOk, OnOk};
ghost use Rattle.tree_model.specs.Tree.{Tree};
ghost use Rattle.tree_model.specs.Edit as model;
ghost use Rattle.binary_model.specs.Canonical.{max_document_bytes};
ghost use Rattle.json_binary.specs.Usage.{IsDocument};
ghost use Rattle.json_patch.specs.Answer.{Plans};
ghost use Rattle.json_patch.specs.Made.{StandFor, HasTree, Takes};
ghost use Rattle.json_patch.specs.Removal.{Reached};
ghost use Rattle.json_patch.specs.Spans.{DifferInSpans};

use crate::lead::{End, lead};
use crate::planning::Planned;
use crate::spans::{Span, runs_in_spans};
use crate::touched::runs_of_writes;
use crate::writes::{Write, removing, write_all};
use json_path::Path;
use std::alloc::{AllocError, Global};

/// The plan of a removal. By one path nothing of the document is read but the path and the entries
/// of the container that it ends in; by several paths the bytes are copied once, and compared with
/// the old ones where they were written.
pub fn plan_removals(alloc: Global, bytes: &[u8], paths: &[Path]) -> Result<Planned, AllocError>
    requires document { IsDocument bytes.now }
    requires small { length bytes.now ≤ max_document_bytes }
    ensures { IfOk result (λ plan. Plans bytes.now (model.Remove paths.now) (Ok plan)) }
{
    if let [path] = paths {
        return plan_removal(alloc, bytes, path);
    }
    let mut edited = Vec::new(alloc);
    edited.extend_from_slice(bytes)?;
    let mut spans = Vec::new(alloc);
    if take_paths(alloc, &mut edited, &mut spans, paths)? {
        Ok(Planned::Parts(runs_in_spans(alloc, bytes, &edited, spans)?))
    } else {
        Ok(Planned::Same)
    }
}

// The plan of a removal by one path.
fn plan_removal(alloc: Global, bytes: &[u8], path: &Path) -> Result<Planned, AllocError>
    requires document { IsDocument bytes.now }
    requires small { length bytes.now ≤ max_document_bytes }
    ensures { IfOk result (λ plan. Plans bytes.now (model.Remove (path.now ∷ [])) (Ok plan)) }
{
    match taken_by(alloc, bytes, path)? {
        Some(writes) => Ok(Planned::Parts(runs_of_writes(alloc, bytes, &writes)?)),
        None => Ok(Planned::Same),
    }
}

// Takes out what each path leads to, one after the other, and answers whether that was anything.
// At an error some values may be taken out.
fn take_paths(
    alloc: Global,
    bytes: &mut [u8],
    spans: &mut Vec<Span>,
    paths: &[Path],
) -> Result<bool, AllocError>
    requires { HasTree bytes.old }
    ensures took { IfOk result (λ took.
        (t : Tree) → StandFor bytes.old t → Reached bytes.old t paths.now [] bytes.new took) }
    ensures noted { OnOk result ((old : List ℕ) → DifferInSpans old bytes.old spans.old.items →
        DifferInSpans old bytes.new spans.new.items) }
{
    let mut took = false;
    for path in paths {
        if let Some(writes) = taken_by(alloc, bytes, path)? {
            write_all(bytes, spans, &writes)?;
            took = true;
        }
    }
    Ok(took)
}

// The writes that take out what a path leads to; none, where it takes nothing out.
fn taken_by(alloc: Global, bytes: &[u8], path: &Path) -> Result<Option<Vec<Write>>, AllocError>
    requires { HasTree bytes.now }
    ensures { IfOk result (λ found. (t : Tree) → StandFor bytes.now t →
        Takes bytes.now t path.now (option_map (λ ws. ws.items) found)) }
{
    let led = lead(alloc, bytes, path.legs())?;
    let End::Value(place) = led.end else {
        return Ok(None);
    };
    if place.taken {
        let writes = removing(alloc, bytes, place.container, place.number)?;
        return Ok(Some(writes));
    }
    Ok(None)
}
