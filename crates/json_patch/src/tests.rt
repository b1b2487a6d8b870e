//! Changes of stored documents, worked by hand from the rules of the format.
ghost use Rattle.std.specs.Prelude.{◌≤◌, length, IfOk, Ok};
ghost use Rattle.tree_model.specs.Tree.{Tree};
ghost use Rattle.json_edit.specs.Edits.{HasLeg};
ghost use Rattle.json_binary.specs.Usage.{IsDocument};
ghost use Rattle.json_patch.specs.Answer.{StaysInPlace};

mod nesting;
mod several;
mod worked;

use crate::{Parts, PlanError, Planned, apply, plan, unapply};
use json_binary::{decode, encode, used};
use json_edit::{Edit, Pair, Pairs, Paths};
use json_path::Path;
use json_tree::{Json, from_text};
use std::alloc::Global;
use std::test::Fail;

#[derive(Clone, Copy)]
enum Verb {
    Set,
    Replace,
    Remove,
}

fn pairs_of(alloc: Global, pairs: &[(&str, &str)]) -> Result<Pairs, Fail> {
    let mut items = Vec::new(alloc);
    for (path, value) in pairs {
        items.push(Pair {
            path: Path::parse(alloc, path)?,
            value: from_text(alloc, value)?,
        })?;
    }
    if items.is_empty() {
        return Err(Fail::from("no pair"));
    }
    if items.len() > 256 {
        return Err(Fail::from("too many pairs"));
    }
    Ok(Pairs::new(items))
}

// A path that a removal may have: one with a leg.
fn removed(alloc: Global, path: &str) -> Result<Path, Fail>
    ensures { IfOk result HasLeg }
{
    let path = Path::parse(alloc, path)?;
    if path.legs().is_empty() {
        return Err(Fail::from("a path without legs"));
    }
    Ok(path)
}

fn paths_of(alloc: Global, pairs: &[(&str, &str)]) -> Result<Paths, Fail> {
    let mut items = Vec::new(alloc);
    for (path, _) in pairs {
        items.push(removed(alloc, path)?)?;
    }
    if items.is_empty() {
        return Err(Fail::from("no path"));
    }
    if items.len() > 256 {
        return Err(Fail::from("too many paths"));
    }
    Ok(Paths::new(items))
}

// An edit of paths and values; a removal looks at no value.
fn edit_of(alloc: Global, verb: Verb, pairs: &[(&str, &str)]) -> Result<Edit, Fail> {
    match verb {
        Verb::Set => Ok(Edit::Set(pairs_of(alloc, pairs)?)),
        Verb::Replace => Ok(Edit::Replace(pairs_of(alloc, pairs)?)),
        Verb::Remove => Ok(Edit::Remove(paths_of(alloc, pairs)?)),
    }
}

fn stored(alloc: Global, text: &str) -> Result<Vec<u8>, Fail> {
    let mut out = Vec::new(alloc);
    encode(&from_text(alloc, text)?, &mut out)?;
    Ok(out)
}

// Passes bytes that can be decoded and aren't too many.
fn check_document(alloc: Global, bytes: &[u8]) -> Result<(), Fail>
    ensures { IfOk result (λ done. IsDocument bytes.now × (length bytes.now ≤ 16777216)) }
{
    decode(alloc, bytes)?;
    if bytes.len() > 16_777_216 {
        return Err(Fail::from("16,777,216 bytes at the most"));
    }
    Ok(())
}

// The plan of an edit of bytes that can be decoded.
fn planned(alloc: Global, bytes: &[u8], edit: &Edit) -> Result<Planned, Fail>
    ensures { IfOk result (λ plan. (t : Tree) × StaysInPlace bytes.now t (Ok plan)) }
{
    check_document(alloc, bytes)?;
    Ok(plan(alloc, bytes, edit)?)
}

// Whether the edit of a document would nest too deep. Bytes that can't be decoded are a failure.
fn is_too_deep(alloc: Global, bytes: &[u8], edit: &Edit) -> Result<bool, Fail> {
    check_document(alloc, bytes)?;
    match plan(alloc, bytes, edit) {
        Ok(_) => Ok(false),
        Err(PlanError::Deep) => Ok(true),
        Err(_) => Err(Fail::from("neither large nor out of memory")),
    }
}

fn used_length(alloc: Global, bytes: &[u8]) -> Result<u32, Fail> {
    check_document(alloc, bytes)?;
    Ok(used(bytes))
}

// Makes an edit in the bytes, and answers how many places differ; 1,000 where the change is full, 0
// where it is none.
fn step(alloc: Global, bytes: &mut Vec<u8>, path: &str, value: &str) -> Result<usize, Fail> {
    let verb = if value == "" { Verb::Remove } else { Verb::Set };
    let edit = edit_of(alloc, verb, &[(path, value)])?;
    match planned(alloc, bytes, &edit)? {
        Planned::Same => Ok(0),
        Planned::Full(_) => Ok(1000),
        Planned::Parts(parts) => {
            let mut places = 0usize;
            for patch in parts.patches() {
                places = places.saturating_add(patch.after.as_slice().len());
            }
            let mut before = Vec::new(alloc);
            before.extend_from_slice(bytes)?;
            apply(bytes, &parts);
            let mut back = Vec::new(alloc);
            back.extend_from_slice(bytes)?;
            unapply(&mut back, &parts);
            if back.as_slice() != before.as_slice() {
                return Ok(2000);
            }
            Ok(places)
        }
    }
}

/// Three members, whose values of two have an offset.
const WORKED: &str = r#"{"a":1000,"b":"wxyz","c":"[1, 3, 5, 7]"}"#;

/// How an edit is to be stored: the runs by their first places and lengths, where it is made in
/// place.
#[derive(Clone, Copy)]
enum Wanted<'a> {
    Same,
    Runs(&'a [(u32, usize)]),
    Full,
}

/// Document, verb, pairs (a removal's have no values), how it is to be stored, the document behind.
type Row<'a> = (&'a str, Verb, &'a [(&'a str, &'a str)], Wanted<'a>, &'a str);

fn has_runs(parts: &Parts, runs: &[(u32, usize)]) -> bool {
    let patches = parts.patches();
    if patches.len() != runs.len() {
        return false;
    }
    for (patch, (at, length)) in patches.iter().zip(runs) {
        if patch.at != *at || patch.after.as_slice().len() != *length {
            return false;
        }
    }
    true
}

// Whether an edit is stored as is wanted, and leaves the document that is wanted.
fn is_stored(alloc: Global, row: Row) -> Result<bool, Fail> {
    let bytes = stored(alloc, row.0)?;
    is_stored_in(alloc, bytes, row)
}

// The same in bytes that stand for the document, and need not be its canonical encoding.
fn is_stored_in(alloc: Global, bytes: Vec<u8>, row: Row) -> Result<bool, Fail> {
    let (_, verb, pairs, wanted, behind) = row;
    let mut bytes = bytes;
    let edit = edit_of(alloc, verb, pairs)?;
    match (planned(alloc, &bytes, &edit)?, wanted) {
        (Planned::Same, Wanted::Same) => {}
        (Planned::Full(new), Wanted::Full) => {
            return Ok(new.as_slice() == stored(alloc, behind)?.as_slice());
        }
        (Planned::Parts(parts), Wanted::Runs(runs)) => {
            if !has_runs(&parts, runs) {
                return Ok(false);
            }
            apply(&mut bytes, &parts);
        }
        _ => return Ok(false),
    }
    Ok(decode(alloc, &bytes)?.same(&from_text(alloc, behind)?))
}
