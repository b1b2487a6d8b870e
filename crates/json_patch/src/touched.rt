//! The runs of places that writes change, without the document that they make.
ghost use Rattle.std.specs.Prelude.{◌≡◌, ◌≤◌, ◌+◌, ℕ, List, length, map, drop, IfOk, OnOk};
ghost use Rattle.binary_model.specs.Change.{runs, written};
ghost use Rattle.binary_model.specs.Canonical.{max_document_bytes};
ghost use Rattle.json_patch.specs.View.{run_of, runs_of};
ghost use Rattle.json_patch.specs.Writes.{put_writes, AreInside, AreRising, lengthened};

use crate::parts::{Parts, Patch};
use crate::writes::Write;
use std::alloc::{AllocError, Global};

/// The maximal runs of places that writes change, found by looking at the written places alone:
/// its time is that of the writes' bytes, however long the document is. A run may go over two
/// writes that touch.
pub fn runs_of_writes(alloc: Global, bytes: &[u8], writes: &[Write]) -> Result<Parts, AllocError>
    requires inside { AreInside (length bytes.now) writes.now }
    requires rising { AreRising 0 writes.now }
    requires small { length bytes.now ≤ max_document_bytes }
    ensures { IfOk result (λ parts. runs_of parts
        ≡ runs bytes.now (put_writes writes.now bytes.now)) }
{
    let mut patches = Vec::new(alloc);
    for write in writes {
        add_bytes(alloc, bytes, write.at, write.bytes.as_slice(), &mut patches)?;
    }
    Ok(Parts::from_patches(patches))
}

/// Adds the places that bytes written at a place change, behind all that were written. At an error
/// the patches may be those of a part of them, with a last one that is half made.
pub fn add_bytes(
    alloc: Global,
    bytes: &[u8],
    at: usize,
    after: &[u8],
    patches: &mut Vec<Patch>,
) -> Result<(), AllocError>
    requires inside { at + length after.now ≤ length bytes.now }
    requires small { length bytes.now ≤ max_document_bytes }
    ensures { OnOk result ((new : List ℕ) → length new ≡ length bytes.now →
        drop at new ≡ drop at bytes.now →
        map run_of patches.old.items ≡ runs bytes.now new →
        map run_of patches.new.items ≡ runs bytes.now (written new at after.now)) }
{
    for k in 0..after.len() {
        let place = at + k;
        if bytes[place] != after[k] {
            add_place(alloc, place, bytes[place], after[k], patches)?;
        }
    }
    Ok(())
}

// Adds one differing place behind the others: the last run grows, where it ends there. At an error
// that run may be half grown.
fn add_place(
    alloc: Global,
    at: usize,
    before: u8,
    after: u8,
    patches: &mut Vec<Patch>,
) -> Result<(), AllocError>
    requires small { at ≤ max_document_bytes }
    ensures { OnOk result (map run_of patches.new.items
        ≡ lengthened at before after (map run_of patches.old.items)) }
{
    match patches.last_mut() {
        Some(last) if last.ends_at(at) => last.grow(before, after),
        _ => {
            let patch = Patch::of_place(alloc, at, before, after)?;
            patches.push(patch)?;
            Ok(())
        }
    }
}
