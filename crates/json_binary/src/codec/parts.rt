//! Parts of a canonical encoding, for changes in place: a value's bytes, and its entry.
ghost use Rattle.std.specs.Prelude.{◌≡◌, ◌<◌, ◌≤◌, ◌++◌, ◌-◌, IfOk, OnOk, OnErr, IsErrOf};
ghost use Rattle.tree_model.specs.Tree.{IsTree};
ghost use Rattle.binary_model.specs.Canonical as canonical;
ghost use Rattle.json_tree.specs.View.{tree_of};
ghost use Rattle.json_binary.specs.View.{form_of};
ghost use Rattle.json_binary.specs.Writing.{entry, spelling_of};

use crate::codec::encoder::push_value;
use crate::codec::numbers::{push_fill, push_word};
use crate::codec::sizes::measure;
use crate::cursor::layout::{Form, Kind};
use crate::{EncodeError, MAX_DOCUMENT_BYTES};
use json_tree::Json;
use std::alloc::{AllocError, Global};

/// A value as the canonical encoding spells it.
#[derive(Drop)]
pub struct Spelled {
    pub kind: Kind,
    /// Its bytes, without the type byte.
    pub bytes: Vec<u8>,
}

/// A value's spelling. It is Large exactly where it is longer than a document can hold, so that no
/// room takes it; no value that stands in its entry is.
pub fn value_bytes(alloc: Global, tree: &Json) -> Result<Spelled, EncodeError>
    ensures ok { IfOk result (λ v. spelling_of v ≡ canonical.spelling (tree_of tree.now)) }
    ensures fits { OnOk result ((canonical.measure (tree_of tree.now)).1
        < canonical.max_document_bytes) }
    ensures large { IsErrOf result EncodeError.Large
        → canonical.max_document_bytes ≤ (canonical.measure (tree_of tree.now)).1 }
    // What the tree's types keep.
    ensures is_tree { OnOk result (IsTree (tree_of tree.now)) }
{
    let mut plan = Vec::new(alloc);
    let measured = measure(tree, &mut plan)?;
    if measured.size >= MAX_DOCUMENT_BYTES {
        return Err(EncodeError::Large);
    }
    let mut bytes = Vec::with_capacity(alloc, measured.size)?;
    push_value(tree, &plan, &mut bytes)?;
    Ok(Spelled {
        kind: measured.kind,
        bytes,
    })
}

/// A value's entry in a container of that form: its type byte, and its bytes where it stands there,
/// else its offset.
pub fn entry_bytes(
    alloc: Global,
    value: &Spelled,
    form: Form,
    offset: usize,
) -> Result<Vec<u8>, AllocError>
    ensures { IfOk result (λ bytes. bytes.items
        ≡ entry (form_of form) offset (spelling_of value.now)) }
{
    let mut bytes = Vec::with_capacity(alloc, form.value_width())?;
    bytes.push(value.kind.code())?;
    if value.kind.is_inlined(form) {
        bytes.extend_from_slice(&value.bytes)?;
        let free = form.word().saturating_sub(value.bytes.len());
        push_fill(fill(value), free, &mut bytes)?;
    } else {
        push_word(offset, form.word(), &mut bytes)?;
    }
    Ok(bytes)
}

// What fills the entry behind a value that stands there: the sign of a number, else zeros.
fn fill(value: &Spelled) -> u8
    ensures { result ≡ canonical.fill (spelling_of value.now) }
{
    match value.kind {
        Kind::Signed(width) => match value.bytes.get(width.bytes() - 1) {
            Some(high) if *high >= 128 => 0xff,
            _ => 0,
        },
        _ => 0,
    }
}
