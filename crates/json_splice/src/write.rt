//! A container written from its parts.
ghost use Rattle.std.specs.Prelude.{◌≡◌, ◌≤◌, ◌<◌, ◌+◌, ◌-◌, ◌++◌, ◌∷◌, ℕ, List, length, map, replicate, IfSome, OnOk, OnErr};
ghost use Rattle.binary_model.specs.Canonical as canonical;
ghost use Rattle.binary_model.specs.Canonical.{measured, joined, max_document_bytes};
ghost use Rattle.json_binary.specs.View.{form_of, kind_of};
ghost use Rattle.json_splice.specs.Spelled.{IsSized};
ghost use Rattle.json_binary.specs.Writing.{entry};
ghost use Rattle.json_splice.specs.Parts.{key_in, part_in, keys_in, parts_in};

use crate::entry::{Size, fill_byte};
use crate::parts::{Part, Range, key_bytes, part_bytes};
use json_binary::{Form, Kind, push_fill, push_word};
use std::alloc::AllocError;

/// How many bytes all keys take.
pub fn keys_length(old: &[u8], keys: &[Range]) -> Option<usize>
    ensures { IfSome result (λ n. length (joined (keys_in old.now keys.now)) ≡ n) }
{
    let mut total = 0usize;
    for key in keys {
        total = total.checked_add(key_bytes(old, *key).len())?;
    }
    Some(total)
}

/// How many bytes all values take behind the entries of a container of this form.
pub fn values_length(old: &[u8], new: &[u8], parts: &[Part], form: Form) -> Option<usize>
    ensures { IfSome result (λ n. canonical.all_behind (form_of form)
        (map measured (parts_in old.now new.now parts.now)) ≡ n) }
{
    let mut total = 0usize;
    for part in parts {
        total = total.checked_add(size_of(old, new, *part).behind(form))?;
    }
    Some(total)
}

// A value's size.
fn size_of(old: &[u8], new: &[u8], part: Part) -> Size
    ensures { IsSized (part_in old.now new.now part) result }
{
    Size {
        kind: part.kind,
        bytes: part_bytes(old, new, part).len(),
    }
}

/// Appends the entries of all keys, which follow from the offset on.
pub fn push_key_entries(
    old: &[u8],
    keys: &[Range],
    form: Form,
    offset: usize,
    out: &mut Vec<u8>,
) -> Result<(), AllocError>
    requires near { offset + length (joined (keys_in old.now keys.now)) ≤ max_document_bytes }
    ensures { OnOk result (out.new.items ≡ out.old.items
        ++ canonical.key_entries (form_of form) offset (keys_in old.now keys.now)) }
{
    let mut offset = offset;
    for key in keys {
        let length = key_bytes(old, *key).len();
        push_word(offset, form.word(), out)?;
        push_word(length, 2, out)?;
        offset += length;
    }
    Ok(())
}

/// Appends all keys.
pub fn push_keys(old: &[u8], keys: &[Range], out: &mut Vec<u8>) -> Result<(), AllocError>
    ensures { OnOk result (out.new.items ≡ out.old.items ++ joined (keys_in old.now keys.now)) }
{
    for key in keys {
        out.extend_from_slice(key_bytes(old, *key))?;
    }
    Ok(())
}

/// Appends the entries of all values, which follow from the offset on.
pub fn push_value_entries(
    old: &[u8],
    new: &[u8],
    parts: &[Part],
    form: Form,
    offset: usize,
    out: &mut Vec<u8>,
) -> Result<(), AllocError>
    requires near { offset + canonical.all_behind (form_of form)
        (map measured (parts_in old.now new.now parts.now)) ≤ max_document_bytes }
    ensures { OnOk result (out.new.items ≡ out.old.items
        ++ canonical.value_entries (form_of form) offset (parts_in old.now new.now parts.now)) }
{
    let mut offset = offset;
    for part in parts {
        push_entry(old, new, *part, form, offset, out)?;
        offset += size_of(old, new, *part).behind(form);
    }
    Ok(())
}

// Appends a value's entry: its type byte, and its bytes or its offset.
fn push_entry(
    old: &[u8],
    new: &[u8],
    part: Part,
    form: Form,
    offset: usize,
    out: &mut Vec<u8>,
) -> Result<(), AllocError>
    ensures { OnOk result (out.new.items ≡ out.old.items
        ++ entry (form_of form) offset (part_in old.now new.now part)) }
{
    out.push(part.kind.code())?;
    if part.kind.is_inlined(form) {
        push_inlined(part_bytes(old, new, part), part.kind, form, out)
    } else {
        push_word(offset, form.word(), out)
    }
}

// Appends a value that stands in its entry, and its sign or zeros.
fn push_inlined(value: &[u8], kind: Kind, form: Form, out: &mut Vec<u8>) -> Result<(), AllocError>
    ensures { OnOk result (out.new.items ≡ out.old.items
        ++ canonical.inlined_bytes (form_of form) (kind_of kind, value.now)) }
{
    out.extend_from_slice(value)?;
    let free = form.word().saturating_sub(value.len());
    push_fill(fill_byte(value, kind), free, out)
}

/// Appends all values that stand behind the entries.
pub fn push_values(
    old: &[u8],
    new: &[u8],
    parts: &[Part],
    form: Form,
    out: &mut Vec<u8>,
) -> Result<(), AllocError>
    ensures { OnOk result (out.new.items ≡ out.old.items
        ++ canonical.values_behind (form_of form) (parts_in old.now new.now parts.now)) }
{
    for part in parts {
        if !part.kind.is_inlined(form) {
            out.extend_from_slice(part_bytes(old, new, *part))?;
        }
    }
    Ok(())
}
