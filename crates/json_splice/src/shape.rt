//! A container of keys and values that stand elsewhere: its form and size, and its bytes.
ghost use Rattle.std.specs.Prelude.{◌≡◌, ◌≤◌, ◌<◌, ◌+◌, ◌++◌, ℕ, Bool, List, length, map, IfOk, IfSome, OnOk};
ghost use Rattle.binary_model.specs.Canonical as canonical;
ghost use Rattle.binary_model.specs.Canonical.{measured, joined};
ghost use Rattle.json_binary.specs.View.{form_of, kind_of};
ghost use Rattle.json_binary.specs.Writing.{spelling_of};
ghost use Rattle.json_splice.specs.Spelled.{container_bytes, container_in, container_spelling};
ghost use Rattle.json_splice.specs.Parts.{keys_in, parts_in, IsShapeIn, IsShape};

use crate::entry::entries_size;
use crate::parts::{Part, Range};
use crate::write::{
    keys_length, push_key_entries, push_keys, push_value_entries, push_values, values_length,
};
use json_binary::{Form, Kind, MAX_DOCUMENT_BYTES, MAX_SMALL_BYTES, Spelled, push_word};
use std::alloc::{AllocError, Global};

/// What is known of a container before it is written.
#[derive(Clone, Copy)]
pub struct Shape {
    pub is_object: bool,
    pub form: Form,
    /// The bytes of its header and entries.
    pub entries: usize,
    /// The bytes of its keys.
    pub keys: usize,
    /// Its bytes in all.
    pub size: usize,
}

/// A container of these keys and values, spelled; none, where it is longer than a document can be.
pub fn spelled(
    alloc: Global,
    old: &[u8],
    new: &[u8],
    is_object: bool,
    keys: &[Range],
    values: &[Part],
) -> Result<Option<Spelled>, AllocError>
    ensures { IfOk result (λ found. IfSome found (λ s. spelling_of s
        ≡ container_spelling is_object (keys_in old.now keys.now)
        (parts_in old.now new.now values.now))) }
{
    let Some(shape) = shape_of(old, new, is_object, keys, values) else {
        return Ok(None);
    };
    let mut bytes = Vec::with_capacity(alloc, shape.size)?;
    push_container(old, new, shape, keys, values, &mut bytes)?;
    Ok(Some(Spelled {
        kind: kind_of_shape(shape),
        bytes,
    }))
}

fn kind_of_shape(shape: Shape) -> Kind
    ensures { kind_of result ≡ container_in shape.is_object (form_of shape.form) }
{
    if shape.is_object {
        Kind::Object(shape.form)
    } else {
        Kind::Array(shape.form)
    }
}

// The shape in the form that the keys and values ask for.
fn shape_of(
    old: &[u8],
    new: &[u8],
    is_object: bool,
    keys: &[Range],
    values: &[Part],
) -> Option<Shape>
    ensures { IfSome result (IsShape is_object (keys_in old.now keys.now)
        (parts_in old.now new.now values.now)) }
{
    let keys = keys_length(old, keys)?;
    let small = shape_in(old, new, is_object, keys, values, Form::Small)?;
    if small.size <= MAX_SMALL_BYTES {
        return Some(small);
    }
    shape_in(old, new, is_object, keys, values, Form::Large)
}

// The shape in that form, with keys of this length in all.
fn shape_in(
    old: &[u8],
    new: &[u8],
    is_object: bool,
    keys: usize,
    values: &[Part],
    form: Form,
) -> Option<Shape>
    ensures { IfSome result (IsShapeIn is_object (form_of form) keys
        (parts_in old.now new.now values.now)) }
{
    let count = values.len();
    if count >= MAX_DOCUMENT_BYTES {
        return None;
    }
    let entries = entries_size(form, is_object, count);
    let behind = values_length(old, new, values, form)?;
    let size = entries.checked_add(keys)?.checked_add(behind)?;
    if size > MAX_DOCUMENT_BYTES {
        return None;
    }
    Some(Shape {
        is_object,
        form,
        entries,
        keys,
        size,
    })
}

// Appends a container.
fn push_container(
    old: &[u8],
    new: &[u8],
    shape: Shape,
    keys: &[Range],
    values: &[Part],
    out: &mut Vec<u8>,
) -> Result<(), AllocError>
    requires { IsShapeIn shape.is_object (form_of shape.form)
        (length (joined (keys_in old.now keys.now))) (parts_in old.now new.now values.now) shape }
    ensures { OnOk result (out.new.items ≡ out.old.items
        ++ container_bytes shape.is_object (form_of shape.form) (keys_in old.now keys.now)
        (parts_in old.now new.now values.now)) }
{
    let form = shape.form;
    push_word(values.len(), form.word(), out)?;
    push_word(shape.size, form.word(), out)?;
    push_key_entries(old, keys, form, shape.entries, out)?;
    push_value_entries(old, new, values, form, shape.entries + shape.keys, out)?;
    push_keys(old, keys, out)?;
    push_values(old, new, values, form, out)
}
