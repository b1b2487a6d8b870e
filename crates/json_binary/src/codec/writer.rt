//! The parts of an encoding: scalars, entries, keys.
ghost use Rattle.std.specs.Prelude.{◌≡◌, ◌<◌, ◌≤◌, ◌+◌, ◌++◌, ◌^◌, [], map, length, take, drop, OnOk, OnErr};
ghost use Rattle.tree_model.specs.Tree.{trees, members};
ghost use Rattle.binary_model.specs.Canonical as canonical;
ghost use Rattle.json_tree.specs.View.{tree_of, pair_of};
ghost use Rattle.json_binary.specs.View.{form_of};
ghost use Rattle.json_binary.specs.Sizes.{extents, all_extents, member_extents, IsMeasured};
ghost use Rattle.json_tree.specs.Writing.{Extends};
ghost use Rattle.json_binary.specs.Writing.{IsFront, entry};

use crate::codec::numbers::{push_fill, push_groups, push_number, push_word};
use crate::codec::sizes::{Extent, Measured, measure_scalar};
use crate::cursor::layout::{Form, Kind};
use json_tree::{Json, Member};
use std::alloc::AllocError;

/// Appends the bytes of a scalar, without its type byte.
#[tactic(auto, using(json_tree::proofs::Growth::extends_more, json_tree::proofs::Growth::extends_on, json_tree::proofs::Growth::extends_itself))]
pub fn push_scalar(tree: &Json, out: &mut Vec<u8>) -> Result<(), AllocError>
    requires { extents (tree_of tree.now) ≡ [] }
    ensures ok { OnOk result (out.new.items
        ≡ out.old.items ++ (canonical.spelling (tree_of tree.now)).1) }
    ensures kept { Extends out.old.items out.new.items }
{
    match tree {
        Json::Bool(true) => out.extend_from_slice(&[1]),
        Json::Bool(false) => out.extend_from_slice(&[2]),
        Json::Number(whole) => push_number(*whole, out),
        Json::Text(text) => push_text(text.as_str(), out),
        _ => out.extend_from_slice(&[0]),
    }
}

#[tactic(auto, using(json_tree::proofs::Growth::extends_more, json_tree::proofs::Growth::extends_on, json_tree::proofs::Growth::extends_itself))]
fn push_text(text: &str, out: &mut Vec<u8>) -> Result<(), AllocError>
    ensures ok { OnOk result (out.new.items ≡ out.old.items ++ canonical.text_bytes text.now) }
    ensures kept { Extends out.old.items out.new.items }
{
    push_groups(text.len(), 5, out)?;
    out.extend_from_slice(text.as_bytes())?;
    Ok(())
}

/// The type and size of a value, whose containers are noted in front of the plan.
pub fn measured(tree: &Json, plan: &[Extent]) -> Measured
    requires { IsFront (extents (tree_of tree.now)) plan.now }
    ensures { IsMeasured (tree_of tree.now) result }
{
    match tree {
        Json::List(_) => Measured {
            kind: Kind::Array(plan[0].form),
            size: plan[0].size,
        },
        Json::Object(_) => Measured {
            kind: Kind::Object(plan[0].form),
            size: plan[0].size,
        },
        scalar => measure_scalar(scalar),
    }
}

/// What is noted of a value, in front of the plan, and what is noted of those behind it.
pub fn split_plan<'a>(tree: &Json, plan: &'a [Extent]) -> (&'a [Extent], &'a [Extent])
    requires { IsFront (extents (tree_of tree.now)) plan.now }
    ensures own { result.0.now ≡ take (length (extents (tree_of tree.now))) plan.now }
    ensures others { result.1.now ≡ drop (length (extents (tree_of tree.now))) plan.now }
{
    plan.split_at(containers(tree, plan))
}

// How many containers a value is and has in it.
fn containers(tree: &Json, plan: &[Extent]) -> usize
    requires { IsFront (extents (tree_of tree.now)) plan.now }
    ensures count { result ≡ length (extents (tree_of tree.now)) }
    ensures within { result ≤ length plan.now }
{
    match tree {
        Json::List(_) | Json::Object(_) => 1 + plan[0].inside,
        _ => 0,
    }
}

/// Appends a value's entry: its type byte, and its bytes or its offset.
#[tactic(auto, using(crate::proofs::WriteLemmas::entry_inlined, crate::proofs::WriteLemmas::entry_offset, json_tree::proofs::Growth::extends_more, json_tree::proofs::Growth::extends_on, json_tree::proofs::Growth::extends_itself))]
pub fn push_entry(
    tree: &Json,
    measured: Measured,
    form: Form,
    offset: usize,
    out: &mut Vec<u8>,
) -> Result<(), AllocError>
    requires { IsMeasured (tree_of tree.now) measured }
    ensures ok { OnOk result (out.new.items
        ≡ out.old.items ++ entry (form_of form) offset (canonical.spelling (tree_of tree.now))) }
    ensures kept { Extends out.old.items out.new.items }
{
    out.push(measured.kind.code())?;
    if measured.kind.is_inlined(form) {
        push_scalar(tree, out)?;
        push_fill(fill(tree), form.word().saturating_sub(measured.size), out)?;
    } else {
        push_word(offset, form.word(), out)?;
    }
    Ok(())
}

// What fills the entry behind an inlined value: the sign of a number, else zeros.
#[tactic(auto, using(crate::proofs::WriteLemmas::fill_negative, crate::proofs::WriteLemmas::fill_other))]
fn fill(tree: &Json) -> u8
    ensures { result ≡ canonical.fill (canonical.spelling (tree_of tree.now)) }
{
    match tree {
        Json::Number(whole) if whole.get() < 0 => 0xff,
        _ => 0,
    }
}

/// Appends the entries of an array's values, which follow from the offset on.
pub fn push_element_entries(
    items: &[Json],
    plan: &[Extent],
    form: Form,
    offset: usize,
    out: &mut Vec<u8>,
) -> Result<(), AllocError>
    requires plan { plan.now ≡ all_extents (trees (map tree_of items.now)) }
    requires near { offset + canonical.all_behind (form_of form)
        (canonical.measures (trees (map tree_of items.now))) ≤ canonical.max_document_bytes }
    ensures ok { OnOk result (out.new.items ≡ out.old.items
        ++ canonical.value_entries (form_of form) offset
        (canonical.spellings (trees (map tree_of items.now)))) }
    ensures kept { Extends out.old.items out.new.items }
{
    let mut offset = offset;
    let mut rest = plan;
    for item in items {
        let measured = measured(item, rest);
        push_entry(item, measured, form, offset, out)?;
        offset += measured.behind(form);
        rest = split_plan(item, rest).1;
    }
    Ok(())
}

/// Appends the entries of an object's values, which follow from the offset on.
pub fn push_member_entries(
    items: &[Member],
    plan: &[Extent],
    form: Form,
    offset: usize,
    out: &mut Vec<u8>,
) -> Result<(), AllocError>
    requires plan { plan.now ≡ member_extents (members (map pair_of items.now)) }
    requires near { offset + canonical.all_behind (form_of form)
        (canonical.member_measures (members (map pair_of items.now)))
        ≤ canonical.max_document_bytes }
    ensures ok { OnOk result (out.new.items ≡ out.old.items
        ++ canonical.value_entries (form_of form) offset
        (canonical.member_spellings (members (map pair_of items.now)))) }
    ensures kept { Extends out.old.items out.new.items }
{
    let mut offset = offset;
    let mut rest = plan;
    for item in items {
        let measured = measured(&item.value, rest);
        push_entry(&item.value, measured, form, offset, out)?;
        offset += measured.behind(form);
        rest = split_plan(&item.value, rest).1;
    }
    Ok(())
}

/// Appends the entries of an object's keys, which follow from the offset on.
pub fn push_key_entries(
    items: &[Member],
    form: Form,
    offset: usize,
    out: &mut Vec<u8>,
) -> Result<(), AllocError>
    requires near { offset + canonical.keys_length (members (map pair_of items.now))
        ≤ canonical.max_document_bytes }
    ensures ok { OnOk result (out.new.items ≡ out.old.items
        ++ canonical.key_entries (form_of form) offset
        (canonical.keys (members (map pair_of items.now)))) }
    ensures kept { Extends out.old.items out.new.items }
{
    let mut offset = offset;
    for item in items {
        let length = item.key.len();
        push_word(offset, form.word(), out)?;
        push_word(length, 2, out)?;
        offset += length;
    }
    Ok(())
}

/// Appends an object's keys.
pub fn push_keys(items: &[Member], out: &mut Vec<u8>) -> Result<(), AllocError>
    ensures ok { OnOk result (out.new.items ≡ out.old.items
        ++ canonical.joined (canonical.keys (members (map pair_of items.now)))) }
    ensures kept { Extends out.old.items out.new.items }
{
    for item in items {
        out.extend_from_slice(item.key.as_str().as_bytes())?;
    }
    Ok(())
}
