//! The canonical encoding of a tree: what is measured first is written then, each container once.
ghost use Rattle.std.specs.Prelude.{◌≡◌, ◌<◌, ◌≤◌, ◌+◌, ◌++◌, ◌^◌, [], map, OnOk, OnErr, IsErrOf, if◌then◌else◌};
ghost use Rattle.tree_model.specs.Tree as tree;
ghost use Rattle.tree_model.specs.Tree.{trees, members, IsTree};
ghost use Rattle.binary_model.specs.Layout as layout;
ghost use Rattle.binary_model.specs.Canonical as canonical;
ghost use Rattle.json_tree.specs.View.{tree_of, pair_of};
ghost use Rattle.json_binary.specs.View.{form_of, kind_of};
ghost use Rattle.json_binary.specs.Sizes.{extents, all_extents, member_extents, IsMeasured};
ghost use Rattle.json_tree.specs.Writing.{Extends};

use crate::codec::numbers::push_word;
use crate::codec::sizes::{Extent, Measured, entries_size, keys_length, measure};
use crate::codec::writer::{
    measured, push_element_entries, push_key_entries, push_keys, push_member_entries, push_scalar,
    split_plan,
};
use crate::cursor::layout::Form;
use crate::{EncodeError, MAX_DOCUMENT_BYTES};
use json_tree::{Json, Member};
use std::alloc::AllocError;

/// Appends the canonical encoding of a tree (ours; the layout is that of MySQL 8.0, json_binary.h):
/// numbers in their narrowest type, keys and then values in the order of their entries without
/// gaps, and a container small where its small form has at most `MAX_SMALL_BYTES`.
pub fn encode(tree: &Json, out: &mut Vec<u8>) -> Result<(), EncodeError>
    ensures ok { OnOk result (out.new.items
        ≡ out.old.items ++ canonical.canonical (tree_of tree.now)) }
    ensures err { OnErr result (out.new.items ≡ out.old.items) }

    // Too large or not: exactly by the limit, unless memory runs out.
    ensures fits { OnOk result (canonical.canonical_length (tree_of tree.now)
        ≤ canonical.max_document_bytes) }
    ensures large { IsErrOf result EncodeError.Large →
        canonical.max_document_bytes < canonical.canonical_length (tree_of tree.now) }

    // What the tree's types keep.
    ensures is_tree { OnOk result (IsTree (tree_of tree.now)) }
{
    let mut plan = Vec::new(*out.allocator());
    let measured = measure(tree, &mut plan)?;
    if measured.size >= MAX_DOCUMENT_BYTES {
        return Err(EncodeError::Large);
    }
    let before = out.len();
    let written = push_document(tree, measured, &plan, out);
    if written.is_err() {
        out.truncate(before);
    }
    written?;
    Ok(())
}

#[tactic(auto, using(json_tree::proofs::Growth::extends_more, json_tree::proofs::Growth::extends_on, json_tree::proofs::Growth::extends_itself))]
fn push_document(
    tree: &Json,
    measured: Measured,
    plan: &[Extent],
    out: &mut Vec<u8>,
) -> Result<(), AllocError>
    requires measured { IsMeasured (tree_of tree.now) measured }
    requires plan { plan.now ≡ extents (tree_of tree.now) }
    requires near { measured.size < canonical.max_document_bytes }
    ensures ok { OnOk result (out.new.items
        ≡ out.old.items ++ canonical.canonical (tree_of tree.now)) }
    ensures kept { Extends out.old.items out.new.items }
{
    out.reserve(1 + measured.size)?;
    out.push(measured.kind.code())?;
    push_value(tree, plan, out)?;
    Ok(())
}

/// Appends the bytes of a value, without its type byte.
#[cycle(write)]
pub fn push_value(tree: &Json, plan: &[Extent], out: &mut Vec<u8>) -> Result<(), AllocError>
    requires plan { plan.now ≡ extents (tree_of tree.now) }
    requires near { (canonical.measure (tree_of tree.now)).1 ≤ canonical.max_document_bytes }
    ensures ok { OnOk result (out.new.items
        ≡ out.old.items ++ (canonical.spelling (tree_of tree.now)).1) }
    ensures kept { Extends out.old.items out.new.items }
{
    match tree {
        Json::List(list) => push_array(list.as_slice(), plan, out),
        Json::Object(members) => push_object(members.as_slice(), plan, out),
        scalar => push_scalar(scalar, out),
    }
}

#[cycle(write)]
fn push_array(items: &[Json], plan: &[Extent], out: &mut Vec<u8>) -> Result<(), AllocError>
    requires plan { plan.now ≡ extents (tree.array (trees (map tree_of items.now))) }
    requires near { (canonical.measure (tree.array (trees (map tree_of items.now)))).1
        ≤ canonical.max_document_bytes }
    ensures ok { OnOk result (out.new.items ≡ out.old.items
        ++ (canonical.spelling (tree.array (trees (map tree_of items.now)))).1) }
    ensures kept { Extends out.old.items out.new.items }
{
    let own = plan[0];
    let inner = plan.split_at(1).1;
    let values_at = entries_size(own.form, false, items.len());
    push_header(own, items.len(), out)?;
    push_element_entries(items, inner, own.form, values_at, out)?;
    push_elements(items, inner, own.form, out)?;
    Ok(())
}

#[cycle(write)]
fn push_object(items: &[Member], plan: &[Extent], out: &mut Vec<u8>) -> Result<(), AllocError>
    requires plan { plan.now ≡ extents (tree.object (members (map pair_of items.now))) }
    requires near { (canonical.measure (tree.object (members (map pair_of items.now)))).1
        ≤ canonical.max_document_bytes }
    ensures ok { OnOk result (out.new.items ≡ out.old.items
        ++ (canonical.spelling (tree.object (members (map pair_of items.now)))).1) }
    ensures kept { Extends out.old.items out.new.items }
{
    let own = plan[0];
    let inner = plan.split_at(1).1;
    let keys_at = entries_size(own.form, true, items.len());
    let values_at = keys_at + keys_length(items);
    push_header(own, items.len(), out)?;
    push_key_entries(items, own.form, keys_at, out)?;
    push_member_entries(items, inner, own.form, values_at, out)?;
    push_keys(items, out)?;
    push_members(items, inner, own.form, out)?;
    Ok(())
}

// A container's count and size.
#[tactic(auto, using(json_tree::proofs::Growth::extends_more, json_tree::proofs::Growth::extends_on, json_tree::proofs::Growth::extends_itself))]
fn push_header(own: Extent, count: usize, out: &mut Vec<u8>) -> Result<(), AllocError>
    ensures ok { OnOk result (out.new.items
        ≡ out.old.items ++ canonical.header (form_of own.form) count own.size) }
    ensures kept { Extends out.old.items out.new.items }
{
    push_word(count, own.form.word(), out)?;
    push_word(own.size, own.form.word(), out)?;
    Ok(())
}

// The values of an array that don't stand in their entries.
#[cycle(write)]
fn push_elements(
    items: &[Json],
    plan: &[Extent],
    form: Form,
    out: &mut Vec<u8>,
) -> Result<(), AllocError>
    requires plan { plan.now ≡ all_extents (trees (map tree_of items.now)) }
    requires near { canonical.all_behind (form_of form)
        (canonical.measures (trees (map tree_of items.now))) ≤ canonical.max_document_bytes }
    ensures ok { OnOk result (out.new.items ≡ out.old.items
        ++ canonical.values_behind (form_of form)
        (canonical.spellings (trees (map tree_of items.now)))) }
    ensures kept { Extends out.old.items out.new.items }
{
    let mut rest = plan;
    for item in items {
        let (own, others) = split_plan(item, rest);
        push_behind(item, own, form, out)?;
        rest = others;
    }
    Ok(())
}

// The values of an object that don't stand in their entries.
#[cycle(write)]
fn push_members(
    items: &[Member],
    plan: &[Extent],
    form: Form,
    out: &mut Vec<u8>,
) -> Result<(), AllocError>
    requires plan { plan.now ≡ member_extents (members (map pair_of items.now)) }
    requires near { canonical.all_behind (form_of form)
        (canonical.member_measures (members (map pair_of items.now)))
        ≤ canonical.max_document_bytes }
    ensures ok { OnOk result (out.new.items ≡ out.old.items
        ++ canonical.values_behind (form_of form)
        (canonical.member_spellings (members (map pair_of items.now)))) }
    ensures kept { Extends out.old.items out.new.items }
{
    let mut rest = plan;
    for item in items {
        let (own, others) = split_plan(&item.value, rest);
        push_behind(&item.value, own, form, out)?;
        rest = others;
    }
    Ok(())
}

// A value that doesn't stand in its entry.
#[cycle(write)]
fn push_behind(
    tree: &Json,
    plan: &[Extent],
    form: Form,
    out: &mut Vec<u8>,
) -> Result<(), AllocError>
    requires plan { plan.now ≡ extents (tree_of tree.now) }
    requires near { canonical.behind (form_of form) (canonical.measure (tree_of tree.now))
        ≤ canonical.max_document_bytes }
    ensures ok { OnOk result (out.new.items ≡ out.old.items
        ++ (if layout.is_inlined (form_of form) (canonical.spelling (tree_of tree.now)).0
        then [] else (canonical.spelling (tree_of tree.now)).1)) }
    ensures kept { Extends out.old.items out.new.items }
{
    if measured(tree, plan).kind.is_inlined(form) {
        return Ok(());
    }
    push_value(tree, plan, out)?;
    Ok(())
}
