//! What an encoding takes, measured once before a byte is written.
//!
//! Whether a container is small depends on the sizes of its values, and the entries with their
//! offsets stand in front of the values. So a first pass notes each container's form and size, an
//! outer one before those in it, and a second pass writes.
ghost use Rattle.std.specs.Prelude.{◌≡◌, ◌+◌, ◌*◌, ◌≤◌, ◌++◌, ℕ, List, [], map, length, IfOk, OnOk};
ghost use Rattle.tree_model.specs.Tree as tree;
ghost use Rattle.tree_model.specs.Tree.{trees, members, IsTree, AreTrees, HoldTrees};
ghost use Rattle.binary_model.specs.Layout as layout;
ghost use Rattle.binary_model.specs.Canonical as canonical;
ghost use Rattle.json_tree.specs.View.{tree_of, pair_of};
ghost use Rattle.json_binary.specs.View.{form_of, kind_of};
ghost use Rattle.json_binary.specs.Sizes.{capped, extents, all_extents, member_extents, extent, IsMeasured, AreOutOfLine};

use crate::MAX_SMALL_BYTES;
use crate::codec::numbers::{group_count, number_kind};
use crate::cursor::layout::{Form, Kind};
use json_tree::{Json, Member};
use std::alloc::AllocError;

/// What a container takes. Sizes stand still at their type's end.
#[derive(Clone, Copy)]
pub struct Extent {
    pub form: Form,
    /// Its bytes, from the first of the count on.
    pub size: usize,
    /// How many containers stand in it, at all depths.
    pub inside: usize,
}

/// The type of a value, and how many bytes it takes behind its type byte.
#[derive(Clone, Copy)]
pub struct Measured {
    pub kind: Kind,
    pub size: usize,
}

/// What the values of a container take behind its entries, in either form.
#[derive(Clone, Copy)]
pub struct OutOfLine {
    pub small: usize,
    pub large: usize,
}

/// Measures a value, and notes what the containers in it take.
#[cycle(measure)]
pub fn measure(tree: &Json, plan: &mut Vec<Extent>) -> Result<Measured, AllocError>
    ensures measured { IfOk result (IsMeasured (tree_of tree.now)) }
    ensures plan { OnOk result (plan.new.items ≡ plan.old.items ++ extents (tree_of tree.now)) }
    ensures is_tree { OnOk result (IsTree (tree_of tree.now)) }
{
    match tree {
        Json::List(list) => measure_array(list.as_slice(), plan),
        Json::Object(members) => measure_object(members.as_slice(), plan),
        scalar => Ok(measure_scalar(scalar)),
    }
}

/// Measures a scalar; a container is none.
pub fn measure_scalar(tree: &Json) -> Measured
    ensures measured { extents (tree_of tree.now) ≡ [] → IsMeasured (tree_of tree.now) result }
    ensures is_tree { extents (tree_of tree.now) ≡ [] → IsTree (tree_of tree.now) }
{
    match tree {
        Json::Number(whole) => {
            let kind = number_kind(*whole);
            Measured {
                kind,
                size: kind.number_width(),
            }
        }
        Json::Text(text) => Measured {
            kind: Kind::Text,
            size: text
                .as_str()
                .len()
                .saturating_add(group_count(text.len(), 5)),
        },
        _ => Measured {
            kind: Kind::Literal,
            size: 1,
        },
    }
}

#[cycle(measure)]
fn measure_array(items: &[Json], plan: &mut Vec<Extent>) -> Result<Measured, AllocError>
    ensures measured { IfOk result (IsMeasured (tree.array (trees (map tree_of items.now)))) }
    ensures plan { OnOk result (plan.new.items ≡ plan.old.items
        ++ extents (tree.array (trees (map tree_of items.now)))) }
    ensures are_trees { OnOk result (AreTrees (trees (map tree_of items.now))) }
{
    let slot = plan.len();
    plan.push(UNKNOWN)?;
    let behind = measure_elements(items, plan)?;
    let inside = plan.len() - slot - 1;
    let extent = extent_for(false, items.len(), 0, behind, inside);
    plan[slot] = extent;
    Ok(Measured {
        kind: Kind::Array(extent.form),
        size: extent.size,
    })
}

#[cycle(measure)]
fn measure_object(items: &[Member], plan: &mut Vec<Extent>) -> Result<Measured, AllocError>
    ensures measured { IfOk result (IsMeasured (tree.object (members (map pair_of items.now)))) }
    ensures plan { OnOk result (plan.new.items ≡ plan.old.items
        ++ extents (tree.object (members (map pair_of items.now)))) }
    ensures hold_trees { OnOk result (HoldTrees (members (map pair_of items.now))) }
{
    let slot = plan.len();
    plan.push(UNKNOWN)?;
    let behind = measure_members(items, plan)?;
    let inside = plan.len() - slot - 1;
    let extent = extent_for(true, items.len(), keys_length(items), behind, inside);
    plan[slot] = extent;
    Ok(Measured {
        kind: Kind::Object(extent.form),
        size: extent.size,
    })
}

// Stands for an extent until what is in the container is measured.
const UNKNOWN: Extent = Extent {
    form: Form::Small,
    size: 0,
    inside: 0,
};

#[cycle(measure)]
fn measure_elements(items: &[Json], plan: &mut Vec<Extent>) -> Result<OutOfLine, AllocError>
    ensures behind { IfOk result (AreOutOfLine
        (canonical.measures (trees (map tree_of items.now)))) }
    ensures plan { OnOk result (plan.new.items ≡ plan.old.items
        ++ all_extents (trees (map tree_of items.now))) }
    ensures are_trees { OnOk result (AreTrees (trees (map tree_of items.now))) }
{
    let mut behind = OutOfLine { small: 0, large: 0 };
    for item in items {
        let measured = measure(item, plan)?;
        behind = behind.and(measured);
    }
    Ok(behind)
}

#[cycle(measure)]
fn measure_members(items: &[Member], plan: &mut Vec<Extent>) -> Result<OutOfLine, AllocError>
    ensures behind { IfOk result (AreOutOfLine
        (canonical.member_measures (members (map pair_of items.now)))) }
    ensures plan { OnOk result (plan.new.items ≡ plan.old.items
        ++ member_extents (members (map pair_of items.now))) }
    ensures hold_trees { OnOk result (HoldTrees (members (map pair_of items.now))) }
{
    let mut behind = OutOfLine { small: 0, large: 0 };
    for item in items {
        let measured = measure(&item.value, plan)?;
        behind = behind.and(measured);
    }
    Ok(behind)
}

/// The bytes of all keys.
pub fn keys_length(items: &[Member]) -> usize
    ensures { result ≡ capped (canonical.keys_length (members (map pair_of items.now))) }
{
    let mut length = 0usize;
    for item in items {
        length = length.saturating_add(item.key.len());
    }
    length
}

impl Measured {
    /// What it takes behind the entries of a container of this form.
    pub fn behind(self, form: Form) -> usize
        ensures { result ≡ canonical.behind (form_of form) (kind_of self.kind, self.size) }
    {
        if self.kind.is_inlined(form) {
            0
        } else {
            self.size
        }
    }
}

impl OutOfLine {
    fn and(self, measured: Measured) -> OutOfLine
        ensures small { result.small ≡ capped
            (self.small + canonical.behind layout.small (kind_of measured.kind, measured.size)) }
        ensures large { result.large ≡ capped
            (self.large + canonical.behind layout.large (kind_of measured.kind, measured.size)) }
    {
        OutOfLine {
            small: self.small.saturating_add(measured.behind(Form::Small)),
            large: self.large.saturating_add(measured.behind(Form::Large)),
        }
    }
}

/// The bytes of a container's header and entries.
pub fn entries_size(form: Form, is_object: bool, count: usize) -> usize
    ensures { result ≡ capped (canonical.entries_size (form_of form) is_object count) }
{
    let keys = if is_object { form.key_width() } else { 0 };
    count
        .saturating_mul(keys + form.value_width())
        .saturating_add(2 * form.word())
}

// What a container takes that has so many values, which take so much behind the entries.
fn extent_for(
    is_object: bool,
    count: usize,
    keys: usize,
    behind: OutOfLine,
    inside: usize,
) -> Extent
    ensures { (n : ℕ) (vs : List canonical.Measure) → length vs ≡ count → keys ≡ capped n
        → AreOutOfLine vs behind →
        result ≡ extent is_object n vs inside }
{
    let small = entries_size(Form::Small, is_object, count)
        .saturating_add(keys)
        .saturating_add(behind.small);
    if small <= MAX_SMALL_BYTES {
        return Extent {
            form: Form::Small,
            size: small,
            inside,
        };
    }
    let large = entries_size(Form::Large, is_object, count)
        .saturating_add(keys)
        .saturating_add(behind.large);
    Extent {
        form: Form::Large,
        size: large,
        inside,
    }
}
