//! The text of the tree that bytes stand for, read in place: nothing is built.
ghost use Rattle.std.specs.Prelude.{◌≡◌, ◌≤◌, ◌<◌, ◌++◌, ◌∷◌, ℕ, [], map, length, true, false, Ok, OnOk, OnErr};
ghost use Rattle.json.specs.Print.{quoted};
ghost use Rattle.tree_model.specs.Tree.{Tree, Trees, Members, depth, trees_depth, members_depth, tree_list, member_list};
ghost use Rattle.tree_model.specs.Text.{tree_text, trees_text, members_text, comma_if};
ghost use Rattle.binary_model.specs.Layout as layout;
ghost use Rattle.binary_model.specs.Stands.{IsValue, AreKeys, AreElements, HoldValues, Stands};
ghost use Rattle.json_tree.specs.View.{tree_of};
ghost use Rattle.json_binary.specs.View.{form_of};
ghost use Rattle.json_binary.specs.Place.{container_of, spot_of, IsFramed, IsInside};
ghost use Rattle.json_binary.specs.Decoding.{Gives};
ghost use Rattle.json_tree.specs.Writing.{Extends};

use crate::DecodeError;
use crate::cursor::containers::{child, root};
use crate::cursor::frame::check_frame;
use crate::cursor::layout::{Form, Kind};
use crate::cursor::place::{Container, Spot};
use crate::cursor::scalars::{Found, read_literal, read_signed, read_unsigned, text_range};
use json_tree::{MAX_DEPTH, push_quoted_bytes, to_text};
use std::alloc::AllocError;

/// Appends the text of the tree that a document stands for. Where a tree stands, only memory can
/// run out; bytes in which none is found are answered by the same error. At `Err` the text is as
/// before.
pub fn print(bytes: &[u8], out: &mut Vec<u8>) -> Result<(), AllocError>
    ensures ok { OnOk result ((t : Tree) → Stands bytes.now t
        → out.new.items ≡ out.old.items ++ tree_text t) }
    ensures err { OnErr result (out.new.items ≡ out.old.items) }
{
    if bytes.is_empty() {
        return Err(AllocError);
    }
    let before = out.len();
    let written = push_value(bytes, root(bytes), MAX_DEPTH, out);
    if written.is_err() {
        out.truncate(before);
    }
    written
}

#[cycle(print)]
#[tactic(auto, using(json_tree::proofs::Growth::extends_more, json_tree::proofs::Growth::extends_on, json_tree::proofs::Growth::extends_itself))]
fn push_value(bytes: &[u8], spot: Spot, nesting: u32, out: &mut Vec<u8>) -> Result<(), AllocError>
    requires inside { IsInside bytes.now spot }
    ensures ok { OnOk result ((t : Tree) → IsValue bytes.now t (spot_of spot) → depth t ≤ nesting →
        out.new.items ≡ out.old.items ++ tree_text t) }
    ensures kept { Extends out.old.items out.new.items }
{
    match Kind::of(bytes[spot.type_at]) {
        Some(Kind::Array(form)) => push_array(bytes, spot, form, nesting, out),
        Some(Kind::Object(form)) => push_object(bytes, spot, form, nesting, out),
        Some(Kind::Literal) => push_found(read_literal(bytes, spot), out),
        Some(Kind::Signed(width)) => push_found(read_signed(bytes, spot, width), out),
        Some(Kind::Unsigned(width)) => push_found(read_unsigned(bytes, spot, width), out),
        Some(Kind::Text) => push_letters(bytes, spot, out),
        None => Err(AllocError),
    }
}

// A scalar that was read.
#[tactic(auto, using(json_tree::proofs::Growth::extends_more, json_tree::proofs::Growth::extends_by, json_tree::proofs::Growth::extends_itself))]
fn push_found(found: Result<Found, DecodeError>, out: &mut Vec<u8>) -> Result<(), AllocError>
    ensures ok { OnOk result ((t : Tree) → Gives (λ f. tree_of f.value) found (Ok t) →
        out.new.items ≡ out.old.items ++ tree_text t) }
    ensures kept { Extends out.old.items out.new.items }
{
    match found {
        Ok(found) => to_text(&found.value, out),
        Err(_) => Err(AllocError),
    }
}

fn push_letters(bytes: &[u8], spot: Spot, out: &mut Vec<u8>) -> Result<(), AllocError>
    requires inside { IsInside bytes.now spot }
    requires kind { layout.kind_at bytes.now spot.type_at ≡ layout.string }
    ensures ok { OnOk result ((t : Tree) → IsValue bytes.now t (spot_of spot) →
        out.new.items ≡ out.old.items ++ tree_text t) }
    ensures kept { Extends out.old.items out.new.items }
{
    match text_range(bytes, spot) {
        Some((start, end)) => push_quoted_bytes(&bytes[start..end], out),
        None => Err(AllocError),
    }
}

#[cycle(print)]
#[tactic(auto, using(json_tree::proofs::Growth::extends_more, json_tree::proofs::Growth::extends_on, json_tree::proofs::Growth::extends_itself))]
fn push_array(
    bytes: &[u8],
    spot: Spot,
    form: Form,
    nesting: u32,
    out: &mut Vec<u8>,
) -> Result<(), AllocError>
    requires inside { IsInside bytes.now spot }
    requires kind { layout.kind_at bytes.now spot.type_at ≡ layout.array_in (form_of form) }
    ensures ok { OnOk result ((t : Tree) → IsValue bytes.now t (spot_of spot) → depth t ≤ nesting →
        out.new.items ≡ out.old.items ++ tree_text t) }
    ensures kept { Extends out.old.items out.new.items }
{
    let container = Container {
        form,
        is_object: false,
        at: spot.at,
    };
    if nesting == 0 {
        return Err(AllocError);
    }
    let Ok(()) = check_frame(bytes, container, spot.limit) else {
        return Err(AllocError);
    };
    out.push(b'[')?;
    push_elements(bytes, container, nesting - 1, out)?;
    out.push(b']')?;
    Ok(())
}

#[cycle(print)]
#[tactic(auto, using(json_tree::proofs::Growth::extends_more, json_tree::proofs::Growth::extends_on, json_tree::proofs::Growth::extends_itself))]
fn push_object(
    bytes: &[u8],
    spot: Spot,
    form: Form,
    nesting: u32,
    out: &mut Vec<u8>,
) -> Result<(), AllocError>
    requires inside { IsInside bytes.now spot }
    requires kind { layout.kind_at bytes.now spot.type_at ≡ layout.object_in (form_of form) }
    ensures ok { OnOk result ((t : Tree) → IsValue bytes.now t (spot_of spot) → depth t ≤ nesting →
        out.new.items ≡ out.old.items ++ tree_text t) }
    ensures kept { Extends out.old.items out.new.items }
{
    let container = Container {
        form,
        is_object: true,
        at: spot.at,
    };
    if nesting == 0 {
        return Err(AllocError);
    }
    let Ok(()) = check_frame(bytes, container, spot.limit) else {
        return Err(AllocError);
    };
    out.push(b'{')?;
    push_members(bytes, container, nesting - 1, out)?;
    out.push(b'}')?;
    Ok(())
}

#[cycle(print)]
#[tactic(auto, using(json_tree::proofs::Growth::extends_more, json_tree::proofs::Growth::extends_on, json_tree::proofs::Growth::extends_itself))]
fn push_elements(
    bytes: &[u8],
    container: Container,
    nesting: u32,
    out: &mut Vec<u8>,
) -> Result<(), AllocError>
    requires framed { IsFramed bytes.now container }
    ensures ok { OnOk result ((ts : Trees) (floor : ℕ)
        → AreElements bytes.now (container_of container) 0 floor ts →
        length (tree_list ts) ≡ layout.count bytes.now (container_of container)
        → trees_depth ts ≤ nesting →
        out.new.items ≡ out.old.items ++ trees_text false ts) }
    ensures kept { Extends out.old.items out.new.items }
{
    let mut later = false;
    for k in 0..container.count(bytes) {
        push_comma(later, out)?;
        push_child(bytes, container, k, nesting, out)?;
        later = true;
    }
    Ok(())
}

#[cycle(print)]
#[tactic(auto, using(json_tree::proofs::Growth::extends_more, json_tree::proofs::Growth::extends_on, json_tree::proofs::Growth::extends_itself))]
fn push_members(
    bytes: &[u8],
    container: Container,
    nesting: u32,
    out: &mut Vec<u8>,
) -> Result<(), AllocError>
    requires framed { IsFramed bytes.now container }
    requires object { container.is_object ≡ true }
    ensures ok { OnOk result ((ms : Members) (start floor : ℕ) →
        AreKeys bytes.now (container_of container) 0 start (map (λ m. m.0) (member_list ms)) →
        HoldValues bytes.now (container_of container) 0 floor ms →
        length (member_list ms) ≡ layout.count bytes.now (container_of container)
        → members_depth ms ≤ nesting →
        out.new.items ≡ out.old.items ++ members_text false ms) }
    ensures kept { Extends out.old.items out.new.items }
{
    let mut later = false;
    for k in 0..container.count(bytes) {
        push_comma(later, out)?;
        push_key(bytes, container, k, out)?;
        push_child(bytes, container, k, nesting, out)?;
        later = true;
    }
    Ok(())
}

// The k-th value.
#[cycle(print)]
fn push_child(
    bytes: &[u8],
    container: Container,
    k: usize,
    nesting: u32,
    out: &mut Vec<u8>,
) -> Result<(), AllocError>
    requires framed { IsFramed bytes.now container }
    requires inside { k < layout.count bytes.now (container_of container) }
    ensures ok { OnOk result ((t : Tree)
        → IsValue bytes.now t (layout.child bytes.now (container_of container) k) →
        depth t ≤ nesting → out.new.items ≡ out.old.items ++ tree_text t) }
    ensures kept { Extends out.old.items out.new.items }
{
    match child(bytes, container, k) {
        Some(spot) => push_value(bytes, spot, nesting, out),
        None => Err(AllocError),
    }
}

// The k-th key, and what stands behind it.
#[tactic(auto, using(json_tree::proofs::Growth::extends_more, json_tree::proofs::Growth::extends_on, json_tree::proofs::Growth::extends_itself))]
fn push_key(
    bytes: &[u8],
    container: Container,
    k: usize,
    out: &mut Vec<u8>,
) -> Result<(), AllocError>
    requires framed { IsFramed bytes.now container }
    requires object { container.is_object ≡ true }
    requires inside { k < layout.count bytes.now (container_of container) }
    ensures ok { OnOk result (out.new.items
        ≡ out.old.items ++ (quoted (layout.key_of bytes.now (container_of container) k) ++ 58 ∷ 32
        ∷ [])) }
    ensures kept { Extends out.old.items out.new.items }
{
    let (start, end) = container.key_range(bytes, k);
    if bytes.len() < end {
        return Err(AllocError);
    }
    push_quoted_bytes(&bytes[start..end], out)?;
    out.extend_from_slice(b": ")
}

fn push_comma(later: bool, out: &mut Vec<u8>) -> Result<(), AllocError>
    ensures ok { OnOk result (out.new.items ≡ out.old.items ++ comma_if later) }
    ensures kept { Extends out.old.items out.new.items }
{
    if later {
        out.extend_from_slice(b", ")
    } else {
        Ok(())
    }
}
