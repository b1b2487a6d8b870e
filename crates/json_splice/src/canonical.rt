//! Whether a value stands canonically: one scan, without memory.
ghost use Rattle.std.specs.Prelude.{◌≡◌, ◌≤◌, ◌<◌, ◌+◌, ℕ, List, length, true, IfSome};
ghost use Rattle.tree_model.specs.Tree.{Tree, Trees, depth};
ghost use Rattle.binary_model.specs.Layout as layout;
ghost use Rattle.binary_model.specs.Stands.{IsValue};
ghost use Rattle.binary_model.specs.Canonical.{spelling, spellings, max_small_bytes};
ghost use Rattle.json_binary.specs.View.{form_of};
ghost use Rattle.json_binary.specs.Place.{container_of, spot_of, IsFramed, IsInside};
ghost use Rattle.json_splice.specs.Spelled.{IsSpelledAt, NamesKeys, HoldsTrees, AreValuesAt, IsEntryAt, IsContainerAt};

use crate::entry::{Size, entries_size, is_entry};
use crate::keys::keys_size;
use crate::scalars::{signed_size, text_size, unsigned_size};
use json_binary::{Container, Form, Kind, MAX_SMALL_BYTES, Spot, child, container_in};

/// Where values end.
#[derive(Clone, Copy)]
pub struct Behind {
    /// By an offset in their container.
    pub end: usize,
    /// What they would take behind the entries of a small one.
    pub small: usize,
}

/// How many bytes the value at a spot takes behind its type byte, where it stands there
/// canonically with at most so many containers nested; none elsewhere. It is read once.
#[cycle(canonical_size)]
pub fn canonical_size(bytes: &[u8], spot: Spot, nesting: u32) -> Option<usize>
    requires inside { IsInside bytes.now spot }
    ensures { IfSome result (λ n. (t : Tree) → IsValue bytes.now t (spot_of spot) →
        depth t ≤ nesting → IsSpelledAt bytes.now t (spot_of spot) n) }
{
    match Kind::of(bytes[spot.type_at]) {
        Some(Kind::Literal) => Some(1),
        Some(Kind::Signed(width)) => signed_size(bytes, spot, width),
        Some(Kind::Unsigned(width)) => unsigned_size(bytes, spot, width),
        Some(Kind::Text) => text_size(bytes, spot),
        _ if nesting == 0 => None,
        _ => match container_in(bytes, spot) {
            Some(container) => container_size(bytes, container, nesting - 1),
            None => None,
        },
    }
}

// The size of a container that stands canonically.
#[cycle(canonical_size)]
fn container_size(bytes: &[u8], container: Container, nesting: u32) -> Option<usize>
    requires framed { IsFramed bytes.now container }
    ensures { IfSome result (λ n. (ks : List (List ℕ)) (ts : Trees)
        → NamesKeys bytes.now (container_of container) ks →
        HoldsTrees bytes.now (container_of container) nesting ts →
        IsContainerAt bytes.now (container_of container) ks (spellings ts) n) }
{
    let (form, count) = (container.form, container.count(bytes));
    let entries = entries_size(form, container.is_object, count);
    let keys = keys_size(bytes, container, entries)?;
    let offset = entries.checked_add(keys)?;
    let behind = values_behind(bytes, container, offset, nesting)?;
    let wide = entries_size(Form::Small, container.is_object, count);
    let small = wide.checked_add(keys)?.checked_add(behind.small)?;
    if !needs_form(form, small) {
        return None;
    }
    Some(behind.end)
}

// Whether a container of this form has to have it, where a small one would have this size: that a
// small one may be small is seen from its size.
fn needs_form(form: Form, small: usize) -> bool
    ensures { result ≡ true → form_of form ≡ layout.large → max_small_bytes < small }
{
    match form {
        Form::Small => true,
        Form::Large => small > MAX_SMALL_BYTES,
    }
}

// What all values of a container take, where their entries are the canonical ones, and the values
// stand one behind another from this offset on to its end.
#[cycle(canonical_size)]
fn values_behind(bytes: &[u8], container: Container, offset: usize, nesting: u32) -> Option<Behind>
    requires framed { IsFramed bytes.now container }
    ensures { IfSome result (λ b. (ts : Trees)
        → HoldsTrees bytes.now (container_of container) nesting ts →
        AreValuesAt bytes.now (container_of container) offset (spellings ts) b) }
{
    let mut end = offset;
    let mut small = 0usize;
    for k in 0..container.count(bytes) {
        let size = value_size(bytes, container, k, end, nesting)?;
        end = end.checked_add(size.behind(container.form))?;
        small = small.checked_add(size.behind(Form::Small))?;
    }
    if container.end(bytes) - container.at != end {
        return None;
    }
    Some(Behind { end, small })
}

// The k-th value's size, where its entry is the canonical one.
#[cycle(canonical_size)]
fn value_size(
    bytes: &[u8],
    container: Container,
    k: usize,
    offset: usize,
    nesting: u32,
) -> Option<Size>
    requires framed { IsFramed bytes.now container }
    requires inside { k < layout.count bytes.now (container_of container) }
    ensures { IfSome result (λ size. (t : Tree)
        → IsValue bytes.now t (layout.child bytes.now (container_of container) k) →
        depth t ≤ nesting →
        IsEntryAt bytes.now (container_of container) k offset (spelling t) size) }
{
    let spot = child(bytes, container, k)?;
    let kind = Kind::of(bytes[spot.type_at])?;
    let size = Size {
        kind,
        bytes: canonical_size(bytes, spot, nesting)?,
    };
    if is_entry(bytes, container, spot, size, offset) {
        Some(size)
    } else {
        None
    }
}
