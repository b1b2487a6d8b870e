//! An edit in place, as writes into the document's bytes.
ghost use Rattle.std.specs.Prelude.{◌≡◌, ◌≤◌, ◌<◌, ◌+◌, ◌++◌, ◌∷◌, ℕ, List, [], length, IfOk, IfSome, OnOk, Some, option_map};
ghost use Rattle.tree_model.specs.Tree.{Tree, IsTree};
ghost use Rattle.binary_model.specs.Layout as layout;
ghost use Rattle.binary_model.specs.Change as change;
ghost use Rattle.binary_model.specs.Canonical as canonical;
ghost use Rattle.binary_model.specs.Canonical.{max_document_bytes};
ghost use Rattle.json_tree.specs.View.{tree_of};
ghost use Rattle.json_binary.specs.Writing.{spelling_of};
ghost use Rattle.json_binary.specs.Place.{container_of, IsFramed};
ghost use Rattle.json_patch.specs.Stand.{HasValues};
ghost use Rattle.json_patch.specs.Writes.{put_writes, AreInside, AreWritesFor};
ghost use Rattle.json_patch.specs.Spans.{DifferInSpans};

use crate::parts::put;
use crate::room::{room_end, room_start};
use crate::spans::Span;
use json_binary::{Container, EncodeError, Spelled, entry_bytes, push_word, value_bytes};
use json_tree::Json;
use std::alloc::{AllocError, Global};

/// Bytes to be written at a place.
#[derive(Drop)]
pub struct Write {
    pub at: usize,
    pub bytes: Vec<u8>,
}

/// Makes writes, one after the other, and notes where. At an error some of them may be made.
pub fn write_all(
    bytes: &mut [u8],
    spans: &mut Vec<Span>,
    writes: &[Write],
) -> Result<(), AllocError>
    requires { AreInside (length bytes.old) writes.now }
    ensures put { OnOk result (bytes.new ≡ put_writes writes.now bytes.old) }
    ensures noted { OnOk result ((old : List ℕ) → DifferInSpans old bytes.old spans.old.items →
        DifferInSpans old bytes.new spans.new.items) }
{
    for write in writes {
        let end = write.at + write.bytes.len();
        spans.push(Span { at: write.at, end })?;
        put(bytes, write.at, write.bytes.as_slice());
    }
    Ok(())
}

/// The writes that replace a container's k-th value; none, where the new one doesn't fit its room.
pub fn replacing(
    alloc: Global,
    bytes: &[u8],
    container: Container,
    k: usize,
    value: &Json,
) -> Result<Option<Vec<Write>>, AllocError>
    requires stands { HasValues bytes.now container }
    requires inside { k < layout.count bytes.now (container_of container) }
    requires small { length bytes.now ≤ max_document_bytes }
    ensures writes { IfOk result (λ found. AreWritesFor bytes.now
        (change.with_value bytes.now (canonical.spelling (tree_of value.now))
        (container_of container) k)
        (option_map (λ ws. ws.items) found)) }
    // What the value's types keep.
    ensures is_tree { IfOk result (λ found. IfSome found (λ ws. IsTree (tree_of value.now))) }
{
    match value_bytes(alloc, value) {
        Ok(spelled) => replacing_by(alloc, bytes, container, k, spelled),
        Err(EncodeError::Large) => Ok(None),
        Err(EncodeError::Memory) => Err(AllocError),
    }
}

// The same, for a value that is spelled: in its entry, or at a place with its offset in the entry.
fn replacing_by(
    alloc: Global,
    bytes: &[u8],
    container: Container,
    k: usize,
    value: Spelled,
) -> Result<Option<Vec<Write>>, AllocError>
    requires stands { HasValues bytes.now container }
    requires inside { k < layout.count bytes.now (container_of container) }
    requires small { length bytes.now ≤ max_document_bytes }
    requires spelled { (t : Tree) × (spelling_of value ≡ canonical.spelling t) }
    requires short { length value.bytes.items < max_document_bytes }
    ensures { IfOk result (λ found. AreWritesFor bytes.now
        (change.with_value bytes.now (spelling_of value) (container_of container) k)
        (option_map (λ ws. ws.items) found)) }
{
    let at = container.value_entry(bytes, k);
    if value.kind.is_inlined(container.form) {
        let bytes = entry_bytes(alloc, &value, container.form, 0)?;
        let writes = one_write(alloc, Write { at, bytes })?;
        return Ok(Some(writes));
    }
    let start = room_start(bytes, container, k);
    if room_end(bytes, container, k) < start.saturating_add(value.bytes.len()) {
        return Ok(None);
    }
    let entry = entry_bytes(alloc, &value, container.form, start - container.at)?;
    let first = Write { at, bytes: entry };
    let second = Write {
        at: start,
        bytes: value.bytes,
    };
    let writes = two_writes(alloc, first, second)?;
    Ok(Some(writes))
}

fn one_write(alloc: Global, first: Write) -> Result<Vec<Write>, AllocError>
    ensures { IfOk result (λ ws. ws.items ≡ first ∷ []) }
{
    let mut writes = Vec::with_capacity(alloc, 1)?;
    writes.push(first)?;
    Ok(writes)
}

fn two_writes(alloc: Global, first: Write, second: Write) -> Result<Vec<Write>, AllocError>
    ensures { IfOk result (λ ws. ws.items ≡ first ∷ second ∷ []) }
{
    let mut writes = Vec::with_capacity(alloc, 2)?;
    writes.push(first)?;
    writes.push(second)?;
    Ok(writes)
}

/// The writes that remove a container's k-th value: one less is counted, and the entries move
/// together.
pub fn removing(
    alloc: Global,
    bytes: &[u8],
    container: Container,
    k: usize,
) -> Result<Vec<Write>, AllocError>
    requires stands { HasValues bytes.now container }
    requires inside { k < layout.count bytes.now (container_of container) }
    ensures { IfOk result (λ ws. AreWritesFor bytes.now
        (change.without_value bytes.now (container_of container) k) (Some ws.items)) }
{
    let mut less = Vec::new(alloc);
    push_word(container.count(bytes) - 1, container.form.word(), &mut less)?;
    let entries = other_entries(alloc, bytes, container, k)?;
    let at = container.header_end(bytes);
    two_writes(
        alloc,
        Write {
            at: container.at,
            bytes: less,
        },
        Write { at, bytes: entries },
    )
}

// The entries of all keys and values but the k-th.
fn other_entries(
    alloc: Global,
    bytes: &[u8],
    container: Container,
    k: usize,
) -> Result<Vec<u8>, AllocError>
    requires framed { IsFramed bytes.now container }
    requires inside { k < layout.count bytes.now (container_of container) }
    ensures { IfOk result (λ out. out.items ≡ change.other_keys bytes.now (container_of container) k
        ++ change.other_values bytes.now (container_of container) k) }
{
    let form = container.form;
    let mut entries = Vec::new(alloc);
    let values_at = container.value_entry(bytes, 0);
    if container.is_object {
        let key = container.key_entry(bytes, k);
        entries.extend_from_slice(&bytes[container.header_end(bytes)..key])?;
        entries.extend_from_slice(&bytes[key + form.key_width()..values_at])?;
    }
    let value = container.value_entry(bytes, k);
    entries.extend_from_slice(&bytes[values_at..value])?;
    entries.extend_from_slice(&bytes[value + form.value_width()..container.entries_end(bytes)])?;
    Ok(entries)
}
