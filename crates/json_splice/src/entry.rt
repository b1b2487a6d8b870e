//! Whether a value's entry is the canonical one.
ghost use Rattle.std.specs.Prelude.{◌≡◌, ◌≤◌, ◌<◌, ◌+◌, ◌-◌, ◌^◌, ℕ, List, length, replicate, true, false};
ghost use Rattle.binary_model.specs.Layout.{is_inlined};
ghost use Rattle.binary_model.specs.Canonical as canonical;
ghost use Rattle.binary_model.specs.Canonical.{Spelling, behind, fill};
ghost use Rattle.binary_model.specs.Place.{Holds};
ghost use Rattle.json_binary.specs.View.{form_of, kind_of};
ghost use Rattle.json_binary.specs.Writing.{entry};
ghost use Rattle.json_splice.specs.Spelled.{IsSized};

use json_binary::{Container, Form, Kind, Spot};

/// The type of a value, and how many bytes it takes behind its type byte.
#[derive(Clone, Copy)]
pub struct Size {
    pub kind: Kind,
    pub bytes: usize,
}

impl Size {
    /// What it takes behind the entries of a container of this form.
    pub fn behind(self, form: Form) -> usize
        ensures { result ≡ behind (form_of form) (kind_of self.kind, self.bytes) }
    {
        if self.kind.is_inlined(form) {
            0
        } else {
            self.bytes
        }
    }
}

/// The bytes of a container's header and entries.
pub fn entries_size(form: Form, is_object: bool, count: usize) -> usize
    requires { count < 2 ^ 32 }
    ensures { result ≡ canonical.entries_size (form_of form) is_object count }
{
    let keys = if is_object { form.key_width() } else { 0 };
    2 * form.word() + (count * keys + count * form.value_width())
}

/// Whether the entry of a value that stands canonically at a spot is the canonical one, with this
/// offset where the value stands behind the entries.
pub fn is_entry(bytes: &[u8], container: Container, spot: Spot, size: Size, offset: usize) -> bool
    ensures { result ≡ true → (v : Spelling) → IsSized v size → Holds bytes.now spot.at v.1 →
        Holds bytes.now spot.type_at (entry (form_of container.form) offset v)
        × (is_inlined (form_of container.form) v.0 ≡ false →
        Holds bytes.now (container.at + offset) v.1) }
{
    let form = container.form;
    if bytes.len() <= spot.type_at || bytes.len() - spot.type_at <= form.word() {
        return false;
    }
    if bytes[spot.type_at] != size.kind.code() {
        return false;
    }
    let word_at = spot.type_at + 1;
    if size.kind.is_inlined(form) {
        spot.at == word_at && is_filled(bytes, word_at, size, word_at + form.word())
    } else {
        form.word_at(bytes, word_at) == offset && has_offset(container, spot, offset)
    }
}

fn has_offset(container: Container, spot: Spot, offset: usize) -> bool
    ensures { result ≡ true → container.at + offset ≡ spot.at }
{
    spot.at >= container.at && spot.at - container.at == offset
}

// Whether an inlined value's sign, or zeros, fill its entry.
fn is_filled(bytes: &[u8], at: usize, size: Size, end: usize) -> bool
    requires inside { end ≤ length bytes.now }
    ensures { result ≡ true → (v : Spelling) → IsSized v size → Holds bytes.now at v.1 →
        Holds bytes.now (at + length v.1) (replicate (end - (at + length v.1)) (fill v)) }
{
    let from = at.saturating_add(size.bytes);
    if end < from {
        return false;
    }
    let byte = fill_byte(&bytes[at..from], size.kind);
    are_all(bytes, from, end, byte)
}

/// What fills the entry behind a value that stands there: the sign of a number, else zeros.
pub fn fill_byte(value: &[u8], kind: Kind) -> u8
    ensures { result ≡ fill (kind_of kind, value.now) }
{
    match kind {
        Kind::Signed(width) => match value.get(width.bytes() - 1) {
            Some(high) if *high >= 128 => 0xff,
            _ => 0,
        },
        _ => 0,
    }
}

// Whether this byte stands at each place of a range.
fn are_all(bytes: &[u8], from: usize, end: usize, byte: u8) -> bool
    requires inside { end ≤ length bytes.now }
    requires rising { from ≤ end }
    ensures { result ≡ true → Holds bytes.now from (replicate (end - from) byte) }
{
    if end <= from {
        return true;
    }
    bytes[from] == byte && are_all(bytes, from + 1, end, byte)
}
