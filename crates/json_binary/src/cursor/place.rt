//! Values and containers in place: plain places in the document's bytes.
//!
//! | Part of a container | Small | Large |
//! |---|---|---|
//! | count, size | 2 bytes each | 4 bytes each |
//! | key entry, in objects: offset, length | 2 + 2 | 4 + 2 |
//! | value entry: type, offset or inlined value | 1 + 2 | 1 + 4 |
//!
//! OutOfLine count and size stand the key entries, then the value entries.
ghost use Rattle.std.specs.Prelude.{◌≡◌, ◌<◌, ◌≤◌, ◌+◌, ◌^◌, ℕ, true, length};
ghost use Rattle.binary_model.specs.Layout as layout;
ghost use Rattle.json_binary.specs.View.{form_of};
ghost use Rattle.json_binary.specs.Place.{container_of, spot_of, IsFramed};

use crate::cursor::layout::{Form, Kind, two_at};

/// A value in place: its type byte, its first byte, and the end of what it may reach. The first
/// byte of a value that stands in its entry is the one behind its type byte.
#[derive(Clone, Copy, Debug)]
pub struct Spot {
    pub type_at: usize,
    pub at: usize,
    pub limit: usize,
}

/// A container in place, whose offsets count from its first byte.
#[derive(Clone, Copy, Debug)]
pub struct Container {
    pub form: Form,
    /// Whether it is an object.
    pub is_object: bool,
    pub at: usize,
}

impl Container {
    /// Where the entries begin.
    pub fn header_end(self, bytes: &[u8]) -> usize
        requires framed { IsFramed bytes.now self }
        ensures { result ≡ layout.header_end (container_of self) }
    {
        self.at + 2 * self.form.word()
    }

    /// How many values it has.
    pub fn count(self, bytes: &[u8]) -> usize
        requires framed { IsFramed bytes.now self }
        ensures count { result ≡ layout.count bytes.now (container_of self) }
        ensures bound { result < 2 ^ 32 }
    {
        self.form.word_at(bytes, self.at)
    }

    /// The place behind its last byte.
    pub fn end(self, bytes: &[u8]) -> usize
        requires framed { IsFramed bytes.now self }
        ensures place { result ≡ layout.end bytes.now (container_of self) }
        ensures inside { result ≤ length bytes.now }
    {
        self.at + self.form.word_at(bytes, self.at + self.form.word())
    }

    /// The place of a key's entry.
    pub fn key_entry(self, bytes: &[u8], k: usize) -> usize
        requires framed { IsFramed bytes.now self }
        requires object { self.is_object ≡ true }
        requires inside { k < layout.count bytes.now (container_of self) }
        ensures place { result ≡ layout.key_entry (container_of self) k }
        ensures whole { result + layout.key_width (form_of self.form) ≤ length bytes.now }
    {
        self.header_end(bytes) + k * self.form.key_width()
    }

    /// Where the value entries begin.
    fn values_at(self, bytes: &[u8]) -> usize
        requires framed { IsFramed bytes.now self }
        ensures { result ≡ layout.values_at bytes.now (container_of self) }
    {
        if self.is_object {
            self.header_end(bytes) + self.count(bytes) * self.form.key_width()
        } else {
            self.header_end(bytes)
        }
    }

    /// Where the entries end.
    pub fn entries_end(self, bytes: &[u8]) -> usize
        requires framed { IsFramed bytes.now self }
        ensures { result ≡ layout.entries_end bytes.now (container_of self) }
    {
        self.values_at(bytes) + self.count(bytes) * self.form.value_width()
    }

    /// The place of a value's entry.
    pub fn value_entry(self, bytes: &[u8], k: usize) -> usize
        requires framed { IsFramed bytes.now self }
        requires inside { k < layout.count bytes.now (container_of self) }
        ensures place { result ≡ layout.value_entry bytes.now (container_of self) k }
        ensures whole { result + layout.value_width (form_of self.form)
            ≤ layout.end bytes.now (container_of self) }
    {
        self.values_at(bytes) + k * self.form.value_width()
    }

    /// From where to where the k-th key stands.
    pub fn key_range(self, bytes: &[u8], k: usize) -> (usize, usize)
        requires framed { IsFramed bytes.now self }
        requires object { self.is_object ≡ true }
        requires inside { k < layout.count bytes.now (container_of self) }
        ensures from { result.0 ≡ layout.key_at bytes.now (container_of self) k }
        ensures to { result.1 ≡ layout.key_end bytes.now (container_of self) k }
    {
        let entry = self.key_entry(bytes, k);
        let start = self.at + self.form.word_at(bytes, entry);
        let length = two_at(bytes, entry + self.form.word());
        (start, start + length as usize)
    }

    /// Where the values begin at the earliest: at the end of the keys, or of the entries where
    /// there are none.
    pub fn values_floor(self, bytes: &[u8]) -> usize
        requires framed { IsFramed bytes.now self }
        ensures { result ≡ layout.values_floor bytes.now (container_of self) }
    {
        let count = self.count(bytes);
        if self.is_object && count > 0 {
            self.key_range(bytes, count - 1).1
        } else {
            self.entries_end(bytes)
        }
    }

    /// The k-th value in place.
    #[tactic(auto, using(crate::proofs::Codes::others_stand_apart))]
    pub fn child(self, bytes: &[u8], k: usize) -> Spot
        requires framed { IsFramed bytes.now self }
        requires inside { k < layout.count bytes.now (container_of self) }
        ensures { spot_of result ≡ layout.child bytes.now (container_of self) k }
    {
        let type_at = self.value_entry(bytes, k);
        let at = if self.inlines(bytes, type_at) {
            type_at + 1
        } else {
            self.at + self.form.word_at(bytes, type_at + 1)
        };
        Spot {
            type_at,
            at,
            limit: self.end(bytes),
        }
    }

    /// Whether the value of that type byte stands in its entry.
    #[tactic(auto, using(crate::proofs::Codes::others_stand_apart))]
    pub fn inlines(self, bytes: &[u8], type_at: usize) -> bool
        requires { type_at < length bytes.now }
        ensures { result ≡ layout.is_inlined (form_of self.form)
            (layout.kind_at bytes.now type_at) }
    {
        match Kind::of(bytes[type_at]) {
            Some(kind) => kind.is_inlined(self.form),
            None => false,
        }
    }
}
