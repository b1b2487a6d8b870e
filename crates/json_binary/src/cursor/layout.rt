//! Type codes, and numbers of two, four and eight bytes, the lowest byte first.
//!
//! | Code | Type | Code | Type |
//! |---|---|---|---|
//! | 0 | small object | 6 | uint16 |
//! | 1 | large object | 7 | int32 |
//! | 2 | small array | 8 | uint32 |
//! | 3 | large array | 9 | int64 |
//! | 4 | literal | 10 | uint64 |
//! | 5 | int16 | 12 | string |
ghost use Rattle.std.specs.Prelude.{◌≡◌, ◌<◌, ◌≤◌, ◌+◌, ◌^◌, length};
ghost use Rattle.binary_model.specs.Layout as layout;
ghost use Rattle.binary_model.specs.Canonical as canonical;
ghost use Rattle.json_binary.specs.View.{form_of, width_of, kind_of, kind_if};

use byteorder::{ByteOrder, LittleEndian};

/// How wide the counts, sizes and offsets of a container are.
#[derive(Clone, Copy, Debug, PartialEq, Eq)]
pub enum Form {
    Small,
    Large,
}

/// How many bytes a number takes.
#[derive(Clone, Copy, Debug, PartialEq, Eq)]
pub enum Width {
    Two,
    Four,
    Eight,
}

/// The type of a value.
#[derive(Clone, Copy, Debug, PartialEq, Eq)]
pub enum Kind {
    Object(Form),
    Array(Form),
    Literal,
    Signed(Width),
    Unsigned(Width),
    Text,
}

impl Width {
    pub fn bytes(self) -> usize
        ensures { result ≡ width_of self }
    {
        match self {
            Width::Two => 2,
            Width::Four => 4,
            Width::Eight => 8,
        }
    }
}

impl Form {
    /// The bytes of an offset, a count or a size.
    pub fn word(self) -> usize
        ensures { result ≡ layout.word (form_of self) }
    {
        match self {
            Form::Small => 2,
            Form::Large => 4,
        }
    }

    /// The bytes of a key's entry.
    pub fn key_width(self) -> usize
        ensures { result ≡ layout.key_width (form_of self) }
    {
        self.word() + 2
    }

    /// The bytes of a value's entry.
    pub fn value_width(self) -> usize
        ensures { result ≡ layout.value_width (form_of self) }
    {
        1 + self.word()
    }

    /// The offset, count or size at a place.
    pub fn word_at(self, bytes: &[u8], at: usize) -> usize
        requires inside { at + layout.word (form_of self) ≤ length bytes.now }
        ensures number { result ≡ layout.number_at bytes.now (layout.word (form_of self)) at }
        ensures bound { result < 2 ^ 32 }
    {
        match self {
            Form::Small => two_at(bytes, at) as usize,
            Form::Large => four_at(bytes, at) as usize,
        }
    }
}

impl Kind {
    /// The type of that code, if trees have it.
    #[tactic(auto, using(crate::proofs::Codes::no_kind), unfolding(binary_model::specs::Layout::kind_of))]
    pub fn of(code: u8) -> Option<Kind>
        ensures { layout.kind_of code ≡ kind_if result }
    {
        match code {
            0 => Some(Kind::Object(Form::Small)),
            1 => Some(Kind::Object(Form::Large)),
            2 => Some(Kind::Array(Form::Small)),
            3 => Some(Kind::Array(Form::Large)),
            4 => Some(Kind::Literal),
            5 => Some(Kind::Signed(Width::Two)),
            6 => Some(Kind::Unsigned(Width::Two)),
            7 => Some(Kind::Signed(Width::Four)),
            8 => Some(Kind::Unsigned(Width::Four)),
            9 => Some(Kind::Signed(Width::Eight)),
            10 => Some(Kind::Unsigned(Width::Eight)),
            12 => Some(Kind::Text),
            _ => None,
        }
    }

    pub fn code(self) -> u8
        ensures { result ≡ layout.code_of (kind_of self) }
    {
        match self {
            Kind::Object(Form::Small) => 0,
            Kind::Object(Form::Large) => 1,
            Kind::Array(Form::Small) => 2,
            Kind::Array(Form::Large) => 3,
            Kind::Literal => 4,
            Kind::Signed(Width::Two) => 5,
            Kind::Signed(Width::Four) => 7,
            Kind::Signed(Width::Eight) => 9,
            Kind::Unsigned(Width::Two) => 6,
            Kind::Unsigned(Width::Four) => 8,
            Kind::Unsigned(Width::Eight) => 10,
            Kind::Text => 12,
        }
    }

    /// The bytes of a number; no other type has a width.
    pub fn number_width(self) -> usize
        ensures { result ≡ canonical.width_of (kind_of self) }
    {
        match self {
            Kind::Signed(width) | Kind::Unsigned(width) => width.bytes(),
            _ => 0,
        }
    }

    /// Whether a value of this type stands in its entry.
    pub fn is_inlined(self, form: Form) -> bool
        ensures { result ≡ layout.is_inlined (form_of form) (kind_of self) }
    {
        match self {
            Kind::Literal => true,
            Kind::Signed(width) => width.bytes() <= form.word(),
            Kind::Unsigned(width) => width.bytes() <= form.word(),
            _ => false,
        }
    }
}

/// The number in two bytes.
pub fn two_at(bytes: &[u8], at: usize) -> u16
    requires inside { at + 2 ≤ length bytes.now }
    ensures { result ≡ layout.number_at bytes.now 2 at }
{
    LittleEndian::read_u16(&bytes[at..])
}

/// The number in four bytes.
pub fn four_at(bytes: &[u8], at: usize) -> u32
    requires inside { at + 4 ≤ length bytes.now }
    ensures { result ≡ layout.number_at bytes.now 4 at }
{
    LittleEndian::read_u32(&bytes[at..])
}

/// The number in eight bytes.
pub fn eight_at(bytes: &[u8], at: usize) -> u64
    requires inside { at + 8 ≤ length bytes.now }
    ensures { result ≡ layout.number_at bytes.now 8 at }
{
    LittleEndian::read_u64(&bytes[at..])
}
