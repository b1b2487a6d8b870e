// The fields of a page, written by a table.
ghost use Rattle.std.specs.Prelude.{◌≡◌, ◌+◌, ◌≤◌, ◌<◌, ◌^◌, [], ◌∷◌, length, map, true};
ghost use Rattle.page_model.specs.Spans.{SetsField};
ghost use Rattle.page_model.specs.Tables.{SetsFields, are_rising, table_end};
ghost use Rattle.engine_base.specs.Tables.{field_of};

use byteorder::{BigEndian, ByteOrder};

/// A field of so many bytes, the highest first: where it stands, and the number that it is to hold.
#[derive(Clone, Copy, Debug, PartialEq, Eq)]
pub enum FieldValue {
    One(u16, u8),
    Two(u16, u16),
    Four(u16, u32),
    Eight(u16, u64),
}

/// Writes the fields of a table, which stand one behind another, and no other byte.
pub fn fill_fields(bytes: &mut [u8], table: &[FieldValue])
    requires rising { are_rising 0 (map field_of table.now) ≡ true }
    requires within { table_end 0 (map field_of table.now) ≤ length bytes.old }
    ensures len { length bytes.new ≡ length bytes.old }
    ensures sets { SetsFields 0 (map field_of table.now) (bytes.old ∷ []) (bytes.new ∷ []) }
{
    for field in table {
        fill_field(bytes, *field);
    }
}

// Writes one field.
fn fill_field(bytes: &mut [u8], field: FieldValue)
    requires { (field_of field).at + (field_of field).width ≤ length bytes.old }
    ensures len { length bytes.new ≡ length bytes.old }
    ensures sets { let f = field_of field in SetsField 0 f.at f.width f.value (bytes.old ∷ [])
        (bytes.new ∷ []) }
{
    match field {
        FieldValue::One(at, value) => put(bytes, at, 1, u64::from(value)),
        FieldValue::Two(at, value) => put(bytes, at, 2, u64::from(value)),
        FieldValue::Four(at, value) => put(bytes, at, 4, u64::from(value)),
        FieldValue::Eight(at, value) => put(bytes, at, 8, value),
    }
}

// Writes a number of that width.
fn put(bytes: &mut [u8], at: u16, width: u8, value: u64)
    requires width { (1 ≤ width) × (width ≤ 8) }
    requires fits { value < 256 ^ width }
    requires within { at + width ≤ length bytes.old }
    ensures len { length bytes.new ≡ length bytes.old }
    ensures sets { SetsField 0 at width value (bytes.old ∷ []) (bytes.new ∷ []) }
{
    BigEndian::write_uint(&mut bytes[usize::from(at)..], value, usize::from(width));
}
