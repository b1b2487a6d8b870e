// Numbers and addresses in bytes that are read or written in one piece. In clauses the bytes are
// a page alone.
ghost use Rattle.std.specs.Prelude.{◌≡◌, ◌+◌, ◌≤◌, ◌<◌, ◌^◌, [], ◌∷◌, length};
ghost use Rattle.page_model.specs.Pages.{field, address_at, page_bytes};
ghost use Rattle.page_model.specs.Spans.{SetsField, SetsAddress};
ghost use Rattle.engine_base.specs.Addresses.{address_of};

use byteorder::{BigEndian, ByteOrder};
use engine_base::{Addr, PageNo};

/// The number in `width` bytes, the highest first.
pub fn number_at(bytes: &[u8], at: u16, width: u8) -> u64
    requires width { (1 ≤ width) × (width ≤ 8) }
    requires within { at + width ≤ length bytes.now }
    ensures value { field (bytes.now ∷ []) 0 at width ≡ result }
    ensures fits { result < 256 ^ width }
{
    BigEndian::read_uint(&bytes[usize::from(at)..], usize::from(width))
}

/// The number in four bytes.
pub fn u32_at(bytes: &[u8], at: u16) -> u32
    requires within { at + 4 ≤ length bytes.now }
    ensures { field (bytes.now ∷ []) 0 at 4 ≡ result }
{
    number_at(bytes, at, 4) as u32
}

/// The address in six bytes, whatever it is.
pub fn address_in(bytes: &[u8], at: u16) -> Addr
    requires within { (at + 6 ≤ length bytes.now) × (length bytes.now ≤ page_bytes) }
    ensures { address_at (bytes.now ∷ []) 0 at ≡ address_of result }
{
    Addr {
        page: PageNo(u32_at(bytes, at)),
        at: number_at(bytes, at + 4, 2) as u16,
    }
}

/// Writes a number over `width` bytes, the highest first.
pub fn put_number(bytes: &mut [u8], at: u16, width: u8, value: u64)
    requires width { (1 ≤ width) × (width ≤ 8) }
    requires fits { value < 256 ^ width }
    requires within { at + width ≤ length bytes.old }
    ensures { SetsField 0 at width value (bytes.old ∷ []) (bytes.new ∷ []) }
{
    BigEndian::write_uint(&mut bytes[usize::from(at)..], value, usize::from(width));
}

/// Writes a number over four bytes.
pub fn put_u32(bytes: &mut [u8], at: u16, value: u32)
    requires within { at + 4 ≤ length bytes.old }
    ensures { SetsField 0 at 4 value (bytes.old ∷ []) (bytes.new ∷ []) }
{
    put_number(bytes, at, 4, u64::from(value));
}

/// Writes an address over six bytes.
pub fn put_address(bytes: &mut [u8], at: u16, value: Addr)
    requires within { (at + 6 ≤ length bytes.old) × (length bytes.old ≤ page_bytes) }
    ensures { SetsAddress 0 at (address_of value) (bytes.old ∷ []) (bytes.new ∷ []) }
{
    put_number(bytes, at, 4, u64::from(value.page.0));
    put_number(bytes, at + 4, 2, u64::from(value.at));
}
