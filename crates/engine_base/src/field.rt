// Fields and addresses in pages. Each is big-endian.
ghost use Rattle.std.specs.Prelude.{◌≡◌, ◌+◌, ◌≤◌, ◌<◌, ◌^◌, [], ◌∷◌, length, IfSome, IfOk, OnOk};
ghost use Rattle.byteorder.specs.Endian.{big_number, big_bytes};
ghost use Rattle.page_model.specs.Pages.{field, page_bytes, address_at, address_bytes};
ghost use Rattle.page_model.specs.Spans.{SetsField, SetsAddress};
ghost use Rattle.page_model.specs.Steps.{MayUse, Uses, AddsWrite, AddsNone, Told, write_head};
ghost use Rattle.engine_base.specs.Faults.{HasCause, FailsPlainly};
ghost use Rattle.engine_base.specs.Addresses.{address_of};

use crate::{Addr, Fault, PageNo, Pages};
use byteorder::{BigEndian, ByteOrder};

/// The number in `width` bytes of a page, the highest byte first.
pub fn read_field<P: Pages>(p: &mut P, page: PageNo, at: u16, width: u8) -> Result<u64, Fault>
    requires width { (1 ≤ width) × (width ≤ 8) }
    requires page { page.0 < (P.state p.old).count }
    requires within { at + width ≤ page_bytes }
    requires may { MayUse (page.0 ∷ []) 0 0 (P.state p.old) }
    ensures value { IfOk result (λ v.
        IfSome (P.state p.old).told (λ pages. v ≡ field pages page.0 at width)) }
    ensures fits { IfOk result (λ v. v < 256 ^ width) }
    ensures told { (P.state p.new).told ≡ (P.state p.old).told }
    ensures writes { AddsNone (P.state p.old) (P.state p.new) }
    ensures uses { Uses P.state P.stays (page.0 ∷ []) 0 0 p.old p.new }
    ensures cause { HasCause (P.state p.old).faults (P.state p.new).faults result }
    ensures plain { FailsPlainly result }
{
    let mut bytes = [0u8; 8];
    let bytes = &mut bytes[..usize::from(width)];
    p.read(page, at, bytes)?;
    Ok(number(bytes))
}

// The number in all of these bytes, the highest first.
fn number(bytes: &[u8]) -> u64
    requires { (1 ≤ length bytes.now) × (length bytes.now ≤ 8) }
    ensures value { result ≡ big_number (length bytes.now) bytes.now }
    ensures fits { result < 256 ^ length bytes.now }
{
    BigEndian::read_uint(bytes, bytes.len())
}

/// Writes the number over `width` bytes of a page, the highest byte first, and no other byte.
pub fn write_field<P: Pages>(
    p: &mut P,
    page: PageNo,
    at: u16,
    width: u8,
    value: u64,
) -> Result<(), Fault>
    requires width { (1 ≤ width) × (width ≤ 8) }
    requires fits { value < 256 ^ width }
    requires page { page.0 < (P.state p.old).count }
    requires within { at + width ≤ page_bytes }
    requires may { MayUse (page.0 ∷ []) 0 (width + write_head) (P.state p.old) }
    ensures sets { OnOk result (Told (SetsField page.0 at width value) (P.state p.old).told
        (P.state p.new).told) }
    ensures writes { OnOk result (AddsWrite page.0 at (big_bytes width value) (P.state p.old)
        (P.state p.new)) }
    ensures uses { Uses P.state P.stays (page.0 ∷ []) 0 (width + write_head) p.old p.new }
    ensures cause { HasCause (P.state p.old).faults (P.state p.new).faults result }
    ensures plain { FailsPlainly result }
{
    let mut bytes = [0u8; 8];
    let width = usize::from(width);
    BigEndian::write_uint(&mut bytes, value, width);
    p.write(page, at, &bytes[..width])?;
    Ok(())
}

/// The address in six bytes of a page, page and then offset, whatever it is.
pub fn read_address<P: Pages>(p: &mut P, page: PageNo, at: u16) -> Result<Addr, Fault>
    requires page { page.0 < (P.state p.old).count }
    requires within { at + 6 ≤ page_bytes }
    requires may { MayUse (page.0 ∷ []) 0 0 (P.state p.old) }
    ensures value { IfOk result (λ a.
        IfSome (P.state p.old).told (λ pages. address_of a ≡ address_at pages page.0 at)) }
    ensures told { (P.state p.new).told ≡ (P.state p.old).told }
    ensures writes { AddsNone (P.state p.old) (P.state p.new) }
    ensures uses { Uses P.state P.stays (page.0 ∷ []) 0 0 p.old p.new }
    ensures cause { HasCause (P.state p.old).faults (P.state p.new).faults result }
    ensures plain { FailsPlainly result }
{
    let mut bytes = [0u8; 6];
    p.read(page, at, &mut bytes)?;
    Ok(Addr {
        page: PageNo(BigEndian::read_u32(&bytes)),
        at: BigEndian::read_u16(&bytes[4..]),
    })
}

/// Writes the address over six bytes of a page, page and then offset, and no other byte.
pub fn write_address<P: Pages>(p: &mut P, page: PageNo, at: u16, value: Addr) -> Result<(), Fault>
    requires page { page.0 < (P.state p.old).count }
    requires within { at + 6 ≤ page_bytes }
    requires may { MayUse (page.0 ∷ []) 0 (6 + write_head) (P.state p.old) }
    ensures sets { OnOk result (Told (SetsAddress page.0 at (address_of value)) (P.state p.old).told
        (P.state p.new).told) }
    ensures writes { OnOk result (AddsWrite page.0 at (address_bytes (address_of value))
        (P.state p.old) (P.state p.new)) }
    ensures uses { Uses P.state P.stays (page.0 ∷ []) 0 (6 + write_head) p.old p.new }
    ensures cause { HasCause (P.state p.old).faults (P.state p.new).faults result }
    ensures plain { FailsPlainly result }
{
    let mut bytes = [0u8; 6];
    BigEndian::write_u32(&mut bytes, value.page.0);
    BigEndian::write_u16(&mut bytes[4..], value.at);
    p.write(page, at, &bytes)?;
    Ok(())
}
