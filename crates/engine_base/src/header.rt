//! The header that each page begins with. Each number is big-endian, and what the table doesn't
//! name is zero.
//!
//! | Offset | Bytes | Field |
//! |---|---|---|
//! | 4 | 4 | number of the page |
//! | 8 | 4 | the page before, or null |
//! | 12 | 4 | the page behind, or null |
//! | 24 | 2 | type |

ghost use Rattle.std.specs.Prelude.{◌≡◌, ◌≤◌, ◌<◌, [], ◌∷◌, length, IfOk, IfSome};
ghost use Rattle.page_model.specs.Tables.{SetsFields, HasFields, header_fields};
ghost use Rattle.page_model.specs.Steps.{MayUse, Uses, AddsNone};
ghost use Rattle.engine_base.specs.Faults.{HasCause, FailsPlainly};
ghost use Rattle.engine_base.specs.Headers.{fields_of, type_code};

use crate::{Fault, FieldValue, NULL_PAGE, PageNo, Pages, fill_fields};
use byteorder::{BigEndian, ByteOrder};

/// Where the number of the page stands.
pub const NUMBER: u16 = 4;

/// Where the number of the page before stands.
pub const BEFORE: u16 = NUMBER + 4;

/// Where the number of the page behind stands.
pub const BEHIND: u16 = BEFORE + 4;

/// Where the type stands.
pub const TYPE: u16 = BEHIND + 12;

/// Where the header ends, and the page's own fields begin.
pub const HEADER_BYTES: u16 = TYPE + 14;

const _: () = prove!(TYPE == 24);

const _: () = prove!(HEADER_BYTES == 38);

/// What a page is for.
#[derive(Clone, Copy, Debug, PartialEq, Eq)]
pub enum PageType {
    Free = 0,
    System = 1,
    Rows = 2,
    Undo = 3,
    LobFirst = 4,
    LobData = 5,
    LobIndex = 6,
}

/// A page's header: its number, its neighbours, each a number or null, and its type, as they stand
/// there.
#[derive(Clone, Copy, Debug, PartialEq, Eq)]
pub struct PageHeader {
    pub number: PageNo,
    pub before: PageNo,
    pub behind: PageNo,
    pub page_type: u16,
}

impl PageHeader {
    /// The header of a page without neighbours.
    pub fn alone(number: PageNo, page_type: PageType) -> PageHeader
        ensures { fields_of result ≡ header_fields number.0 NULL_PAGE NULL_PAGE
            (type_code page_type) }
    {
        PageHeader {
            number,
            before: PageNo(NULL_PAGE),
            behind: PageNo(NULL_PAGE),
            page_type: page_type as u16,
        }
    }

    /// Writes the header's fields into the front of a page, and no other byte.
    pub fn fill(self, bytes: &mut [u8])
        requires { HEADER_BYTES ≤ length bytes.old }
        ensures { SetsFields 0 (fields_of self) (bytes.old ∷ []) (bytes.new ∷ []) }
    {
        fill_fields(
            bytes,
            &[
                FieldValue::Four(NUMBER, self.number.0),
                FieldValue::Four(BEFORE, self.before.0),
                FieldValue::Four(BEHIND, self.behind.0),
                FieldValue::Two(TYPE, self.page_type),
            ],
        );
    }
}

/// The header of a page, as it stands there.
pub fn read_header<P: Pages>(p: &mut P, page: PageNo) -> Result<PageHeader, Fault>
    requires page { page.0 < (P.state p.old).count }
    requires may { MayUse (page.0 ∷ []) 0 0 (P.state p.old) }
    ensures value { IfOk result (λ header. IfSome (P.state p.old).told
        (λ pages. HasFields pages page.0 (fields_of header))) }
    ensures told { (P.state p.new).told ≡ (P.state p.old).told }
    ensures writes { AddsNone (P.state p.old) (P.state p.new) }
    ensures uses { Uses P.state P.stays (page.0 ∷ []) 0 0 p.old p.new }
    ensures cause { HasCause (P.state p.old).faults (P.state p.new).faults result }
    ensures plain { FailsPlainly result }
{
    let mut bytes = [0u8; HEADER_BYTES as usize];
    p.read(page, 0, &mut bytes)?;
    Ok(PageHeader {
        number: PageNo(BigEndian::read_u32(&bytes[usize::from(NUMBER)..])),
        before: PageNo(BigEndian::read_u32(&bytes[usize::from(BEFORE)..])),
        behind: PageNo(BigEndian::read_u32(&bytes[usize::from(BEHIND)..])),
        page_type: BigEndian::read_u16(&bytes[usize::from(TYPE)..]),
    })
}
