//! A row's reference to a LOB. Each number is big-endian.
//!
//! | Offset | Bytes | Field |
//! |---|---|---|
//! | 0 | 4 | space |
//! | 4 | 4 | first page |
//! | 8 | 4 | LOB version |
//! | 12 | 4 | flags, zero |
//! | 16 | 4 | length of the document |

ghost use Rattle.std.specs.Prelude.{◌≡◌};
ghost use Rattle.undo_model.specs.Bytes.{reference_bytes};
ghost use Rattle.undo_model.specs.Reading.{reference_in};

use crate::LobVersion;
use byteorder::{BigEndian, ByteOrder};
use engine_base::PageNo;

const PAGE: usize = 4;

const VERSION: usize = PAGE + 4;

const FLAGS: usize = VERSION + 4;

const LENGTH: usize = FLAGS + 4;

/// How many bytes a reference has.
pub const REFERENCE_BYTES: usize = LENGTH + 4;

const _: () = prove!(REFERENCE_BYTES == 20);

/// A reference to a LOB (MySQL 8.0, lob0lob.h, `ref_t`).
#[derive(Clone, Copy, Debug, PartialEq, Eq)]
pub struct LobRef {
    /// Always 0 in a store of one file.
    pub space: u32,
    /// The first page.
    pub page: PageNo,
    /// The version of the LOB that the row shows.
    pub version: LobVersion,
    /// The bytes of the document.
    pub length: u32,
}

impl LobRef {
    ghost use Rattle.lob_pages.specs.References.{reference_of};

    /// The bytes of the reference. Its flags are zero.
    pub fn to_bytes(&self) -> [u8; REFERENCE_BYTES]
        ensures bytes { result ≡ reference_bytes (reference_of self.now) }
    {
        let mut bytes = [0u8; REFERENCE_BYTES];
        BigEndian::write_u32(&mut bytes, self.space);
        BigEndian::write_u32(&mut bytes[PAGE..], self.page.0);
        BigEndian::write_u32(&mut bytes[VERSION..], self.version.0);
        BigEndian::write_u32(&mut bytes[LENGTH..], self.length);
        bytes
    }

    /// The reference in the bytes, whatever its fields hold. Flags are skipped.
    pub fn from_bytes(bytes: &[u8; REFERENCE_BYTES]) -> LobRef
        ensures value { reference_of result ≡ reference_in bytes.now }
    {
        LobRef {
            space: BigEndian::read_u32(bytes),
            page: PageNo(BigEndian::read_u32(&bytes[PAGE..])),
            version: LobVersion(BigEndian::read_u32(&bytes[VERSION..])),
            length: BigEndian::read_u32(&bytes[LENGTH..]),
        }
    }
}
