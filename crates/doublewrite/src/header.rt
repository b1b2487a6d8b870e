// The header of a batch, as the file has it.
ghost use Rattle.std.specs.Prelude.{◌≡◌, ◌≤◌, ◌<◌, ◌+◌, ◌*◌, ℕ, List, length, IfOk, OnOk, IfSome};
ghost use Rattle.engine_base.specs.Disk.{Holds, Stays, GoesOn};
ghost use Rattle.file_model.specs.Sections.{armed_place, count_place, control_bytes};
ghost use Rattle.file_model.specs.Doublewrite.{is_odd, header_batch, batch_in};
ghost use Rattle.file_model.specs.declared.layout.Layout.{Layout};
ghost use Rattle.doublewrite.specs.Batches.{number_of};
ghost use Rattle.std.specs.Prelude.{slice_index};

use crate::buffer::number;
use byteorder::{BigEndian, ByteOrder};
use engine_base::{Disk, Fault};
use file_model::places::ARMED;

// How many bytes count and page numbers have.
pub(crate) const HEADER: usize = 132;

/// How many pages a batch has at most.
const MAX_BATCH: u32 = 32;

/// Whether a batch is armed.
pub(crate) fn is_armed<D: Disk>(disk: &mut D) -> Result<bool, Fault>
    requires { IfSome (D.state disk.old).seen (λ file. armed_place + 1 ≤ length file) }
    ensures odd { IfOk result (λ odd. IfSome (D.state disk.old).seen
        (λ file. odd ≡ is_odd (slice_index file armed_place))) }
    ensures stays { Stays (D.state disk.old) (D.state disk.new) }
    ensures goes_on { GoesOn (D.state disk.old) (D.state disk.new) result }
{
    let mut byte = [0u8];
    disk.read_at(ARMED, &mut byte)?;
    Ok(byte[0] % 2 == 1)
}

/// How many pages the header names, or 0 where it counts for nothing.
pub(crate) fn count_of(header: &[u8], pages: u32) -> u32
    requires { length header.now ≡ 132 }
    ensures few { result ≤ 32 }
    ensures below { (i : ℕ) → i < result → number_of header.now i < pages }
    ensures batch { (l : Layout) (file : List ℕ) → l.pages ≡ pages
        → Holds file count_place header.now → header_batch l file ≡ batch_in file result }
{
    let count = BigEndian::read_u32(header);
    if count > MAX_BATCH {
        return 0;
    }
    let mut i = 0;
    'pages: while i < count {
        if number(header, i as usize) >= pages {
            return 0;
        }
        i += 1;
    }
    count
}
