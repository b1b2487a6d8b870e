// The bytes of a group's frame: appended to, and taken apart.
ghost use Rattle.std.specs.Prelude.{◌≡◌, ◌+◌, ◌≤◌, ◌<◌, ◌++◌, ◌^◌, ℕ, [], ◌∷◌, List, length, drop, vec_len, vec_capacity, slice_index_or, IsTrue, IfSome, IfNone, ◌↔◌};
ghost use Rattle.byteorder.specs.Endian.{big_number};
ghost use Rattle.page_model.specs.Pages.{Write};
ghost use Rattle.page_model.specs.Frames.{header_bytes, head_bytes, frame_bytes, write, max_group, writes_in, BeginsWith, HasHeader, HasWrites, HoldsFrame};
ghost use Rattle.mini_trx.specs.Groups.{KeepsFrame};
ghost use Rattle.mini_trx.specs.PageWrites.{write_of};

use crate::PageWrite;
use byteorder::{BigEndian, ByteOrder};
use engine_base::{MAX_GROUP, PAGE_BYTES, PageNo};

/// The length of a frame without writes, in front of which stand its whole length and the number of
/// its writes.
pub(crate) const HEADER: usize = 6;

/// The length of what stands in front of a write's bytes: page, offset and length.
pub(crate) const WRITE_HEAD: usize = 8;

/// Makes the buffer a frame without writes. Takes no memory.
pub(crate) fn begin(buffer: &mut Vec<u8>)
    requires { 6 ≤ vec_capacity buffer.old }
    ensures frame { buffer.new.items ≡ frame_bytes [] }
    ensures capacity { vec_capacity buffer.old ≤ vec_capacity buffer.new }
{
    buffer.clear();
    extend(buffer, &[0, 0, 0, 6, 0, 0]);
}

/// Appends one write to the frame in the buffer: the one copy of its bytes there. Takes no memory.
pub(crate) fn append(buffer: &mut Vec<u8>, page: PageNo, at: u16, bytes: &[u8])
    requires frame { (ws : List Write) × (buffer.old.items ≡ frame_bytes ws) }
    requires short { vec_len buffer.old + (8 + length bytes.now) ≤ max_group }
    requires room { max_group ≤ vec_capacity buffer.old }
    requires len { length bytes.now < 65_536 }
    ensures appends { (ws : List Write) → buffer.old.items ≡ frame_bytes ws
        → buffer.new.items ≡ frame_bytes (ws ++ write page.0 at bytes.now ∷ []) }
    ensures len { vec_len buffer.new ≡ vec_len buffer.old + (8 + length bytes.now) }
    ensures capacity { vec_capacity buffer.old ≤ vec_capacity buffer.new }
{
    let count = count_of(buffer.as_slice());
    let head = head(page, at, bytes.len() as u16);
    extend(buffer, &head);
    extend(buffer, bytes);
    seal(buffer.as_mut_slice(), count + 1);
}

// Appends where there is room, so that it takes no memory and can't fail.
fn extend(buffer: &mut Vec<u8>, bytes: &[u8])
    requires { vec_len buffer.old + length bytes.now ≤ vec_capacity buffer.old }
    ensures items { buffer.new.items ≡ buffer.old.items ++ bytes.now }
    ensures len { vec_len buffer.new ≡ vec_len buffer.old + length bytes.now }
    ensures capacity { vec_capacity buffer.old ≤ vec_capacity buffer.new }
{
    let _ = buffer.extend_from_slice(bytes);
}

/// The number of writes, as the frame tells it.
pub(crate) fn count_of(frame: &[u8]) -> u16
    requires { 6 ≤ length frame.now }
    ensures { result ≡ big_number 2 (drop 4 frame.now) }
{
    BigEndian::read_u16(&frame[4..])
}

// The eight bytes in front of a write's own.
fn head(page: PageNo, at: u16, len: u16) -> [u8; 8]
    ensures { (bytes : List ℕ) → length bytes ≡ len → result ≡ head_bytes (write page.0 at bytes) }
{
    let mut head = [0u8; 8];
    BigEndian::write_u32(&mut head, page.0);
    BigEndian::write_u16(&mut head[4..], at);
    BigEndian::write_u16(&mut head[6..], len);
    head
}

// Writes the frame's length and its number of writes.
fn seal(frame: &mut [u8], count: u16)
    requires { (6 ≤ length frame.old) × (length frame.old ≤ max_group) }
    ensures { frame.new ≡ header_bytes (length frame.old) count ++ drop 6 frame.old }
{
    let len = frame.len() as u32;
    BigEndian::write_u32(frame, len);
    BigEndian::write_u16(&mut frame[4..], count);
}

/// The first write of these bytes, and the bytes behind it.
pub(crate) fn first_write(bytes: &[u8]) -> (PageWrite<'_>, &[u8])
    requires { (w : Write) × (after : List ℕ) × BeginsWith (2 ^ 32) w after bytes.now }
    ensures { (w : Write) (after : List ℕ) → BeginsWith (2 ^ 32) w after bytes.now
        → (write_of result.0 ≡ w) × (result.1.now ≡ after) }
{
    let end = WRITE_HEAD + usize::from(BigEndian::read_u16(&bytes[6..]));
    let write = PageWrite {
        page: PageNo(BigEndian::read_u32(bytes)),
        at: BigEndian::read_u16(&bytes[4..]),
        bytes: &bytes[WRITE_HEAD..end],
    };
    (write, &bytes[end..])
}

/// Whether the bytes are the whole frame of some writes within so many pages.
pub(crate) fn is_frame(bytes: &[u8], pages: u32) -> bool
    ensures { IsTrue result ↔ HoldsFrame pages bytes.now }
{
    has_header(bytes) && has_writes(&bytes[HEADER..], count_of(bytes), pages)
}

// Whether the bytes are as many as a frame may have, and tell so.
fn has_header(bytes: &[u8]) -> bool
    ensures { IsTrue result ↔ HasHeader bytes.now }
{
    let len = bytes.len();
    HEADER <= len && len <= MAX_GROUP && BigEndian::read_u32(bytes) as usize == len
}

// Whether the bytes are so many writes within the pages, and no more.
fn has_writes(bytes: &[u8], count: u16, pages: u32) -> bool
    ensures { IsTrue result ↔ HasWrites pages count bytes.now }
{
    let mut rest = bytes;
    for _n in 0..count {
        let Some(after) = behind_write(rest, pages) else {
            return false;
        };
        rest = after;
    }
    rest.is_empty()
}

// The bytes behind a whole write within the pages, where they begin with one.
fn behind_write(bytes: &[u8], pages: u32) -> Option<&[u8]>
    ensures found { IfSome result (λ after. (w : Write) × BeginsWith pages w after.now bytes.now) }
    ensures none { IfNone result ((w : Write) (after : List ℕ)
        → ¬ BeginsWith pages w after bytes.now) }
{
    if bytes.len() < WRITE_HEAD {
        return None;
    }
    let page = BigEndian::read_u32(bytes);
    let at = usize::from(BigEndian::read_u16(&bytes[4..]));
    let len = usize::from(BigEndian::read_u16(&bytes[6..]));
    let end = WRITE_HEAD + len;
    if page < pages && at + len <= PAGE_BYTES && end <= bytes.len() {
        Some(&bytes[end..])
    } else {
        None
    }
}

/// Write i of the frame, by a walk over those before it.
pub(crate) fn nth_write(frame: &[u8], i: usize) -> PageWrite<'_>
    requires frame { KeepsFrame frame.now }
    requires place { i < length (writes_in frame.now) }
    ensures { write_of result ≡ slice_index_or (writes_in frame.now) i (write_of result) }
{
    let mut rest = &frame[HEADER..];
    for _n in 0..i {
        rest = first_write(rest).1;
    }
    first_write(rest).0
}
