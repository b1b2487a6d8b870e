// The buffer of a batch.
ghost use Rattle.std.specs.Prelude.{◌≡◌, ◌+◌, ◌*◌, ◌≤◌, ◌<◌, ◌++◌, ℕ, List, length, vec_len, vec_capacity, IfOk, replicate};
ghost use Rattle.byteorder.specs.Endian.{big_bytes};
ghost use Rattle.page_model.specs.Pages.{page_bytes, patched};
ghost use Rattle.doublewrite.specs.Batches.{images_at, area_bytes, number_of, image_of};

use byteorder::{BigEndian, ByteOrder};
use std::alloc::{AllocError, Global};

/// Where the images begin.
pub(crate) const IMAGES: usize = 3_584;

/// How many bytes a full batch has.
const AREA: usize = 527_872;

/// A buffer without pages, with room for a full batch.
pub(crate) fn new_buffer(alloc: Global) -> Result<Vec<u8>, AllocError>
    ensures items { IfOk result (λ buffer. buffer.items ≡ replicate images_at 0) }
    ensures capacity { IfOk result (λ buffer. area_bytes ≤ vec_capacity buffer) }
{
    let mut buffer = Vec::with_capacity(alloc, AREA)?;
    extend(&mut buffer, &[0; IMAGES]);
    Ok(buffer)
}

/// Makes the buffer one without pages again.
pub(crate) fn reset(buffer: &mut Vec<u8>)
    requires { area_bytes ≤ vec_capacity buffer.old }
    ensures items { buffer.new.items ≡ replicate images_at 0 }
    ensures capacity { area_bytes ≤ vec_capacity buffer.new }
{
    buffer.clear();
    extend(buffer, &[0; IMAGES]);
}

// Appends where there is room, so that it takes no memory and can't fail.
fn extend(buffer: &mut Vec<u8>, bytes: &[u8])
    requires { vec_len buffer.old + length bytes.now ≤ vec_capacity buffer.old }
    ensures items { buffer.new.items ≡ buffer.old.items ++ bytes.now }
    ensures len { vec_len buffer.new ≡ vec_len buffer.old + length bytes.now }
    ensures capacity { vec_capacity buffer.old ≤ vec_capacity buffer.new }
{
    let _ = buffer.extend_from_slice(bytes);
}

// Writes a number of four bytes.
fn put(bytes: &mut [u8], at: usize, value: u32)
    requires { at + 4 ≤ length bytes.old }
    ensures { bytes.new ≡ patched bytes.old at (big_bytes 4 value) }
{
    let mut field = [0u8; 4];
    BigEndian::write_u32(&mut field, value);
    bytes[at..at + 4].copy_from_slice(&field);
}

/// Appends a page's image, and names the page.
pub(crate) fn append(buffer: &mut Vec<u8>, count: u32, page: u32, image: &[u8])
    requires few { count < 32 }
    requires size { length image.now ≡ page_bytes }
    requires len { vec_len buffer.old ≡ images_at + page_bytes * count }
    requires capacity { area_bytes ≤ vec_capacity buffer.old }
    ensures items { buffer.new.items
        ≡ patched (patched (buffer.old.items ++ image.now) (4 + 4 * count) (big_bytes 4 page)) 0
        (big_bytes 4 (count + 1)) }
    ensures capacity { area_bytes ≤ vec_capacity buffer.new }
{
    extend(buffer, image);
    put(buffer.as_mut_slice(), 4 + 4 * count as usize, page);
    put(buffer.as_mut_slice(), 0, count + 1);
}

/// The page that place i of the batch names.
#[tactic(auto, unfolding(file_model::specs::Sections::part))]
pub(crate) fn number(buffer: &[u8], i: usize) -> u32
    requires { 8 + 4 * i ≤ length buffer.now }
    ensures { result ≡ number_of buffer.now i }
{
    BigEndian::read_u32(&buffer[4 + 4 * i..])
}

/// The image at place i of the batch.
pub(crate) fn image(buffer: &[u8], i: usize) -> &[u8]
    requires { (i < 32) × (images_at + page_bytes * (i + 1) ≤ length buffer.now) }
    ensures image { result.now ≡ image_of buffer.now i }
    ensures len { length result.now ≡ page_bytes }
{
    let at = IMAGES + 16_384 * i;
    &buffer[at..at + 16_384]
}
