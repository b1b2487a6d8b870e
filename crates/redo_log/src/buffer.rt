// The buffer of a block: the length of its frames, the frames, and at a flush a closed gate. It
// never grows past its room.
ghost use Rattle.std.specs.Prelude.{◌≡◌, ◌+◌, ◌-◌, ◌≤◌, ◌<◌, ◌++◌, ◌^◌, [], ◌∷◌, ℕ, List, length, take, drop, vec_len, vec_capacity, IfOk};
ghost use Rattle.byteorder.specs.Endian.{big_bytes};

use byteorder::{BigEndian, ByteOrder};

/// What stands in front of the frames: their length.
pub(crate) const HEAD: usize = 4;

/// Appends where there is room, so that it takes no memory and can't fail.
pub(crate) fn extend(buffer: &mut Vec<u8>, bytes: &[u8])
    requires { vec_len buffer.old + length bytes.now ≤ vec_capacity buffer.old }
    ensures items { buffer.new.items ≡ buffer.old.items ++ bytes.now }
    ensures len { vec_len buffer.new ≡ vec_len buffer.old + length bytes.now }
    ensures capacity { vec_capacity buffer.old ≤ vec_capacity buffer.new }
{
    let _ = buffer.extend_from_slice(bytes);
}

/// Writes the length of the frames in front of them and a closed gate behind them.
pub(crate) fn seal(buffer: &mut Vec<u8>)
    requires head { 4 ≤ vec_len buffer.old }
    requires short { vec_len buffer.old < 2 ^ 32 }
    requires room { vec_len buffer.old < vec_capacity buffer.old }
    ensures block { buffer.new.items
        ≡ big_bytes 4 (length (drop 4 buffer.old.items)) ++ (drop 4 buffer.old.items ++ 0 ∷ []) }
    ensures capacity { vec_capacity buffer.old ≤ vec_capacity buffer.new }
{
    write_len(buffer.as_mut_slice());
    extend(buffer, &[0]);
}

/// Takes the closed gate off again.
pub(crate) fn unseal(buffer: &mut Vec<u8>)
    ensures items { (bytes : List ℕ) → buffer.old.items ≡ bytes ++ 0 ∷ []
        → buffer.new.items ≡ bytes }
    ensures capacity { vec_capacity buffer.old ≤ vec_capacity buffer.new }
{
    let _ = buffer.pop();
}

fn write_len(bytes: &mut [u8])
    requires { (4 ≤ length bytes.old) × (length bytes.old < 2 ^ 32) }
    ensures { bytes.new ≡ big_bytes 4 (length (drop 4 bytes.old)) ++ drop 4 bytes.old }
{
    let len = (bytes.len() - HEAD) as u32;
    BigEndian::write_u32(bytes, len);
}
