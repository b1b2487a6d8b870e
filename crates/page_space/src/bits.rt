// The bits of a byte of the map, and the lowest that is 0. The lowest bit of a byte comes first.
ghost use Rattle.std.specs.Prelude.{◌≡◌, ◌*◌, ◌<◌, ◌≤◌, ◌==◌, length, IfSome, IfNone};
ghost use Rattle.std.specs.Int.{bit_at};
ghost use Rattle.page_space.specs.declared.layout.TheConstants.{MAP_BYTES};
ghost use Rattle.page_space.specs.Bits.{ChangesBit, AreOnes, IsLowestZero};

/// Whether the bit is 1.
pub fn is_set(byte: u8, i: u32) -> bool
    requires { i < 8 }
    ensures { result ≡ (bit_at byte i == 1) }
{
    (byte >> i) & 1 == 1
}

/// The byte with this bit 1.
pub fn with_bit(byte: u8, i: u32) -> u8
    requires { i < 8 }
    ensures { ChangesBit i 1 byte result }
{
    byte | 1 << i
}

/// The byte with this bit 0.
pub fn without_bit(byte: u8, i: u32) -> u8
    requires { i < 8 }
    ensures { ChangesBit i 0 byte result }
{
    byte & !(1 << i)
}

/// The lowest bit below `n` that is 0.
pub fn lowest_zero(map: &[u8], n: u32) -> Option<u32>
    requires map { length map.now ≤ MAP_BYTES }
    requires within { n ≤ 8 * length map.now }
    ensures some { IfSome result (IsLowestZero map.now n) }
    ensures none { IfNone result (AreOnes map.now n) }
{
    let n = n as usize;
    for (i, byte) in map.iter().enumerate() {
        if *byte != 0xff {
            let k = 8 * i + byte.trailing_ones() as usize;
            return if k < n { Some(k as u32) } else { None };
        }
    }
    None
}
