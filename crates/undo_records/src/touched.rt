ghost use Rattle.std.specs.Prelude.{◌≡◌, ◌≤◌, length};

use arrayvec::ArrayVec;
use std::marker::Model;

/// At most 129 bytes, with a bit for each piece of a LOB. They are seen as a list.
#[derive(Drop)]
pub struct Bits {
    bytes: ArrayVec<u8, 129>,
}

impl Model for Bits {
    ghost use Rattle.std.specs.Prelude.{ℕ, List};

    ghost Value = { List ℕ };

    ghost view = { λ b. b.bytes.items };
}

impl Bits {
    /// These bytes.
    pub fn from_slice(bytes: &[u8]) -> Bits
        requires { length bytes.now ≤ 129 }
        ensures { result ≡ bytes.now }
    {
        let mut bits = ArrayVec::new();
        let _ = bits.try_extend_from_slice(bytes);
        Bits { bytes: bits }
    }

    /// The bytes, in order.
    pub fn as_slice(&self) -> &[u8]
        ensures value { result.now ≡ self.now }
        ensures most { length result.now ≤ 129 }
    {
        self.bytes.as_slice()
    }
}

/// Which of a LOB's pieces a change gave a new version: for piece k bit k mod 8, the lowest first,
/// of byte k / 8. There are at most 1,032 pieces, and as many bytes as have a bit for each.
#[derive(Drop)]
pub struct Touched {
    pub pieces: u32,
    pub bits: Bits,
}
