ghost use Rattle.std.specs.Prelude.{◌≡◌, ◌≤◌, [], length};

use arrayvec::ArrayVec;
use std::marker::Model;

/// The old bytes of a run, at most 100. They are seen as a list.
#[derive(Drop)]
pub struct OldBytes {
    bytes: ArrayVec<u8, 100>,
}

impl Model for OldBytes {
    ghost use Rattle.std.specs.Prelude.{ℕ, List};

    ghost Value = { List ℕ };

    ghost view = { λ o. o.bytes.items };
}

impl OldBytes {
    /// No bytes.
    pub fn new() -> OldBytes
        ensures { result ≡ [] }
    {
        OldBytes {
            bytes: ArrayVec::new(),
        }
    }

    /// These bytes.
    pub fn from_slice(bytes: &[u8]) -> OldBytes
        requires { length bytes.now ≤ 100 }
        ensures { result ≡ bytes.now }
    {
        let mut old = ArrayVec::new();
        let _ = old.try_extend_from_slice(bytes);
        OldBytes { bytes: old }
    }

    /// The bytes, in order.
    pub fn as_slice(&self) -> &[u8]
        ensures value { result.now ≡ self.now }
        ensures most { length result.now ≤ 100 }
    {
        self.bytes.as_slice()
    }
}
