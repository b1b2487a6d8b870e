//! The pieces that a change gave a new version, one after another.
ghost use Rattle.std.specs.Prelude.{◌≡◌, ◌==◌, ◌+◌, ◌/◌, ◌%◌, ◌^◌, ◌<◌, ℕ, slice_index, IfSome};
ghost use Rattle.std.specs.Int.{bit_at};
ghost use Rattle.store_parts.specs.Shows.{touched_from};
ghost use Rattle.store_steps.specs.Touched.{next_touched};

use undo_records::{Bits, Touched};

// Whether the piece's bit is set.
fn is_touched(bits: &Bits, k: u32) -> bool
    ensures { result ≡ (bit_at (slice_index bits.now (k / 8)) (k % 8) == 1) }
{
    match bits.as_slice().get((k / 8) as usize) {
        Some(byte) => (byte >> (k % 8)) & 1 == 1,
        None => false,
    }
}

/// The first touched piece behind that one, or the first of all.
pub fn touched_behind(touched: &Touched, last: Option<u32>) -> Option<u32>
    requires last { IfSome last (λ n. n + 1 < 2 ^ 32) }
    ensures value { result ≡ next_touched last
        (touched_from 0 touched.now.pieces touched.now.bits) }
    ensures below { IfSome result (λ k. k < touched.now.pieces) }
    ensures small { IfSome result (λ k. k + 1 < 2 ^ 32) }
{
    let count = touched.pieces;
    let mut k = match last {
        Some(n) => n + 1,
        None => 0,
    };
    'pieces: while k < count {
        if is_touched(&touched.bits, k) {
            return Some(k);
        }
        k += 1;
    }
    None
}
