//! Whether a number or a text stands canonically.
ghost use Rattle.std.specs.Prelude.{◌≡◌, ◌≤◌, ◌<◌, ◌+◌, ◌*◌, ◌^◌, ℕ, ℤ, pos, List, length, true, IfSome};
ghost use Rattle.binary_model.specs.Layout as layout;
ghost use Rattle.binary_model.specs.Layout.{signed, unsigned, number_at};
ghost use Rattle.binary_model.specs.Stands.{signed_of, IsNumberAs, IsText};
ghost use Rattle.binary_model.specs.Canonical as canonical;
ghost use Rattle.binary_model.specs.Place.{Holds};
ghost use Rattle.json_binary.specs.View.{width_of};
ghost use Rattle.json_binary.specs.Place.{spot_of, IsInside};
ghost use Rattle.json_splice.specs.Spelled.{IsNumberAt, IsTextAt};

use json_binary::{Form, Spot, Width, eight_at, text_range};

/// How many bytes a number in two's complement takes, where no narrower type has it.
pub fn signed_size(bytes: &[u8], spot: Spot, width: Width) -> Option<usize>
    requires inside { IsInside bytes.now spot }
    ensures { IfSome result (λ n. (z : ℤ) →
        IsNumberAs (signed (width_of width)) bytes.now z (spot_of spot) →
        IsNumberAt bytes.now (signed (width_of width)) z spot.at n) }
{
    let size = width.bytes();
    if spot.limit < spot.at + size {
        return None;
    }
    if needs_signed(bytes, spot.at, width) {
        Some(size)
    } else {
        None
    }
}

// Whether no narrower type has the number in two's complement.
fn needs_signed(bytes: &[u8], at: usize, width: Width) -> bool
    requires inside { at + width_of width ≤ length bytes.now }
    ensures { result ≡ true → canonical.number_kind
        (signed_of (8 * width_of width) (number_at bytes.now (width_of width) at))
        ≡ signed (width_of width) }
{
    match width {
        Width::Two => true,
        Width::Four => {
            let number = Form::Large.word_at(bytes, at);
            number >= 0x8000 && number < 0xffff_8000
        }
        Width::Eight => {
            let number = eight_at(bytes, at);
            number >= 0x8000_0000 && number < 0xffff_ffff_8000_0000
        }
    }
}

/// How many bytes a number without a sign takes, where no type with a sign has it.
pub fn unsigned_size(bytes: &[u8], spot: Spot, width: Width) -> Option<usize>
    requires inside { IsInside bytes.now spot }
    ensures { IfSome result (λ n. (z : ℤ) →
        IsNumberAs (unsigned (width_of width)) bytes.now z (spot_of spot) →
        IsNumberAt bytes.now (unsigned (width_of width)) z spot.at n) }
{
    let size = width.bytes();
    if spot.limit < spot.at + size {
        return None;
    }
    match width {
        Width::Eight => {
            if eight_at(bytes, spot.at) < 0x8000_0000_0000_0000 {
                return None;
            }
            Some(size)
        }
        _ => None,
    }
}

/// How many bytes a text takes, where its length stands in the fewest groups.
pub fn text_size(bytes: &[u8], spot: Spot) -> Option<usize>
    requires inside { IsInside bytes.now spot }
    ensures { IfSome result (λ n. (letters : List ℕ) →
        IsText bytes.now letters (spot_of spot) → IsTextAt bytes.now letters spot.at n) }
{
    let (start, end) = text_range(bytes, spot)?;
    let letters = groups_end(bytes, spot.at, end - start, 5)?;
    if letters != start {
        return None;
    }
    Some(end - spot.at)
}

// Where a length ends that stands in at most so many groups, and in the fewest.
fn groups_end(bytes: &[u8], at: usize, number: usize, groups: u8) -> Option<usize>
    ensures { IfSome result (λ end. Holds bytes.now at (canonical.groups groups number)
        × (end ≡ at + length (canonical.groups groups number))) }
{
    if groups == 0 || bytes.len() <= at {
        return None;
    }
    let byte = bytes[at] as usize;
    if number < 128 {
        if byte == number { Some(at + 1) } else { None }
    } else if byte == 128 + number % 128 {
        groups_end(bytes, at + 1, number / 128, groups - 1)
    } else {
        None
    }
}
