// Legs in brackets.
ghost use Rattle.std.specs.Prelude.{◌≡◌, ◌≢◌, IsTrue, false, ◌∷◌, [], ◌<◌, ◌≤◌, length, drop, slice_index, true};
ghost use Rattle.std.specs.Char.{is_ascii_digit};
ghost use Rattle.path_model.specs.PathText.{bracket, letters, minus};
ghost use Rattle.json_path.specs.View.{leg_of, IsNumbered};
ghost use Rattle.json_path.specs.Parsing.{Reads, Closes, Counts};

use crate::parse::Parsed;
use crate::{Leg, PathError};

const MAX_DIGITS: usize = 10;

/// A number, and the place behind it.
#[derive(Clone, Copy)]
pub struct Number {
    pub value: u32,
    pub end: usize,
}

/// The leg whose bracket stands before this place.
pub fn index(bytes: &[u8], at: usize) -> Result<Parsed, PathError>
    requires { at ≤ length bytes.now }
    ensures { Reads bracket bytes.now at result }
{
    match bytes.get(at) {
        Some(b'*') => Err(PathError::Wildcard(at)),
        Some(b'l') => last(bytes, at + 1),
        Some(byte) if byte.is_ascii_digit() => {
            let number = digits(bytes, at)?;
            close(bytes, number.end, Leg::Cell(number.value))
        }
        _ => Err(PathError::Syntax(at)),
    }
}

// The rest of `last`, and what may stand behind it.
fn last(bytes: &[u8], at: usize) -> Result<Parsed, PathError>
    requires { at ≤ length bytes.now }
    ensures { Reads (letters (97 ∷ 115 ∷ 116 ∷ [])) bytes.now at result }
{
    for (count, letter) in b"ast".iter().enumerate() {
        if !has_byte(bytes, at + count, *letter) {
            return Err(PathError::Syntax(at + count));
        }
    }
    let end = at + 3;
    if has_byte(bytes, end, b'-') {
        return before_last(bytes, end + 1);
    }
    close(bytes, end, Leg::Last(0))
}

fn has_byte(bytes: &[u8], at: usize, byte: u8) -> bool
    ensures yes { IsTrue result → (at < length bytes.now) × (slice_index bytes.now at ≡ byte) }
    ensures no { result ≡ false → at < length bytes.now → slice_index bytes.now at ≢ byte }
{
    at < bytes.len() && bytes[at] == byte
}

// Behind `last-`.
fn before_last(bytes: &[u8], at: usize) -> Result<Parsed, PathError>
    requires { at ≤ length bytes.now }
    ensures { Reads minus bytes.now at result }
{
    match bytes.get(at) {
        Some(byte) if byte.is_ascii_digit() => {
            let number = digits(bytes, at)?;
            close(bytes, number.end, Leg::Last(number.value))
        }
        _ => Err(PathError::Syntax(at)),
    }
}

// The digits from this place on.
fn digits(bytes: &[u8], at: usize) -> Result<Number, PathError>
    requires { at ≤ length bytes.now }
    ensures { Counts bytes.now at result }
{
    let mut value = 0u32;
    let mut end = at;
    while end < bytes.len() && bytes[end].is_ascii_digit() {
        let wider = value as u64 * 10 + (bytes[end] - b'0') as u64;
        if end - at == MAX_DIGITS || wider > u32::MAX as u64 {
            return Err(PathError::Syntax(at));
        }
        value = wider as u32;
        end += 1;
    }
    Ok(Number { value, end })
}

// The bracket behind a leg.
fn close(bytes: &[u8], at: usize, leg: Leg) -> Result<Parsed, PathError>
    requires within { at ≤ length bytes.now }
    requires numbered { IsNumbered (leg_of leg) }
    ensures { Closes (leg_of leg) bytes.now at result }
{
    if bytes.get(at) == Some(&b']') {
        return Ok(Parsed { leg, end: at + 1 });
    }
    if bytes[at..].starts_with(b" to ") {
        return Err(PathError::Range(at));
    }
    Err(PathError::Syntax(at))
}
