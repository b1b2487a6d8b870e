// Keys in quotes, which are strings of JSON.
ghost use Rattle.std.specs.Prelude.{◌≡◌, ◌+◌, ◌<◌, ◌≤◌, length, drop, slice_index, Some, IfOk, option_map};
ghost use Rattle.json.specs.Text.{content, plain};
ghost use Rattle.path_model.specs.PathText as spec;
ghost use Rattle.path_model.specs.PathText.{next_state, string_stop, whole, backslash};
ghost use Rattle.json_path.specs.Parsing.{Unquotes, state_of};
ghost use Rattle.json.specs.Reads.{token_of};
ghost use Rattle.json_path.specs.Tokens.{string_text};

use crate::PathError;
use json::{Reader, Scratch, Token};
use json_tree::Text;
use std::alloc::{AllocError, Global};

/// The text of the string whose opening quote comes first, if it is one.
#[tactic(auto, using(crate::proofs::Tokens::first_text))]
pub fn unquoted(alloc: Global, text: &str) -> Result<Option<Text>, AllocError>
    requires { slice_index text.now 0 ≡ 34 }
    ensures { IfOk result (λ key. key ≡ content plain (drop 1 text.now)) }
{
    let mut scratch = Scratch::new(alloc);
    let mut reader = Reader::new(text, &mut scratch)?;
    let Some(token) = reader.next() else {
        return Ok(None);
    };
    match text_of(token) {
        Some(key) => {
            let key = String::from_str(alloc, key)?;
            Ok(Some(Text::new(key)))
        }
        None => Ok(None),
    }
}

fn text_of<'a>(token: Token<'a>) -> Option<&'a str>
    ensures { option_map (λ s. s.now) result ≡ string_text (token_of token.entry) }
{
    match token {
        Token::String(text) => Some(text),
        Token::Key(text) => Some(text),
        _ => None,
    }
}

/// Where the string ends whose first byte behind the quote is at this place.
pub fn end_of_string(bytes: &[u8], at: usize) -> Result<usize, PathError>
    requires { at ≤ length bytes.now }
    ensures { Unquotes bytes.now at result }
{
    let mut escaped = false;
    let mut end = at;
    while end < bytes.len() {
        match (escaped, bytes[end]) {
            (false, b'"') => return Ok(end + 1),
            (false, b'\\') => escaped = true,
            _ => escaped = false,
        }
        end += 1;
    }
    Err(PathError::Syntax(end))
}

// Where a scan stands: behind a whole character, behind a backslash, behind `\u`, behind `\ud`,
// before the last digits of a unit, before those of the first half of a surrogate pair, behind
// that half, and behind the backslash, the `\u` and the `\ud` of the second.
#[derive(Clone, Copy)]
enum StringState {
    Whole,
    Backslash,
    Unit,
    UnitD,
    More(u8),
    FirstHalf(u8),
    Half,
    HalfBackslash,
    Second,
    SecondD,
}

fn if_digit(byte: u8, state: StringState) -> Option<StringState>
    ensures { option_map state_of result ≡ spec.if_digit byte (state_of state) }
{
    if byte.is_ascii_hexdigit() {
        Some(state)
    } else {
        None
    }
}

#[tactic(auto, unfolding(json::specs::Text::short_escape))]
fn behind_backslash(byte: u8) -> Option<StringState>
    ensures { option_map state_of result ≡ next_state backslash byte }
{
    match byte {
        b'u' => Some(StringState::Unit),
        b'"' | b'\\' | b'/' | b'b' | b'f' | b'n' | b'r' | b't' => Some(StringState::Whole),
        _ => None,
    }
}

fn next(state: StringState, byte: u8) -> Option<StringState>
    ensures { option_map state_of result ≡ next_state (state_of state) byte }
{
    match (state, byte) {
        (StringState::Whole, 0..=31) => None,
        (StringState::Whole, b'\\') => Some(StringState::Backslash),
        (StringState::Whole, _) => Some(StringState::Whole),
        (StringState::Backslash, _) => behind_backslash(byte),
        (StringState::Unit, b'd' | b'D') => Some(StringState::UnitD),
        (StringState::Unit, _) => if_digit(byte, StringState::More(3)),
        (StringState::UnitD, b'8'..=b'9' | b'A'..=b'B' | b'a'..=b'b') => Some(
            StringState::FirstHalf(2),
        ),
        (StringState::UnitD, b'C'..=b'F' | b'c'..=b'f') => None,
        (StringState::UnitD, _) => if_digit(byte, StringState::More(2)),
        (StringState::More(left), _) if left > 1 => if_digit(byte, StringState::More(left - 1)),
        (StringState::More(_), _) => if_digit(byte, StringState::Whole),
        (StringState::FirstHalf(left), _) if left > 1 => if_digit(
            byte,
            StringState::FirstHalf(left - 1),
        ),
        (StringState::FirstHalf(_), _) => if_digit(byte, StringState::Half),
        (StringState::Half, b'\\') => Some(StringState::HalfBackslash),
        (StringState::HalfBackslash, b'u') => Some(StringState::Second),
        (StringState::Second, b'd' | b'D') => Some(StringState::SecondD),
        (StringState::SecondD, b'C'..=b'F' | b'c'..=b'f') => Some(StringState::More(2)),
        _ => None,
    }
}

/// How many bytes behind the opening quote go on, where the text is no string.
pub fn bytes_to_fault(bytes: &[u8]) -> usize
    ensures within { result ≤ length bytes.now }
    ensures stop { result ≡ string_stop whole bytes.now }
{
    let mut state = StringState::Whole;
    for (count, byte) in bytes.iter().enumerate() {
        match next(state, *byte) {
            Some(after) => state = after,
            None => return count,
        }
    }
    bytes.len()
}
