// Legs behind a dot.
ghost use Rattle.std.specs.Prelude.{◌≡◌, false, ◌-◌, ◌<◌, ◌≤◌, ℕ, length, drop, slice_range, slice_index, true, []};
ghost use Rattle.tree_model.specs.Path.{Path};
ghost use Rattle.path_model.specs.PathText as spec;
ghost use Rattle.path_model.specs.PathText.{dot, bare, scan};
ghost use Rattle.json_path.specs.Parsing.{Reads};

use crate::parse::Parsed;
use crate::strings::{bytes_to_fault, end_of_string, unquoted};
use crate::{Leg, PathError};
use json_tree::Text;
use std::alloc::Global;

/// Whether a bare key may begin so.
pub fn begins_key(byte: u8) -> bool
    ensures { result ≡ spec.begins_key byte }
{
    byte.is_ascii_alphabetic() || byte == b'_' || byte == b'$'
}

/// Whether it may go on so.
pub fn goes_in_key(byte: u8) -> bool
    ensures { result ≡ spec.goes_in_key byte }
{
    begins_key(byte) || byte.is_ascii_digit()
}

/// The leg whose dot stands before this place.
pub fn member(alloc: Global, text: &str, at: usize) -> Result<Parsed, PathError>
    requires { at ≤ length text.now }
    ensures { Reads dot text.now at result }
{
    let bytes = text.as_bytes();
    match bytes.get(at) {
        Some(b'*') => Err(PathError::Wildcard(at)),
        Some(b'"') => quoted(alloc, text, at),
        Some(byte) if begins_key(*byte) => {
            let end = end_of_key(bytes, at);
            let key = String::from_str(alloc, &text[at..end])?;
            Ok(Parsed {
                leg: Leg::Member(Text::new(key)),
                end,
            })
        }
        _ => Err(PathError::Syntax(at)),
    }
}

fn quoted(alloc: Global, text: &str, at: usize) -> Result<Parsed, PathError>
    requires within { at < length text.now }
    requires quote { slice_index text.now at ≡ 34 }
    ensures { Reads dot text.now at result }
{
    let bytes = text.as_bytes();
    let begin = at + 1;
    match unquoted(alloc, &text[at..])? {
        Some(key) => {
            let end = end_of_string(bytes, begin)?;
            Ok(Parsed {
                leg: Leg::Member(key),
                end,
            })
        }
        None => Err(PathError::Syntax(begin + bytes_to_fault(&bytes[begin..]))),
    }
}

// Where the bare key ends that begins at this place.
fn end_of_key(bytes: &[u8], at: usize) -> usize
    requires within { at < length bytes.now }
    requires begins { spec.begins_key (slice_index bytes.now at) ≡ true }
    ensures some { at < result }
    ensures within { result ≤ length bytes.now }
    ensures ascii { slice_index bytes.now (result - 1) < 128 }
    ensures reads { (ls : Path)
        → scan dot ls at (drop at bytes.now)
        ≡ scan (bare (slice_range bytes.now at result)) ls result (drop result bytes.now) }
    ensures whole { result < length bytes.now
        → spec.goes_in_key (slice_index bytes.now result) ≡ false }
{
    let mut end = at + 1;
    while end < bytes.len() && goes_in_key(bytes[end]) {
        end += 1;
    }
    end
}
