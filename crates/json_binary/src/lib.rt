//! JSON trees as MySQL's binary JSON: one canonical encoding, and a decoder that names the first
//! fault.
#![tactic(auto)]

mod codec;
mod cursor;
mod error;
mod limits;

pub use codec::decoder::{decode, decode_value};
pub use codec::encoder::encode;
pub use codec::numbers::{push_fill, push_word};
pub use codec::parts::{Spelled, entry_bytes, value_bytes};
pub use cursor::containers::{child, container_in, member, root};
pub use cursor::equal::equals;
pub use cursor::layout::{Form, Kind, Width, eight_at};
pub use cursor::nesting::nests;
pub use cursor::place::{Container, Spot};
pub use cursor::scalars::text_range;
pub use cursor::text::print;
pub use cursor::usage::used;
pub use error::{DecodeError, EncodeError};
pub use limits::{MAX_DOCUMENT_BYTES, MAX_SMALL_BYTES, limits_are_defined};

#[cfg(test)]
mod tests;
