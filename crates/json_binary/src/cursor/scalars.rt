//! Scalars, read in place.
ghost use Rattle.std.specs.Prelude.{◌≡◌, ◌≢◌, ◌<◌, ◌≤◌, ◌+◌, ◌^◌, ℕ, length, suc, IfOk, IfErr, IfSome, unwrap_or, option_map};
ghost use Rattle.binary_model.specs.Layout as layout;
ghost use Rattle.binary_model.specs.FirstFault.{text_from};
ghost use Rattle.json_tree.specs.View.{tree_of};
ghost use Rattle.json_binary.specs.View.{width_of};
ghost use Rattle.json_binary.specs.Place.{spot_of, IsInside};
ghost use Rattle.json_binary.specs.Decoding.{Gives, literal_at, signed_at, unsigned_at};
ghost use Rattle.json_binary.specs.declared.error.DecodeError.TheVariants.{Memory};

use crate::DecodeError;
use crate::cursor::layout::{Width, eight_at, four_at, two_at};
use crate::cursor::place::Spot;
use json_tree::{Json, Text, Whole};
use std::alloc::Global;

/// A value, and the place behind it.
#[derive(Drop)]
pub struct Found {
    pub value: Json,
    pub end: usize,
}

#[tactic(auto, using(crate::proofs::ScalarLemmas::no_literal))]
pub fn read_literal(bytes: &[u8], spot: Spot) -> Result<Found, DecodeError>
    requires inside { IsInside bytes.now spot }
    ensures value { Gives (λ f. tree_of f.value) result (literal_at bytes.now (spot_of spot)) }
    ensures end { IfOk result (λ f. f.end ≡ suc spot.at) }
    ensures lean { IfErr result (λ e. e ≢ Memory) }
{
    if spot.limit < spot.at + 1 {
        return Err(DecodeError::Truncated(spot.at));
    }
    let value = match bytes[spot.at] {
        0 => Json::Null,
        1 => Json::Bool(true),
        2 => Json::Bool(false),
        other => return Err(DecodeError::BadType(spot.at, other)),
    };
    Ok(Found {
        value,
        end: spot.at + 1,
    })
}

/// A number in two's complement.
#[tactic(auto, using(crate::proofs::ScalarLemmas::signed_two, crate::proofs::ScalarLemmas::signed_four, crate::proofs::ScalarLemmas::signed_eight))]
pub fn read_signed(bytes: &[u8], spot: Spot, width: Width) -> Result<Found, DecodeError>
    requires inside { IsInside bytes.now spot }
    ensures value { Gives (λ f. tree_of f.value) result
        (signed_at (width_of width) bytes.now (spot_of spot)) }
    ensures end { IfOk result (λ f. f.end ≡ spot.at + width_of width) }
    ensures lean { IfErr result (λ e. e ≢ Memory) }
{
    let end = spot.at + width.bytes();
    if spot.limit < end {
        return Err(DecodeError::Truncated(spot.at));
    }
    let number = match width {
        Width::Two => i64::from(two_at(bytes, spot.at).cast_signed()),
        Width::Four => i64::from(four_at(bytes, spot.at).cast_signed()),
        Width::Eight => eight_at(bytes, spot.at).cast_signed(),
    };
    Ok(Found {
        value: Json::Number(Whole::from_i64(number)),
        end,
    })
}

pub fn read_unsigned(bytes: &[u8], spot: Spot, width: Width) -> Result<Found, DecodeError>
    requires inside { IsInside bytes.now spot }
    ensures value { Gives (λ f. tree_of f.value) result
        (unsigned_at (width_of width) bytes.now (spot_of spot)) }
    ensures end { IfOk result (λ f. f.end ≡ spot.at + width_of width) }
    ensures lean { IfErr result (λ e. e ≢ Memory) }
{
    let end = spot.at + width.bytes();
    if spot.limit < end {
        return Err(DecodeError::Truncated(spot.at));
    }
    let number = match width {
        Width::Two => u64::from(two_at(bytes, spot.at)),
        Width::Four => u64::from(four_at(bytes, spot.at)),
        Width::Eight => eight_at(bytes, spot.at),
    };
    Ok(Found {
        value: Json::Number(Whole::from_u64(number)),
        end,
    })
}

/// A length in at most so many groups of seven bits, the low group first, and how many bytes it
/// takes.
fn grouped(bytes: &[u8], groups: u8) -> Option<(u64, usize)>
    requires { groups ≤ 5 }
    ensures value { result ≡ layout.grouped groups bytes.now }
    ensures short { IfSome result (λ r. (r.0 < 128 ^ groups) × (r.1 ≤ groups)) }
{
    if groups == 0 {
        return None;
    }
    let [byte, rest @ ..] = bytes else {
        return None;
    };
    let byte = u64::from(*byte);
    if byte < 128 {
        return Some((byte, 1));
    }
    let (high, taken) = grouped(rest, groups - 1)?;
    Some((byte - 128 + 128 * high, taken + 1))
}

/// From where to where a text's letters stand, where its length and they don't pass the limit.
#[tactic(auto, unfolding(binary_model::specs::Layout::text_range))]
pub fn text_range(bytes: &[u8], spot: Spot) -> Option<(usize, usize)>
    requires inside { IsInside bytes.now spot }
    ensures range { result ≡ layout.text_range bytes.now spot.at spot.limit }
    ensures within { IfSome result (λ r. (spot.at ≤ r.0) × (r.0 ≤ r.1) × (r.1 ≤ spot.limit)) }
{
    let Some((length, taken)) = grouped(&bytes[spot.at..spot.limit], 5) else {
        return None;
    };
    let start = spot.at + taken;
    let end = start + length as usize;
    if length < 1 << 32 && end <= spot.limit {
        Some((start, end))
    } else {
        None
    }
}

pub fn read_text(alloc: Global, bytes: &[u8], spot: Spot) -> Result<Found, DecodeError>
    requires inside { IsInside bytes.now spot }
    ensures value { Gives (λ f. tree_of f.value) result
        (text_from bytes.now spot.at (layout.text_range bytes.now spot.at spot.limit)) }
    ensures end { IfOk result (λ f. f.end ≡
        unwrap_or (option_map (λ r. r.1) (layout.text_range bytes.now spot.at spot.limit))
        spot.at) }
{
    let Some((start, end)) = text_range(bytes, spot) else {
        return Err(DecodeError::Truncated(spot.at));
    };
    match str::from_utf8(&bytes[start..end]) {
        Ok(letters) => Ok(Found {
            value: Json::Text(Text::new(String::from_str(alloc, letters)?)),
            end,
        }),
        Err(_) => Err(DecodeError::BadUtf8(start)),
    }
}
