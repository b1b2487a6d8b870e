//! Numbers and lengths as bytes, the lowest first.
ghost use Rattle.std.specs.Prelude.{◌≡◌, ◌<◌, ◌≤◌, ◌+◌, ◌^◌, ◌++◌, length, replicate, OnOk, OnErr};
ghost use Rattle.tree_model.specs.Tree.{IsWhole};
ghost use Rattle.binary_model.specs.Canonical as canonical;
ghost use Rattle.json_binary.specs.View.{kind_of};
ghost use Rattle.json_tree.specs.Writing.{Extends};

use crate::cursor::layout::{Kind, Width};
use json_tree::Whole;
use std::alloc::AllocError;

/// The narrowest type of a number.
#[tactic(auto, using(crate::proofs::NumberLemmas::two, crate::proofs::NumberLemmas::four, crate::proofs::NumberLemmas::eight, crate::proofs::NumberLemmas::unsigned_eight))]
pub fn number_kind(whole: Whole) -> Kind
    ensures kind { kind_of result ≡ canonical.number_kind whole }
    ensures range { IsWhole whole }
{
    let value = whole.get();
    if i16::try_from(value).is_ok() {
        Kind::Signed(Width::Two)
    } else if i32::try_from(value).is_ok() {
        Kind::Signed(Width::Four)
    } else if i64::try_from(value).is_ok() {
        Kind::Signed(Width::Eight)
    } else {
        Kind::Unsigned(Width::Eight)
    }
}

/// Appends a number in the bytes of its narrowest type.
#[tactic(auto, using(crate::proofs::NumberLemmas::bytes_two, crate::proofs::NumberLemmas::bytes_four, crate::proofs::NumberLemmas::bytes_eight, crate::proofs::NumberLemmas::bytes_unsigned))]
pub fn push_number(whole: Whole, out: &mut Vec<u8>) -> Result<(), AllocError>
    ensures ok { OnOk result (out.new.items ≡ out.old.items ++ canonical.number_bytes whole) }
    ensures err { OnErr result (out.new.items ≡ out.old.items) }
{
    let value = whole.get();
    if let Ok(value) = i16::try_from(value) {
        return out.extend_from_slice(&value.to_le_bytes());
    }
    if let Ok(value) = i32::try_from(value) {
        return out.extend_from_slice(&value.to_le_bytes());
    }
    if let Ok(value) = i64::try_from(value) {
        return out.extend_from_slice(&value.to_le_bytes());
    }
    out.extend_from_slice(&(value as u64).to_le_bytes())
}

/// Appends the lowest bytes of a number.
#[tactic(auto, using(crate::proofs::NumberLemmas::low_taken))]
pub fn push_word(number: usize, width: usize, out: &mut Vec<u8>) -> Result<(), AllocError>
    requires { width ≤ 8 }
    ensures ok { OnOk result (out.new.items ≡ out.old.items ++ canonical.low_bytes width number) }
    ensures err { OnErr result (out.new.items ≡ out.old.items) }
{
    out.extend_from_slice(&number.to_le_bytes()[..width])
}

/// Appends a byte several times.
pub fn push_fill(byte: u8, count: usize, out: &mut Vec<u8>) -> Result<(), AllocError>
    requires { count ≤ 4 }
    ensures ok { OnOk result (out.new.items ≡ out.old.items ++ replicate count byte) }
    ensures err { OnErr result (out.new.items ≡ out.old.items) }
{
    out.extend_from_slice(&[byte; 4][..count])
}

/// How many groups of seven bits a length takes, where so many are allowed.
pub fn group_count(number: usize, groups: u8) -> usize
    ensures count { result ≡ length (canonical.groups groups number) }
    ensures bound { result ≤ groups }
{
    if groups == 0 {
        0
    } else if number < 128 {
        1
    } else {
        1 + group_count(number / 128, groups - 1)
    }
}

/// Appends a length in groups of seven bits, the low group first. A high bit says that another byte
/// follows.
#[tactic(auto, using(json_tree::proofs::Growth::extends_more, json_tree::proofs::Growth::extends_on, json_tree::proofs::Growth::extends_itself))]
pub fn push_groups(number: usize, groups: u8, out: &mut Vec<u8>) -> Result<(), AllocError>
    ensures ok { OnOk result (out.new.items ≡ out.old.items ++ canonical.groups groups number) }
    ensures kept { Extends out.old.items out.new.items }
{
    if groups == 0 {
        return Ok(());
    }
    if number < 128 {
        out.push(number as u8)?;
        return Ok(());
    }
    out.push(128 + (number % 128) as u8)?;
    push_groups(number / 128, groups - 1, out)
}
