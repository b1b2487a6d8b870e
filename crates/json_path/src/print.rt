// The text of a path.
ghost use Rattle.std.specs.Prelude.{◌≡◌, ◌++◌, ◌∷◌, [], map, OnOk, OnErr, Ok, decimal, if◌then◌else◌};
ghost use Rattle.std.specs.List.{list_all};
ghost use Rattle.json.specs.Print.{quoted};
ghost use Rattle.json_tree.specs.Writing.{Extends};
ghost use Rattle.path_model.specs.PathText as spec;
ghost use Rattle.path_model.specs.PathText.{path_text, leg_text, read_path};
ghost use Rattle.json_path.specs.View.{leg_of};

use crate::key::{begins_key, goes_in_key};
use crate::{Leg, Path};
use json_tree::push_quoted;
use std::alloc::AllocError;

impl Path {
    /// Appends the text of the path. At `Err` the bytes are as before.
    pub fn print(&self, out: &mut Vec<u8>) -> Result<(), AllocError>
        ensures ok { OnOk result (out.new.items ≡ out.old.items ++ path_text self.now) }
        ensures err { OnErr result (out.new.items ≡ out.old.items) }
        ensures reads_back { read_path (path_text self.now) ≡ Ok self.now }
    {
        let before = out.len();
        let written = push_path(&self.legs, out);
        if written.is_err() {
            out.truncate(before);
        }
        written
    }
}

#[tactic(auto, using(json_tree::proofs::Growth::extends_more, json_tree::proofs::Growth::extends_on, json_tree::proofs::Growth::extends_itself))]
fn push_path(legs: &[Leg], out: &mut Vec<u8>) -> Result<(), AllocError>
    ensures ok { OnOk result (out.new.items ≡ out.old.items ++ path_text (map leg_of legs.now)) }
    ensures kept { Extends out.old.items out.new.items }
{
    out.push(b'$')?;
    for leg in legs {
        push_leg(leg, out)?;
    }
    Ok(())
}

#[tactic(auto, using(json_tree::proofs::Growth::extends_more, json_tree::proofs::Growth::extends_on, json_tree::proofs::Growth::extends_itself))]
fn push_leg(leg: &Leg, out: &mut Vec<u8>) -> Result<(), AllocError>
    ensures ok { OnOk result (out.new.items ≡ out.old.items ++ leg_text (leg_of leg.now)) }
    ensures kept { Extends out.old.items out.new.items }
{
    match leg {
        Leg::Member(key) => {
            out.push(b'.')?;
            push_key(key.as_str(), out)
        }
        Leg::Cell(number) => {
            out.push(b'[')?;
            push_number(*number, out)
        }
        Leg::Last(0) => out.extend_from_slice(b"[last]"),
        Leg::Last(number) => {
            out.extend_from_slice(b"[last-")?;
            push_number(*number, out)
        }
    }
}

fn push_key(key: &str, out: &mut Vec<u8>) -> Result<(), AllocError>
    ensures ok { OnOk result
        (out.new.items ≡ out.old.items
        ++ (if spec.is_bare key.now then key.now else quoted key.now)) }
    ensures kept { Extends out.old.items out.new.items }
{
    if is_bare(key.as_bytes()) {
        out.extend_from_slice(key.as_bytes())
    } else {
        push_quoted(key, out)
    }
}

// A number and the bracket behind it.
#[tactic(auto, using(json_tree::proofs::Growth::extends_more, json_tree::proofs::Growth::extends_on, json_tree::proofs::Growth::extends_itself))]
fn push_number(number: u32, out: &mut Vec<u8>) -> Result<(), AllocError>
    ensures ok { OnOk result (out.new.items ≡ out.old.items ++ (decimal number ++ 93 ∷ [])) }
    ensures kept { Extends out.old.items out.new.items }
{
    let mut digits = itoa::Buffer::new();
    out.extend_from_slice(digits.format(number).as_bytes())?;
    out.push(b']')?;
    Ok(())
}

// Whether the key needs no quotes.
fn is_bare(key: &[u8]) -> bool
    ensures { result ≡ spec.is_bare key.now }
{
    match key {
        [first, others @ ..] => begins_key(*first) && all_go_in_key(others),
        [] => false,
    }
}

fn all_go_in_key(bytes: &[u8]) -> bool
    ensures { result ≡ list_all spec.goes_in_key bytes.now }
{
    for byte in bytes {
        if !goes_in_key(*byte) {
            return false;
        }
    }
    true
}
