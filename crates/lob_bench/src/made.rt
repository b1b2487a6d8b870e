//! Made documents.
ghost use Rattle.std.specs.Prelude.{◌≡◌, ◌<◌, ◌^◌, IfOk, length};

use crate::draw::draw;
use anyhow::{Result, ensure};
use json_binary::encode;
use json_tree::{Json, List, MAX_KEY_BYTES, Members, Text, Whole};
use rand_pcg::Pcg32;
use std::alloc::{AllocError, Global};

/// An array of so many objects of three members each.
pub fn objects(alloc: Global, rng: &mut Pcg32, count: u32) -> Result<Json, AllocError> {
    let mut list = List::with_capacity(alloc, count as usize)?;
    for _ in 0..count {
        list.push(Json::Object(object(alloc, rng)?))?;
    }
    Ok(Json::List(list))
}

fn object(alloc: Global, rng: &mut Pcg32) -> Result<Members, AllocError> {
    let id = draw(rng, 1_000_000_000);
    let item = draw(rng, 100_000);
    let tags = draw(rng, 1_000);
    let name = Text::new(format!(in alloc; "item {item}")?);
    let mut members = Members::with_capacity(alloc, 3)?;
    members.put(key(alloc, "id")?, number(id))?;
    members.put(key(alloc, "name")?, Json::Text(name))?;
    members.put(key(alloc, "tags")?, number(tags))?;
    Ok(members)
}

/// An object of so many members, from `k0` on, whose values are their numbers.
pub fn wide_object(alloc: Global, count: u32) -> Result<Json> {
    let mut members = Members::with_capacity(alloc, count as usize)?;
    for k in 0..count {
        let key = Text::new(format!(in alloc; "k{k}")?);
        ensure!(key.len() <= MAX_KEY_BYTES, "a key is too long");
        members.put(key, number(k))?;
    }
    Ok(Json::Object(members))
}

fn key(alloc: Global, name: &str) -> Result<Text, AllocError>
    ensures { IfOk result (λ text. text ≡ name.now) }
{
    Ok(Text::new(String::from_str(alloc, name)?))
}

fn number(value: u32) -> Json {
    Json::Number(Whole::from_u64(u64::from(value)))
}

/// The canonical encoding of a tree.
pub fn encoded(alloc: Global, tree: &Json) -> Result<Vec<u8>> {
    let mut bytes = Vec::new(alloc);
    encode(tree, &mut bytes)?;
    Ok(bytes)
}
