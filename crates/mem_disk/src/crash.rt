// What a crash of a disk in memory leaves, made anew from the record of its calls.
ghost use Rattle.std.specs.Prelude.{◌≡◌, ◌⊎◌, ◌+◌, ◌-◌, ◌/◌, ◌%◌, ◌<◌, ◌≤◌, List, max, length, take, drop, vec_len, vec_capacity, false, IfOk, if◌then◌else◌};
ghost use Rattle.mem_disk.specs.SureDisk.{overlaid};
ghost use Rattle.mem_disk.specs.MemDisk.{events_in, total, contents_of};
ghost use Rattle.mem_disk.specs.Crash.{replayed, AreWithin, AreWrites, EndSynced, crashed};

use crate::mem_disk::Step;
use crate::sure_disk::overwrite;
use std::alloc::{AllocError, Global};

// How many steps stand up to the last sync.
fn synced(steps: &[Step]) -> usize
    ensures within { result ≤ length steps.now }
    ensures behind { AreWrites (drop result steps.now) }
    ensures before { EndSynced (take result steps.now) }
{
    let mut n = steps.len();
    while n > 0 && !steps[n - 1].is_sync {
        n -= 1;
    }
    n
}

// How many steps a crash keeps whole, where so many of them stand up to the last sync.
fn kept(pick: u64, synced: usize, steps: usize) -> usize
    requires { synced ≤ steps }
    ensures none { pick % 4 ≡ 0 → result ≡ synced }
    ensures all { pick % 4 ≡ 1 → result ≡ steps }
    ensures most { 2 ≤ pick % 4 → result ≡ max synced (steps - 1) }
{
    match pick % 4 {
        0 => synced,
        1 => steps,
        _ => synced.max(steps.saturating_sub(1)),
    }
}

// Makes a step's write, whose bytes stand first, and answers those behind them.
fn make<'a>(file: &mut Vec<u8>, step: Step, bytes: &'a [u8]) -> &'a [u8]
    requires bytes { step.len ≤ length bytes.now }
    requires within { step.is_sync ≡ false → step.at + step.len ≤ vec_capacity file.old }
    ensures file { file.new.items ≡ (if step.is_sync then file.old.items
        else overlaid file.old.items step.at (take step.len bytes.now)) }
    ensures capacity { vec_capacity file.old ≤ vec_capacity file.new }
    ensures rest { result.now ≡ drop step.len bytes.now }
{
    if !step.is_sync {
        overwrite(file, step.at as usize, &bytes[..step.len]);
    }
    &bytes[step.len..]
}

// Makes the writes of these steps, and answers the bytes of the steps behind them.
fn replay<'a>(file: &mut Vec<u8>, steps: &[Step], bytes: &'a [u8]) -> &'a [u8]
    requires whole { total steps.now ≤ length bytes.now }
    requires within { AreWithin (vec_capacity file.old) steps.now }
    ensures file { file.new.items ≡ replayed steps.now bytes.now file.old.items }
    ensures capacity { vec_capacity file.old ≤ vec_capacity file.new }
    ensures rest { result.now ≡ drop (total steps.now) bytes.now }
{
    let mut rest = bytes;
    for step in steps {
        rest = make(file, *step, rest);
    }
    rest
}

// The image that this number picks, of so many bytes.
pub(crate) fn crash(
    alloc: Global,
    pick: u64,
    base: &[u8],
    size: usize,
    steps: &[Step],
    bytes: &[u8],
) -> Result<Vec<u8>, AllocError>
    requires whole { total steps.now ≡ length bytes.now }
    requires size { size ≡ length (contents_of base.now (events_in steps.now bytes.now)) }
    ensures { IfOk result (λ c. c.items ≡ crashed pick base.now (events_in steps.now bytes.now)) }
{
    let whole = kept(pick, synced(steps), steps.len());
    let mut image = Vec::with_capacity(alloc, size)?;
    image.extend_from_slice(base)?;
    let rest = replay(&mut image, &steps[..whole], bytes);
    if pick % 4 == 3 {
        if let Some(last) = steps.get(whole) {
            overwrite(&mut image, last.at as usize, &rest[..last.len / 2]);
        }
    }
    image.resize(size, 0)?;
    Ok(image)
}
