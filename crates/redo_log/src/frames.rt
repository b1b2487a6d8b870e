// Reading the frames of a block, each into the buffer of the group that it becomes.
ghost use Rattle.std.specs.Prelude.{◌≡◌, ◌⊎◌, ◌+◌, ◌≤◌, ◌<◌, ◌^◌, ℕ, true, false, List, length, take, vec_len, vec_capacity, Option, Some, None, IsTrue, IsFalse, IfOk, OnOk, IfSome};
ghost use Rattle.engine_base.specs.Disk.{Holds, Stays, GoesOn};
ghost use Rattle.page_model.specs.Frames.{max_group, frame_bytes, HoldsFrame};
ghost use Rattle.mini_trx.specs.Groups.{GroupView};
ghost use Rattle.file_model.specs.Sections.{part};
ghost use Rattle.file_model.specs.Frames.{first_bytes, is_frame};
ghost use Rattle.redo_log.specs.Scans.{HasBuffer, IsHead, IsTaken};

use byteorder::{BigEndian, ByteOrder};
use engine_base::{Disk, Fault, MAX_GROUP};
use mini_trx::Group;
use std::mem;

/// Reads so many bytes into the buffer, in the place of what it has.
fn fill<D: Disk>(disk: &mut D, place: u64, len: usize, buffer: &mut Vec<u8>) -> Result<(), Fault>
    requires room { len ≤ vec_capacity buffer.old }
    requires whole { IfSome (D.state disk.old).seen (λ file. place + len ≤ length file) }
    ensures bytes { OnOk result (IfSome (D.state disk.old).seen
        (λ file. buffer.new.items ≡ part file place len)) }
    ensures len { vec_len buffer.new ≡ len }
    ensures capacity { vec_capacity buffer.old ≤ vec_capacity buffer.new }
    ensures stays { Stays (D.state disk.old) (D.state disk.new) }
    ensures goes_on { GoesOn (D.state disk.old) (D.state disk.new) result }
{
    buffer.clear();
    // There is room, so this takes no memory.
    buffer.resize(len, 0).unwrap();
    disk.read_at(place, buffer.as_mut_slice())
}

/// Reads the frame at a place in a block, of which so many bytes are left there, into the buffer.
/// Tells whether its length
/// is one that a frame can have; whether it is a frame is for its bytes to tell.
pub(crate) fn read_frame<D: Disk>(
    disk: &mut D,
    place: u64,
    left: u64,
    buffer: &mut Vec<u8>,
) -> Result<bool, Fault>
    requires room { max_group ≤ vec_capacity buffer.old }
    requires whole { IfSome (D.state disk.old).seen (λ file. place + left ≤ length file) }
    ensures bytes { IfOk result (λ whole. IfSome (D.state disk.old).seen
        (λ file. IsHead whole buffer.new.items (part file place left))) }
    ensures inside { IfOk result (λ whole. IsTrue whole → vec_len buffer.new ≤ left) }
    ensures capacity { max_group ≤ vec_capacity buffer.new }
    ensures stays { Stays (D.state disk.old) (D.state disk.new) }
    ensures goes_on { GoesOn (D.state disk.old) (D.state disk.new) result }
{
    if left < 6 {
        return Ok(false);
    }
    let mut len = [0u8; 4];
    disk.read_at(place, &mut len)?;
    let len = BigEndian::read_u32(&len) as usize;
    if len > MAX_GROUP || len as u64 > left {
        return Ok(false);
    }
    fill(disk, place, len, buffer)?;
    Ok(true)
}

/// Takes the buffer back from the group that was read before.
pub(crate) fn take_back(buffer: &mut Vec<u8>, group: &mut Option<Group>)
    requires { HasBuffer group.old (vec_capacity buffer.old) }
    ensures room { max_group ≤ vec_capacity buffer.new }
    ensures none { group.new ≡ None }
{
    if let Some(group) = group.take() {
        *buffer = group.into_buffer();
    }
}

/// Makes a group of the buffer where its bytes are the frame of one, and tells whether it did.
pub(crate) fn into_group(buffer: &mut Vec<u8>, group: &mut Option<Group>, pages: u32) -> bool
    requires room { max_group ≤ vec_capacity buffer.old }
    requires none { group.old ≡ None }
    ensures taken { IsTaken result pages buffer.old.items group.new }
    ensures buffer { HasBuffer group.new (vec_capacity buffer.new) }
{
    let alloc = *buffer.allocator();
    match Group::from_frame(mem::replace(buffer, Vec::new(alloc)), pages) {
        Ok(frame) => {
            *group = Some(frame);
            true
        }
        Err(bytes) => {
            *buffer = bytes;
            false
        }
    }
}
