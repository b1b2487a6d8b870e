// A disk in memory that fails only where it has no room.
ghost use Rattle.std.specs.Prelude.{◌≡◌, ◌+◌, ◌<◌, ◌≤◌, ◌↔◌, ◌++◌, List, ℕ, Some, max, length, take, drop, vec_len, vec_capacity, IsOk, IsErr, IfOk, OnOk, OnErr};
ghost use Rattle.engine_base.specs.Disk.{Holds, Torn, Written, without_images};
ghost use Rattle.engine_base.specs.Faults.{HasCause, FailsPlainly};
ghost use Rattle.engine_base.specs.Untold.{untold};
ghost use Rattle.mem_disk.specs.SureDisk.{overlaid, after_write, after_failed_write};

use engine_base::{Disk, Fault};
use std::alloc::{AllocError, Global};
use std::marker::Model;

/// Bytes in memory as a disk. Only a write that would end past its room fails, and that one leaves
/// the bytes as they were.
///
/// It tells its contents and no images: nothing is claimed of what a crash leaves.
#[derive(Drop)]
pub struct SureDisk {
    contents: Vec<u8>,
    room: u64,
    failed: u64,
}

impl Model for SureDisk {
    ghost use Rattle.std.specs.Prelude.{◌≤◌, vec_len, vec_capacity};
    ghost use Rattle.mem_disk.specs.SureDisk.{Sure};

    ghost Value = { Sure };

    ghost view = { λ d. record { contents = d.contents.items; room = d.room; faults = d.failed } };

    ghost invariant = { λ d. (vec_len d.contents ≤ d.room) × (d.room ≤ vec_capacity d.contents) };
}

impl SureDisk {
    /// A disk with these contents and room for that many bytes in all, which it takes from the
    /// allocator here.
    pub fn new(alloc: Global, contents: Vec<u8>, room: u64) -> Result<SureDisk, AllocError>
        requires { vec_len contents ≤ room }
        ensures { IfOk result (λ disk.
            disk ≡ record { contents = contents.items; room = room; faults = 0 }) }
    {
        let mut bytes = Vec::with_capacity(alloc, room as usize)?;
        bytes.extend_from_slice(&contents)?;
        Ok(SureDisk {
            contents: bytes,
            room,
            failed: 0,
        })
    }

    /// The bytes that a read gives.
    pub fn contents(&self) -> &[u8]
        ensures { result.now ≡ self.now.contents }
    {
        &self.contents
    }
}

// Writes the bytes over those from place `at` on.
fn write_over(file: &mut [u8], at: usize, bytes: &[u8])
    requires { at + length bytes.now ≤ length file.old }
    ensures { file.new ≡ take at file.old ++ (bytes.now ++ drop (at + length bytes.now) file.old) }
{
    file[at..at + bytes.len()].copy_from_slice(bytes);
}

// Writes the bytes from place `at` on, with zeros in a gap behind the old end. It needs no memory.
pub(crate) fn overwrite(file: &mut Vec<u8>, at: usize, bytes: &[u8])
    requires { at + length bytes.now ≤ vec_capacity file.old }
    ensures items { file.new.items ≡ overlaid file.old.items at bytes.now }
    ensures len { vec_len file.new ≡ max (vec_len file.old) (at + length bytes.now) }
    ensures capacity { vec_capacity file.old ≤ vec_capacity file.new }
{
    let end = at + bytes.len();
    if end > file.len() {
        file.resize(end, 0).unwrap();
    }
    write_over(file, at, bytes);
}

impl Disk for SureDisk {
    ghost state = { λ d. without_images (Some d.contents) d.faults };

    ghost seen_may_stay = { λ disk file tells is. untold tells };

    ghost counts_now = { λ disk t c reached leaves. leaves };

    ghost only_now = { λ disk c left. left };

    fn size(&mut self) -> Result<u64, Fault>
        ensures ok { result ≡ Ok (length self.old.contents) }
        ensures same { self.new ≡ self.old }
    {
        Ok(self.contents.len() as u64)
    }

    fn read_at(&mut self, at: u64, into: &mut [u8]) -> Result<(), Fault>
        requires { at + length into.old ≤ length self.old.contents }
        ensures ok { IsOk result }
        ensures bytes { Holds self.old.contents at into.new }
        ensures same { self.new ≡ self.old }
    {
        let at = at as usize;
        into.copy_from_slice(&self.contents[at..at + into.len()]);
        Ok(())
    }

    #[tactic(auto, using(crate::proofs::OverlaidLemmas::written_overlaid, crate::proofs::OverlaidLemmas::torn_same))]
    fn write_at(&mut self, at: u64, bytes: &[u8]) -> Result<(), Fault>
        ensures written { OnOk result (Written at bytes.now self.old.contents self.new.contents) }
        ensures torn { Torn at (length bytes.now) self.old.contents self.new.contents }
        ensures cause { HasCause self.old.faults self.new.faults result }
        ensures plain { FailsPlainly result }

        // It takes the bytes, with zeros in a gap behind the old end.
        ensures ok { OnOk result (self.new ≡ after_write self.old at bytes.now) }

        // It fails exactly where the bytes would end past the room, and each failure is counted.
        ensures fails { IsErr result ↔ (self.old.room < at + length bytes.now) }
        ensures err { OnErr result (self.new ≡ after_failed_write self.old) }
    {
        if at > self.room || bytes.len() as u64 > self.room - at {
            self.failed = self.failed.saturating_add(1);
            return Err(Fault::Device);
        }
        overwrite(&mut self.contents, at as usize, bytes);
        Ok(())
    }

    /// There is nothing to make lasting.
    fn sync(&mut self) -> Result<(), Fault>
        ensures ok { IsOk result }
        ensures same { self.new ≡ self.old }
    {
        Ok(())
    }
}
