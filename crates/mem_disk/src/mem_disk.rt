// A disk in memory: it keeps its calls, fails where it is told, and tells what a crash may leave.
ghost use Rattle.std.specs.Prelude.{◌≡◌, ◌⊎◌, ◌+◌, ◌-◌, ◌*◌, ◌<◌, ◌≤◌, ◌^◌, ◌↔◌, ◌++◌, [], ◌∷◌, ℕ, List, Some, Option, length, max, vec_len, vec_capacity, Contains, IsTrue, IsOk, IsErr, IfOk, OnOk, OnErr};
ghost use Rattle.std.proofs.Common.{inl};
ghost use Rattle.engine_base.specs.Numbers.{raised};
ghost use Rattle.mem_disk.specs.MemDisk.{contents_in, disk_state, Refuses, IsStopped, write_cost, after_fault, after_read, after_write, after_sync, after_call, after_record, IsImage};
ghost use Rattle.engine_base.specs.Disk.{Holds, Torn, Written, Follows, Only, Stays, GoesOn};
ghost use Rattle.engine_base.specs.Faults.{HasCause, FailsPlainly};
ghost use Rattle.mem_disk.specs.Crash.{crashed, reads_from};
ghost use Rattle.mem_disk.specs.MemDiskLaws.{reads_as_image, image_now};

use crate::crash::crash;
use crate::sure_disk::overwrite;
use engine_base::{Disk, Fault};
use std::alloc::{AllocError, Global};
use std::marker::Model;

// A write or a sync in the record.
#[derive(Clone, Copy, Drop)]
pub(crate) struct Step {
    pub(crate) is_sync: bool,
    pub(crate) at: u64,
    pub(crate) len: usize,
}

/// Bytes in memory as a disk, with a record of its calls in a room that is taken at once. The calls
/// with the listed numbers, from 1, fail; after so many writes all calls fail; and so does a call
/// for whose record no room is left. Each call takes 64 bytes of it, a write its length and the
/// growth of the size besides.
#[derive(Drop)]
pub struct MemDisk {
    base: Vec<u8>,
    contents: Vec<u8>,
    steps: Vec<Step>,
    bytes: Vec<u8>,
    reads: Vec<u64>,
    fails: Vec<u64>,
    stop_after: Option<u64>,
    room: u64,
    used: u64,
    calls: u64,
    writes: u64,
    failed: u64,
}

impl Model for MemDisk {
    ghost use Rattle.std.specs.Prelude.{vec_capacity};
    ghost use Rattle.mem_disk.specs.MemDisk.{MemState, KeepsMem, events_in};

    ghost Value = { MemState };

    ghost view = { λ m. record {
      base = m.base.items;
      events = events_in m.steps.items m.bytes.items;
      reads = m.reads.items;
      fails = m.fails.items;
      stop_after = m.stop_after;
      room = m.room;
      used = m.used;
      calls = m.calls;
      writes = m.writes;
      faults = m.failed;
    } };

    ghost invariant = { λ m. KeepsMem m.base.items m.contents.items m.steps.items m.bytes.items
        m.reads.items m.room m.used (vec_capacity m.steps) (vec_capacity m.bytes)
        (vec_capacity m.reads) (vec_capacity m.contents) };
}

// Whether a call is listed, past the stop, or has a record of 64 bytes and so many more past room.
fn refuses(
    fails: &[u64],
    call: u64,
    stop_after: Option<u64>,
    writes: u64,
    left: u64,
    more: u64,
) -> bool
    ensures { IsTrue result ↔ (Contains fails.now call ⊎ IsStopped stop_after writes
        ⊎ (left < 64 + more)) }
{
    let stopped = match stop_after {
        None => false,
        Some(most) => most <= writes,
    };
    fails.contains(&call) || stopped || left < 64 || left - 64 < more
}

// What a write's record takes besides: its length and the growth of the size.
fn cost_of(at: u64, len: u64, size: u64) -> u64
    requires { size < 2 ^ 63 }
    ensures small { result < 2 ^ 62 → result ≡ len + ((at + len) - size) }
    ensures exact { len + ((at + len) - size) < 2 ^ 62 → result ≡ len + ((at + len) - size) }
{
    at.saturating_add(len)
        .saturating_sub(size)
        .saturating_add(len)
}

// How many of the places are that one or behind it.
fn count_from(places: &[u64], from: u64) -> u64
    ensures { result ≡ reads_from from places.now }
{
    let mut count = 0;
    for place in places {
        if from <= *place {
            count += 1;
        }
    }
    count
}

impl MemDisk {
    /// A disk with these contents, all of them on the disk. It takes the room of its record here.
    pub fn new(
        alloc: Global,
        contents: Vec<u8>,
        room: u64,
        fails: Vec<u64>,
        stop_after: Option<u64>,
    ) -> Result<MemDisk, AllocError>
        requires { vec_len contents + room < 2 ^ 62 }
        ensures { IfOk result (λ m. m ≡ record {
          base = contents.items;
          events = [];
          reads = [];
          fails = fails.items;
          stop_after = stop_after;
          room = room;
          used = 0;
          calls = 0;
          writes = 0;
          faults = 0;
        }) }
    {
        let mut seen = Vec::with_capacity(alloc, contents.len() + room as usize)?;
        seen.extend_from_slice(&contents)?;
        Ok(MemDisk {
            base: contents,
            contents: seen,
            steps: Vec::with_capacity(alloc, room as usize / 64)?,
            bytes: Vec::with_capacity(alloc, room as usize)?,
            reads: Vec::with_capacity(alloc, room as usize / 64)?,
            fails,
            stop_after,
            room,
            used: 0,
            calls: 0,
            writes: 0,
            failed: 0,
        })
    }

    /// The bytes that a read gives.
    pub fn contents(&self) -> &[u8]
        ensures { result.now ≡ contents_in self.now }
    {
        &self.contents
    }

    /// An image that a crash now may leave, of the size that a read finds, with zeros where nothing
    /// stands. It has the last sync's bytes and of the writes since, by the rest of `pick` at 4: 0
    /// none, 1 all, 2 all but the last, 3 as 2 and the first half, rounded down, of the last.
    pub fn crash(&self, alloc: Global, pick: u64) -> Result<Vec<u8>, AllocError>
        ensures image { IfOk result (λ c. IsImage self.now.base self.now.events c.items) }
        ensures picks { IfOk result (λ c. c.items ≡ crashed pick self.now.base self.now.events) }
    {
        crash(
            alloc,
            pick,
            &self.base,
            self.contents.len(),
            &self.steps,
            &self.bytes,
        )
    }

    /// How many reads were made at that place or behind it.
    pub fn reads(&self, from: u64) -> u64
        ensures { result ≡ reads_from from self.now.reads }
    {
        count_from(&self.reads, from)
    }

    // Counts a call, or tells that it fails. Its record takes 64 bytes and so many more.
    fn enter(&mut self, more: u64) -> Result<(), Fault>
        ensures fails { IsErr result ↔ Refuses self.old more }
        ensures ok { OnOk result (self.new ≡ after_call self.old) }
        ensures room { OnOk result (self.old.used + (64 + more) ≤ self.old.room) }
        ensures err { OnErr result (self.new ≡ after_fault self.old) }
        ensures plain { FailsPlainly result }
        ensures cause { HasCause self.old.faults self.new.faults result }
    {
        self.calls = self.calls.saturating_add(1);
        let left = self.room - self.used;
        if refuses(
            &self.fails,
            self.calls,
            self.stop_after,
            self.writes,
            left,
            more,
        ) {
            self.failed = self.failed.saturating_add(1);
            return Err(Fault::Device);
        }
        Ok(())
    }
}

impl Disk for MemDisk {
    ghost state = { disk_state };

    ghost seen_may_stay = { λ m file tells told. reads_as_image m.base m.events file told };

    ghost counts_now = { λ m t c reached image. inl image };

    ghost only_now = { λ m c left. image_now m.base m.events c left };

    fn size(&mut self) -> Result<u64, Fault>
        ensures length { IfOk result (λ n. n ≡ length (contents_in self.old)) }
        ensures fails { IsErr result ↔ Refuses self.old 0 }
        ensures ok { OnOk result (self.new ≡ after_record self.old 0) }
        ensures err { OnErr result (self.new ≡ after_fault self.old) }
        ensures stays { Stays (disk_state self.old) (disk_state self.new) }
        ensures goes_on { GoesOn (disk_state self.old) (disk_state self.new) result }
    {
        self.enter(0)?;
        self.used += 64;
        Ok(self.contents.len() as u64)
    }

    fn read_at(&mut self, at: u64, into: &mut [u8]) -> Result<(), Fault>
        requires { at + length into.old ≤ length (contents_in self.old) }
        ensures bytes { OnOk result (Holds (contents_in self.old) at into.new) }
        ensures fails { IsErr result ↔ Refuses self.old 0 }
        ensures ok { OnOk result (self.new ≡ after_read self.old at) }
        ensures err { OnErr result (self.new ≡ after_fault self.old) }
        ensures stays { Stays (disk_state self.old) (disk_state self.new) }
        ensures goes_on { GoesOn (disk_state self.old) (disk_state self.new) result }
    {
        self.enter(0)?;
        self.used += 64;
        self.reads.push(at).unwrap();
        let from = at as usize;
        into.copy_from_slice(&self.contents[from..from + into.len()]);
        Ok(())
    }

    fn write_at(&mut self, at: u64, bytes: &[u8]) -> Result<(), Fault>
        ensures written { OnOk result (Written at bytes.now (contents_in self.old)
            (contents_in self.new)) }
        ensures torn { Torn at (length bytes.now) (contents_in self.old) (contents_in self.new) }
        ensures images { Follows (Torn at (length bytes.now)) (disk_state self.old).may_leave
            (disk_state self.new).may_leave }
        ensures fails { IsErr result ↔ Refuses self.old
            (write_cost self.old at (length bytes.now)) }
        ensures ok { OnOk result (self.new ≡ after_write self.old at bytes.now) }
        ensures err { OnErr result (self.new ≡ after_fault self.old) }
        ensures goes_on { GoesOn (disk_state self.old) (disk_state self.new) result }
    {
        let more = cost_of(at, bytes.len() as u64, self.contents.len() as u64);
        self.enter(more)?;
        self.used += 64 + more;
        self.writes = self.writes.saturating_add(1);
        overwrite(&mut self.contents, at as usize, bytes);
        self.steps
            .push(Step {
                is_sync: false,
                at,
                len: bytes.len(),
            })
            .unwrap();
        self.bytes.extend_from_slice(bytes).unwrap();
        Ok(())
    }

    fn sync(&mut self) -> Result<(), Fault>
        ensures durable { OnOk result (Only (contents_in self.old)
            (disk_state self.new).may_leave) }
        ensures seen { (disk_state self.new).seen ≡ (disk_state self.old).seen }
        ensures images { (c : List ℕ) → (disk_state self.new).may_leave c
            → (disk_state self.old).may_leave c }
        ensures fails { IsErr result ↔ Refuses self.old 0 }
        ensures ok { OnOk result (self.new ≡ after_sync self.old) }
        ensures err { OnErr result (self.new ≡ after_fault self.old) }
        ensures stays_err { OnErr result (Stays (disk_state self.old) (disk_state self.new)) }
        ensures goes_on { GoesOn (disk_state self.old) (disk_state self.new) result }
    {
        self.enter(0)?;
        self.used += 64;
        self.steps
            .push(Step {
                is_sync: true,
                at: 0,
                len: 0,
            })
            .unwrap();
        Ok(())
    }
}
