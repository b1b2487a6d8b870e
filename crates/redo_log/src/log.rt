// A log that goes on at the end of a region.
ghost use Rattle.std.specs.Prelude.{◌≡◌, ◌+◌, ◌≤◌, ◌<◌, ◌^◌, [], ◌++◌, List, length, All, IfOk, OnOk, OnErr, IfSome, IsTrue, ◌↔◌};
ghost use Rattle.engine_base.specs.Disk.{Told, LeavesOnly, Only};
ghost use Rattle.page_model.specs.Frames.{frame_bytes, IsInside};
ghost use Rattle.file_model.specs.Sections.{IsInLimits, region_place};
ghost use Rattle.file_model.specs.Blocks.{region_room, gate_place};
ghost use Rattle.engine_base.specs.Durable.{Counts, IsDurable, CrashLeaves};
ghost use Rattle.redo_log.specs.Switches.{switched, Switching, WhileSwitching};
ghost use Rattle.redo_log.specs.Logs.{log_room, appended, flushed, lsn_of, IsLogOf, Flushes, MayFlush, taken};

use crate::Lsn;
use crate::block::write_block;
use crate::buffer::{HEAD, extend, seal, unseal};
use crate::switch::write_switch;
use engine_base::{Disk, Fault};
use mini_trx::Group;
use page_device::Layout;
use std::alloc::{AllocError, Global};
use std::marker::Model;

// How many bytes a block may have, behind its gate and with the next one.
const BUFFER: usize = 1_048_576;

/// The end of the live region, and the groups that wait for a flush in one buffer.
#[derive(Drop)]
pub struct Log {
    layout: Layout,
    region: u8,
    start: Lsn,
    used: u64,
    buffer: Vec<u8>,
}

impl Model for Log {
    ghost use Rattle.std.specs.Prelude.{vec_capacity};
    ghost use Rattle.redo_log.specs.Logs.{LogState, KeepsLog, pending_in};

    ghost Value = { LogState };

    ghost view = { λ g. record {
      layout = g.layout;
      region = g.region;
      start = g.start.0;
      used = g.used;
      pending = pending_in g.layout.pages g.buffer.items;
    } };

    ghost invariant = { λ g. KeepsLog g.layout g.region g.used g.buffer.items
        (vec_capacity g.buffer) };
}

impl Log {
    /// A log that goes on behind the used bytes of that region. It takes its buffer here, and no
    /// memory later.
    pub fn open(
        alloc: Global,
        layout: Layout,
        region: u8,
        start: Lsn,
        used: u64,
    ) -> Result<Log, AllocError>
        requires limits { IsInLimits layout }
        requires region { region ≤ 1 }
        requires used { used ≤ region_room layout }
        ensures { IfOk result (λ log. log
            ≡ record {
              layout = layout;
              region = region;
              start = start.0;
              used = used;
              pending = [];
            }) }
    {
        let mut buffer = Vec::with_capacity(alloc, BUFFER)?;
        extend(&mut buffer, &[0, 0, 0, 0]);
        Ok(Log {
            layout,
            region,
            start,
            used,
            buffer,
        })
    }

    /// How many bytes the next group may have.
    pub fn room(&self) -> u64
        ensures { result ≡ log_room self.now }
    {
        let block = 1 + self.buffer.len() as u64;
        let region = self.layout.region_room();
        (BUFFER as u64 - block).min(region.saturating_sub(self.used + block))
    }

    /// The place in the log behind all that was appended.
    pub fn lsn(&self) -> Lsn
        ensures { result.0 ≡ lsn_of self.now }
    {
        let block = if self.has_pending() {
            1 + self.buffer.len() as u64
        } else {
            0
        };
        Lsn(self.start.0.wrapping_add(self.used + block))
    }

    fn has_pending(&self) -> bool
        ensures { IsTrue result ↔ (1 ≤ length self.now.pending) }
    {
        self.buffer.len() > HEAD
    }

    /// Appends a group to those that wait, and tells the place behind it. It writes nothing to the
    /// disk and takes no memory.
    pub fn append(&mut self, group: &Group) -> Lsn
        requires room { length (frame_bytes group.now.writes) ≤ log_room self.old }
        requires inside { All (IsInside self.old.layout.pages) group.now.writes }
        ensures appends { self.new ≡ appended self.old group.now.writes }
        ensures lsn { result.0 ≡ lsn_of self.new }
    {
        // A group is never longer than a log can hold.
        let _len = group.len();
        extend(&mut self.buffer, group.frame());
        self.lsn()
    }

    /// Makes all that was appended outlast a crash, by one block. A crash within leaves all groups
    /// that waited, or none of them.
    /// After a fault the store is opened again.
    pub fn flush<D: Disk>(&mut self, disk: &mut D) -> Result<(), Fault>
        ensures ok { OnOk result (self.new ≡ flushed self.old) }
        ensures err { OnErr result (self.new ≡ self.old) }

        // The file's log has all groups, and a crash leaves them.
        ensures written { OnOk result
            (Told (Flushes self.old) (D.state disk.old).seen (D.state disk.new).seen) }
        ensures durable { OnOk result (IsDurable (D.state disk.old)
            → IsDurable (D.state disk.new)) }

        // A crash at any moment leaves the groups that were flushed before, and all that waited or
        // none of them.
        ensures any_moment { IfSome (D.state disk.old).seen (λ file. IsLogOf self.old file
            → Only file (D.state disk.old).may_leave
            → LeavesOnly (D.state disk.old) (D.state disk.new) (MayFlush self.old file)) }
        ensures counts { Counts (D.state disk.old) (D.state disk.new) result }
    {
        if !self.has_pending() {
            return Ok(());
        }
        let gate = self.layout.gate_place(self.region, self.used);
        let block = 1 + self.buffer.len() as u64;
        seal(&mut self.buffer);
        let result = write_block(disk, gate, &self.buffer);
        unseal(&mut self.buffer);
        result?;
        self.used += block;
        self.buffer.truncate(HEAD);
        Ok(())
    }

    /// Goes on in the other region, which is empty then. It is called where each page that the
    /// log's groups changed is home.
    pub fn switch_region<D: Disk>(&mut self, disk: &mut D) -> Result<(), Fault>
        requires { self.old.pending ≡ [] }
        ensures ok { OnOk result (self.new ≡ switched self.old) }
        ensures err { OnErr result (self.new ≡ self.old) }
        ensures switches { OnOk result
            (Told (Switching self.old) (D.state disk.old).seen (D.state disk.new).seen) }
        ensures durable { OnOk result (IsDurable (D.state disk.new)) }
        ensures any_moment { CrashLeaves (D.state disk.old) (D.state disk.new)
            (WhileSwitching self.old) }
        ensures counts { Counts (D.state disk.old) (D.state disk.new) result }
    {
        let start = self.lsn();
        let region = 1 - self.region;
        write_switch(disk, self.layout.region_place(region), start.0, region)?;
        self.region = region;
        self.start = start;
        self.used = 0;
        Ok(())
    }
}
