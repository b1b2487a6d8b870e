// The states of a batch, each a type that owns the doublewrite area.
ghost use Rattle.std.specs.Prelude.{◌≡◌, ◌<◌, ◌≤◌, ◌++◌, [], ◌∷◌, List, length, IfOk, OnOk};
ghost use Rattle.engine_base.specs.Disk.{Told};
ghost use Rattle.file_model.specs.Sections.{IsInLimits};
ghost use Rattle.file_model.specs.Doublewrite.{numbers, IsNamed};
ghost use Rattle.engine_base.specs.Durable.{Counts, IsDurable, CrashLeaves};
ghost use Rattle.doublewrite.specs.Steps.{Arming, WhileArming, Homing, WhileHoming, Resting, WhileResting};

use crate::area::{arm_area, disarm_area};
use crate::buffer::{append, new_buffer, reset};
use crate::home::home_area;
use engine_base::{Disk, Fault, PageBuf, PageNo};
use page_device::Layout;
use std::alloc::{AllocError, Global};
use std::marker::Model;

/// A batch that takes pages. Nothing of it is on the disk.
#[derive(Drop)]
pub struct Filling {
    layout: Layout,
    count: u32,
    buffer: Vec<u8>,
}

/// A batch whose images are on the disk: a crash leaves its pages as the images are.
#[derive(Drop)]
pub struct Armed {
    layout: Layout,
    count: u32,
    buffer: Vec<u8>,
}

/// A batch whose pages are home.
#[derive(Drop)]
pub struct Homed {
    layout: Layout,
    count: u32,
    buffer: Vec<u8>,
}

impl Model for Filling {
    ghost use Rattle.std.specs.Prelude.{◌≤◌, vec_capacity};
    ghost use Rattle.doublewrite.specs.Batches.{BatchState, KeepsBatch, batch_of, area_bytes};

    ghost Value = { BatchState };

    ghost view = { λ b. record { layout = b.layout; batch = batch_of b.count b.buffer.items } };

    ghost invariant = { λ b. KeepsBatch b.layout b.count b.buffer.items
        × (area_bytes ≤ vec_capacity b.buffer) };
}

impl Model for Armed {
    ghost use Rattle.std.specs.Prelude.{◌≤◌, vec_capacity};
    ghost use Rattle.doublewrite.specs.Batches.{BatchState, KeepsBatch, batch_of, area_bytes};

    ghost Value = { BatchState };

    ghost view = { λ b. record { layout = b.layout; batch = batch_of b.count b.buffer.items } };

    ghost invariant = { λ b. KeepsBatch b.layout b.count b.buffer.items
        × (area_bytes ≤ vec_capacity b.buffer) };
}

impl Model for Homed {
    ghost use Rattle.std.specs.Prelude.{◌≤◌, vec_capacity};
    ghost use Rattle.doublewrite.specs.Batches.{BatchState, KeepsBatch, batch_of, area_bytes};

    ghost Value = { BatchState };

    ghost view = { λ b. record { layout = b.layout; batch = batch_of b.count b.buffer.items } };

    ghost invariant = { λ b. KeepsBatch b.layout b.count b.buffer.items
        × (area_bytes ≤ vec_capacity b.buffer) };
}

impl Filling {
    /// A batch without pages. It takes its buffer here, and no memory later.
    pub fn new(alloc: Global, layout: Layout) -> Result<Filling, AllocError>
        requires { IsInLimits layout }
        ensures { IfOk result (λ b. b ≡ record { layout = layout; batch = [] }) }
    {
        Ok(Filling {
            layout,
            count: 0,
            buffer: new_buffer(alloc)?,
        })
    }

    /// Takes a page, which isn't in the batch yet.
    pub fn add(&mut self, page: PageNo, image: &PageBuf)
        requires few { length self.old.batch < 32 }
        requires below { page.0 < self.old.layout.pages }
        ensures { self.new ≡ record self.old {
          batch = self.old.batch
              ++ (page.0, image.now) ∷ [];
        } }
    {
        append(&mut self.buffer, self.count, page.0, image.bytes());
        self.count += 1;
    }

    /// How many pages the batch has.
    pub fn len(&self) -> usize
        ensures { result ≡ length self.now.batch }
    {
        self.count as usize
    }

    /// Writes the images beside, and then that they count. A crash meanwhile leaves the pages as
    /// they were, or all of them as the images are.
    /// After a fault the batch is gone, and the store is opened again.
    pub fn arm<D: Disk>(self, disk: &mut D) -> Result<Armed, Fault>
        ensures same { IfOk result (λ armed. armed ≡ self) }
        ensures arms { OnOk result (Told (Arming self.layout self.batch) (D.state disk.old).seen
            (D.state disk.new).seen) }
        ensures durable { OnOk result (IsDurable (D.state disk.new)) }
        ensures any_moment { CrashLeaves (D.state disk.old) (D.state disk.new)
            (WhileArming self.layout self.batch) }
        ensures counts { Counts (D.state disk.old) (D.state disk.new) result }
    {
        let Filling {
            layout,
            count,
            buffer,
        } = self;
        arm_area(disk, &buffer)?;
        Ok(Armed {
            layout,
            count,
            buffer,
        })
    }
}

impl Armed {
    /// Writes the images home. A crash meanwhile leaves all pages as the images are.
    pub fn write_home<D: Disk>(self, disk: &mut D) -> Result<Homed, Fault>
        ensures same { IfOk result (λ homed. homed ≡ self) }
        ensures homes { OnOk result (Told (Homing self.layout self.batch) (D.state disk.old).seen
            (D.state disk.new).seen) }
        ensures durable { OnOk result (IsDurable (D.state disk.new)) }
        ensures any_moment { CrashLeaves (D.state disk.old) (D.state disk.new)
            (WhileHoming self.layout self.batch) }
        ensures counts { Counts (D.state disk.old) (D.state disk.new) result }
    {
        let Armed {
            layout,
            count,
            buffer,
        } = self;
        home_area(disk, &layout, count, &buffer)?;
        Ok(Homed {
            layout,
            count,
            buffer,
        })
    }
}

impl Homed {
    /// Gives the area free for another batch.
    pub fn disarm<D: Disk>(self, disk: &mut D) -> Result<Filling, Fault>
        ensures empty { IfOk result (λ filling. filling
            ≡ record { layout = self.layout; batch = [] }) }
        ensures rests { OnOk result (Told (Resting self.layout self.batch) (D.state disk.old).seen
            (D.state disk.new).seen) }
        ensures durable { OnOk result (IsDurable (D.state disk.new)) }
        ensures any_moment { CrashLeaves (D.state disk.old) (D.state disk.new)
            (WhileResting self.layout self.batch) }
        ensures counts { Counts (D.state disk.old) (D.state disk.new) result }
    {
        let Homed {
            layout,
            mut buffer,
            ..
        } = self;
        disarm_area(disk)?;
        reset(&mut buffer);
        Ok(Filling {
            layout,
            count: 0,
            buffer,
        })
    }
}
