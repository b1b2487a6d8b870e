// Reading a region's log, group by group.
ghost use Rattle.std.specs.Prelude.{◌≡◌, ◌+◌, ◌≤◌, ◌<◌, ℕ, true, false, [], ◌∷◌, List, length, vec_len, vec_capacity, All, Option, Some, None, IsTrue, IsFalse, IfOk, OnOk, OnErr, IfSome, IsNone};
ghost use Rattle.std.specs.Option.{is_some, option_copied};
ghost use Rattle.engine_base.specs.Disk.{Stays, GoesOn};
ghost use Rattle.page_model.specs.Frames.{max_group, IsInside};
ghost use Rattle.file_model.specs.Sections.{IsInLimits, part, wanted, blocks_place};
ghost use Rattle.file_model.specs.Blocks.{log_of, region_room, blocks_len, start_in};
ghost use Rattle.redo_log.specs.Scans.{IsWithin, FitsFound, LeadsTo, Advances, IsHead, HasBuffer, writes_of, at_gate, log_end_of};

use crate::Lsn;
use crate::frames::{into_group, read_frame, take_back};
use crate::gates::find_block;
use crate::place::{Found, Gate, Place};
use byteorder::{BigEndian, ByteOrder};
use engine_base::{Disk, Fault, MAX_GROUP};
use mini_trx::Group;
use page_device::Layout;
use std::alloc::{AllocError, Global};
use std::marker::Model;

/// Where a scan goes on from what stands at a gate.
fn place_at(layout: &Layout, found: Found) -> Place
    requires limits { IsInLimits layout.now }
    requires fits { (from : ℕ) × FitsFound (blocks_len layout.now) from found }
    ensures within { IsWithin layout.now result }
    ensures some { result.ended ≡ false → 0 < result.left }
    ensures log { (region from : ℕ) (file : List ℕ) → region ≤ 1 → wanted layout.now ≤ length file
        → FitsFound (blocks_len layout.now) from found
        → LeadsTo layout.now.pages (blocks_place layout.now region)
        (blocks_len layout.now) from found file
        → Advances layout.now region [] (at_gate from) result file }
{
    match found.gate {
        Gate::Closed => Place {
            at: found.at,
            left: 0,
            ended: true,
        },
        Gate::Early => Place {
            at: layout.region_room(),
            left: 0,
            ended: true,
        },
        Gate::Open(left) => Place {
            at: found.at + 5,
            left,
            ended: false,
        },
    }
}

/// Takes the frame that was read as the next group, or ends the log before it.
fn take_frame(
    layout: &Layout,
    place: Place,
    whole: bool,
    buffer: &mut Vec<u8>,
    group: &mut Option<Group>,
) -> Place
    requires limits { IsInLimits layout.now }
    requires within { IsWithin layout.now place }
    requires some { (place.ended ≡ false) × (0 < place.left) }
    requires short { IsTrue whole → vec_len buffer.old ≤ place.left }
    requires room { max_group ≤ vec_capacity buffer.old }
    requires none { group.old ≡ None }
    ensures within { IsWithin layout.now result }
    ensures buffer { HasBuffer group.new (vec_capacity buffer.new) }
    ensures ends { result.ended ≡ true → group.new ≡ None }
    ensures goes { result.ended ≡ false → is_some group.new ≡ true }
    ensures inside { IfSome group.new (λ g. All (IsInside layout.now.pages) g.writes) }
    ensures log { (region : ℕ) (file : List ℕ) → region ≤ 1 → wanted layout.now ≤ length file
        → IsHead whole buffer.old.items
        (part file (blocks_place layout.now region + place.at) place.left)
        → Advances layout.now region (writes_of group.new) place result file }
{
    let len = buffer.len() as u64;
    if !whole || !into_group(buffer, group, layout.pages) {
        return Place {
            at: layout.region_room(),
            left: 0,
            ended: true,
        };
    }
    Place {
        at: place.at + len,
        left: place.left - len,
        ended: false,
    }
}

/// From a place to the next block that has frames, or to the log's end.
fn to_block<D: Disk>(
    disk: &mut D,
    layout: &Layout,
    region: u8,
    place: Place,
) -> Result<Place, Fault>
    requires limits { IsInLimits layout.now }
    requires region { region ≤ 1 }
    requires within { IsWithin layout.now place }
    requires whole { IfSome (D.state disk.old).seen (λ file. wanted layout.now ≤ length file) }
    ensures within { IfOk result (λ p. IsWithin layout.now p) }
    ensures some { IfOk result (λ p. p.ended ≡ false → 0 < p.left) }
    ensures log { IfOk result (λ p. IfSome (D.state disk.old).seen (λ file.
        Advances layout.now region [] place p file)) }
    ensures stays { Stays (D.state disk.old) (D.state disk.new) }
    ensures goes_on { GoesOn (D.state disk.old) (D.state disk.new) result }
{
    if place.ended || place.left > 0 {
        return Ok(place);
    }
    let blocks = layout.gate_place(region, 0);
    let len = layout.region_room() + 1;
    let found = find_block(disk, blocks, len, place.at)?;
    Ok(place_at(layout, found))
}

/// Over the next frame, which it takes as a group, or to the log's end.
fn over_frame<D: Disk>(
    disk: &mut D,
    layout: &Layout,
    region: u8,
    place: Place,
    buffer: &mut Vec<u8>,
    group: &mut Option<Group>,
) -> Result<Place, Fault>
    requires limits { IsInLimits layout.now }
    requires region { region ≤ 1 }
    requires within { IsWithin layout.now place }
    requires some { place.ended ≡ false → 0 < place.left }
    requires room { max_group ≤ vec_capacity buffer.old }
    requires none { group.old ≡ None }
    requires whole { IfSome (D.state disk.old).seen (λ file. wanted layout.now ≤ length file) }
    ensures within { IfOk result (λ p. IsWithin layout.now p) }
    ensures buffer { HasBuffer group.new (vec_capacity buffer.new) }
    ensures ends { IfOk result (λ p. p.ended ≡ true → group.new ≡ None) }
    ensures goes { IfOk result (λ p. p.ended ≡ false → is_some group.new ≡ true) }
    ensures inside { IfSome group.new (λ g. All (IsInside layout.now.pages) g.writes) }
    ensures none { OnErr result (group.new ≡ None) }
    ensures log { IfOk result (λ p. IfSome (D.state disk.old).seen (λ file.
        Advances layout.now region (writes_of group.new) place p file)) }
    ensures stays { Stays (D.state disk.old) (D.state disk.new) }
    ensures goes_on { GoesOn (D.state disk.old) (D.state disk.new) result }
{
    if place.ended {
        return Ok(place);
    }
    let at = layout.gate_place(region, place.at);
    let whole = read_frame(disk, at, place.left, buffer)?;
    Ok(take_frame(layout, place, whole, buffer, group))
}

/// Reads the start LSN of a region.
fn read_start<D: Disk>(disk: &mut D, layout: &Layout, region: u8) -> Result<Lsn, Fault>
    requires limits { IsInLimits layout.now }
    requires region { region ≤ 1 }
    requires whole { IfSome (D.state disk.old).seen (λ file. wanted layout.now ≤ length file) }
    ensures start { IfOk result (λ lsn. IfSome (D.state disk.old).seen (λ file.
        lsn.0 ≡ start_in layout.now region file)) }
    ensures stays { Stays (D.state disk.old) (D.state disk.new) }
    ensures goes_on { GoesOn (D.state disk.old) (D.state disk.new) result }
{
    let mut start = [0u8; 8];
    disk.read_at(layout.region_place(region), &mut start)?;
    Ok(Lsn(BigEndian::read_u64(&start)))
}

/// A reader of a region's log, from its first group on. It writes nothing.
#[derive(Drop)]
pub struct Scan {
    layout: Layout,
    region: u8,
    start: Lsn,
    place: Place,
    /// The buffer, where no group has it.
    buffer: Vec<u8>,
    /// The group that was read last.
    group: Option<Group>,
}

impl Model for Scan {
    ghost use Rattle.std.specs.Prelude.{◌≤◌, vec_capacity};
    ghost use Rattle.redo_log.specs.Scans.{ScanState, KeepsScan, HasBuffer};

    ghost Value = { ScanState };

    ghost view = { λ s. record {
      layout = s.layout;
      region = s.region;
      start = s.start.0;
      place = s.place;
      given = s.group;
    } };

    ghost invariant = { λ s. KeepsScan s.layout s.region s.place
        × HasBuffer s.group (vec_capacity s.buffer) };
}

impl Scan {
    ghost use Rattle.redo_log.specs.Scans.{left_of, scan_end, Gives};

    /// A scan at the beginning of a region. It takes its buffer here, and no memory later.
    pub fn new(alloc: Global, layout: Layout, region: u8) -> Result<Scan, AllocError>
        requires limits { IsInLimits layout }
        requires region { region ≤ 1 }
        ensures of { IfOk result (λ s. (s.layout ≡ layout) × (s.region ≡ region)
            × (s.place.ended ≡ false)) }
        ensures all { IfOk result (λ s. (file : List ℕ) → wanted layout ≤ length file
            → left_of s file ≡ (log_of layout region file).groups) }
        ensures end { IfOk result (λ s. (file : List ℕ) → wanted layout ≤ length file
            → scan_end s file ≡ log_end_of layout region file) }
    {
        Ok(Scan {
            layout,
            region,
            start: Lsn(0),
            place: Place {
                at: 0,
                left: 0,
                ended: false,
            },
            buffer: Vec::with_capacity(alloc, MAX_GROUP)?,
            group: None,
        })
    }

    /// Reads the next group, which `group` then lends, and tells whether there was one. After a
    /// fault the store is opened
    /// again.
    pub fn next<D: Disk>(&mut self, disk: &mut D) -> Result<bool, Fault>
        requires whole { IfSome (D.state disk.old).seen
            (λ file. wanted self.old.layout ≤ length file) }
        ensures of { (self.new.layout ≡ self.old.layout) × (self.new.region ≡ self.old.region) }

        // The groups come in order, all of them and no other, and then none.
        ensures gives { IfOk result (λ found. IfSome (D.state disk.old).seen (λ file.
            Gives self.old self.new file)) }
        ensures found { IfOk result (λ found. found ≡ is_some self.new.given) }
        ensures inside { IfSome self.new.given
            (λ g. All (IsInside self.old.layout.pages) g.writes) }
        ensures ended { IfOk result (λ found. IsFalse found → self.new.place.ended ≡ true) }

        // It only reads.
        ensures stays { Stays (D.state disk.old) (D.state disk.new) }
        ensures goes_on { GoesOn (D.state disk.old) (D.state disk.new) result }
    {
        take_back(&mut self.buffer, &mut self.group);
        let place = to_block(disk, &self.layout, self.region, self.place)?;
        let place = over_frame(
            disk,
            &self.layout,
            self.region,
            place,
            &mut self.buffer,
            &mut self.group,
        )?;
        if place.ended {
            self.start = read_start(disk, &self.layout, self.region)?;
        }
        self.place = place;
        Ok(self.group.is_some())
    }

    /// The group that `next` read last, where it read one.
    pub fn group(&self) -> Option<&Group>
        ensures { option_copied result ≡ self.now.given }
    {
        self.group.as_ref()
    }

    /// The region's start LSN, once `next` has answered `None`.
    pub fn start(&self) -> Lsn
        requires { self.now.place.ended ≡ true }
        ensures { result.0 ≡ self.now.start }
    {
        self.start
    }

    /// The bytes of the region that count as used, once `next` has answered `None`: up to the log's
    /// last gate, or the region's whole room where the log ended early, so that nothing is appended
    /// there.
    pub fn used(&self) -> u64
        requires { self.now.place.ended ≡ true }
        ensures used { result ≡ self.now.place.at }
        ensures most { result ≤ region_room self.now.layout }
    {
        self.place.at
    }
}
