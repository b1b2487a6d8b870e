// Reading over gates, to the next block that has frames.
ghost use Rattle.std.specs.Prelude.{◌≡◌, ◌+◌, ◌-◌, ◌≤◌, ◌<◌, ◌^◌, ℕ, false, true, [], List, length, IsTrue, IsFalse, IfOk, OnOk, IfSome};
ghost use Rattle.redo_log.specs.declared.place.Gate.TheVariants.{Open};
ghost use Rattle.engine_base.specs.Disk.{Holds, Stays, GoesOn};
ghost use Rattle.file_model.specs.Sections.{part};
ghost use Rattle.redo_log.specs.Scans.{IsGate, FitsGate, HasFrames, IsLength, FitsFound, LeadsTo};

use crate::place::{Found, Gate};
use byteorder::{BigEndian, ByteOrder};
use engine_base::{Disk, Fault};

/// Reads the length of a block's frames behind an open gate, from which so many bytes are left in
/// the region.
fn read_len<D: Disk>(disk: &mut D, gate: u64, rest: u64) -> Result<Gate, Fault>
    requires fits { gate + 1 < 2 ^ 64 }
    requires some { 6 ≤ rest }
    requires whole { IfSome (D.state disk.old).seen (λ file. gate + rest ≤ length file) }
    ensures inside { IfOk result (λ g. FitsGate g rest) }
    ensures len { IfOk result (λ g. IfSome (D.state disk.old).seen
        (λ file. IsLength g (part file gate rest))) }
    ensures stays { Stays (D.state disk.old) (D.state disk.new) }
    ensures goes_on { GoesOn (D.state disk.old) (D.state disk.new) result }
{
    let mut len = [0u8; 4];
    disk.read_at(gate + 1, &mut len)?;
    let len = u64::from(BigEndian::read_u32(&len));
    if rest < 6 + len {
        return Ok(Gate::Early);
    }
    Ok(Gate::Open(len))
}

/// Reads a gate, from which so many bytes are left in the region.
fn read_gate<D: Disk>(disk: &mut D, gate: u64, rest: u64) -> Result<Gate, Fault>
    requires fits { gate + 1 < 2 ^ 64 }
    requires some { 1 ≤ rest }
    requires whole { IfSome (D.state disk.old).seen (λ file. gate + rest ≤ length file) }
    ensures inside { IfOk result (λ g. FitsGate g rest) }
    ensures is { IfOk result (λ g. IfSome (D.state disk.old).seen
        (λ file. IsGate g (part file gate rest))) }
    ensures stays { Stays (D.state disk.old) (D.state disk.new) }
    ensures goes_on { GoesOn (D.state disk.old) (D.state disk.new) result }
{
    let mut byte = [0u8];
    disk.read_at(gate, &mut byte)?;
    let is_open = byte[0] % 2 == 1;
    if !is_open {
        return Ok(Gate::Closed);
    }
    if rest < 6 {
        return Ok(Gate::Early);
    }
    read_len(disk, gate, rest)
}

/// Whether it is a block without frames.
fn is_empty(gate: Gate) -> bool
    ensures empty { IsTrue result → gate ≡ Open 0 }
    ensures some { IsFalse result → HasFrames gate }
{
    matches!(gate, Gate::Open(0))
}

/// Reads over blocks without frames to the next gate that has a block with frames or ends the log.
pub(crate) fn find_block<D: Disk>(
    disk: &mut D,
    blocks: u64,
    len: u64,
    from: u64,
) -> Result<Found, Fault>
    requires fits { blocks + len < 2 ^ 64 }
    requires some { from < len }
    requires whole { IfSome (D.state disk.old).seen (λ file. blocks + len ≤ length file) }
    ensures inside { IfOk result (λ found. FitsFound len from found) }
    ensures leads { IfOk result (λ found. IfSome (D.state disk.old).seen (λ file. (pages : ℕ)
        → LeadsTo pages blocks len from found file)) }
    ensures stays { Stays (D.state disk.old) (D.state disk.new) }
    ensures goes_on { GoesOn (D.state disk.old) (D.state disk.new) result }
{
    let mut at = from;
    let mut gate = read_gate(disk, blocks + at, len - at)?;
    'gates: while is_empty(gate) {
        at += 5;
        gate = read_gate(disk, blocks + at, len - at)?;
    }
    Ok(Found { at, gate })
}
