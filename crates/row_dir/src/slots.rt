// Rows in slots.
ghost use Rattle.std.specs.Prelude.{◌≡◌, ◌+◌, ◌≤◌, ◌<◌, ◌^◌, [], ◌∷◌, length, Some, IfOk, IfErr, OnOk, IfSome, IfNone};
ghost use Rattle.page_model.specs.Pages.{Pages, field};
ghost use Rattle.page_model.specs.Spans.{SetsField};
ghost use Rattle.page_model.specs.Steps.{MayUse, Uses, Told, write_head};
ghost use Rattle.engine_base.specs.Faults.{HasCause, FailsPlainly, IsHonest};
ghost use Rattle.engine_base.specs.Addresses.{address_of};
ghost use Rattle.undo_model.specs.Bytes.{state_code};
ghost use Rattle.undo_model.specs.Rows.{IsPresent, IsRowAt, IsSlot, slot_size};
ghost use Rattle.undo_records.specs.Records.{state_of};
ghost use Rattle.row_dir.specs.Slots.{keyed_of, slot_of, FitsSlot, IsSoundRow, SetsSlot, IsOddState, IsOddRow};
ghost use Rattle.undo_model.specs.Data.{Reference};
ghost use Rattle.std.specs.Prelude.{Option};
ghost use Rattle.undo_model.specs.Rows.{Keyed};

use crate::layout::{DOC, LOB, ROLL, SLOT_BYTES, TRX};
use byteorder::{BigEndian, ByteOrder};
use engine_base::{Addr, DocId, Fault, PageNo, Pages, strange};
use lob_pages::{LobRef, LobVersion, TrxId};
use undo_records::{RollPtr, Row, RowState};

// The number in `width` bytes there.
fn number_at(bytes: &[u8], at: u16, width: u8) -> u64
    requires width { (1 ≤ width) × (width ≤ 8) }
    requires within { at + width ≤ length bytes.now }
    ensures value { field (bytes.now ∷ []) 0 at width ≡ result }
    ensures fits { result < 256 ^ width }
{
    BigEndian::read_uint(&bytes[usize::from(at)..], usize::from(width))
}

fn u32_at(bytes: &[u8], at: u16) -> u32
    requires within { at + 4 ≤ length bytes.now }
    ensures { field (bytes.now ∷ []) 0 at 4 ≡ result }
{
    number_at(bytes, at, 4) as u32
}

// Writes a number over `width` bytes.
fn put_number(bytes: &mut [u8], at: u16, width: u8, value: u64)
    requires width { (1 ≤ width) × (width ≤ 8) }
    requires fits { value < 256 ^ width }
    requires within { at + width ≤ length bytes.old }
    ensures { SetsField 0 at width value (bytes.old ∷ []) (bytes.new ∷ []) }
{
    BigEndian::write_uint(&mut bytes[usize::from(at)..], value, usize::from(width));
}

fn put_u32(bytes: &mut [u8], at: u16, value: u32)
    requires within { at + 4 ≤ length bytes.old }
    ensures { SetsField 0 at 4 value (bytes.old ∷ []) (bytes.new ∷ []) }
{
    put_number(bytes, at, 4, u64::from(value));
}

// The row of that state in the bytes of a slot.
fn row_in(bytes: &[u8], state: RowState) -> Row
    requires len { length bytes.now ≡ slot_size }
    requires present { IsPresent (state_of state) }
    requires state { field (bytes.now ∷ []) 0 0 1 ≡ state_code (state_of state) }
    ensures { IsRowAt (bytes.now ∷ []) 0 0 (keyed_of result) }
{
    Row {
        doc: DocId(u32_at(bytes, DOC)),
        state,
        trx: TrxId(number_at(bytes, TRX, 6)),
        roll: RollPtr(number_at(bytes, ROLL, 7)),
        lob: LobRef {
            space: u32_at(bytes, LOB),
            page: PageNo(u32_at(bytes, LOB + 4)),
            version: LobVersion(u32_at(bytes, LOB + 8)),
            length: u32_at(bytes, LOB + 16),
        },
    }
}

// What stands in the bytes of a slot: a row, or none where it is free; nothing where its state is
// none that a slot has.
fn slot_in(bytes: &[u8]) -> Option<Option<Row>>
    requires len { length bytes.now ≡ slot_size }
    ensures value { IfSome result (λ slot. IsSlot (bytes.now ∷ []) 0 0 (slot_of slot)) }
    ensures odd { IfNone result (2 < field (bytes.now ∷ []) 0 0 1) }
{
    match number_at(bytes, 0, 1) {
        0 => Some(None),
        1 => Some(Some(row_in(bytes, RowState::Live))),
        2 => Some(Some(row_in(bytes, RowState::Deleted))),
        _ => None,
    }
}

/// What stands in the slot: a row, or none where it is free.
pub(crate) fn read_slot<P: Pages>(p: &mut P, place: Addr) -> Result<Option<Row>, Fault>
    requires place { FitsSlot (P.state p.old).count (address_of place) }
    requires may { MayUse (place.page.0 ∷ []) 0 0 (P.state p.old) }
    ensures value { IfOk result (λ slot. IfSome (P.state p.old).told
        (λ pages. IsSlot pages place.page.0 place.at (slot_of slot))) }

    // Strange names the slot's state.
    ensures honest { IfErr result
        (IsHonest (IsOddState (P.state p.old).told (address_of place))) }
    ensures never { (pages : Pages) (s : Option Keyed) → (P.state p.old).told ≡ Some pages
        → IsSlot pages place.page.0 place.at s → FailsPlainly result }
    ensures cause { HasCause (P.state p.old).faults (P.state p.new).faults result }

    ensures told { (P.state p.new).told ≡ (P.state p.old).told }
    ensures uses { Uses P.state P.stays (place.page.0 ∷ []) 0 0 p.old p.new }
{
    let mut bytes = [0u8; SLOT_BYTES as usize];
    p.read(place.page, place.at, &mut bytes)?;
    match slot_in(&bytes) {
        Some(slot) => Ok(slot),
        None => strange(place.page, place.at, number_at(&bytes, 0, 1)),
    }
}

/// The row of that document in the slot.
pub(crate) fn read_row<P: Pages>(p: &mut P, place: Addr, doc: DocId) -> Result<Row, Fault>
    requires place { FitsSlot (P.state p.old).count (address_of place) }
    requires may { MayUse (place.page.0 ∷ []) 0 0 (P.state p.old) }
    ensures value { IfOk result (λ row. IfSome (P.state p.old).told
        (λ pages. IsRowAt pages place.page.0 place.at (keyed_of row))) }
    ensures doc { IfOk result (λ row. row.doc ≡ doc) }

    // Strange names the slot's state, or its document.
    ensures honest { IfErr result
        (IsHonest (IsOddRow (P.state p.old).told (address_of place) doc.0)) }
    ensures never { (pages : Pages) (k : Keyed) → (P.state p.old).told ≡ Some pages
        → IsRowAt pages place.page.0 place.at k → k.doc ≡ doc.0 → FailsPlainly result }
    ensures cause { HasCause (P.state p.old).faults (P.state p.new).faults result }

    ensures told { (P.state p.new).told ≡ (P.state p.old).told }
    ensures uses { Uses P.state P.stays (place.page.0 ∷ []) 0 0 p.old p.new }
{
    let Some(row) = read_slot(p, place)? else {
        return strange(place.page, place.at, 0);
    };
    if row.doc != doc {
        return strange(place.page, place.at + DOC, u64::from(row.doc.0));
    }
    Ok(row)
}

fn code_of(state: RowState) -> u8
    ensures value { result ≡ state_code (state_of state) }
    ensures small { result ≤ 2 }
{
    match state {
        RowState::Absent => 0,
        RowState::Live => 1,
        RowState::Deleted => 2,
    }
}

// Lays the row out in the bytes of a slot.
fn put_row(bytes: &mut [u8], row: &Row)
    requires len { length bytes.old ≡ slot_size }
    requires sound { IsSoundRow row.now }
    ensures { IsRowAt (bytes.new ∷ []) 0 0 (keyed_of row.now) }
{
    put_number(bytes, 0, 1, u64::from(code_of(row.state)));
    put_u32(bytes, DOC, row.doc.0);
    put_number(bytes, TRX, 6, row.trx.0);
    put_number(bytes, ROLL, 7, row.roll.0);
    put_u32(bytes, LOB, row.lob.space);
    put_u32(bytes, LOB + 4, row.lob.page.0);
    put_u32(bytes, LOB + 8, row.lob.version.0);
    put_u32(bytes, LOB + 12, 0);
    put_u32(bytes, LOB + 16, row.lob.length);
}

/// Writes the row into the slot. One write.
pub(crate) fn write_slot<P: Pages>(p: &mut P, place: Addr, row: &Row) -> Result<(), Fault>
    requires place { FitsSlot (P.state p.old).count (address_of place) }
    requires sound { IsSoundRow row.now }
    requires may { MayUse (place.page.0 ∷ []) 0 (slot_size + write_head) (P.state p.old) }
    ensures sets { OnOk result (Told (SetsSlot (address_of place) (keyed_of row.now))
        (P.state p.old).told (P.state p.new).told) }
    ensures uses { Uses P.state P.stays (place.page.0 ∷ []) 0 (slot_size + write_head)
        p.old p.new }
    ensures cause { HasCause (P.state p.old).faults (P.state p.new).faults result }
    ensures plain { FailsPlainly result }
{
    let mut bytes = [0u8; SLOT_BYTES as usize];
    put_row(&mut bytes, row);
    p.write(place.page, place.at, &bytes)?;
    Ok(())
}
