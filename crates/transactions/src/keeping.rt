//! A row as an undo record keeps it.
ghost use Rattle.std.specs.Prelude.{◌≡◌, ◌≢◌, ◌^◌, ◌<◌, ◌≤◌, true, IfOk, IfErr, IsOk, OnOk};
ghost use Rattle.engine_base.specs.declared.fault.Fault.TheVariants.{Device};
ghost use Rattle.undo_model.specs.Data.{led};
ghost use Rattle.undo_model.specs.Reading.{IsSoundRow, is_pointer, is_reference, max_length};
ghost use Rattle.lob_pages.specs.References.{reference_of};
ghost use Rattle.store_parts.specs.Shows.{row_of};
ghost use Rattle.undo_records.specs.Records.{row_of as row_there};
ghost use Rattle.transactions.specs.Keeping.{CanKeep, CanLead};

use engine_base::{Fault, PageNo, strange};
use lob_pages::LobRef;
use store_steps::record_place;
use undo_logs::pointer;
use undo_records::{RollPtr, Row};

// The transaction ids below it have 48 bits.
const ID_END: u64 = 0x1_0000_0000_0000;

// How many bytes a document has at most.
const MAX_LENGTH: u32 = 16_777_216;

// The bit of an insert.
const INSERTS: u64 = 0x80_0000_0000_0000;

// The pointer to the same place, in which the bits of a rollback segment are zero.
fn pointer_to_keep(count: u32, log: PageNo, roll: RollPtr) -> Result<RollPtr, Fault>
    ensures leads { IfOk result (λ kept. led kept.0 ≡ led roll.0) }
    ensures sound { IfOk result (λ kept. is_pointer count kept.0 ≡ true) }
    ensures narrow { IfOk result (λ kept. kept.0 < 2 ^ 56) }
    ensures strange { IfErr result (λ f. f ≢ Device) }
    ensures never { CanLead count (led roll.0) → IsOk result }
{
    if roll.0 == 0 {
        return Ok(roll);
    }
    let place = record_place(count, log, roll)?;
    if place.page.0 == 0 {
        return strange(log, 0, roll.0);
    }
    Ok(pointer(roll.0 / INSERTS % 2 == 1, place))
}

// A record keeps the reference: its first page is one of so many, and its length a document's.
fn check_reference(count: u32, log: PageNo, lob: LobRef) -> Result<(), Fault>
    ensures sound { OnOk result (is_reference count (reference_of lob) ≡ true) }
    ensures space { lob.space < 256 ^ 4 }
    ensures page { lob.page.0 < 256 ^ 4 }
    ensures version { lob.version.0 < 256 ^ 4 }
    ensures length { lob.length < 256 ^ 4 }
    ensures strange { IfErr result (λ f. f ≢ Device) }
    ensures never { lob.page.0 < count → lob.length ≤ max_length → IsOk result }
{
    if lob.page.0 >= count {
        return strange(log, 0, u64::from(lob.page.0));
    }
    if lob.length > MAX_LENGTH {
        return strange(log, 0, u64::from(lob.length));
    }
    Ok(())
}

/// The row as a record keeps it, in a store of so many pages: the same, in which the bits of a
/// rollback segment are zero. Strange names the log's first page, and what no record has: a
/// transaction id of more than 48 bits, a first page past the last one, a length over 16,777,216,
/// or a pointer that leads to no record's place.
pub(crate) fn row_to_keep(count: u32, log: PageNo, row: &Row) -> Result<Row, Fault>
    ensures shows { IfOk result (λ kept. row_of (row_there kept) ≡ row_of (row_there row.now)) }
    ensures sound { IfOk result (λ kept. IsSoundRow count (row_there kept)) }
    ensures strange { IfErr result (λ f. f ≢ Device) }
    ensures never { CanKeep count (row_of (row_there row.now)) → IsOk result }
{
    if row.trx.0 >= ID_END {
        return strange(log, 0, row.trx.0);
    }
    check_reference(count, log, row.lob)?;
    let roll = pointer_to_keep(count, log, row.roll)?;
    Ok(Row {
        doc: row.doc,
        state: row.state,
        trx: row.trx,
        roll,
        lob: row.lob,
    })
}
