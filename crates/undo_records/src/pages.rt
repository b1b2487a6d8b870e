//! Records in pages.
ghost use Rattle.std.specs.Prelude.{◌≡◌, ◌+◌, ◌≤◌, ◌<◌, ◌-◌, min, [], ◌∷◌, length, Some, IfOk, OnOk, IfSome};
ghost use Rattle.page_model.specs.Steps.{MayUse, Uses, Told, AddsWrite, AddsNone, write_head};
ghost use Rattle.engine_base.specs.Faults.{HasCause, FailsPlainly};
ghost use Rattle.engine_base.specs.Addresses.{address_of};
ghost use Rattle.undo_model.specs.Bytes.{record_size, record_bytes};
ghost use Rattle.undo_model.specs.Reading.{IsRecordPlace, IsSoundRecord, IsSoundPrevious, WritesRecord, BodyFits, record_end};
ghost use Rattle.undo_records.specs.Records.{record_of, body_of, IsNarrow};
ghost use Rattle.undo_records.specs.Answers.{AnswersRead, FailsThere, HasRecordCause};

use crate::UndoRecord;
use crate::decode::{Standing, record_at};
use crate::encode::encode;
use crate::layout::{MAX_RECORD, RECORD_END};
use engine_base::{Addr, Fault, Pages};

/// Why no record was read.
#[derive(Clone, Copy, Debug, PartialEq, Eq)]
pub enum RecordError {
    /// The bytes at that place are no record.
    Bad(Addr),
    /// The device failed. The mini-transaction is to be abandoned.
    Fault(Fault),
}

/// Writes a record with the address of the record before it in its log, and answers its length in
/// bytes. Of the row before, the document isn't written: it is the record's. At a `Fault` the pages
/// may hold anything, and the mini-transaction is to be abandoned.
pub fn write<P: Pages>(p: &mut P, at: Addr, rec: &UndoRecord, previous: Addr) -> Result<u16, Fault>
    requires page { at.page.0 < (P.state p.old).count }
    requires within { at.at + record_size (record_of rec.now) ≤ record_end }
    requires sound { IsSoundRecord (P.state p.old).count (record_of rec.now) }
    requires previous { IsSoundPrevious (P.state p.old).count (address_of previous) }
    requires may { MayUse (at.page.0 ∷ []) 0 (record_size (record_of rec.now) + write_head)
        (P.state p.old) }
    ensures size { IfOk result (λ n. n ≡ record_size (record_of rec.now)) }
    ensures stands { OnOk result (Told (WritesRecord (address_of at) (record_of rec.now)
        (address_of previous)) (P.state p.old).told (P.state p.new).told) }
    ensures writes { OnOk result (AddsWrite at.page.0 at.at
        (record_bytes (record_of rec.now) (address_of previous)) (P.state p.old) (P.state p.new)) }
    ensures uses { Uses P.state P.stays (at.page.0 ∷ []) 0
        (record_size (record_of rec.now) + write_head) p.old p.new }
    ensures cause { HasCause (P.state p.old).faults (P.state p.new).faults result }
    ensures plain { FailsPlainly result }
{
    let bytes = encode(rec, previous);
    p.write(at.page, at.at, bytes.as_slice())?;
    Ok(bytes.len() as u16)
}

/// The record at that place.
pub fn read<P: Pages>(p: &mut P, at: Addr) -> Result<UndoRecord, RecordError>
    requires place { IsRecordPlace (P.state p.old).count (address_of at) }
    requires may { MayUse (at.page.0 ∷ []) 0 0 (P.state p.old) }
    ensures answers { IfSome (P.state p.old).told (λ pages. AnswersRead pages at result) }
    ensures doc { IfOk result (λ r. r.before.doc ≡ r.doc) }
    ensures narrow { IfOk result (λ r. IsNarrow r.before) }
    ensures fits { IfOk result (λ r. BodyFits (P.state p.old).count (body_of r.body)) }
    ensures there { FailsThere at result }
    ensures told { (P.state p.new).told ≡ (P.state p.old).told }
    ensures writes { AddsNone (P.state p.old) (P.state p.new) }
    ensures uses { Uses P.state P.stays (at.page.0 ∷ []) 0 0 p.old p.new }
    ensures cause { HasRecordCause (P.state p.old).faults (P.state p.new).faults result }
{
    let mut bytes = [0u8; MAX_RECORD];
    let len = (RECORD_END - usize::from(at.at)).min(MAX_RECORD);
    read_in(p, at, &mut bytes[..len])
}

// The record there, by way of these bytes: as many as a record may have, or as there are before
// the trailer.
fn read_in<P: Pages>(p: &mut P, at: Addr, bytes: &mut [u8]) -> Result<UndoRecord, RecordError>
    requires place { IsRecordPlace (P.state p.old).count (address_of at) }
    requires len { length bytes.old ≡ min (record_end - at.at) 852 }
    requires may { MayUse (at.page.0 ∷ []) 0 0 (P.state p.old) }
    ensures answers { IfSome (P.state p.old).told (λ pages. AnswersRead pages at result) }
    ensures doc { IfOk result (λ r. r.before.doc ≡ r.doc) }
    ensures narrow { IfOk result (λ r. IsNarrow r.before) }
    ensures fits { IfOk result (λ r. BodyFits (P.state p.old).count (body_of r.body)) }
    ensures there { FailsThere at result }
    ensures told { (P.state p.new).told ≡ (P.state p.old).told }
    ensures writes { AddsNone (P.state p.old) (P.state p.new) }
    ensures uses { Uses P.state P.stays (at.page.0 ∷ []) 0 0 p.old p.new }
    ensures cause { HasRecordCause (P.state p.old).faults (P.state p.new).faults result }
{
    let count = p.count();
    match p.read(at.page, at.at, bytes) {
        Ok(()) => match record_at(count, bytes) {
            Some(Standing { rec, previous: _ }) => Ok(rec),
            None => Err(RecordError::Bad(at)),
        },
        Err(fault) => Err(RecordError::Fault(fault)),
    }
}
