//! A record as bytes.
ghost use Rattle.std.specs.Prelude.{◌≡◌, ◌+◌, ◌≤◌, ◌<◌, ◌^◌, ◌++◌, [], ◌∷◌, length, map};
ghost use Rattle.byteorder.specs.Endian.{big_bytes};
ghost use Rattle.arrayvec.specs.ArrayVec.{array_vec_len};
ghost use Rattle.engine_base.specs.Addresses.{address_of};
ghost use Rattle.undo_model.specs.Bytes.{state_code, reference_bytes, row_bytes, kind_code, body_bytes, record_bytes, runs_bytes};
ghost use Rattle.undo_model.specs.Old.{old_size};
ghost use Rattle.undo_records.specs.Views.{run_of};
ghost use Rattle.lob_pages.specs.References.{reference_of};
ghost use Rattle.undo_records.specs.Records.{row_of, state_of, body_of, record_of};

use crate::layout::HEAD;
use crate::{Body, Row, RowState, Run, UndoRecord};
use arrayvec::ArrayVec;
use byteorder::{BigEndian, ByteOrder};
use engine_base::Addr;
use lob_pages::LobRef;

// Appends the number in `width` bytes.
fn put(out: &mut ArrayVec<u8, 852>, width: usize, value: u64)
    requires width { (1 ≤ width) × (width ≤ 8) }
    requires fits { value < 256 ^ width }
    requires room { array_vec_len out.old + width ≤ 852 }
    ensures { out.new.items ≡ out.old.items ++ big_bytes width value }
{
    let mut bytes = [0u8; 8];
    BigEndian::write_uint(&mut bytes, value, width);
    put_bytes(out, &bytes[..width]);
}

// Appends the bytes.
fn put_bytes(out: &mut ArrayVec<u8, 852>, bytes: &[u8])
    requires room { array_vec_len out.old + length bytes.now ≤ 852 }
    ensures { out.new.items ≡ out.old.items ++ bytes.now }
{
    let _ = out.try_extend_from_slice(bytes);
}

fn put_u32(out: &mut ArrayVec<u8, 852>, value: u32)
    requires room { array_vec_len out.old + 4 ≤ 852 }
    ensures { out.new.items ≡ out.old.items ++ big_bytes 4 value }
{
    put(out, 4, u64::from(value));
}

fn code_of(state: RowState) -> u64
    ensures value { result ≡ state_code (state_of state) }
    ensures small { result ≤ 2 }
{
    match state {
        RowState::Absent => 0,
        RowState::Live => 1,
        RowState::Deleted => 2,
    }
}

fn put_state(out: &mut ArrayVec<u8, 852>, state: RowState)
    requires room { array_vec_len out.old + 1 ≤ 852 }
    ensures { out.new.items ≡ out.old.items ++ big_bytes 1 (state_code (state_of state)) }
{
    put(out, 1, code_of(state));
}

// Appends 20 bytes, with flags of zero.
fn put_reference(out: &mut ArrayVec<u8, 852>, lob: LobRef)
    requires room { array_vec_len out.old + 20 ≤ 852 }
    ensures { out.new.items ≡ out.old.items ++ reference_bytes (reference_of lob) }
{
    put_u32(out, lob.space);
    put_u32(out, lob.page.0);
    put_u32(out, lob.version.0);
    put_u32(out, 0);
    put_u32(out, lob.length);
}

// Appends the 34 bytes of a row, without its document.
fn put_row(out: &mut ArrayVec<u8, 852>, row: &Row)
    requires room { array_vec_len out.old + 34 ≤ 852 }
    requires trx { row.now.trx.0 < 256 ^ 6 }
    requires roll { row.now.roll.0 < 256 ^ 7 }
    ensures { out.new.items ≡ out.old.items ++ row_bytes (row_of row.now) }
{
    put_state(out, row.state);
    put(out, 6, row.trx.0);
    put(out, 7, row.roll.0);
    put_reference(out, row.lob);
}

// Appends a run: its page, offset and length, and its old bytes.
fn put_run(out: &mut ArrayVec<u8, 852>, run: &Run)
    requires room { array_vec_len out.old + 7 + length run.now.old ≤ 852 }
    requires short { length run.now.old < 256 }
    ensures { out.new.items ≡ out.old.items ++ runs_bytes (run_of run.now ∷ []) }
{
    let old = run.old.as_slice();
    put_u32(out, run.page.0);
    put(out, 2, u64::from(run.at));
    put(out, 1, old.len() as u64);
    put_bytes(out, old);
}

fn put_runs(out: &mut ArrayVec<u8, 852>, runs: &[Run])
    requires small { old_size (map run_of runs.now) ≤ 100 }
    requires room { array_vec_len out.old + length (runs_bytes (map run_of runs.now)) ≤ 852 }
    ensures { out.new.items ≡ out.old.items ++ runs_bytes (map run_of runs.now) }
{
    for run in runs {
        put_run(out, run);
    }
}

fn put_body(out: &mut ArrayVec<u8, 852>, body: &Body)
    requires room { array_vec_len out.old + length (body_bytes (body_of body.now)) ≤ 852 }
    ensures { out.new.items ≡ out.old.items ++ body_bytes (body_of body.now) }
{
    match body {
        Body::Insert(page) => put_u32(out, page.0),
        Body::Full(page) => put_u32(out, page.0),
        Body::Versioned(touched) => {
            put_u32(out, touched.pieces);
            put_bytes(out, touched.bits.as_slice());
        }
        Body::Patched(runs) => {
            put(out, 1, runs.len() as u64);
            put_runs(out, runs.as_slice());
        }
        Body::Removed => {}
    }
}

fn kind_of(body: &Body) -> u64
    ensures value { result ≡ kind_code (body_of body.now) }
    ensures small { result < 256 }
{
    match body {
        Body::Insert(_) => 1,
        Body::Full(_) => 2,
        Body::Versioned(_) => 3,
        Body::Patched(_) => 4,
        Body::Removed => 5,
    }
}

/// The bytes of a record, with the address of the record before it in its log.
pub(crate) fn encode(rec: &UndoRecord, previous: Addr) -> ArrayVec<u8, 852>
    requires trx { rec.now.before.trx.0 < 256 ^ 6 }
    requires roll { rec.now.before.roll.0 < 256 ^ 7 }
    requires short { length (body_bytes (body_of rec.now.body)) ≤ 801 }
    ensures { result.items ≡ record_bytes (record_of rec.now) (address_of previous) }
{
    let mut body = ArrayVec::new();
    put_body(&mut body, &rec.body);
    let body = body.as_slice();
    let mut out = ArrayVec::new();
    put(&mut out, 2, (HEAD + body.len()) as u64);
    put(&mut out, 1, kind_of(&rec.body));
    put_u32(&mut out, rec.number.0);
    put_u32(&mut out, rec.doc.0);
    put_row(&mut out, &rec.before);
    put_u32(&mut out, previous.page.0);
    put(&mut out, 2, u64::from(previous.at));
    put_bytes(&mut out, body);
    out
}
