//! What stands in bytes: a record, or none.
ghost use Rattle.std.specs.Prelude.{◌≡◌, ◌+◌, ◌*◌, ◌-◌, ◌≤◌, ◌<◌, ◌^◌, length, drop, Some, None, option_map, IfSome};
ghost use Rattle.byteorder.specs.Endian.{big_number};
ghost use Rattle.undo_model.specs.Reading.{is_place, is_previous, is_pointer, is_reference, reference_in, row_in, is_run, runs_in, new_lob_in, versioned_in, patched_in, body_in, record_in};
ghost use Rattle.undo_model.specs.Data.{inserted, rebuilt};
ghost use Rattle.lob_pages.specs.References.{reference_of};
ghost use Rattle.undo_records.specs.Records.{row_of, state_of, body_of, IsNarrow};
ghost use Rattle.undo_records.specs.declared.record_type.Body.TheVariants.{Versioned, Patched};
ghost use Rattle.undo_records.specs.Reading.{some_state, standing_of, record_front};

use crate::layout::{
    BEFORE, DOC, HEAD, KIND, MAX_LENGTH, MAX_OLD, MAX_PIECES, MAX_RUNS, NUMBER, PREVIOUS,
    RECORD_END, RUN_HEAD,
};
use crate::touched::Bits;
use crate::{Body, RollPtr, Row, RowState, Runs, Touched, UndoRecord};
use byteorder::{BigEndian, ByteOrder};
use engine_base::{Addr, DocId, NULL_PAGE, PAGE_BYTES, PageNo};
use lob_pages::{LobRef, LobVersion, TrxId, UndoNo};

/// A record with the address of the record before it in its log.
#[derive(Drop)]
pub(crate) struct Standing {
    pub rec: UndoRecord,
    pub previous: Addr,
}

// The bytes from there on.
fn behind(bytes: &[u8], at: usize) -> &[u8]
    requires { at ≤ length bytes.now }
    ensures { result.now ≡ drop at bytes.now }
{
    &bytes[at..]
}

// The number in `width` bytes there.
fn uint_at(bytes: &[u8], at: usize, width: usize) -> u64
    requires width { (1 ≤ width) × (width ≤ 8) }
    requires within { at + width ≤ length bytes.now }
    ensures value { result ≡ big_number width (drop at bytes.now) }
    ensures narrow { result < 256 ^ width }
{
    BigEndian::read_uint(behind(bytes, at), width)
}

fn u32_at(bytes: &[u8], at: usize) -> u32
    requires within { at + 4 ≤ length bytes.now }
    ensures { result ≡ big_number 4 (drop at bytes.now) }
{
    BigEndian::read_u32(behind(bytes, at))
}

fn u16_at(bytes: &[u8], at: usize) -> u16
    requires within { at + 2 ≤ length bytes.now }
    ensures { result ≡ big_number 2 (drop at bytes.now) }
{
    BigEndian::read_u16(behind(bytes, at))
}

/// Whether a record's bytes before its body fit there, in a store of so many pages.
pub fn is_place(count: u32, page: u32, at: u32) -> bool
    ensures { result ≡ is_place count page at }
{
    page < count && at as usize + HEAD <= RECORD_END
}

/// Whether a record may have that address as that of the record before it: the null address, or a
/// place where a record may stand.
pub fn is_previous(count: u32, a: Addr) -> bool
    ensures { result ≡ is_previous count a.page.0 a.at }
{
    (a.page.0 == NULL_PAGE && a.at == 0) || is_place(count, a.page.0, u32::from(a.at))
}

// Whether a row may have that roll pointer: none, or with no bit of a rollback segment and with a
// place where a record may stand. Its insert bit may be either.
fn is_pointer(count: u32, n: u64) -> bool
    ensures { result ≡ is_pointer count n }
{
    n == 0
        || ((n / 281_474_976_710_656) % 128 == 0
            && is_place(
                count,
                ((n / 65_536) % 4_294_967_296) as u32,
                (n % 65_536) as u32,
            ))
}

fn state(code: u8) -> Option<RowState>
    ensures { option_map state_of result ≡ some_state code }
{
    match code {
        0 => Some(RowState::Absent),
        1 => Some(RowState::Live),
        2 => Some(RowState::Deleted),
        _ => None,
    }
}

// The reference in 20 bytes. Its flags, in the high four bytes of its length, aren't looked at.
fn reference(bytes: &[u8]) -> LobRef
    requires { 20 ≤ length bytes.now }
    ensures { reference_of result ≡ reference_in bytes.now }
{
    LobRef {
        space: u32_at(bytes, 0),
        page: PageNo(u32_at(bytes, 4)),
        version: LobVersion(u32_at(bytes, 8)),
        length: u32_at(bytes, 16),
    }
}

fn is_reference(count: u32, lob: LobRef) -> bool
    ensures { result ≡ is_reference count (reference_of lob) }
{
    lob.page.0 < count && lob.length <= MAX_LENGTH
}

// The row of that document in 34 bytes.
fn row(count: u32, doc: DocId, bytes: &[u8]) -> Option<Row>
    requires { 34 ≤ length bytes.now }
    ensures value { option_map row_of result ≡ row_in count bytes.now }
    ensures doc { IfSome result (λ r. r.doc ≡ doc) }
    ensures narrow { IfSome result IsNarrow }
{
    let state = state(bytes[0])?;
    let trx = uint_at(bytes, 1, 6);
    let roll = uint_at(bytes, 7, 7);
    let lob = reference(behind(bytes, 14));
    if !is_pointer(count, roll) {
        return None;
    }
    if !is_reference(count, lob) {
        return None;
    }
    Some(Row {
        doc,
        state,
        trx: TrxId(trx),
        roll: RollPtr(roll),
        lob,
    })
}

fn is_run(count: u32, page: u32, at: u16, size: usize) -> bool
    requires { size ≤ 255 }
    ensures { result ≡ is_run count page at size }
{
    page < count && usize::from(at) + size <= PAGE_BYTES
}

// So many runs in exactly these bytes.
fn runs(count: u32, n: usize, bytes: &[u8]) -> Option<Runs>
    requires { n ≤ 100 }
    ensures { result ≡ runs_in count n 100 bytes.now }
{
    let mut runs = Runs::new();
    let mut left = MAX_OLD;
    let mut rest = bytes;
    for _i in 0..n {
        if rest.len() < RUN_HEAD {
            return None;
        }
        let page = u32_at(rest, 0);
        let at = u16_at(rest, 4);
        let size = usize::from(rest[6]);
        if rest.len() < RUN_HEAD + size {
            return None;
        }
        if left < size {
            return None;
        }
        if !is_run(count, page, at, size) {
            return None;
        }
        runs.push(PageNo(page), at, &behind(rest, RUN_HEAD)[..size]);
        left -= size;
        rest = behind(rest, RUN_HEAD + size);
    }
    if rest.is_empty() { Some(runs) } else { None }
}

// The page of a LOB in exactly these bytes, the body of an Insert or a Full.
fn new_lob(count: u32, bytes: &[u8]) -> Option<PageNo>
    ensures inserts { option_map (λ p. inserted p.0) result ≡ new_lob_in count inserted bytes.now }
    ensures rebuilds { option_map (λ p. rebuilt p.0) result ≡ new_lob_in count rebuilt bytes.now }
{
    if bytes.len() != 4 {
        return None;
    }
    let page = u32_at(bytes, 0);
    if page < count {
        Some(PageNo(page))
    } else {
        None
    }
}

// The body of a Versioned in exactly these bytes. The bits past the last piece aren't looked at.
fn touched(bytes: &[u8]) -> Option<Touched>
    ensures { option_map (λ t. body_of (Versioned t)) result ≡ versioned_in bytes.now }
{
    if bytes.len() < 4 {
        return None;
    }
    let pieces = u32_at(bytes, 0);
    if pieces > MAX_PIECES {
        return None;
    }
    let bits = behind(bytes, 4);
    if bits.len() != (pieces as usize + 7) / 8 {
        return None;
    }
    Some(Touched {
        pieces,
        bits: Bits::from_slice(bits),
    })
}

// The body of a Patched in exactly these bytes. The order of the runs isn't looked at.
fn patched(count: u32, bytes: &[u8]) -> Option<Runs>
    ensures { option_map (λ r. body_of (Patched r)) result ≡ patched_in count bytes.now }
{
    let [n, rest @ ..] = bytes else {
        return None;
    };
    let n = usize::from(*n);
    if n > MAX_RUNS {
        return None;
    }
    runs(count, n, rest)
}

// The body of a record of that kind in exactly these bytes.
fn body(count: u32, kind: u8, bytes: &[u8]) -> Option<Body>
    ensures { option_map body_of result ≡ body_in count kind bytes.now }
{
    match kind {
        1 => Some(Body::Insert(new_lob(count, bytes)?)),
        2 => Some(Body::Full(new_lob(count, bytes)?)),
        3 => Some(Body::Versioned(touched(bytes)?)),
        4 => Some(Body::Patched(patched(count, bytes)?)),
        5 if bytes.is_empty() => Some(Body::Removed),
        _ => None,
    }
}

/// The record in exactly these bytes.
pub(crate) fn record(count: u32, bytes: &[u8]) -> Option<Standing>
    requires { 51 ≤ length bytes.now }
    ensures value { option_map standing_of result ≡ record_in count bytes.now }
    ensures doc { IfSome result (λ s. s.rec.before.doc ≡ s.rec.doc) }
    ensures narrow { IfSome result (λ s. IsNarrow s.rec.before) }
{
    let previous = Addr {
        page: PageNo(u32_at(bytes, PREVIOUS)),
        at: u16_at(bytes, PREVIOUS + 4),
    };
    if !is_previous(count, previous) {
        return None;
    }
    let number = UndoNo(u32_at(bytes, NUMBER));
    let doc = DocId(u32_at(bytes, DOC));
    let before = row(count, doc, behind(bytes, BEFORE))?;
    let body = body(count, bytes[KIND], behind(bytes, HEAD))?;
    Some(Standing {
        rec: UndoRecord {
            number,
            doc,
            before,
            body,
        },
        previous,
    })
}

/// The record whose bytes these begin with, by its length in the first two.
pub(crate) fn record_at(count: u32, bytes: &[u8]) -> Option<Standing>
    requires { 51 ≤ length bytes.now }
    ensures value { option_map standing_of result ≡ record_front count bytes.now }
    ensures doc { IfSome result (λ s. s.rec.before.doc ≡ s.rec.doc) }
    ensures narrow { IfSome result (λ s. IsNarrow s.rec.before) }
{
    let size = usize::from(u16_at(bytes, 0));
    if size < HEAD {
        return None;
    }
    if size > bytes.len() {
        return None;
    }
    record(count, &bytes[..size])
}
