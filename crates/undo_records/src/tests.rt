ghost use Rattle.std.specs.Prelude.{◌≡◌, ◌≤◌, length};
ghost use Rattle.mem_disk.specs.MemPages.{page_state};

use crate::encode::encode;
use crate::{
    Bits, Body, RecordError, RollPtr, Row, RowState, Touched, UndoRecord, apply_old, read, write,
};
use arrayvec::ArrayVec;
use engine_base::{Addr, DocId, Fault, PageNo, Pages};
use lob_pages::{LobRef, LobVersion, TrxId, UndoNo};
use mem_disk::MemPages;
use std::test::Fail;

const PLACE: Addr = Addr {
    page: PageNo(6),
    at: 200,
};

// Document 9 as transaction 7 left it: live, with its record in page 5 at 107, and with a LOB of
// 20,022 bytes in page 3, version 2.
fn row() -> Row {
    Row {
        doc: DocId(9),
        state: RowState::Live,
        trx: TrxId(7),
        roll: RollPtr(0x0005_006b),
        lob: LobRef {
            space: 0,
            page: PageNo(3),
            version: LobVersion(2),
            length: 20_022,
        },
    }
}

// Its next change, number 1 of a transaction.
fn change(body: Body) -> UndoRecord {
    UndoRecord {
        number: UndoNo(1),
        doc: DocId(9),
        before: row(),
        body,
    }
}

// What stands from byte 3 on before the body, where no record is before it in the log.
const FRONT: [u8; 48] = [
    0, 0, 0, 1, 0, 0, 0, 9, 1, 0, 0, 0, 0, 0, 7, 0, 0, 0, 0, 5, 0, 107, 0, 0, 0, 0, 0, 0, 0, 3, 0,
    0, 0, 2, 0, 0, 0, 0, 0, 0, 78, 54, 255, 255, 255, 255, 0, 0,
];

// Two bytes of page 3 from 696 on, and one of page 6 at 49.
const PATCHED: [u8; 18] = [2, 0, 0, 0, 3, 2, 184, 2, 1, 2, 0, 0, 0, 6, 0, 49, 1, 255];

// The bytes of a record whose numbers fit their fields.
fn bytes_of(rec: &UndoRecord) -> Option<ArrayVec<u8, 852>> {
    let row = rec.before;
    if row.trx.0 > 0xffff_ffff_ffff || row.roll.0 > 0xff_ffff_ffff_ffff {
        return None;
    }
    let _most = rec.size();
    Some(encode(rec, Addr::NULL))
}

#[test]
fn each_kind_has_these_bytes(rt: HostRuntime) -> Result<(), Fail> {
    let mut pieces = [0xa5; 133];
    pieces[..4].copy_from_slice(&[0, 0, 4, 8]);
    let ten = Touched {
        pieces: 10,
        bits: Bits::from_slice(&[5, 2]),
    };
    let most = Touched {
        pieces: 1_032,
        bits: Bits::from_slice(&[0xa5; 129]),
    };
    for (body, kind, tail) in [
        (Body::Insert(PageNo(12)), 1, [0, 0, 0, 12].as_slice()),
        (Body::Full(PageNo(0x0102)), 2, [0, 0, 1, 2].as_slice()),
        (Body::Versioned(ten), 3, [0, 0, 0, 10, 5, 2].as_slice()),
        (Body::Versioned(most), 3, pieces.as_slice()),
        (Body::Removed, 5, [].as_slice()),
    ] {
        let rec = change(body);
        let bytes = bytes_of(&rec).ok_or("numbers")?;
        let bytes = bytes.as_slice();
        assert_eq!(rt; bytes.len(), 51 + tail.len(), "kind {kind}");
        assert_eq!(rt; rec.size(), 51 + tail.len(), "kind {kind}");
        let front = [0, 51 + tail.len() as u8, kind];
        assert_eq!(rt; &bytes[..3], front.as_slice(), "kind {kind}");
        assert_eq!(rt; &bytes[3..51], FRONT.as_slice(), "kind {kind}");
        assert_eq!(rt; &bytes[51..], tail, "kind {kind}");
    }
    Ok(())
}

// Where bytes are patched, and with what.
type Patch = (usize, u8);

// The record with that body in a store of 16 pages, once its bytes are patched.
#[tactic(auto, using(crate::proofs::TestLemmas::ample))]
fn read_patched(
    p: &mut MemPages,
    kind: u8,
    body: &[u8],
    patches: &[Patch],
) -> Result<UndoRecord, RecordError>
    requires pages { (page_state p.old).count ≡ 16 }
    requires short { length body.now ≤ 900 }
{
    let mut bytes = [0; 1_000];
    let size = 51 + body.len();
    bytes[0] = (size / 256) as u8;
    bytes[1] = (size % 256) as u8;
    bytes[2] = kind;
    bytes[3..51].copy_from_slice(&FRONT);
    bytes[51..size].copy_from_slice(body);
    for (at, value) in patches {
        if let Some(byte) = bytes.get_mut(*at) {
            *byte = *value;
        }
    }
    if let Err(fault) = p.write(PLACE.page, PLACE.at, &bytes) {
        return Err(RecordError::Fault(fault));
    }
    read(p, PLACE)
}

#[test]
fn bytes_that_are_no_record_are_told(rt: HostRuntime) -> Result<(), Fail> {
    let mut p = MemPages::new(rt.alloc(), 16)?;
    for (row, (kind, patches, good)) in [
        (4, [].as_slice(), true),
        // The insert bit of the roll pointer, flags of the reference, a record before.
        (4, [(18, 128), (37, 255)].as_slice(), true),
        (
            4,
            [(45, 0), (46, 0), (47, 0), (48, 5), (50, 107)].as_slice(),
            true,
        ),
        // The length: below a head's, one more than there is, past the trailer.
        (4, [(1, 50)].as_slice(), false),
        (4, [(1, 70)].as_slice(), false),
        (4, [(0, 255)].as_slice(), false),
        // The kind, and the state of the row before.
        (0, [].as_slice(), false),
        (6, [].as_slice(), false),
        (4, [(11, 3)].as_slice(), false),
        // The roll pointer: a bit of a segment, the page, the offset.
        (4, [(18, 1)].as_slice(), false),
        (4, [(22, 16)].as_slice(), false),
        (4, [(23, 0x3f), (24, 0xc6)].as_slice(), false),
        // The reference: its page and its length.
        (4, [(32, 16)].as_slice(), false),
        (4, [(41, 1), (44, 1), (42, 0), (43, 0)].as_slice(), false),
        // The record before: an offset in no page, and a page past the last.
        (4, [(50, 1)].as_slice(), false),
        (
            4,
            [(45, 0), (46, 0), (47, 0), (48, 16), (50, 107)].as_slice(),
            false,
        ),
        // The runs: 101 of them, one less and one more than there are, a page, an offset.
        (4, [(51, 101)].as_slice(), false),
        (4, [(51, 1)].as_slice(), false),
        (4, [(51, 3)].as_slice(), false),
        (4, [(55, 16)].as_slice(), false),
        (4, [(56, 0x3f), (57, 0xff)].as_slice(), false),
        // A run of 100 old bytes, and one of 101.
        (4, [(1, 159), (51, 1), (58, 100)].as_slice(), true),
        (4, [(1, 160), (51, 1), (58, 101)].as_slice(), false),
        // A body too long for its kind, and a page of a LOB past the last.
        (1, [].as_slice(), false),
        (5, [].as_slice(), false),
        (5, [(1, 51)].as_slice(), true),
        (2, [(1, 55), (51, 0)].as_slice(), true),
        (2, [(1, 55), (51, 0), (54, 16)].as_slice(), false),
        // Pieces: 16 of them in two bytes, in one byte, and 1,033 in 130 bytes.
        (3, [(1, 57), (51, 0), (54, 16)].as_slice(), true),
        (3, [(1, 56), (51, 0), (54, 16)].as_slice(), false),
        (3, [(1, 185), (51, 0), (53, 4), (54, 9)].as_slice(), false),
    ]
    .into_iter()
    .enumerate()
    {
        assert!(rt; p.count() == 16);
        match read_patched(&mut p, kind, &PATCHED, patches) {
            Ok(_) => assert!(rt; good, "row {row}"),
            Err(e) => {
                assert!(rt; !good, "row {row}");
                assert_eq!(rt; e, RecordError::Bad(PLACE), "row {row}");
            }
        }
    }
    Ok(())
}

#[test]
fn a_hundred_runs_of_one_byte_are_read_and_put_back(rt: HostRuntime) -> Result<(), Fail> {
    // Run k has byte k of page 3 at 600 + 2 k, but the last one lies in page 4.
    let mut body = [0; 801];
    body[0] = 100;
    for (k, run) in body[1..].chunks_exact_mut(8).enumerate() {
        let at = 600 + 2 * k;
        let page = if k < 99 { 3 } else { 4 };
        let one = [
            0,
            0,
            0,
            page,
            (at / 256) as u8,
            (at % 256) as u8,
            1,
            k as u8,
        ];
        run.copy_from_slice(&one);
    }
    let mut p = MemPages::new(rt.alloc(), 16)?;
    assert!(rt; p.count() == 16);
    let rec = read_patched(&mut p, 4, &body, &[]).ok().ok_or("read")?;
    assert_eq!(rt; rec.size(), 852);
    assert_eq!(rt; rec.before, row());
    let bytes = bytes_of(&rec).ok_or("numbers")?;
    let bytes = bytes.as_slice();
    assert_eq!(rt; bytes.len(), 852);
    assert_eq!(rt; &bytes[..3], [3, 84, 4].as_slice());
    assert_eq!(rt; &bytes[3..51], FRONT.as_slice());
    assert_eq!(rt; &bytes[51..], body.as_slice());
    for (page, base, put) in [
        (3, 601, [7, 1, 7, 2]),
        (3, 602, [1, 7, 2, 7]),
        (3, 598, [7, 7, 0, 7]),
        (3, 795, [7, 98, 7, 7]),
        (4, 797, [7, 99, 7, 7]),
        (4, 602, [7, 7, 7, 7]),
        (5, 602, [7, 7, 7, 7]),
    ] {
        let mut part = [7; 4];
        apply_old(&mut part, PageNo(page), base, &rec);
        assert_eq!(rt; part, put, "page {page} from {base}");
    }
    Ok(())
}

fn written(p: &mut MemPages) -> Result<u16, Fault>
    requires { (page_state p.old).count ≡ 16 }
{
    let rec = UndoRecord {
        number: UndoNo(1),
        doc: DocId(9),
        before: Row {
            doc: DocId(9),
            state: RowState::Deleted,
            trx: TrxId(7),
            roll: RollPtr(0x0005_006b),
            lob: LobRef {
                space: 0,
                page: PageNo(3),
                version: LobVersion(2),
                length: 20_022,
            },
        },
        body: Body::Insert(PageNo(12)),
    };
    write(p, PLACE, &rec, Addr::NULL)
}

#[test]
#[tactic(auto, using(crate::proofs::TestLemmas::ample))]
fn a_record_that_was_written_is_read(rt: HostRuntime) -> Result<(), Fail> {
    let mut p = MemPages::new(rt.alloc(), 16)?;
    assert!(rt; p.count() == 16);
    assert_eq!(rt; written(&mut p), Ok(55));
    assert!(rt; p.count() == 16);
    let found = read(&mut p, PLACE).ok().ok_or("read")?;
    assert_eq!(rt; found.number, UndoNo(1));
    assert_eq!(rt; found.doc, DocId(9));
    assert_eq!(rt; found.before.doc, DocId(9));
    assert_eq!(rt; found.before.state, RowState::Deleted);
    assert_eq!(rt; found.before.lob, row().lob);
    assert!(rt; matches!(found.body, Body::Insert(PageNo(12))));
    Ok(())
}
