use crate::{
    Base, Entry, FirstFields, LobRef, LobVersion, TrxId, UndoNo, read_entry, read_first,
    set_version, write_entry, write_fields,
};
use engine_base::{Addr, PageNo, Pages};
use mem_disk::MemPages;
use std::test::Fail;

// The second entry of the first page 1.
const PLACE: Addr = Addr {
    page: PageNo(1),
    at: 156,
};

const ENTRY: Entry = Entry {
    previous: Addr {
        page: PageNo(1),
        at: 96,
    },
    next: Addr::NULL,
    versions: Base {
        length: 2,
        first: Addr {
            page: PageNo(3),
            at: 39,
        },
        last: Addr {
            page: PageNo(3),
            at: 99,
        },
    },
    creator: TrxId(5),
    modifier: TrxId(0x0102_0304_0506),
    creator_undo: UndoNo(0),
    modifier_undo: UndoNo(7),
    page: PageNo(61),
    length: 16_327,
    version: LobVersion(4),
};

const LINK_BYTES: [u8; 28] = [
    0, 0, 0, 1, 0, 96, 0xff, 0xff, 0xff, 0xff, 0, 0, 0, 0, 0, 2, 0, 0, 0, 3, 0, 39, 0, 0, 0, 3, 0,
    99,
];

const FIELD_BYTES: [u8; 32] = [
    0, 0, 0, 0, 0, 5, 1, 2, 3, 4, 5, 6, 0, 0, 0, 0, 0, 0, 0, 7, 0, 0, 0, 61, 0, 0, 0x3f, 0xc7, 0,
    0, 0, 4,
];

#[test]
#[tactic(auto, using(crate::proofs::TestLemmas::ample))]
fn an_entry_has_these_bytes_and_reads_back(rt: HostRuntime) -> Result<(), Fail> {
    let mut p = MemPages::new(rt.alloc(), 4)?;
    assert!(rt; p.count() == 4);
    assert_eq!(rt; write_entry(&mut p, PLACE, &ENTRY), Ok(()));
    let mut links = [0; 28];
    assert!(rt; p.count() == 4);
    p.read(PLACE.page, 156, &mut links).ok().ok_or("links")?;
    assert_eq!(rt; links, LINK_BYTES);
    let mut fields = [0; 32];
    assert!(rt; p.count() == 4);
    p.read(PLACE.page, 184, &mut fields).ok().ok_or("fields")?;
    assert_eq!(rt; fields, FIELD_BYTES);
    assert!(rt; p.count() == 4);
    assert_eq!(rt; read_entry(&mut p, PLACE), Ok(ENTRY));
    Ok(())
}

#[test]
#[tactic(auto, using(crate::proofs::TestLemmas::ample))]
fn the_fields_alone_leave_the_links(rt: HostRuntime) -> Result<(), Fail> {
    let mut p = MemPages::new(rt.alloc(), 4)?;
    assert!(rt; p.count() == 4);
    p.write(PLACE.page, 156, &LINK_BYTES).ok().ok_or("write")?;
    assert!(rt; p.count() == 4);
    let other = Entry {
        previous: Addr::NULL,
        ..ENTRY
    };
    assert_eq!(rt; write_fields(&mut p, PLACE, &other), Ok(()));
    assert!(rt; p.count() == 4);
    assert_eq!(rt; read_entry(&mut p, PLACE), Ok(ENTRY));
    Ok(())
}

#[test]
#[tactic(auto, using(crate::proofs::TestLemmas::ample))]
fn a_first_page_has_these_fields_and_takes_a_version(rt: HostRuntime) -> Result<(), Fail> {
    let mut p = MemPages::new(rt.alloc(), 4)?;
    let fields: [u8; 24] = [
        0, 0, 0, 1, 0, 0, 0, 0, 1, 2, 0, 0, 0, 3, 0, 0, 0x3d, 0x40, 0, 0, 0, 0, 0, 9,
    ];
    assert!(rt; p.count() == 4);
    p.write(PLACE.page, 40, &fields).ok().ok_or("fields")?;
    let first = FirstFields {
        version: LobVersion(1),
        changer: TrxId(258),
        undo: UndoNo(3),
        length: 15_680,
        creator: TrxId(9),
    };
    assert!(rt; p.count() == 4);
    assert_eq!(rt; read_first(&mut p, PLACE.page), Ok(first));
    for version in [2, 4_294_967_294] {
        let version = LobVersion(version);
        assert!(rt; p.count() == 4);
        assert_eq!(rt; set_version(&mut p, PLACE.page, version), Ok(()));
        assert!(rt; p.count() == 4);
        assert_eq!(rt;
            read_first(&mut p, PLACE.page),
            Ok(FirstFields { version, ..first })
        );
    }
    Ok(())
}

#[test]
fn a_reference_has_these_bytes(rt: HostRuntime) -> Result<(), Fail> {
    let rows: [([u32; 4], [u8; 20]); 3] = [
        (
            [0, 3, 2, 20_022],
            [
                0, 0, 0, 0, 0, 0, 0, 3, 0, 0, 0, 2, 0, 0, 0, 0, 0, 0, 0x4e, 0x36,
            ],
        ),
        ([0, 0, 0, 0], [0; 20]),
        (
            [1, 32_767, 4_294_967_294, 16_777_216],
            [
                0, 0, 0, 1, 0, 0, 0x7f, 0xff, 0xff, 0xff, 0xff, 0xfe, 0, 0, 0, 0, 1, 0, 0, 0,
            ],
        ),
    ];
    for ([space, page, version, length], bytes) in rows {
        let lob = LobRef {
            space,
            page: PageNo(page),
            version: LobVersion(version),
            length,
        };
        assert_eq!(rt; lob.to_bytes(), bytes, "page {page}");
        assert_eq!(rt; LobRef::from_bytes(&bytes), lob, "page {page}");
        let mut flagged = bytes;
        flagged[12] = 0x80;
        assert_eq!(rt; LobRef::from_bytes(&flagged), lob, "page {page}");
    }
    Ok(())
}
