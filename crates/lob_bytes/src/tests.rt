ghost use Rattle.std.specs.Prelude.{◌≡◌};
ghost use Rattle.mem_disk.specs.MemPages.{page_state};

use crate::{add_piece, begin_lob, free_first, free_index_page, read_piece};
use engine_base::{Addr, Fault, NULL_PAGE, PageNo, Pages, read_field, write_field};
use lob_index::head;
use lob_pages::{Base, Entry, LobVersion, TrxId, UndoNo, write_entry};
use mem_disk::MemPages;
use page_space::{Space, make_system};
use std::test::Fail;

const NULL: u64 = NULL_PAGE as u64;

#[test]
#[tactic(auto, using(crate::proofs::TestLemmas::ample))]
fn a_new_lob_has_these_fields(rt: HostRuntime) -> Result<(), Fail> {
    let mut p = MemPages::new(rt.alloc(), 4)?;
    let mut space = Space::new();
    assert!(rt; p.count() == 4);
    make_system(&mut p).ok().ok_or("system")?;
    assert!(rt; p.count() == 4);
    assert_eq!(rt; space.reserve(&mut p, 1), Ok(()));
    assert!(rt; p.count() == 4 && space.reserved() > 0);
    let trx = TrxId(0x0102_0304_0506);
    assert_eq!(rt; begin_lob(&mut p, &mut space, trx), Ok(PageNo(1)));
    assert_eq!(rt; space.reserved(), 0);
    for (at, bytes) in [
        (0, [0, 0, 0, 0, 0, 0, 0, 1]),
        (8, [0xff; 8]),
        (24, [0, 4, 0, 0, 0, 0, 0, 0]),
        (38, [0, 0, 0, 0, 0, 1, 1, 2]),
        (46, [3, 4, 5, 6, 0, 0, 0, 0]),
        (54, [0, 0, 0, 0, 1, 2, 3, 4]),
        (62, [5, 6, 0, 0, 0, 0, 0xff, 0xff]),
        (76, [0xff, 0xff, 0, 0, 0, 0, 0, 10]),
        (84, [0, 0, 0, 1, 0, 96, 0, 0]),
        (92, [0, 1, 2, 0x7c, 0xff, 0xff, 0xff, 0xff]),
        (100, [0, 0, 0, 0, 0, 1, 0, 156]),
        (636, [0, 0, 0, 1, 2, 0x40, 0xff, 0xff]),
        (696, [0; 8]),
    ] {
        let mut there = [0; 8];
        assert!(rt; p.count() == 4 && at <= 696);
        p.read(PageNo(1), at, &mut there).ok().ok_or("read")?;
        assert_eq!(rt; there, bytes, "at {at}");
    }
    Ok(())
}

#[test]
#[tactic(auto, using(crate::proofs::TestLemmas::ample))]
fn index_pages_and_then_the_first_are_given_back(rt: HostRuntime) -> Result<(), Fail> {
    let mut p = MemPages::new(rt.alloc(), 4)?;
    let mut space = Space::new();
    assert!(rt; p.count() == 4);
    make_system(&mut p).ok().ok_or("system")?;
    assert!(rt; p.count() == 4);
    assert_eq!(rt; space.reserve(&mut p, 3), Ok(()));
    assert!(rt; p.count() == 4 && space.reserved() > 0);
    let first = PageNo(1);
    assert_eq!(rt; begin_lob(&mut p, &mut space, TrxId(5)), Ok(first));
    for (page, behind) in [(2, NULL), (3, 2)] {
        assert!(rt; p.count() == 4 && space.reserved() > 0);
        assert_eq!(rt; space.take(&mut p), Ok(PageNo(page)));
        assert!(rt; p.count() == 4);
        write_field(&mut p, PageNo(page), 12, 4, behind)
            .ok()
            .ok_or("behind")?;
        assert!(rt; p.count() == 4);
        write_field(&mut p, first, 12, 4, u64::from(page))
            .ok()
            .ok_or("chain")?;
    }
    for (left, chain, free) in [(true, 2, 1), (false, NULL, 2), (false, NULL, 2)] {
        assert!(rt; p.count() == 4);
        assert_eq!(rt; free_index_page(&mut p, &mut space, first), Ok(left));
        assert!(rt; p.count() == 4);
        assert_eq!(rt; read_field(&mut p, first, 12, 4), Ok(chain));
        assert!(rt; p.count() == 4);
        assert_eq!(rt; read_field(&mut p, PageNo(0), 62, 4), Ok(free));
    }
    assert!(rt; p.count() == 4);
    assert_eq!(rt; free_first(&mut p, &mut space, first), Ok(()));
    assert!(rt; p.count() == 4);
    assert_eq!(rt; read_field(&mut p, PageNo(0), 128, 1), Ok(1));
    Ok(())
}

const PLACE: Addr = Addr {
    page: PageNo(1),
    at: 96,
};

// Makes the first entry of page 1 one with data of that length in that page.
#[tactic(auto, using(crate::proofs::TestLemmas::ample))]
fn put_entry(p: &mut MemPages, page: u32, length: u32) -> Result<(), Fault>
    requires { (page_state p.old).count ≡ 4 }
{
    let entry = Entry {
        previous: Addr::NULL,
        next: Addr::NULL,
        versions: Base {
            length: 0,
            first: Addr::NULL,
            last: Addr::NULL,
        },
        creator: TrxId(5),
        modifier: TrxId(5),
        creator_undo: UndoNo(0),
        modifier_undo: UndoNo(0),
        page: PageNo(page),
        length,
        version: LobVersion(1),
    };
    write_entry(p, PLACE, &entry)
}

#[test]
#[tactic(auto, using(crate::proofs::TestLemmas::ample))]
fn data_are_read_in_a_first_page_and_in_a_data_page(rt: HostRuntime) -> Result<(), Fail> {
    let mut p = MemPages::new(rt.alloc(), 4)?;
    let mut into = [0; 16_327];
    for (page, at, width, value) in [
        (1, 24, 2, 4),
        (1, 696, 8, 0x0102_0304_0506_0708),
        (2, 24, 2, 5),
        (2, 49, 8, 0x1112_1314_1516_1718),
        (3, 24, 2, 6),
    ] {
        assert!(rt; p.count() == 4);
        write_field(&mut p, PageNo(page), at, width, value)
            .ok()
            .ok_or("field")?;
    }
    for (page, length, begin) in [
        (1, 8, [1, 2, 3, 4, 5, 6, 7, 8]),
        (2, 2, [0x11, 0x12, 3, 4, 5, 6, 7, 8]),
        (1, 0, [0x11, 0x12, 3, 4, 5, 6, 7, 8]),
        (1, 15_680, [1, 2, 3, 4, 5, 6, 7, 8]),
        (2, 16_327, [0x11, 0x12, 0x13, 0x14, 0x15, 0x16, 0x17, 0x18]),
    ] {
        assert!(rt; p.count() == 4);
        put_entry(&mut p, page, length).ok().ok_or("entry")?;
        assert!(rt; p.count() == 4);
        assert_eq!(rt; read_piece(&mut p, PLACE, &mut into), Ok(length as usize));
        assert_eq!(rt; &into[..8], begin.as_slice(), "{length} in page {page}");
    }
    for (page, length, odd, at, value) in [
        (1, 15_681, 1, 148, 15_681),
        (2, 16_328, 1, 148, 16_328),
        (3, 1, 3, 24, 6),
        (4, 1, 1, 144, 4),
    ] {
        assert!(rt; p.count() == 4);
        put_entry(&mut p, page, length).ok().ok_or("entry")?;
        let page = PageNo(odd);
        assert!(rt; p.count() == 4);
        assert_eq!(rt;
            read_piece(&mut p, PLACE, &mut into),
            Err(Fault::Strange { page, at, value })
        );
    }
    Ok(())
}

#[test]
#[tactic(auto, using(crate::proofs::TestLemmas::ample))]
fn a_piece_over_its_place_is_refused_and_the_next_one_is_read(rt: HostRuntime) -> Result<(), Fail> {
    let mut p = MemPages::new(rt.alloc(), 4)?;
    let mut space = Space::new();
    assert!(rt; p.count() == 4);
    make_system(&mut p).ok().ok_or("system")?;
    assert!(rt; p.count() == 4);
    assert_eq!(rt; space.reserve(&mut p, 2), Ok(()));
    assert!(rt; p.count() == 4 && space.reserved() > 0);
    let page = PageNo(1);
    assert_eq!(rt; begin_lob(&mut p, &mut space, TrxId(5)), Ok(page));
    let bytes = [7; 16_327];
    let mut into = [0; 16_327];
    let odd = Fault::Strange {
        page,
        at: 68,
        value: NULL,
    };
    for (len, answer) in [(15_681, Err(odd)), (15_680, Ok(())), (1, Ok(()))] {
        assert!(rt; p.count() == 4 && len <= 16_327);
        let piece = &bytes[..len];
        assert!(rt; p.count() == 4);
        assert_eq!(rt;
            add_piece(&mut p, &mut space, page, TrxId(5), piece),
            answer,
            "{len}"
        );
    }
    for (k, at, len) in [(0, 96, 15_680), (1, 156, 1)] {
        let entry = Addr { page, at };
        assert!(rt; p.count() == 4);
        assert_eq!(rt; head(&mut p, page, k), Ok(Some(entry)));
        assert!(rt; p.count() == 4 && at <= 200);
        assert_eq!(rt; read_piece(&mut p, entry, &mut into), Ok(len));
        assert_eq!(rt; into[0], 7);
    }
    Ok(())
}

#[test]
#[tactic(auto, using(crate::proofs::TestLemmas::ample))]
fn index_pages_come_with_the_eleventh_and_the_283rd_piece(rt: HostRuntime) -> Result<(), Fail> {
    let mut p = MemPages::new(rt.alloc(), 300)?;
    let mut space = Space::new();
    assert!(rt; p.count() == 300);
    make_system(&mut p).ok().ok_or("system")?;
    assert!(rt; p.count() == 300);
    assert_eq!(rt; space.reserve(&mut p, 285), Ok(()));
    assert!(rt; p.count() == 300 && space.reserved() > 0);
    let page = PageNo(1);
    assert_eq!(rt; begin_lob(&mut p, &mut space, TrxId(5)), Ok(page));
    let bytes = [7; 15_680];
    for pieces in 1..284 {
        assert!(rt; p.count() == 300);
        let added = add_piece(&mut p, &mut space, page, TrxId(5), &bytes);
        assert_eq!(rt; added, Ok(()), "{pieces}");
        let chain = match pieces {
            1..=10 => NULL,
            11..=282 => 12,
            _ => 285,
        };
        assert!(rt; p.count() == 300);
        assert_eq!(rt; read_field(&mut p, page, 12, 4), Ok(chain), "{pieces}");
    }
    assert_eq!(rt; space.reserved(), 0);
    let last = Addr {
        page: PageNo(285),
        at: 39,
    };
    for (k, found) in [(282, Some(last)), (283, None)] {
        assert!(rt; p.count() == 300);
        assert_eq!(rt; head(&mut p, page, k), Ok(found), "{k}");
    }
    Ok(())
}
