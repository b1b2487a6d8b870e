use crate::{add_piece, begin_lob, free_first, free_index_page, free_last_piece};
use engine_base::{Fault, NULL_PAGE, PageNo, Pages, read_field, write_field};
use lob_pages::TrxId;
use mem_disk::MemPages;
use page_space::{Space, make_system};
use std::test::Fail;

const NULL: u64 = NULL_PAGE as u64;

// Of ten entries in the first page and 272 in the index page 12, behind each call the number of
// heads, of free pages and of free nodes, and the address of the first of these.
#[test]
#[tactic(auto, using(crate::proofs::TestLemmas::ample))]
fn twelve_pieces_are_freed_from_the_last(rt: HostRuntime) -> Result<(), Fail> {
    let mut p = MemPages::new(rt.alloc(), 16)?;
    let mut space = Space::new();
    assert!(rt; p.count() == 16);
    make_system(&mut p).ok().ok_or("system")?;
    assert!(rt; p.count() == 16);
    assert_eq!(rt; space.reserve(&mut p, 13), Ok(()));
    assert!(rt; p.count() == 16 && space.reserved() > 0);
    let first = PageNo(1);
    assert_eq!(rt; begin_lob(&mut p, &mut space, TrxId(5)), Ok(first));
    let bytes = [7; 15_680];
    for pieces in 0..12 {
        assert!(rt; p.count() == 16);
        let added = add_piece(&mut p, &mut space, first, TrxId(5), &bytes);
        assert_eq!(rt; added, Ok(()), "{pieces}");
    }
    for (heads, pages, nodes, page, at) in [
        (11, 3, 271, 12, 99),
        (10, 4, 272, 12, 39),
        (9, 5, 273, 1, 636),
        (8, 6, 274, 1, 576),
        (7, 7, 275, 1, 516),
        (6, 8, 276, 1, 456),
        (5, 9, 277, 1, 396),
        (4, 10, 278, 1, 336),
        (3, 11, 279, 1, 276),
        (2, 12, 280, 1, 216),
        (1, 13, 281, 1, 156),
        (0, 13, 0, NULL, 0),
        (0, 13, 0, NULL, 0),
    ] {
        assert!(rt; p.count() == 16);
        let left = free_last_piece(&mut p, &mut space, first);
        assert_eq!(rt; left, Ok(heads > 0), "{heads}");
        for (from, offset, width, value) in [
            (1, 64, 4, heads),
            (0, 62, 4, pages),
            (1, 80, 4, nodes),
            (1, 84, 4, page),
            (1, 88, 2, at),
        ] {
            assert!(rt; p.count() == 16);
            let there = read_field(&mut p, PageNo(from), offset, width);
            assert_eq!(rt; there, Ok(value), "{heads}: page {from}, {offset}");
        }
    }
    assert!(rt; p.count() == 16);
    assert_eq!(rt; free_index_page(&mut p, &mut space, first), Ok(false));
    assert!(rt; p.count() == 16);
    assert_eq!(rt; free_first(&mut p, &mut space, first), Ok(()));
    assert!(rt; p.count() == 16);
    assert_eq!(rt; read_field(&mut p, PageNo(0), 62, 4), Ok(15));
    Ok(())
}

#[test]
#[tactic(auto, using(crate::proofs::TestLemmas::ample))]
fn a_last_piece_that_may_not_stand_is_strange(rt: HostRuntime) -> Result<(), Fail> {
    let mut p = MemPages::new(rt.alloc(), 4)?;
    let mut space = Space::new();
    let page = PageNo(1);
    for (at, width, put, odd, value) in [
        (74, 4, 4, 74, 4),
        (74, 4, 1, 64, 0),
        (78, 2, 16_325, 78, 16_325),
        (78, 2, 96, 64, 0),
        (144, 4, 4, 144, 4),
    ] {
        assert!(rt; p.count() == 4);
        write_field(&mut p, page, at, width, put)
            .ok()
            .ok_or("field")?;
        let strange = Fault::Strange {
            page,
            at: odd,
            value,
        };
        assert!(rt; p.count() == 4);
        let left = free_last_piece(&mut p, &mut space, page);
        assert_eq!(rt; left, Err(strange), "{at}: {put}");
    }
    Ok(())
}
