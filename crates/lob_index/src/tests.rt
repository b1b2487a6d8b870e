ghost use Rattle.std.specs.Prelude.{◌+◌, ◌<◌, ◌≤◌};
ghost use Rattle.engine_base.specs.Addresses.{address_of};
ghost use Rattle.lob_pages.specs.Entries.{FitsPage};

use crate::{give_node, head, head_after, next_head, take_free, take_node};
use engine_base::{Addr, Fault, NULL_PAGE, PageNo, Pages, read_field, write_address, write_field};
use file_lists::make_base;
use mem_disk::MemPages;
use page_space::{Space, make_system};
use std::test::Fail;

const FIRST_PAGE: PageNo = PageNo(1);

// An entry of the tests: ten in the first page, the others in the index page 2.
fn entry(n: u16) -> Addr
    requires { n < 20 }
    ensures { FitsPage 4 (address_of result) }
{
    if n < 10 {
        Addr {
            page: FIRST_PAGE,
            at: 96 + 60 * n,
        }
    } else {
        Addr {
            page: PageNo(2),
            at: 39 + 60 * (n - 10),
        }
    }
}

#[test]
#[tactic(auto, using(crate::proofs::TestLemmas::ample))]
fn heads_are_found_by_their_position(rt: HostRuntime) -> Result<(), Fail> {
    let mut p = MemPages::new(rt.alloc(), 4)?;
    let page = FIRST_PAGE;
    assert!(rt; p.count() == 4);
    write_address(&mut p, page, 68, entry(0))
        .ok()
        .ok_or("first")?;
    for n in 0..11u16 {
        let node = entry(n);
        assert!(rt; p.count() == 4);
        write_address(&mut p, node.page, node.at + 6, entry(n + 1))
            .ok()
            .ok_or("next")?;
    }
    let last = entry(11);
    assert!(rt; p.count() == 4);
    write_address(&mut p, last.page, last.at + 6, Addr::NULL)
        .ok()
        .ok_or("last")?;
    for (k, found) in [
        (0, Some(entry(0))),
        (9, Some(entry(9))),
        (10, Some(entry(10))),
        (11, Some(entry(11))),
        (12, None),
        (4_294_967_295, None),
    ] {
        assert!(rt; p.count() == 4);
        assert_eq!(rt; head(&mut p, page, k), Ok(found), "{k}");
    }
    for (k, found) in [(0, Some(entry(1))), (9, Some(entry(10))), (11, None)] {
        let node = entry(k);
        assert!(rt; p.count() == 4);
        assert_eq!(rt; next_head(&mut p, node, u32::from(k)), Ok(found), "{k}");
    }
    for (k, n, found) in [
        (0, 0, Some(entry(0))),
        (3, 8, Some(entry(11))),
        (9, 1, Some(entry(10))),
        (9, 3, None),
    ] {
        let node = entry(k);
        assert!(rt; p.count() == 4);
        assert_eq!(rt;
            head_after(&mut p, node, u32::from(k), n),
            Ok(found),
            "{k} {n}"
        );
    }
    assert!(rt; p.count() == 4);
    write_address(&mut p, page, 102, entry(10))
        .ok()
        .ok_or("turn")?;
    let odd = Fault::Strange {
        page,
        at: 102,
        value: 2,
    };
    for (k, answer) in [(0, Ok(Some(entry(0)))), (1, Err(odd))] {
        assert!(rt; p.count() == 4);
        assert_eq!(rt; head(&mut p, page, k), answer, "{k}");
    }
    Ok(())
}

#[test]
#[tactic(auto, using(crate::proofs::TestLemmas::ample))]
fn a_node_is_given_back_and_taken(rt: HostRuntime) -> Result<(), Fail> {
    let mut p = MemPages::new(rt.alloc(), 4)?;
    let free = Addr {
        page: FIRST_PAGE,
        at: 80,
    };
    assert!(rt; p.count() == 4);
    assert_eq!(rt; make_base(&mut p, free), Ok(()));
    assert!(rt; p.count() == 4);
    assert_eq!(rt; take_free(&mut p, FIRST_PAGE), Ok(None));
    for n in [3, 11] {
        assert!(rt; p.count() == 4);
        assert_eq!(rt; give_node(&mut p, FIRST_PAGE, entry(n)), Ok(()));
    }
    for node in [Some(entry(11)), Some(entry(3)), None] {
        assert!(rt; p.count() == 4);
        assert_eq!(rt; take_free(&mut p, FIRST_PAGE), Ok(node));
    }
    Ok(())
}

#[test]
#[tactic(auto, using(crate::proofs::TestLemmas::ample))]
fn a_page_is_taken_where_no_node_is_free(rt: HostRuntime) -> Result<(), Fail> {
    let mut p = MemPages::new(rt.alloc(), 4)?;
    let mut space = Space::new();
    assert!(rt; p.count() == 4);
    make_system(&mut p).ok().ok_or("system")?;
    assert!(rt; p.count() == 4);
    assert_eq!(rt; space.reserve(&mut p, 2), Ok(()));
    assert!(rt; p.count() == 4 && space.reserved() > 0);
    assert_eq!(rt; space.take(&mut p), Ok(FIRST_PAGE));
    assert!(rt; p.count() == 4);
    write_field(&mut p, FIRST_PAGE, 12, 4, u64::from(NULL_PAGE))
        .ok()
        .ok_or("chain")?;
    let free = Addr {
        page: FIRST_PAGE,
        at: 80,
    };
    assert!(rt; p.count() == 4);
    assert_eq!(rt; make_base(&mut p, free), Ok(()));
    for at in [39, 99, 159] {
        let node = Addr {
            page: PageNo(2),
            at,
        };
        assert!(rt; p.count() == 4);
        assert_eq!(rt; take_node(&mut p, &mut space, FIRST_PAGE), Ok(node), "{at}");
    }
    assert_eq!(rt; space.reserved(), 0);
    for (page, at, width, value) in [
        (1, 12, 4, 2),
        (1, 80, 4, 269),
        (1, 88, 2, 219),
        (1, 94, 2, 16_299),
        (2, 4, 4, 2),
        (2, 12, 4, u64::from(NULL_PAGE)),
        (2, 24, 2, 6),
        (2, 16_303, 2, 16_239),
        (2, 16_305, 4, u64::from(NULL_PAGE)),
    ] {
        assert!(rt; p.count() == 4);
        let there = read_field(&mut p, PageNo(page), at, width);
        assert_eq!(rt; there, Ok(value), "page {page}, {at}");
    }
    Ok(())
}

#[test]
#[tactic(auto, using(crate::proofs::TestLemmas::ample))]
fn no_node_is_taken_where_no_page_is_reserved(rt: HostRuntime) -> Result<(), Fail> {
    let mut p = MemPages::new(rt.alloc(), 4)?;
    let mut space = Space::new();
    let free = Addr {
        page: FIRST_PAGE,
        at: 80,
    };
    assert!(rt; p.count() == 4);
    assert_eq!(rt; make_base(&mut p, free), Ok(()));
    let none = Fault::Strange {
        page: FIRST_PAGE,
        at: 84,
        value: u64::from(NULL_PAGE),
    };
    assert!(rt; p.count() == 4);
    assert_eq!(rt; take_node(&mut p, &mut space, FIRST_PAGE), Err(none));
    Ok(())
}
