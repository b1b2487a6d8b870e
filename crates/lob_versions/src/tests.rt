ghost use Rattle.std.specs.Prelude.{◌≡◌, ◌+◌, ◌<◌, ◌≤◌};
ghost use Rattle.mem_disk.specs.MemPages.{page_state};
ghost use Rattle.engine_base.specs.Addresses.{address_of};
ghost use Rattle.lob_pages.specs.Entries.{FitsPage};

use crate::{Found, count, drop_oldest, find_version, pop_version, push_version};
use engine_base::{Addr, Fault, PageNo, Pages, write_field};
use file_lists::{add_last, make_base};
use lob_index::{give_node, take_free};
use lob_pages::{Base, Entry, LobVersion, TrxId, UndoNo, read_entry, write_entry};
use mem_disk::MemPages;
use page_space::{Space, make_system};
use std::test::Fail;

const FIRST_PAGE: PageNo = PageNo(1);

const HEAD: Addr = Addr {
    page: FIRST_PAGE,
    at: 96,
};

const FREE_BASE: Addr = Addr {
    page: FIRST_PAGE,
    at: 80,
};

// An entry of the first page, the head or one of its nodes.
fn entry(n: u16) -> Addr
    requires { n < 10 }
    ensures { FitsPage 16 (address_of result) }
{
    Addr {
        page: FIRST_PAGE,
        at: 96 + 60 * n,
    }
}

// Puts a version into an entry, whose data stand in the page.
#[tactic(auto, using(crate::proofs::TestLemmas::ample))]
fn put(p: &mut MemPages, n: u16, version: u32, page: u32) -> Result<(), Fault>
    requires few { n < 10 }
    requires count { (page_state p.old).count ≡ 16 }
{
    let fields = Entry {
        previous: Addr::NULL,
        next: Addr::NULL,
        versions: Base {
            length: 0,
            first: Addr::NULL,
            last: Addr::NULL,
        },
        creator: TrxId(7),
        modifier: TrxId(7),
        creator_undo: UndoNo(0),
        modifier_undo: UndoNo(0),
        page: PageNo(page),
        length: 3,
        version: LobVersion(version),
    };
    write_entry(p, entry(n), &fields)
}

// Puts a node behind the others of the head's version list.
#[tactic(auto, using(crate::proofs::TestLemmas::ample))]
fn listed(p: &mut MemPages, n: u16) -> Result<(), Fault>
    requires few { n < 10 }
    requires count { (page_state p.old).count ≡ 16 }
{
    let base = Addr {
        page: FIRST_PAGE,
        at: 108,
    };
    add_last(p, base, entry(n))
}

#[test]
#[tactic(auto, using(crate::proofs::TestLemmas::ample))]
fn three_versions_are_found_at_five_numbers(rt: HostRuntime) -> Result<(), Fail> {
    let mut p = MemPages::new(rt.alloc(), 16)?;
    for n in 0..3u16 {
        assert!(rt; p.count() == 16);
        assert_eq!(rt; put(&mut p, n, 9 - 3 * u32::from(n), 2), Ok(()));
    }
    assert!(rt; p.count() == 16);
    assert_eq!(rt; count(&mut p, HEAD), Ok(1));
    for n in 1..3u16 {
        assert!(rt; p.count() == 16);
        assert_eq!(rt; listed(&mut p, n), Ok(()));
    }
    assert!(rt; p.count() == 16);
    assert_eq!(rt; count(&mut p, HEAD), Ok(3));
    for (v, found) in [
        (10, Found::At(entry(0))),
        (9, Found::At(entry(0))),
        (8, Found::At(entry(1))),
        (3, Found::At(entry(2))),
        (2, Found::Gone),
    ] {
        assert!(rt; p.count() == 16);
        let answer = find_version(&mut p, HEAD, HEAD, LobVersion(v));
        assert_eq!(rt; answer, Ok(found), "version {v}");
    }
    Ok(())
}

#[test]
#[tactic(auto, using(crate::proofs::TestLemmas::ample))]
fn more_is_told_behind_eight(rt: HostRuntime) -> Result<(), Fail> {
    let mut p = MemPages::new(rt.alloc(), 16)?;
    for n in 0..10u16 {
        assert!(rt; p.count() == 16);
        assert_eq!(rt; put(&mut p, n, 20 - 2 * u32::from(n), 2), Ok(()));
    }
    for n in 1..8u16 {
        assert!(rt; p.count() == 16);
        assert_eq!(rt; listed(&mut p, n), Ok(()));
    }
    assert!(rt; p.count() == 16);
    let answer = find_version(&mut p, HEAD, HEAD, LobVersion(5));
    assert_eq!(rt; answer, Ok(Found::Gone), "eight");
    for n in 8..10u16 {
        assert!(rt; p.count() == 16);
        assert_eq!(rt; listed(&mut p, n), Ok(()));
    }
    for (from, v, found) in [
        (entry(0), 6, Found::At(entry(7))),
        (entry(0), 5, Found::More(entry(8))),
        (entry(8), 5, Found::At(entry(8))),
        (entry(8), 3, Found::At(entry(9))),
        (entry(8), 1, Found::Gone),
    ] {
        assert!(rt; p.count() == 16);
        let answer = find_version(&mut p, HEAD, from, LobVersion(v));
        assert_eq!(rt; answer, Ok(found), "version {v}");
    }
    Ok(())
}

#[test]
#[tactic(auto, using(crate::proofs::TestLemmas::ample))]
fn a_version_is_pushed(rt: HostRuntime) -> Result<(), Fail> {
    let mut p = MemPages::new(rt.alloc(), 16)?;
    let mut space = Space::new();
    assert!(rt; p.count() == 16);
    make_system(&mut p).ok().ok_or("system")?;
    assert!(rt; p.count() == 16);
    space.reserve(&mut p, 4).ok().ok_or("reserve")?;
    for _n in 0..2 {
        assert!(rt; p.count() == 16 && space.reserved() > 0);
        space.take(&mut p).ok().ok_or("take")?;
    }
    assert!(rt; p.count() == 16);
    assert_eq!(rt; put(&mut p, 0, 9, 2), Ok(()));
    assert!(rt; p.count() == 16);
    assert_eq!(rt; make_base(&mut p, FREE_BASE), Ok(()));
    assert!(rt; p.count() == 16);
    assert_eq!(rt; give_node(&mut p, FIRST_PAGE, entry(4)), Ok(()));
    let data = [5, 6, 7];
    assert!(rt; p.count() == 16);
    let answer = push_version(
        &mut p,
        &mut space,
        FIRST_PAGE,
        HEAD,
        LobVersion(12),
        TrxId(8),
        data.as_slice(),
    );
    assert_eq!(rt; answer, Ok(()));
    assert_eq!(rt; space.reserved(), 1);
    let page = PageNo(3);
    for (v, found) in [(12, Found::At(HEAD)), (11, Found::At(entry(4)))] {
        assert!(rt; p.count() == 16);
        let answer = find_version(&mut p, HEAD, HEAD, LobVersion(v));
        assert_eq!(rt; answer, Ok(found), "version {v}");
    }
    for (n, by, stored) in [(0, 8, page), (4, 7, PageNo(2))] {
        assert!(rt; p.count() == 16);
        let fields = read_entry(&mut p, entry(n)).ok().ok_or("entry")?;
        assert_eq!(rt; fields.creator, TrxId(by));
        assert_eq!(rt; fields.page, stored);
        assert_eq!(rt; fields.length, 3);
    }
    let mut bytes = [0; 13];
    assert!(rt; p.count() == 16);
    p.read(page, 39, &mut bytes).ok().ok_or("data")?;
    assert_eq!(rt; bytes, [0, 0, 0, 3, 0, 0, 0, 0, 0, 8, 5, 6, 7]);
    Ok(())
}

#[test]
#[tactic(auto, using(crate::proofs::TestLemmas::ample))]
fn a_version_is_popped_and_two_are_dropped(rt: HostRuntime) -> Result<(), Fail> {
    let mut p = MemPages::new(rt.alloc(), 16)?;
    let mut space = Space::new();
    assert!(rt; p.count() == 16);
    make_system(&mut p).ok().ok_or("system")?;
    assert!(rt; p.count() == 16);
    space.reserve(&mut p, 4).ok().ok_or("reserve")?;
    for _n in 0..4 {
        assert!(rt; p.count() == 16 && space.reserved() > 0);
        space.take(&mut p).ok().ok_or("take")?;
    }
    // Versions 9, 6, 3 and 1, whose data stand in the pages 4, 3, 2 and in the first one.
    for n in 0..4u16 {
        assert!(rt; p.count() == 16);
        assert_eq!(rt;
            put(&mut p, n, [9, 6, 3, 1][usize::from(n)], 4 - u32::from(n)),
            Ok(())
        );
    }
    for n in 1..4u16 {
        assert!(rt; p.count() == 16);
        assert_eq!(rt; listed(&mut p, n), Ok(()));
    }
    assert!(rt; p.count() == 16);
    assert_eq!(rt; make_base(&mut p, FREE_BASE), Ok(()));
    assert!(rt; p.count() == 16);
    assert_eq!(rt;
        pop_version(&mut p, &mut space, FIRST_PAGE, HEAD),
        Ok(entry(1))
    );
    for (v, dropped, left) in [
        (0, false, 3),
        (1, true, 2),
        (2, false, 2),
        (3, true, 1),
        (9, false, 1),
    ] {
        assert!(rt; p.count() == 16);
        let answer = drop_oldest(&mut p, &mut space, FIRST_PAGE, HEAD, LobVersion(v));
        assert_eq!(rt; answer, Ok(dropped), "version {v}");
        assert!(rt; p.count() == 16);
        assert_eq!(rt; count(&mut p, HEAD), Ok(left), "version {v}");
    }
    for node in [Some(entry(2)), Some(entry(3)), Some(entry(1)), None] {
        assert!(rt; p.count() == 16);
        assert_eq!(rt; take_free(&mut p, FIRST_PAGE), Ok(node));
    }
    // The pages 4 and 2 are free again, 3 is the head's, and the first page stays.
    assert!(rt; p.count() == 16);
    space.reserve(&mut p, 3).ok().ok_or("reserve")?;
    for page in [2, 4, 5] {
        assert!(rt; p.count() == 16 && space.reserved() > 0);
        assert_eq!(rt; space.take(&mut p), Ok(PageNo(page)));
    }
    Ok(())
}

#[test]
#[tactic(auto, using(crate::proofs::TestLemmas::ample))]
fn a_fault_names_what_is_odd(rt: HostRuntime) -> Result<(), Fail> {
    let mut p = MemPages::new(rt.alloc(), 16)?;
    let mut space = Space::new();
    assert!(rt; p.count() == 16);
    assert_eq!(rt; put(&mut p, 0, 9, 2), Ok(()));
    assert!(rt; p.count() == 16);
    let none = Fault::Strange {
        page: FIRST_PAGE,
        at: 112,
        value: 0xffff_ffff,
    };
    assert_eq!(rt;
        pop_version(&mut p, &mut space, FIRST_PAGE, HEAD),
        Err(none)
    );
    assert!(rt; p.count() == 16);
    assert_eq!(rt; listed(&mut p, 1), Ok(()));
    assert!(rt; p.count() == 16);
    assert_eq!(rt; write_field(&mut p, FIRST_PAGE, 156 + 48, 4, 16), Ok(()));
    assert!(rt; p.count() == 16);
    let odd = Fault::Strange {
        page: FIRST_PAGE,
        at: 156 + 48,
        value: 16,
    };
    let answer = drop_oldest(&mut p, &mut space, FIRST_PAGE, HEAD, LobVersion(9));
    assert_eq!(rt; answer, Err(odd));
    Ok(())
}
