use crate::{Space, SpaceError, make_system};
use engine_base::{Fault, PageNo, Pages, write_field};
use mem_disk::MemPages;
use std::test::Fail;

const SYSTEM: PageNo = PageNo(0);

#[test]
fn fifteen_of_sixteen_pages_are_taken_and_one_comes_back(rt: HostRuntime) -> Result<(), Fail> {
    let mut p = MemPages::new(rt.alloc(), 16)?;
    let mut space = Space::new();
    assert!(rt; p.count() == 16);
    make_system(&mut p).ok().ok_or("system")?;
    for (n, answer) in [
        (16, Err(SpaceError::Full { need: 16, free: 15 })),
        (15, Ok(())),
        (1, Err(SpaceError::Full { need: 1, free: 0 })),
        (0, Ok(())),
    ] {
        assert!(rt; p.count() == 16);
        assert_eq!(rt; space.reserve(&mut p, n), answer, "reserving {n}");
    }
    for page in 1..16 {
        assert!(rt; p.count() == 16 && space.reserved() > 0);
        assert_eq!(rt; space.take(&mut p), Ok(PageNo(page)));
    }
    assert!(rt; p.count() == 16);
    let none = SpaceError::Full { need: 1, free: 0 };
    assert_eq!(rt; space.reserve(&mut p, 1), Err(none));
    for page in [9, 7] {
        assert!(rt; p.count() == 16);
        assert_eq!(rt; space.give(&mut p, PageNo(page)), Ok(()));
    }
    assert!(rt; p.count() == 16);
    assert_eq!(rt; space.reserve(&mut p, 2), Ok(()));
    assert!(rt; p.count() == 16 && space.reserved() == 2);
    assert_eq!(rt; space.take(&mut p), Ok(PageNo(7)));
    assert!(rt; space.reserved() == 1);
    space.unreserve(1);
    assert_eq!(rt; space.reserved(), 0);
    Ok(())
}

#[test]
fn a_new_system_page_has_these_bytes(rt: HostRuntime) -> Result<(), Fail> {
    let mut p = MemPages::new(rt.alloc(), 16)?;
    assert!(rt; p.count() == 16);
    write_field(&mut p, SYSTEM, 5_000, 8, 1 << 40)
        .ok()
        .ok_or("old bytes")?;
    assert!(rt; p.count() == 16);
    make_system(&mut p).ok().ok_or("system")?;
    for (at, bytes) in [
        (0, [0, 0, 0, 0, 0, 0, 0, 0]),
        (8, [0xff; 8]),
        (16, [0, 0, 0, 0, 0, 0, 0, 0]),
        (24, [0, 1, 0, 0, 0, 0, 0, 0]),
        (38, [0, 0, 0, 0, 0, 0, 0, 1]),
        (58, [0, 0, 0, 0, 0, 0, 0, 15]),
        (66, [0, 0, 0, 0, 0xff, 0xff, 0xff, 0xff]),
        (74, [0, 0, 0xff, 0xff, 0xff, 0xff, 0, 0]),
        (104, [0xff, 0xff, 0, 0, 0xff, 0xff, 0xff, 0xff]),
        (112, [0, 0, 0, 0, 0, 0, 0, 0]),
        (128, [1, 0, 0, 0, 0, 0, 0, 0]),
        (5_000, [0, 0, 0, 0, 0, 0, 0, 0]),
    ] {
        let mut there = [0; 8];
        assert!(rt; p.count() == 16 && at <= 16_376);
        p.read(SYSTEM, at, &mut there).ok().ok_or("read")?;
        assert_eq!(rt; there, bytes, "at {at}");
    }
    Ok(())
}

#[test]
fn a_fault_names_the_count_or_the_byte_of_the_map(rt: HostRuntime) -> Result<(), Fail> {
    let mut p = MemPages::new(rt.alloc(), 16)?;
    let mut space = Space::new();
    assert!(rt; p.count() == 16);
    make_system(&mut p).ok().ok_or("system")?;
    assert!(rt; p.count() == 16);
    let free = Fault::Strange {
        page: SYSTEM,
        at: 128,
        value: 1,
    };
    assert_eq!(rt; space.give(&mut p, PageNo(3)), Err(free));
    assert!(rt; p.count() == 16);
    assert_eq!(rt; space.reserve(&mut p, 2), Ok(()));
    for (count, map) in [(17, 1), (0, 1), (15, 0xffff)] {
        assert!(rt; p.count() == 16);
        write_field(&mut p, SYSTEM, 62, 4, count)
            .ok()
            .ok_or("count")?;
        assert!(rt; p.count() == 16);
        write_field(&mut p, SYSTEM, 128, 2, map).ok().ok_or("map")?;
        assert!(rt; p.count() == 16 && space.reserved() > 0);
        let odd = Fault::Strange {
            page: SYSTEM,
            at: 62,
            value: count,
        };
        assert_eq!(rt; space.take(&mut p), Err(odd));
    }
    Ok(())
}
