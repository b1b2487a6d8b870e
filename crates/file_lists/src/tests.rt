ghost use Rattle.std.specs.Prelude.{◌≡◌};
ghost use Rattle.page_model.specs.Lists.{IsNodePlace};
ghost use Rattle.mem_disk.specs.MemPages.{page_state};
ghost use Rattle.engine_base.specs.Addresses.{address_of};

use crate::{add_first, add_last, first, last, len, next, remove, remove_first, remove_last};
use engine_base::{Addr, Fault, PageNo, Pages, write_field};
use mem_disk::MemPages;
use std::test::Fail;

const BASE: Addr = Addr {
    page: PageNo(0),
    at: 66,
};

#[derive(Clone, Copy, Debug)]
enum Call {
    AddFirst,
    AddLast,
    Remove,
    RemoveFirst,
    RemoveLast,
}

// A node of the tests: 1 and 2 lie side by side, and 3 at the end of its page.
fn node(n: u8) -> Addr
    ensures { IsNodePlace 4 (address_of result) }
{
    let (page, at) = match n {
        1 => (1, 38),
        2 => (1, 50),
        _ => (3, 16_372),
    };
    Addr {
        page: PageNo(page),
        at,
    }
}

#[tactic(auto, using(crate::proofs::TestLemmas::ample))]
fn made(p: &mut MemPages, call: Call, n: u8) -> Result<(), Fault>
    requires { (page_state p.old).count ≡ 4 }
{
    match call {
        Call::AddFirst => add_first(p, BASE, node(n)),
        Call::AddLast => add_last(p, BASE, node(n)),
        Call::Remove => remove(p, BASE, node(n)),
        Call::RemoveFirst => remove_first(p, BASE, node(n)),
        Call::RemoveLast => remove_last(p, BASE, node(n)),
    }
}

#[tactic(auto, using(crate::proofs::TestLemmas::ample))]
fn behind(p: &mut MemPages, n: u8) -> Result<Option<Addr>, Fault>
    requires { (page_state p.old).count ≡ 4 }
{
    next(p, node(n))
}

const NULL: [u8; 6] = [0xff, 0xff, 0xff, 0xff, 0, 0];

#[test]
fn a_list_has_these_bytes_after_each_change(rt: HostRuntime) -> Result<(), Fail> {
    let mut p = MemPages::new(rt.alloc(), 4)?;
    let (one, two, three) = (
        [0, 0, 0, 1, 0, 38],
        [0, 0, 0, 1, 0, 50],
        [0, 0, 0, 3, 0x3f, 0xf4],
    );
    assert!(rt; p.count() == 4);
    p.write(BASE.page, 70, &NULL).ok().ok_or("first")?;
    assert!(rt; p.count() == 4);
    p.write(BASE.page, 76, &NULL).ok().ok_or("last")?;
    for (row, (call, n, count, ends)) in [
        (Call::AddFirst, 1, 1, [one, one]),
        (Call::AddLast, 2, 2, [one, two]),
        (Call::AddFirst, 3, 3, [three, two]),
        (Call::Remove, 1, 2, [three, two]),
        (Call::Remove, 2, 1, [three, three]),
        (Call::Remove, 3, 0, [NULL, NULL]),
        (Call::AddLast, 2, 1, [two, two]),
        (Call::AddLast, 1, 2, [two, one]),
        (Call::Remove, 1, 1, [two, two]),
        (Call::AddFirst, 3, 2, [three, two]),
        (Call::AddLast, 1, 3, [three, one]),
        (Call::RemoveFirst, 3, 2, [two, one]),
        (Call::RemoveLast, 1, 1, [two, two]),
        (Call::RemoveLast, 2, 0, [NULL, NULL]),
        (Call::AddFirst, 3, 1, [three, three]),
        (Call::RemoveFirst, 3, 0, [NULL, NULL]),
    ]
    .into_iter()
    .enumerate()
    {
        assert!(rt; p.count() == 4);
        assert_eq!(rt; made(&mut p, call, n), Ok(()), "row {row}");
        let mut bytes = [0; 16];
        assert!(rt; p.count() == 4);
        p.read(BASE.page, 66, &mut bytes).ok().ok_or("read")?;
        assert_eq!(rt; &bytes[..4], [0, 0, 0, count].as_slice(), "row {row}");
        assert_eq!(rt; &bytes[4..10], ends[0].as_slice(), "row {row}");
        assert_eq!(rt; &bytes[10..], ends[1].as_slice(), "row {row}");
    }
    Ok(())
}

#[test]
#[tactic(auto, using(crate::proofs::TestLemmas::ample))]
fn the_ends_and_the_next_are_none_where_there_is_none(rt: HostRuntime) -> Result<(), Fail> {
    let mut p = MemPages::new(rt.alloc(), 4)?;
    assert!(rt; p.count() == 4);
    p.write(BASE.page, 70, &NULL).ok().ok_or("first")?;
    assert!(rt; p.count() == 4);
    p.write(BASE.page, 76, &NULL).ok().ok_or("last")?;
    assert!(rt; p.count() == 4);
    assert_eq!(rt; first(&mut p, BASE), Ok(None));
    assert!(rt; p.count() == 4);
    assert_eq!(rt; last(&mut p, BASE), Ok(None));
    for n in [2, 3] {
        assert!(rt; p.count() == 4);
        assert_eq!(rt; made(&mut p, Call::AddLast, n), Ok(()));
    }
    assert!(rt; p.count() == 4);
    assert_eq!(rt; first(&mut p, BASE), Ok(Some(node(2))));
    assert!(rt; p.count() == 4);
    assert_eq!(rt; last(&mut p, BASE), Ok(Some(node(3))));
    assert!(rt; p.count() == 4);
    assert_eq!(rt; len(&mut p, BASE), Ok(2));
    for (n, answer) in [(2, Ok(Some(node(3)))), (3, Ok(None))] {
        assert!(rt; p.count() == 4);
        assert_eq!(rt; behind(&mut p, n), answer, "behind {n}");
    }
    Ok(())
}

#[test]
#[tactic(auto, using(crate::proofs::TestLemmas::ample))]
fn a_fault_names_the_field_that_is_odd(rt: HostRuntime) -> Result<(), Fail> {
    for (bytes, at, value) in [
        ([0, 0, 0, 99, 0, 0], 70, 99),
        ([0, 0, 0, 16, 0, 0], 70, 16),
        ([0, 0, 0, 15, 0x3f, 0xf5], 74, 0x3ff5),
        ([0xff, 0xff, 0xff, 0xff, 0, 1], 74, 1),
    ] {
        let mut p = MemPages::new(rt.alloc(), 16)?;
        assert!(rt; p.count() == 16);
        write_field(&mut p, BASE.page, 66, 4, 1)
            .ok()
            .ok_or("length")?;
        assert!(rt; p.count() == 16);
        p.write(BASE.page, 70, &bytes).ok().ok_or("first")?;
        assert!(rt; p.count() == 16);
        let page = BASE.page;
        assert_eq!(rt;
            first(&mut p, BASE),
            Err(Fault::Strange { page, at, value }),
            "at {at}"
        );
    }
    Ok(())
}
