use crate::{Asked, Locks};
use engine_base::{DocId, SessionNo};
use std::test::Fail;

const NO_CIRCLE: &[u8] = &[];

const ONE_AND_TWO: &[u8] = &[1, 2];

const ONE_TO_THREE: &[u8] = &[1, 2, 3];

fn circle(asked: &Asked) -> &[u8] {
    match asked {
        Asked::Circle(sessions) => sessions.as_slice(),
        Asked::Granted | Asked::Held(_) => NO_CIRCLE,
    }
}

fn held_by(asked: &Asked) -> Option<u8> {
    match asked {
        Asked::Held(h) => Some(h.0),
        Asked::Granted | Asked::Circle(_) => None,
    }
}

#[test]
fn a_session_waits_for_the_holder_and_a_circle_is_told_from_the_holder_to_the_asker(
    rt: HostRuntime,
) -> Result<(), Fail> {
    let mut locks = Locks::new(rt.alloc(), 8)?;
    // Session, document, whom it waits for, the circle.
    for (row, (s, d, held, sessions)) in [
        (1, 1, None, NO_CIRCLE),
        (2, 2, None, NO_CIRCLE),
        (2, 2, None, NO_CIRCLE),
        (3, 3, None, NO_CIRCLE),
        (1, 2, Some(2), NO_CIRCLE),
        (4, 2, Some(2), NO_CIRCLE),
        (2, 1, None, ONE_AND_TWO),
        (2, 3, Some(3), NO_CIRCLE),
        (3, 1, None, ONE_TO_THREE),
        (5, 4, None, NO_CIRCLE),
        (5, 1, Some(1), NO_CIRCLE),
    ]
    .into_iter()
    .enumerate()
    {
        assert!(rt; !locks.is_full() && 1 <= s && s <= 64);
        let asked = locks.ask(SessionNo(s), DocId(d));
        assert_eq!(rt; held_by(&asked), held, "row {row}");
        assert_eq!(rt; circle(&asked), sessions, "row {row}");
    }
    assert_eq!(rt; locks.len(), 4);
    Ok(())
}

#[test]
fn what_a_session_gives_back_another_gets(rt: HostRuntime) -> Result<(), Fail> {
    let mut locks = Locks::new(rt.alloc(), 2)?;
    // As many documents as there is room for, again and again.
    for row in 0..5u32 {
        for d in 0..2u32 {
            assert!(rt; !locks.is_full());
            let asked = locks.ask(SessionNo(1), DocId(2 * row + d));
            assert!(rt; matches!(&asked, Asked::Granted), "row {row}, document {d}");
        }
        assert!(rt; locks.is_full());
        locks.release_all(SessionNo(2));
        assert_eq!(rt; locks.len(), 2);
        locks.release_all(SessionNo(1));
        assert_eq!(rt; locks.len(), 0);
    }
    Ok(())
}

#[test]
fn a_circle_may_have_all_sessions(rt: HostRuntime) -> Result<(), Fail> {
    let mut locks = Locks::new(rt.alloc(), 65)?;
    for s in 1..65u8 {
        assert!(rt; !locks.is_full());
        let asked = locks.ask(SessionNo(s), DocId(u32::from(s)));
        assert!(rt; matches!(&asked, Asked::Granted), "session {s}");
    }
    for s in 1..64u8 {
        assert!(rt; !locks.is_full());
        let asked = locks.ask(SessionNo(s), DocId(u32::from(s) + 1));
        assert_eq!(rt; held_by(&asked), Some(s + 1), "session {s}");
    }
    assert!(rt; !locks.is_full());
    let asked = locks.ask(SessionNo(64), DocId(1));
    for (i, s) in circle(&asked).iter().enumerate() {
        assert_eq!(rt; usize::from(*s), i + 1);
    }
    assert_eq!(rt; circle(&asked).len(), 64);
    Ok(())
}
