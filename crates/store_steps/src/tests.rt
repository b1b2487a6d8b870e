// What is told without pages, by tables.
use crate::{leads, touched_behind};
use engine_base::{Addr, PageNo};
use std::test::Fail;
use undo_records::{Bits, RollPtr, Touched};

#[test]
#[tactic(auto)]
fn touched_pieces_come_one_after_another(rt: HostRuntime) -> Result<(), Fail> {
    let touched = Touched {
        pieces: 11,
        bits: Bits::from_slice(&[0b1000_0001, 0b0000_0100]),
    };
    for (last, next) in [
        (None, Some(0)),
        (Some(0), Some(7)),
        (Some(3), Some(7)),
        (Some(7), Some(10)),
        (Some(10), None),
    ] {
        assert_eq!(rt; touched_behind(&touched, last), next, "{last:?}");
    }
    Ok(())
}

#[test]
#[tactic(auto)]
fn a_pointer_leads_to_one_place(rt: HostRuntime) -> Result<(), Fail> {
    // the highest bit says that the record is an insert's
    let update = RollPtr(5 * 65_536 + 107);
    let insert = RollPtr((1 << 55) + 5 * 65_536 + 107);
    for (roll, page, at, is) in [
        (update, 5, 107, true),
        (insert, 5, 107, true),
        (update, 5, 108, false),
        (update, 6, 107, false),
        (RollPtr(0), 0, 0, false),
    ] {
        let place = Addr {
            page: PageNo(page),
            at,
        };
        assert_eq!(rt; leads(roll, place), is, "{page} {at}");
    }
    Ok(())
}
