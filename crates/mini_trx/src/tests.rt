ghost use Rattle.std.specs.Prelude.{◌≡◌, ◌<◌, ◌≤◌, [], ◌∷◌, length, All};
ghost use Rattle.page_model.specs.Steps.{MayUse, Uses};
ghost use Rattle.page_model.specs.Frames.{max_group};
ghost use Rattle.mini_trx.specs.Residents.{resident_pages, cache_state, IsIdle};

use crate::{Group, Resident};
use engine_base::{Fault, PageNo, Pages, read_field, write_field};
use std::process::Abort;
use std::test::Fail;

// A frame of two writes, byte by byte as docs/FORMATS.md has it.
const FRAME: [u8; 28] = [
    0, 0, 0, 28, 0, 2, // 28 bytes, two writes
    0, 0, 0, 1, 0, 62, 0, 4, 0, 0, 0, 7, // page 1 from byte 62 on, four bytes
    0, 0, 0, 3, 0, 100, 0, 2, 0x61, 0x62, // page 3 from byte 100 on, two bytes
];

// The two writes of that frame.
fn two_writes<P: Pages>(p: &mut P) -> Result<(), Fault>
    requires pages { 3 < (P.state p.old).count }
    requires may { MayUse (1 ∷ 3 ∷ []) 0 22 (P.state p.old) }
    ensures { Uses P.state P.stays (1 ∷ 3 ∷ []) 0 22 p.old p.new }
{
    write_field(p, PageNo(1), 62, 4, 7)?;
    p.write(PageNo(3), 100, b"ab")?;
    Ok(())
}

// A group of the two writes, which isn't put yet: the cache's own pages are as they were.
fn committed(rt: &impl Abort, cache: &mut Resident) -> Group
    requires idle { IsIdle cache.old }
    requires pages { length (resident_pages cache.old) ≡ 4 }
    ensures pages { resident_pages cache.new ≡ resident_pages cache.old }
    ensures none_lent { (cache_state cache.new).lent ≡ 0 }
    ensures below { All (λ w. w.page < 4) result.writes }
    ensures capacity { max_group ≤ result.capacity }
{
    let mut mtr = cache.begin();
    let wrote = two_writes(&mut mtr).is_ok();
    assert!(rt; wrote);
    mtr.commit()
}

#[test]
fn a_group_takes_effect_when_it_is_put(rt: HostRuntime) -> Result<(), Fail> {
    let mut cache = Resident::new(rt.alloc(), 4)?;
    let group = committed(&rt, &mut cache);
    assert_eq!(rt; group.frame(), FRAME.as_slice());
    assert_eq!(rt; (group.len(), group.count()), (28, 2));
    cache.put(group);
    let mut mtr = cache.begin();
    let number = read_field(&mut mtr, PageNo(1), 62, 4).ok();
    let seen = (mtr.count(), mtr.pins(), mtr.room());
    mtr.abandon();
    assert_eq!(rt; number, Some(7));
    assert_eq!(rt; seen, (4, 1, 262_138));
    Ok(())
}

#[test]
fn a_frame_reads_back(rt: HostRuntime) -> Result<(), Fail> {
    let Ok(group) = Group::from_frame(FRAME.to_vec(rt.alloc())?, 4) else {
        return Err("it is a frame".into());
    };
    assert_eq!(rt; group.count(), 2);
    assert_eq!(rt; group.writes().count(), 2);
    let second = group.get(1);
    assert_eq!(rt; (second.page, second.at), (PageNo(3), 100));
    assert_eq!(rt; second.bytes, b"ab".as_slice());
    assert_eq!(rt; group.into_buffer().as_slice(), FRAME.as_slice());
    Ok(())
}

#[test]
fn a_damaged_frame_is_handed_back(rt: HostRuntime) -> Result<(), Fail> {
    // Byte, its new value, and what is then wrong.
    let cases = [
        (3, 29, "a length of one more"),
        (5, 1, "a count of one less"),
        (5, 3, "a count of one more"),
        (9, 4, "a page past the last"),
        (10, 64, "bytes past the end of the page"),
        (25, 3, "a write past the frame's end"),
    ];
    for (at, value, what) in cases {
        let mut bytes = FRAME.to_vec(rt.alloc())?;
        assert_eq!(rt; bytes.len(), 28);
        assert!(rt; at < 28);
        bytes[at] = value;
        assert!(rt; Group::from_frame(bytes, 4).is_err(), "{what}");
    }
    Ok(())
}

#[test]
fn a_later_write_stands_over_an_earlier_one(rt: HostRuntime) -> Result<(), Fail> {
    let mut buffer = Vec::with_capacity(rt.alloc(), 262_144)?;
    buffer.extend_from_slice(&[
        0, 0, 0, 27, 0, 2, // 27 bytes, two writes
        0, 0, 0, 1, 0, 62, 0, 4, 0, 0, 0, 7, // page 1 from byte 62 on
        0, 0, 0, 1, 0, 65, 0, 1, 9, // its last byte again
    ])?;
    let mut cache = Resident::new(rt.alloc(), 4)?;
    let Ok(group) = Group::from_frame(buffer, 4) else {
        return Err("it is a frame".into());
    };
    cache.put(group);
    let mut mtr = cache.begin();
    let number = read_field(&mut mtr, PageNo(1), 62, 4).ok();
    mtr.abandon();
    assert_eq!(rt; number, Some(9));
    Ok(())
}
