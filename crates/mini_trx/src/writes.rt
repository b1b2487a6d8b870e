ghost use Rattle.std.specs.Prelude.{◌≡◌, ◌^◌, All};
ghost use Rattle.page_model.specs.Frames.{writes_bytes, writes_from, writes_in, IsInside};
ghost use Rattle.mini_trx.specs.Groups.{KeepsFrame};

use crate::PageWrite;
use crate::frame::{HEADER, count_of, first_write};

/// The writes of a group in the order of writing, each where the group's frame has it. It copies
/// nothing.
#[derive(Clone, Copy, Debug)]
pub struct Writes<'a> {
    rest: &'a [u8],
    left: u16,
    ghost whole: { rest.now ≡ writes_bytes (writes_from left rest.now) },
    ghost inside: { All (IsInside (2 ^ 32)) (writes_from left rest.now) },
}

impl<'a> Writes<'a> {
    ghost use Rattle.mini_trx.specs.WritesLeft.{writes_left};

    pub(crate) fn of_frame(frame: &'a [u8]) -> Writes<'a>
        requires { KeepsFrame frame.now }
        ensures { writes_left result ≡ writes_in frame.now }
    {
        Writes {
            rest: &frame[HEADER..],
            left: count_of(frame),
        }
    }
}

impl<'a> Iterator for Writes<'a> {
    ghost use Rattle.std.specs.Iterator.{item_count, YieldsFirstBy};
    ghost use Rattle.mini_trx.specs.PageWrites.{write_of};
    ghost use Rattle.mini_trx.specs.WritesLeft.{writes_left};

    type Item = PageWrite<'a>;

    ghost next_gives = { YieldsFirstBy write_of writes_left };

    ghost remaining = { item_count writes_left };

    fn next(&mut self) -> Option<PageWrite<'a>> {
        if self.left == 0 {
            return None;
        }
        let (write, after) = first_write(self.rest);
        self.rest = after;
        self.left -= 1;
        Some(write)
    }
}
