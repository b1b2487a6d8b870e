//! Old bytes put back.
ghost use Rattle.std.specs.Prelude.{◌≡◌, ◌+◌, ◌-◌, ◌≤◌, ◌<◌, length, map};
ghost use Rattle.undo_model.specs.Old.{put_byte, put_from, put_runs, put_old};
ghost use Rattle.undo_records.specs.Views.{run_of};
ghost use Rattle.undo_records.specs.Records.{body_of};

use crate::{Body, Run, UndoRecord};
use engine_base::PageNo;

/// Puts the old bytes of that page's runs back into a copy of a part of the page, which begins at
/// byte `base` of the page. Old bytes that lie outside the part are passed over, and so is a record
/// without runs.
pub fn apply_old(buf: &mut [u8], page: PageNo, base: u16, rec: &UndoRecord)
    ensures { buf.new ≡ put_old page.0 base (body_of rec.now.body) buf.old }
{
    if let Body::Patched(runs) = &rec.body {
        put_runs(buf, page, usize::from(base), runs.as_slice());
    }
}

// The old bytes of that page's runs.
fn put_runs(buf: &mut [u8], page: PageNo, base: usize, runs: &[Run])
    requires small { base < 65536 }
    ensures { buf.new ≡ put_runs page.0 base (map run_of runs.now) buf.old }
{
    for run in runs {
        if run.page == page {
            put_bytes(buf, base, usize::from(run.at), run.old.as_slice());
        }
    }
}

// The bytes from place `at` of the page on.
fn put_bytes(buf: &mut [u8], base: usize, at: usize, old: &[u8])
    requires small { (base < 65536) × (at < 65536) }
    requires short { length old.now ≤ 65536 }
    ensures { buf.new ≡ put_from base at old.now buf.old }
{
    for (i, byte) in old.iter().enumerate() {
        put_byte(buf, base, at + i, *byte);
    }
}

// One byte, where it lies within the part.
fn put_byte(buf: &mut [u8], base: usize, at: usize, byte: u8)
    ensures { buf.new ≡ put_byte base at byte buf.old }
{
    if base <= at {
        let i = at - base;
        if i < buf.len() {
            buf[i] = byte;
        }
    }
}
