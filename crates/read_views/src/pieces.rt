//! Old bytes put back into the pieces of a read's buffer.
ghost use Rattle.std.specs.Prelude.{◌≡◌, ◌+◌, ◌≤◌, ◌++◌, length, take, drop};
ghost use Rattle.undo_model.specs.Old.{put_old};
ghost use Rattle.undo_records.specs.Records.{body_of};
ghost use Rattle.read_model.specs.Buffer.{data_at};
ghost use Rattle.read_views.specs.Flights.{put_cut, numbers_of};

use engine_base::PageNo;
use lob_model::layout::{DATA, DATA_ROOM, FIRST_DATA, FIRST_ROOM};
use undo_records::{UndoRecord, apply_old};

/// Puts the old bytes of a record back into the pieces of a buffer, which come from these pages, in
/// order, of the LOB with that first page.
pub(crate) fn put_back(buffer: &mut [u8], lob: PageNo, pages: &[PageNo], rec: &UndoRecord)
    ensures { buffer.new ≡ put_cut (body_of rec.now.body) lob.0 FIRST_ROOM (numbers_of pages.now)
        buffer.old }
{
    let mut start = 0;
    let mut size = usize::from(FIRST_ROOM);
    for page in pages {
        let count = size.min(buffer.len() - start);
        put_piece(buffer, start, count, *page, base_of(lob, *page), rec);
        start += count;
        size = usize::from(DATA_ROOM);
    }
}

// Where the data of a piece begin in its page.
fn base_of(lob: PageNo, page: PageNo) -> u16
    ensures { result ≡ data_at lob.0 page.0 }
{
    if page == lob { FIRST_DATA } else { DATA }
}

// So many bytes of the buffer, from `start` on.
fn put_piece(
    buffer: &mut [u8],
    start: usize,
    count: usize,
    page: PageNo,
    base: u16,
    rec: &UndoRecord,
)
    requires { start + count ≤ length buffer.old }
    ensures { buffer.new ≡ take start buffer.old ++ (put_old page.0 base (body_of rec.now.body)
        (take count (drop start buffer.old)) ++ drop count (drop start buffer.old)) }
{
    apply_old(&mut buffer[start..start + count], page, base, rec);
}
