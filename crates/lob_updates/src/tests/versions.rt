// A version raised, and pieces pushed.
ghost use Rattle.row_dir.specs.Directory.{IsBelow};

use super::*;

// Transaction 2 raises the version of document 9.
fn raise_both(
    p: &mut MemPages,
    space: &mut Space,
    rows: &mut RowDir,
    trx: &mut Trx,
) -> Result<LobRef, Fail>
    requires below { IsBelow 16 rows.old }
{
    let lob = raised(p, space, rows, trx, DOC)?.ok().ok_or("raise")?;
    if lob.page != LOB || lob.version != LobVersion(2) || lob.length != 15_880 {
        return Err(Fail::from("reference"));
    }
    let table = [
        // no page is taken; the LOB's version; the row's transaction, roll pointer and version
        (SYSTEM, 62, 4, 10),
        (LOB, 40, 4, 2),
        (ROWS, 57, 6, 2),
        (ROWS, 63, 7, 0x5_006b),
        (ROWS, 78, 4, 2),
        // the record's length, kind, number and document; the transaction and version before it;
        // two pieces, both of them touched
        (LOG, 107, 2, 56),
        (LOG, 109, 1, 3),
        (LOG, 110, 4, 0),
        (LOG, 114, 4, 9),
        (LOG, 119, 6, 1),
        (LOG, 140, 4, 1),
        (LOG, 158, 4, 2),
        (LOG, 162, 1, 3),
    ];
    check(p, &table)?;
    Ok(lob)
}

// And pushes both pieces.
fn push_both(p: &mut MemPages, space: &mut Space, lob: &LobRef, trx: &Trx) -> Result<(), Fail> {
    pushed(p, space, lob, 96, trx, &[8; 15_680])?;
    // a page is taken; the second piece is as before
    check(p, &[(SYSTEM, 62, 4, 9), (LOB, 212, 4, 1)])?;
    pushed(p, space, lob, 156, trx, &[9; 200])?;
    let table = [
        (SYSTEM, 62, 4, 8),
        // each head: its page and version; each older one: the same of the bytes before
        (LOB, 144, 4, 6),
        (LOB, 152, 4, 2),
        (LOB, 204, 4, 7),
        (LOB, 212, 4, 2),
        (LOB, 264, 4, 2),
        (LOB, 272, 4, 1),
        (LOB, 324, 4, 3),
        (LOB, 332, 4, 1),
        // the bytes pushed, and those that stay
        (PageNo(6), 49, 4, 0x0808_0808),
        (PageNo(7), 49, 4, 0x0909_0909),
        (LOB, 696, 4, 0x0707_0707),
        (SECOND, 49, 4, 0x0707_0707),
    ];
    check(p, &table)
}

#[test]
fn a_version_is_raised_and_both_pieces_are_pushed(rt: HostRuntime) -> Result<(), Fail> {
    let mut p = MemPages::new(rt.alloc(), 16)?;
    let mut space = Space::new();
    let mut rows = RowDir::new(rt.alloc());
    let mut trx = document(&mut p, &mut space, &mut rows, 1)?;
    let lob = raise_both(&mut p, &mut space, &mut rows, &mut trx)?;
    assert_eq!(rt; trx.records, UndoNo(1));
    push_both(&mut p, &mut space, &lob, &trx)
}

// A document without a row, and a last version.
#[test]
fn what_cannot_be_raised_is_named(rt: HostRuntime) -> Result<(), Fail> {
    for (version, doc, value) in [(1, DocId(10), 10), (u32::MAX, DOC, 4_294_967_295)] {
        let mut p = MemPages::new(rt.alloc(), 16)?;
        let mut space = Space::new();
        let mut rows = RowDir::new(rt.alloc());
        let mut trx = document(&mut p, &mut space, &mut rows, version)?;
        let answer = raised(&mut p, &mut space, &mut rows, &mut trx, doc)?;
        let odd = Fault::Strange {
            page: LOG,
            at: 0,
            value,
        };
        assert_eq!(rt; answer, Err(odd));
    }
    Ok(())
}
