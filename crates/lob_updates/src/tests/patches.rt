// Bytes patched in place.
ghost use Rattle.row_dir.specs.Directory.{IsBelow};

use super::*;

// Transaction 2 patches two bytes of the first piece and one of the second.
fn patch_both(
    p: &mut MemPages,
    space: &mut Space,
    rows: &mut RowDir,
    trx: &mut Trx,
) -> Result<(), Fail>
    requires below { IsBelow 16 rows.old }
{
    let mut runs = Runs::new();
    runs.push(LOB, 697, &[1, 2]);
    runs.push(SECOND, 49, &[255]);
    patched(p, space, rows, trx, DOC, &runs)?
        .ok()
        .ok_or("patch")?;
    let table = [
        (SYSTEM, 62, 4, 10),
        (LOB, 696, 4, 0x0701_0207),
        (SECOND, 49, 2, 0xff07),
        // the LOB and the row keep their version; the row's transaction and roll pointer
        (LOB, 40, 4, 1),
        (ROWS, 57, 6, 2),
        (ROWS, 63, 7, 0x5_006b),
        (ROWS, 78, 4, 1),
        // the record's length and kind; its runs, each with page, offset, length and old bytes
        (LOG, 107, 2, 69),
        (LOG, 109, 1, 4),
        (LOG, 158, 1, 2),
        (LOG, 159, 4, 2),
        (LOG, 163, 2, 697),
        (LOG, 165, 1, 2),
        (LOG, 166, 2, 0x0707),
        (LOG, 168, 4, 3),
        (LOG, 172, 2, 49),
        (LOG, 174, 1, 1),
        (LOG, 175, 1, 7),
    ];
    check(p, &table)
}

#[test]
fn bytes_are_patched_and_the_record_has_what_stood_there(rt: HostRuntime) -> Result<(), Fail> {
    let mut p = MemPages::new(rt.alloc(), 16)?;
    let mut space = Space::new();
    let mut rows = RowDir::new(rt.alloc());
    let mut trx = document(&mut p, &mut space, &mut rows, 1)?;
    patch_both(&mut p, &mut space, &mut rows, &mut trx)?;
    assert_eq!(rt; trx.records, UndoNo(1));
    Ok(())
}

// Runs on five pages.
fn patch_five(
    p: &mut MemPages,
    space: &mut Space,
    rows: &mut RowDir,
    trx: &mut Trx,
) -> Result<Result<(), Fault>, Fail>
    requires below { IsBelow 16 rows.old }
{
    let mut runs = Runs::new();
    runs.push(PageNo(2), 700, &[1]);
    runs.push(PageNo(3), 50, &[1]);
    runs.push(PageNo(6), 50, &[1]);
    runs.push(PageNo(7), 50, &[1]);
    runs.push(PageNo(8), 50, &[1]);
    patched(p, space, rows, trx, DOC, &runs)
}

#[test]
fn runs_on_five_pages_are_refused(rt: HostRuntime) -> Result<(), Fail> {
    let mut p = MemPages::new(rt.alloc(), 16)?;
    let mut space = Space::new();
    let mut rows = RowDir::new(rt.alloc());
    let mut trx = document(&mut p, &mut space, &mut rows, 1)?;
    let answer = patch_five(&mut p, &mut space, &mut rows, &mut trx)?;
    let odd = Fault::Strange {
        page: LOG,
        at: 0,
        value: 5,
    };
    assert_eq!(rt; answer, Err(odd));
    Ok(())
}
