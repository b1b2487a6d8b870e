//! The row of a deleted document goes with its deletion.
ghost use Rattle.std.specs.Prelude.{◌≡◌, ◌+◌, ◌*◌, ◌<◌, ℕ, List, [], ◌∷◌, Some, IfOk, OnOk};
ghost use Rattle.page_model.specs.Pages.{Pages};
ghost use Rattle.page_model.specs.Steps.{MayUse, Uses, Becomes, write_head};
ghost use Rattle.engine_base.specs.Faults.{HasCause, FailsPlainly};
ghost use Rattle.engine_base.specs.Addresses.{address_of};
ghost use Rattle.page_space.specs.Map.{IsSize};
ghost use Rattle.store_data.specs.Store.{Store};
ghost use Rattle.undo_model.specs.Rows.{RowPage};
ghost use Rattle.store_model.specs.Undo.{is_newest};
ghost use Rattle.store_parts.specs.Shows.{row_of};
ghost use Rattle.undo_records.specs.Records.{row_of as row_there};
ghost use Rattle.row_dir.specs.Directory.{IsDirectory, IsBelow};
ghost use Rattle.store_steps.specs.Standing.{StandsOn};
ghost use Rattle.purge.specs.Rows.{SweepsRow};

use engine_base::{Addr, DocId, Fault, Pages};
use lob_pages::TrxId;
use page_space::Space;
use row_dir::RowDir;
use store_steps::leads;
use undo_records::Row;

// Whether the row's newest change is that transaction's record there.
fn is_newest(row: &Row, trx: TrxId, place: Addr) -> bool
    ensures { result ≡ is_newest (address_of place) trx.0 (Some (row_of (row_there row.now))) }
{
    row.trx == trx && leads(row.roll, place)
}

/// Takes the document's row out, where its newest change is that transaction's record there: a row
/// on which a newer change stands is kept. Touches page 0 and four others, and writes 21 bytes at
/// most in five writes.
pub(crate) fn sweep<P: Pages>(
    rows: &mut RowDir,
    p: &mut P,
    space: &mut Space,
    doc: DocId,
    trx: TrxId,
    place: Addr,
) -> Result<(), Fault>
    requires size { IsSize (P.state p.old).count }
    requires below { IsBelow (P.state p.old).count rows.old }
    requires may { MayUse (0 ∷ []) 4 (21 + 5 * write_head) (P.state p.old) }
    ensures sweeps { (there : List RowPage) (pages : Pages) (store : Store)
        → (P.state p.old).told ≡ Some pages → StandsOn there pages store
        → IsDirectory rows.old there → OnOk result (Becomes (P.state p.new).told
        (SweepsRow (address_of place) trx.0 doc.0 rows.new store)) }
    ensures below { IsBelow (P.state p.old).count rows.new }
    ensures reserved { space.new ≡ space.old }
    ensures never { (there : List RowPage) (pages : Pages) (store : Store)
        → (P.state p.old).told ≡ Some pages → StandsOn there pages store
        → IsDirectory rows.old there → FailsPlainly result }
    ensures cause { HasCause (P.state p.old).faults (P.state p.new).faults result }
    ensures uses { Uses P.state P.stays (0 ∷ []) 4 (21 + 5 * write_head) p.old p.new }
{
    let Some(row) = rows.get(p, doc)? else {
        return Ok(());
    };
    if !is_newest(&row, trx, place) {
        return Ok(());
    }
    rows.remove(p, space, doc)
}
