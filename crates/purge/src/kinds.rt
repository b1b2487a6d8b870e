//! The events of a record's purge, by its kind.
ghost use Rattle.std.specs.Prelude.{◌≡◌, ◌≢◌, ◌+◌, ◌<◌, ℕ, List, [], ◌∷◌, Some, IfOk, IfErr, OnOk, IsOk};
ghost use Rattle.page_model.specs.Pages.{Pages};
ghost use Rattle.page_model.specs.Steps.{MayUse, Uses, Becomes};
ghost use Rattle.engine_base.specs.Faults.{HasCause, FailsPlainly};
ghost use Rattle.engine_base.specs.Addresses.{address_of};
ghost use Rattle.engine_base.specs.declared.fault.Fault.TheVariants.{Device};
ghost use Rattle.page_space.specs.Map.{IsSize};
ghost use Rattle.store_data.specs.Store.{Lob, Log, Store};
ghost use Rattle.undo_model.specs.Rows.{RowPage};
ghost use Rattle.store_model.specs.Lobs.{lob_of};
ghost use Rattle.store_model.specs.Steps.{last_in};
ghost use Rattle.row_dir.specs.Directory.{IsDirectory, IsBelow};
ghost use Rattle.store_steps.specs.Lobs.{IsSingle};
ghost use Rattle.purge.specs.Standing.{IsAt};
ghost use Rattle.purge.specs.Kinds.{LobGoes, RowGoes, full_room, removed_room};

use crate::layout::TRX;
use crate::log::pass;
use crate::rows::sweep;
use engine_base::{Addr, DocId, Fault, PageNo, Pages, read_field};
use lob_pages::TrxId;
use page_space::Space;
use row_dir::RowDir;
use store_steps::{free_part, free_rest};

/// An event of the purge of a record by which a document got another LOB: a part of the LOB before
/// goes, or where nothing is left of it but its first page, that goes and the record is passed.
pub(crate) fn purge_full<P: Pages>(
    p: &mut P,
    space: &mut Space,
    log: PageNo,
    page: PageNo,
) -> Result<(), Fault>
    requires size { IsSize (P.state p.old).count }
    requires log { log.0 < (P.state p.old).count }
    requires page { page.0 < (P.state p.old).count }
    requires may { MayUse (page.0 ∷ log.0 ∷ 0 ∷ []) 4 full_room (P.state p.old) }
    ensures goes { (there : List RowPage) (pages : Pages) (store : Store) (l : Log)
        (ls : List Log) (m : Lob) → IsAt (P.state p.old).told log.0 there pages store l ls
        → last_in l.records ≢ [] → lob_of store.lobs page.0 ≡ Some m → IsSingle m
        → OnOk result (Becomes (P.state p.new).told (LobGoes there page.0 m store)) }
    ensures reserved { space.new ≡ space.old }
    ensures never { (there : List RowPage) (pages : Pages) (store : Store) (l : Log)
        (ls : List Log) (m : Lob) → IsAt (P.state p.old).told log.0 there pages store l ls
        → last_in l.records ≢ [] → lob_of store.lobs page.0 ≡ Some m → IsSingle m
        → FailsPlainly result }
    ensures cause { HasCause (P.state p.old).faults (P.state p.new).faults result }
    ensures uses { Uses P.state P.stays (page.0 ∷ log.0 ∷ 0 ∷ []) 4 full_room p.old p.new }
{
    if free_part(p, space, page)? {
        return Ok(());
    }
    free_rest(p, space, page)?;
    pass(p, log)
}

// The transaction of the log.
fn log_trx<P: Pages>(p: &mut P, log: PageNo) -> Result<TrxId, Fault>
    requires log { log.0 < (P.state p.old).count }
    requires may { MayUse (log.0 ∷ []) 0 0 (P.state p.old) }
    ensures value { (there : List RowPage) (pages : Pages) (store : Store) (l : Log)
        (ls : List Log) → IsAt (P.state p.old).told log.0 there pages store l ls
        → IfOk result (λ trx. trx.0 ≡ l.trx) }
    ensures plain { FailsPlainly result }
    ensures told { (P.state p.new).told ≡ (P.state p.old).told }
    ensures cause { HasCause (P.state p.old).faults (P.state p.new).faults result }
    ensures uses { Uses P.state P.stays (log.0 ∷ []) 0 0 p.old p.new }
{
    let trx = read_field(p, log, TRX, 6)?;
    Ok(TrxId(trx))
}

/// An event of the purge of a deletion: a part of the LOB before goes, or where nothing is left of
/// it but its first page, that goes, and the row where it has no newer change, and the record is
/// passed.
pub(crate) fn purge_removed<P: Pages>(
    p: &mut P,
    space: &mut Space,
    rows: &mut RowDir,
    log: PageNo,
    page: PageNo,
    doc: DocId,
    place: Addr,
) -> Result<(), Fault>
    requires size { IsSize (P.state p.old).count }
    requires log { log.0 < (P.state p.old).count }
    requires page { page.0 < (P.state p.old).count }
    requires below { IsBelow (P.state p.old).count rows.old }
    requires may { MayUse (page.0 ∷ log.0 ∷ 0 ∷ []) 8 removed_room (P.state p.old) }
    ensures goes { (there : List RowPage) (pages : Pages) (store : Store) (l : Log)
        (ls : List Log) (m : Lob) → IsAt (P.state p.old).told log.0 there pages store l ls
        → last_in l.records ≢ [] → lob_of store.lobs page.0 ≡ Some m → IsSingle m
        → IsDirectory rows.old there → OnOk result (Becomes (P.state p.new).told
        (RowGoes there page.0 m (address_of place) l.trx doc.0 rows.new store)) }
    ensures below { IsBelow (P.state p.old).count rows.new }
    ensures reserved { space.new ≡ space.old }
    ensures never { (there : List RowPage) (pages : Pages) (store : Store) (l : Log)
        (ls : List Log) (m : Lob) → IsAt (P.state p.old).told log.0 there pages store l ls
        → last_in l.records ≢ [] → lob_of store.lobs page.0 ≡ Some m → IsSingle m
        → IsDirectory rows.old there → FailsPlainly result }
    ensures cause { HasCause (P.state p.old).faults (P.state p.new).faults result }
    ensures uses { Uses P.state P.stays (page.0 ∷ log.0 ∷ 0 ∷ []) 8 removed_room p.old p.new }
{
    if free_part(p, space, page)? {
        return Ok(());
    }
    let trx = log_trx(p, log)?;
    free_rest(p, space, page)?;
    sweep(rows, p, space, doc, trx, place)?;
    pass(p, log)
}
