//! One event of the purge of the record that is due.
ghost use Rattle.std.specs.Prelude.{◌≡◌, ◌≢◌, ◌+◌, ◌<◌, ℕ, List, [], ◌∷◌, IfOk, IfErr, OnOk, IsOk};
ghost use Rattle.page_model.specs.Pages.{Pages};
ghost use Rattle.page_model.specs.Steps.{MayUse, Uses, Becomes};
ghost use Rattle.engine_base.specs.Faults.{HasCause, FailsPlainly};
ghost use Rattle.engine_base.specs.declared.fault.Fault.TheVariants.{Device};
ghost use Rattle.page_space.specs.Map.{IsSize};
ghost use Rattle.store_data.specs.Store.{Log, Store};
ghost use Rattle.undo_model.specs.Rows.{RowPage};
ghost use Rattle.store_model.specs.Consistent.{IsConsistent};
ghost use Rattle.store_model.specs.Steps.{last_in};
ghost use Rattle.row_dir.specs.Directory.{IsDirectory, IsBelow};
ghost use Rattle.purge.specs.Due.{entry_due};
ghost use Rattle.purge.specs.Events.{behind};
ghost use Rattle.store_steps.specs.Reached.{piece_in, IsFit};
ghost use Rattle.purge.specs.Job.{IsHeadIn, CanPurge};
ghost use Rattle.purge.specs.Kinds.{removed_room};
ghost use Rattle.purge.specs.Made.{Made, event_of};
ghost use Rattle.purge.specs.Standing.{IsAt};

use crate::dropped::purge_versions;
use crate::due::Due;
use crate::kinds::{purge_full, purge_removed};
use crate::log::pass;
use engine_base::{Fault, PageNo, Pages, strange};
use page_space::Space;
use row_dir::RowDir;
use store_steps::Reached;
use undo_records::Body;

// Whether the first page of the LOB before is a page. Strange names the record's place and that
// number, where it is none.
fn lob_is_below(count: u32, due: &Due) -> Result<(), Fault>
    ensures place { OnOk result (due.now.rec.before.lob.page.0 < count) }
    ensures strange { IfErr result (λ f. f ≢ Device) }
    ensures never { due.now.rec.before.lob.page.0 < count → IsOk result }
{
    let page = due.rec.before.lob.page;
    if page.0 >= count {
        return strange(due.place.page, due.place.at, u64::from(page.0));
    }
    Ok(())
}

/// The event that is due for the record. Answers how far it has come then.
pub(crate) fn purge_record<P: Pages>(
    p: &mut P,
    space: &mut Space,
    rows: &mut RowDir,
    log: PageNo,
    last: Option<Reached>,
    due: &Due,
) -> Result<Option<Reached>, Fault>
    requires size { IsSize (P.state p.old).count }
    requires log { log.0 < (P.state p.old).count }
    requires fit { IsFit (P.state p.old).count last }
    requires below { IsBelow (P.state p.old).count rows.old }
    requires may { MayUse (log.0 ∷ 0 ∷ []) 10 removed_room (P.state p.old) }
    ensures makes { (there : List RowPage) (pages : Pages) (store : Store) (l : Log)
        (ls : List Log) → IsAt (P.state p.old).told log.0 there pages store l ls
        → IsConsistent store → last_in l.records ≡ entry_due due.now ∷ []
        → CanPurge last store.lobs (entry_due due.now).1 → IsDirectory rows.old there
        → OnOk result (Becomes (P.state p.new).told
        (Made (event_of (entry_due due.now) l store (piece_in last)) rows.new store))
        × IfOk result (λ d. piece_in d
        ≡ behind (event_of (entry_due due.now) l store (piece_in last))) }
    ensures head { (there : List RowPage) (pages : Pages) (store : Store) (l : Log)
        (ls : List Log) → IsAt (P.state p.old).told log.0 there pages store l ls
        → CanPurge last store.lobs (entry_due due.now).1
        → IfOk result (λ d. IsHeadIn d store.lobs (entry_due due.now).1) }
    ensures fit { IfOk result (IsFit (P.state p.old).count) }
    ensures below { IsBelow (P.state p.old).count rows.new }
    ensures reserved { space.new ≡ space.old }
    ensures never { (there : List RowPage) (pages : Pages) (store : Store) (l : Log)
        (ls : List Log) → IsAt (P.state p.old).told log.0 there pages store l ls
        → IsConsistent store → last_in l.records ≡ entry_due due.now ∷ []
        → CanPurge last store.lobs (entry_due due.now).1 → IsDirectory rows.old there
        → FailsPlainly result }
    ensures cause { HasCause (P.state p.old).faults (P.state p.new).faults result }
    ensures uses { Uses P.state P.stays (log.0 ∷ 0 ∷ []) 10 removed_room p.old p.new }
{
    match &due.rec.body {
        Body::Insert(_) => {
            pass(p, log)?;
            Ok(None)
        }
        Body::Patched(_) => {
            pass(p, log)?;
            Ok(None)
        }
        Body::Versioned(touched) => {
            lob_is_below(p.count(), due)?;
            let before = due.rec.before.lob;
            purge_versions(p, space, log, last, before.page, before.version, touched)
        }
        Body::Full(_) => {
            lob_is_below(p.count(), due)?;
            purge_full(p, space, log, due.rec.before.lob.page)?;
            Ok(None)
        }
        Body::Removed => {
            lob_is_below(p.count(), due)?;
            let page = due.rec.before.lob.page;
            purge_removed(p, space, rows, log, page, due.rec.doc, due.place)?;
            Ok(None)
        }
    }
}
