//! How far the purge of a record has come that made versions.
ghost use Rattle.std.specs.Prelude.{◌≡◌, ◌+◌, ◌*◌, ◌<◌, ◌≤◌, ◌≢◌, ◌^◌, ℕ, List, [], ◌∷◌, length, map, Some, IfOk, IfSome, OnOk};
ghost use Rattle.page_model.specs.Pages.{Pages};
ghost use Rattle.page_model.specs.Steps.{MayUse, Uses, Becomes, write_head};
ghost use Rattle.engine_base.specs.Faults.{HasCause, FailsPlainly};
ghost use Rattle.engine_base.specs.Addresses.{address_of};
ghost use Rattle.page_space.specs.Map.{IsSize};
ghost use Rattle.store_data.specs.Store.{Lob, Log, Store};
ghost use Rattle.lob_model.specs.Lobs.{IsLob};
ghost use Rattle.lob_model.specs.Pieces.{head_place};
ghost use Rattle.lob_pages.specs.Entries.{FitsPage};
ghost use Rattle.lob_index.specs.Heads.{nth};
ghost use Rattle.file_lists.specs.Links.{link_of};
ghost use Rattle.undo_model.specs.Rows.{RowPage};
ghost use Rattle.store_model.specs.Lobs.{lob_of};
ghost use Rattle.store_model.specs.Steps.{last_in};
ghost use Rattle.store_parts.specs.Shows.{touched_from};
ghost use Rattle.store_steps.specs.Touched.{next_touched};
ghost use Rattle.store_steps.specs.Reached.{piece_in, IsFit, IsHeadAt, AreBelow};
ghost use Rattle.purge.specs.Standing.{IsAt};
ghost use Rattle.purge.specs.Versions.{VersionsGo, versions_room};

use crate::log::pass;
use crate::versions::drop_version;
use engine_base::{Fault, PageNo, Pages};
use lob_pages::LobVersion;
use page_space::Space;
use store_steps::{Reached, next_behind, reach};
use undo_records::Touched;

/// An event of the purge of a record that made versions: the next touched piece loses its oldest
/// version where that is at most v, or behind the last one the record is passed. Answers how far it
/// has come then. Touches page 0, the log's first page, the LOB's and nine others. Strange names the
/// length of the list of heads, and a touched piece that the LOB doesn't have.
pub(crate) fn purge_versions<P: Pages>(
    p: &mut P,
    space: &mut Space,
    log: PageNo,
    last: Option<Reached>,
    first: PageNo,
    v: LobVersion,
    touched: &Touched,
) -> Result<Option<Reached>, Fault>
    requires size { IsSize (P.state p.old).count }
    requires log { log.0 < (P.state p.old).count }
    requires first { first.0 < (P.state p.old).count }
    requires fit { IsFit (P.state p.old).count last }
    requires may { MayUse (first.0 ∷ log.0 ∷ 0 ∷ []) 9 versions_room (P.state p.old) }
    ensures goes { (there : List RowPage) (pages : Pages) (store : Store) (l : Log)
        (ls : List Log) (m : Lob) → IsAt (P.state p.old).told log.0 there pages store l ls
        → last_in l.records ≢ [] → lob_of store.lobs first.0 ≡ Some m → IsHeadAt last m
        → OnOk result (Becomes (P.state p.new).told
        (VersionsGo there first.0 v.0 store (next_touched (piece_in last)
        (touched_from 0 touched.now.pieces touched.now.bits)))) }
    ensures comes { IfOk result (λ d. piece_in d ≡ next_touched (piece_in last)
        (touched_from 0 touched.now.pieces touched.now.bits)) }
    ensures head { (there : List RowPage) (pages : Pages) (store : Store) (l : Log)
        (ls : List Log) (m : Lob) → IsAt (P.state p.old).told log.0 there pages store l ls
        → lob_of store.lobs first.0 ≡ Some m → IsHeadAt last m
        → IfOk result (λ d. IsHeadAt d m) }
    ensures fit { IfOk result (IsFit (P.state p.old).count) }
    ensures reserved { space.new ≡ space.old }
    ensures never { (there : List RowPage) (pages : Pages) (store : Store) (l : Log)
        (ls : List Log) (m : Lob) → IsAt (P.state p.old).told log.0 there pages store l ls
        → last_in l.records ≢ [] → lob_of store.lobs first.0 ≡ Some m → IsHeadAt last m
        → AreBelow (length m.pieces) (touched_from 0 touched.now.pieces touched.now.bits)
        → FailsPlainly result }
    ensures cause { HasCause (P.state p.old).faults (P.state p.new).faults result }
    ensures uses { Uses P.state P.stays (first.0 ∷ log.0 ∷ 0 ∷ []) 9 versions_room
        p.old p.new }
{
    let next = next_behind(touched, last);
    match next {
        Some(k) => {
            let head = reach(p, first, last, k)?;
            drop_version(p, space, first, head, v)?;
            Ok(Some(Reached { piece: k, head }))
        }
        None => {
            pass(p, log)?;
            Ok(None)
        }
    }
}
