//! The old bytes of a change in place are put back.
ghost use Rattle.std.specs.Prelude.{◌≡◌, ◌+◌, ◌*◌, ◌≤◌, ℕ, List, [], Some, OnOk};
ghost use Rattle.page_model.specs.Pages.{Pages};
ghost use Rattle.page_model.specs.Steps.{MayUse, Uses, Becomes, different, write_head};
ghost use Rattle.engine_base.specs.Faults.{HasCause, FailsPlainly};
ghost use Rattle.store_data.specs.Store.{Lob, Store};
ghost use Rattle.undo_model.specs.Reading.{RunsFit};
ghost use Rattle.undo_model.specs.Rows.{RowPage};
ghost use Rattle.lob_model.specs.Pieces.{versions};
ghost use Rattle.store_model.specs.Lobs.{lob_of};
ghost use Rattle.store_model.specs.Steps.{on_lobs};
ghost use Rattle.store_model.specs.Runs.{lobs_laid};
ghost use Rattle.store_pages.specs.Runs.{LieIn};
ghost use Rattle.store_steps.specs.Runs.{run_pages};
ghost use Rattle.store_steps.specs.Standing.{StandsOn};

use engine_base::{Addr, Fault, Pages, strange};
use store_steps::{lay_runs, page_count};
use undo_records::Runs;

// On how many pages at most the runs of one record lie: a change in place is of four pieces at most.
const MAX_PAGES: usize = 4;

/// The old bytes of a change in place, which lie within the data of a LOB, are put back. Touches the
/// pages of the runs, four at most, and writes as many bytes as there are old ones, 100 at most, in a
/// write for each run. Strange names the place of the record, and on how many pages its runs lie,
/// where these are more than four: then nothing is written.
pub(crate) fn lay_old<P: Pages>(p: &mut P, place: Addr, runs: &Runs) -> Result<(), Fault>
    requires fit { RunsFit (P.state p.old).count runs.now }
    requires may { MayUse [] 4 (100 + 100 * write_head) (P.state p.old) }
    ensures lays { (there : List RowPage) (pages : Pages) (store : Store) (page : ℕ) (l : Lob)
        → (P.state p.old).told ≡ Some pages → StandsOn there pages store
        → lob_of store.lobs page ≡ Some l → LieIn runs.now (versions l.pieces)
        → OnOk result (Becomes (P.state p.new).told
        (λ new. StandsOn there new (on_lobs (lobs_laid runs.now) store))) }
    ensures never { different (run_pages runs.now) ≤ 4 → FailsPlainly result }
    ensures cause { HasCause (P.state p.old).faults (P.state p.new).faults result }
    ensures uses { Uses P.state P.stays [] 4 (100 + 100 * write_head) p.old p.new }
{
    let runs = runs.as_slice();
    let count = page_count(runs);
    if count > MAX_PAGES {
        return strange(place.page, place.at, count as u64);
    }
    lay_runs(p, runs)
}
