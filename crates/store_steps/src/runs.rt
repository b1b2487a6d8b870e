//! Runs of bytes that are written in place.
ghost use Rattle.std.specs.Prelude.{◌≡◌, ◌≤◌, [], ◌∷◌, length, map, OnOk, option_map};
ghost use Rattle.page_model.specs.Pages.{all_written};
ghost use Rattle.page_model.specs.Steps.{MayUse, Uses, different, among};
ghost use Rattle.engine_base.specs.Faults.{HasCause, FailsPlainly};
ghost use Rattle.undo_model.specs.Reading.{RunsFit};
ghost use Rattle.undo_records.specs.Views.{run_of};
ghost use Rattle.store_pages.specs.Runs.{writes_of};
ghost use Rattle.store_steps.specs.Runs.{run_pages, laid_room};

use engine_base::{Fault, PageNo, Pages};
use undo_records::Run;

// Whether one of them lies on that page.
fn is_on(runs: &[Run], page: PageNo) -> bool
    ensures { result ≡ among (run_pages (map run_of runs.now)) page.0 }
{
    let [first, rest @ ..] = runs else {
        return false;
    };
    page == first.page || is_on(rest, page)
}

/// On how many different pages the runs lie.
pub fn page_count(runs: &[Run]) -> usize
    ensures value { result ≡ different (run_pages (map run_of runs.now)) }
    ensures most { result ≤ length runs.now }
{
    let [first, rest @ ..] = runs else {
        return 0;
    };
    let others = page_count(rest);
    if is_on(rest, first.page) {
        return others;
    }
    others + 1
}

/// Writes the runs' bytes, each at its place, the first one first. Touches the pages of the runs.
pub fn lay_runs<P: Pages>(p: &mut P, runs: &[Run]) -> Result<(), Fault>
    requires fit { RunsFit (P.state p.old).count (map run_of runs.now) }
    requires may { MayUse (run_pages (map run_of runs.now)) 0 (laid_room (map run_of runs.now))
        (P.state p.old) }
    ensures lays { OnOk result ((P.state p.new).told
        ≡ option_map (all_written (writes_of (map run_of runs.now))) (P.state p.old).told) }
    ensures plain { FailsPlainly result }
    ensures cause { HasCause (P.state p.old).faults (P.state p.new).faults result }
    ensures uses { Uses P.state P.stays (run_pages (map run_of runs.now)) 0
        (laid_room (map run_of runs.now)) p.old p.new }
{
    for run in runs {
        p.write(run.page, run.at, run.old.as_slice())?;
    }
    Ok(())
}
