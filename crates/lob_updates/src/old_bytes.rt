//! What stands where runs of bytes are about to be written.
ghost use Rattle.std.specs.Prelude.{◌≡◌, ◌+◌, ◌≤◌, ◌++◌, [], ◌∷◌, length, map, Some, IfOk, OnOk, IfSome};
ghost use Rattle.page_model.specs.Pages.{Pages, bytes_at};
ghost use Rattle.page_model.specs.Steps.{MayUse, Uses};
ghost use Rattle.engine_base.specs.Faults.{HasCause, FailsPlainly};
ghost use Rattle.page_space.specs.Map.{IsSize};
ghost use Rattle.undo_model.specs.Old.{old_size};
ghost use Rattle.undo_model.specs.Data.{patched};
ghost use Rattle.undo_model.specs.Reading.{RunsFit, IsSoundBody};
ghost use Rattle.undo_records.specs.Views.{run, run_of};
ghost use Rattle.store_model.specs.Moves.{ArePaired};
ghost use Rattle.store_steps.specs.Runs.{run_pages};
ghost use Rattle.lob_updates.specs.Patches.{runs_there};
ghost use Rattle.lob_updates.specs.Reads.{ReadsTo};

use engine_base::{Fault, Pages};
use undo_records::{Run, Runs};

// How many bytes the runs of one record have at most.
const MAX_OLD: usize = 100;

// The bytes there are read by way of these, and put behind the runs.
fn read_by<P: Pages>(p: &mut P, run: &Run, old: &mut Runs, bytes: &mut [u8]) -> Result<(), Fault>
    requires long { length bytes.old ≡ length run.now.old }
    requires fit { RunsFit (P.state p.old).count (run_of run.now ∷ []) }
    requires few { length old.old + 1 ≤ 100 }
    requires small { old_size old.old + length run.now.old ≤ 100 }
    requires may { MayUse (run.now.page.0 ∷ []) 0 0 (P.state p.old) }
    ensures reads { OnOk result
        (ReadsTo (P.state p.old).told old.old (run_of run.now ∷ []) old.new) }
    ensures told { (P.state p.new).told ≡ (P.state p.old).told }
    ensures plain { FailsPlainly result }
    ensures cause { HasCause (P.state p.old).faults (P.state p.new).faults result }
    ensures uses { Uses P.state P.stays (run.now.page.0 ∷ []) 0 0 p.old p.new }
{
    p.read(run.page, run.at, bytes)?;
    old.push(run.page, run.at, bytes);
    Ok(())
}

// The bytes there are put behind the runs.
fn read_run<P: Pages>(p: &mut P, run: &Run, old: &mut Runs) -> Result<(), Fault>
    requires fit { RunsFit (P.state p.old).count (run_of run.now ∷ []) }
    requires few { length old.old + 1 ≤ 100 }
    requires small { old_size old.old + length run.now.old ≤ 100 }
    requires may { MayUse (run.now.page.0 ∷ []) 0 0 (P.state p.old) }
    ensures reads { OnOk result
        (ReadsTo (P.state p.old).told old.old (run_of run.now ∷ []) old.new) }
    ensures told { (P.state p.new).told ≡ (P.state p.old).told }
    ensures plain { FailsPlainly result }
    ensures cause { HasCause (P.state p.old).faults (P.state p.new).faults result }
    ensures uses { Uses P.state P.stays (run.now.page.0 ∷ []) 0 0 p.old p.new }
{
    let mut bytes = [0u8; MAX_OLD];
    let len = run.old.as_slice().len();
    read_by(p, run, old, &mut bytes[..len])
}

// The bytes where each of them is, the first one first.
fn read_all<P: Pages>(p: &mut P, runs: &[Run]) -> Result<Runs, Fault>
    requires fit { RunsFit (P.state p.old).count (map run_of runs.now) }
    requires size { IsSize (P.state p.old).count }
    requires few { length runs.now ≤ 100 }
    requires small { old_size (map run_of runs.now) ≤ 100 }
    requires may { MayUse (run_pages (map run_of runs.now)) 0 0 (P.state p.old) }
    ensures reads { IfOk result
        (λ old. ReadsTo (P.state p.old).told [] (map run_of runs.now) old) }
    ensures sound { IfOk result (λ old. IsSoundBody (P.state p.old).count (patched old)) }
    ensures told { (P.state p.new).told ≡ (P.state p.old).told }
    ensures plain { FailsPlainly result }
    ensures cause { HasCause (P.state p.old).faults (P.state p.new).faults result }
    ensures uses { Uses P.state P.stays (run_pages (map run_of runs.now)) 0 0 p.old p.new }
{
    let mut old = Runs::new();
    for run in runs {
        read_run(p, run, &mut old)?;
    }
    Ok(old)
}

/// What stands where the runs are: as many runs, at the same places and as long. Touches the pages
/// of the runs.
pub(crate) fn read_old<P: Pages>(p: &mut P, runs: &Runs) -> Result<Runs, Fault>
    requires size { IsSize (P.state p.old).count }
    requires fit { RunsFit (P.state p.old).count runs.now }
    requires may { MayUse (run_pages runs.now) 0 0 (P.state p.old) }
    ensures reads { IfOk result (λ old. ReadsTo (P.state p.old).told [] runs.now old) }
    // A record can keep them.
    ensures sound { IfOk result (λ old. IsSoundBody (P.state p.old).count (patched old)) }
    ensures told { (P.state p.new).told ≡ (P.state p.old).told }
    ensures plain { FailsPlainly result }
    ensures cause { HasCause (P.state p.old).faults (P.state p.new).faults result }
    ensures uses { Uses P.state P.stays (run_pages runs.now) 0 0 p.old p.new }
{
    read_all(p, runs.as_slice())
}
