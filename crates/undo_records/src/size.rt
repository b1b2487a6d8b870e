//! How many bytes a record has.
ghost use Rattle.std.specs.Prelude.{◌≡◌, ◌+◌, ◌*◌, ◌≤◌, map};
ghost use Rattle.undo_model.specs.Bytes.{record_size, is_insert};
ghost use Rattle.undo_model.specs.Old.{old_size};
ghost use Rattle.undo_records.specs.Views.{run_of};
ghost use Rattle.undo_records.specs.Records.{record_of};

use crate::layout::{HEAD, RUN_HEAD};
use crate::{Body, Run, UndoRecord};

impl UndoRecord {
    /// How many bytes it has in a page, at most 852.
    #[tactic(auto, using(crate::proofs::SizeLemmas::patched_bytes))]
    pub fn size(&self) -> usize
        ensures value { result ≡ record_size (record_of self.now) }
        ensures most { result ≤ 852 }
    {
        match &self.body {
            Body::Insert(_) | Body::Full(_) => HEAD + 4,
            Body::Versioned(touched) => HEAD + 4 + touched.bits.as_slice().len(),
            Body::Patched(runs) => HEAD + 1 + RUN_HEAD * runs.len() + old_bytes(runs.as_slice()),
            Body::Removed => HEAD,
        }
    }

    /// Whether it is the record of a new document, which its roll pointer says too.
    pub fn is_insert(&self) -> bool
        ensures { result ≡ is_insert (record_of self.now).body }
    {
        matches!(&self.body, Body::Insert(_))
    }
}

// How many old bytes the runs have.
fn old_bytes(runs: &[Run]) -> usize
    requires { old_size (map run_of runs.now) ≤ 100 }
    ensures { result ≡ old_size (map run_of runs.now) }
{
    let mut sum = 0;
    for run in runs {
        sum += run.old.as_slice().len();
    }
    sum
}
