ghost use Rattle.std.specs.Prelude.{◌≡◌, ◌+◌, ◌≤◌, ◌<◌, ◌++◌, [], ◌∷◌, length, map};
ghost use Rattle.undo_model.specs.Old.{old_size};
ghost use Rattle.undo_records.specs.Views.{run_of, run};

use crate::OldBytes;
use arrayvec::ArrayVec;
use engine_base::PageNo;
use std::marker::Model;

/// Old bytes: bytes of a page as they were before a change, from place `at` of the page on.
#[derive(Drop)]
pub struct Run {
    pub page: PageNo,
    pub at: u16,
    pub old: OldBytes,
}

impl Default for Run {
    ghost is_default = { λ r. run_of r ≡ run 0 0 [] };

    fn default() -> Self {
        Run {
            page: PageNo(0),
            at: 0,
            old: OldBytes::new(),
        }
    }
}

/// At most 100 runs, with at most 100 old bytes in all. They are seen as a list.
#[derive(Drop)]
pub struct Runs {
    runs: ArrayVec<Run, 100>,
}

impl Model for Runs {
    ghost use Rattle.std.specs.Prelude.{List, map, length, ◌≤◌};
    ghost use Rattle.store_data.specs.Store.{Run as OldRun};
    ghost use Rattle.undo_model.specs.Old.{old_size};
    ghost use Rattle.undo_records.specs.Views.{run_of};

    ghost Value = { List OldRun };

    ghost view = { λ r. map run_of r.runs.items };

    ghost invariant = { λ r. (length r.runs.items ≤ 100)
        × (old_size (map run_of r.runs.items) ≤ 100) };
}

impl Runs {
    /// No runs.
    pub fn new() -> Runs
        ensures { result ≡ [] }
    {
        Runs {
            runs: ArrayVec::new(),
        }
    }

    /// How many runs there are.
    pub fn len(&self) -> usize
        ensures value { result ≡ length self.now }
        ensures most { result ≤ 100 }
    {
        self.runs.len()
    }

    /// Adds a run behind the others.
    pub fn push(&mut self, page: PageNo, at: u16, old: &[u8])
        requires few { length self.old < 100 }
        requires small { old_size self.old + length old.now ≤ 100 }
        ensures { self.new ≡ self.old ++ run page.0 at old.now ∷ [] }
    {
        self.runs.push(Run {
            page,
            at,
            old: OldBytes::from_slice(old),
        });
    }

    /// The runs, in order.
    pub fn as_slice(&self) -> &[Run]
        ensures value { map run_of result.now ≡ self.now }
        ensures most { length result.now ≤ 100 }
        ensures small { old_size (map run_of result.now) ≤ 100 }
    {
        self.runs.as_slice()
    }
}
