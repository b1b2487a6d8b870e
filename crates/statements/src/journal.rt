// The journal of a run.
ghost use Rattle.std.specs.Prelude.{◌≡◌, ◌≤◌, ◌++◌, ◌∷◌, [], ◌+◌, OnOk};

use crate::Entry;
use std::alloc::{AllocError, Global};

/// The entries of a run, in order.
#[derive(Drop)]
pub struct Journal {
    entries: Vec<Entry>,
}

impl Journal {
    ghost use Rattle.statements.specs.Journals.{entries_in, room_in};
    ghost use Rattle.statements.specs.Entries.{entry_of, entries_of};

    pub fn new(alloc: Global) -> Journal
        ensures { entries_in result ≡ [] }
    {
        Journal {
            entries: Vec::new(alloc),
        }
    }

    /// Takes room for so many entries more.
    pub fn reserve(&mut self, more: usize) -> Result<(), AllocError>
        ensures room { OnOk result (more ≤ room_in self.new) }
        ensures kept { entries_in self.new ≡ entries_in self.old }
    {
        self.entries.reserve(more)
    }

    /// Enters what room was taken for.
    pub fn enter(&mut self, entry: Entry)
        requires { 1 ≤ room_in self.old }
        ensures entered { entries_in self.new ≡ entries_in self.old ++ entry_of entry ∷ [] }
        ensures room { room_in self.old ≤ room_in self.new + 1 }
    {
        let _ = self.entries.push(entry);
    }

    pub fn entries(&self) -> &[Entry]
        ensures { entries_of result.now ≡ entries_in self.now }
    {
        self.entries.as_slice()
    }
}
