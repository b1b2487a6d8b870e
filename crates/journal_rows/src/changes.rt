ghost use Rattle.journal_model.specs.Journal.{new_store, full, part, sized, Did, Commit};
ghost use Rattle.journal_rows.specs.Runs.{Runs, Allows};
ghost use Rattle.journal_rows.specs.ChangeRuns.{measured, shorter_text, removed_member, inlined_number, cell_of_scalar, scalar_itself, no_effect, wide_numbers, small_form, large_form, in_one_transaction};

/// A document is inserted and measured.
pub fn row_measured()
    ensures runs { Runs (new_store 4096) measured }
    ensures other_size { Allows (new_store 4096) measured 5 (Did 1 2 (sized 46 0)) → ⊥ }
    ensures other_free { Allows (new_store 4096) measured 5 (Did 1 2 (sized 47 1)) → ⊥ }
{}

/// A text that gets shorter is changed in place and leaves free bytes; one that fits no more gets a
/// new encoding.
pub fn row_shorter_text()
    ensures runs { Runs (new_store 4096) shorter_text }
    ensures in_place { Allows (new_store 4096) shorter_text 19 (Did 1 6 (part 6)) → ⊥ }
    ensures rewritten { Allows (new_store 4096) shorter_text 4 (Did 1 2 full) → ⊥ }
{}

/// A removed member leaves its key and its value free.
pub fn row_removed_member()
    ensures runs { Runs (new_store 4096) removed_member }
    ensures other_count { Allows (new_store 4096) removed_member 4 (Did 1 2 (part 6)) → ⊥ }
{}

/// A number that stands in the entry leaves its text free, and the text fits there again.
pub fn row_inlined_number()
    ensures runs { Runs (new_store 4096) inlined_number }
    ensures rewritten { Allows (new_store 4096) inlined_number 10 (Did 1 4 full) → ⊥ }
{}

/// A cell behind a value that is no list makes a list of it; one that names nothing has no effect.
pub fn row_cell_of_scalar()
    ensures { Runs (new_store 4096) cell_of_scalar }
{}

/// The first cell of a value that is no list is the value itself.
pub fn row_scalar_itself()
    ensures runs { Runs (new_store 4096) scalar_itself }
    ensures in_place { Allows (new_store 4096) scalar_itself 4 (Did 1 2 (part 1)) → ⊥ }
{}

/// What leaves the tree is `same`; a document that exists or is missing is refused before that.
pub fn row_no_effect()
    ensures { Runs (new_store 4096) no_effect }
{}

/// The greatest and the least number are stored in eight bytes.
pub fn row_wide_numbers()
    ensures { Runs (new_store 4096) wide_numbers }
{}

/// The longest document with offsets of two bytes.
pub fn row_small_form()
    ensures { Runs (new_store 4096) small_form }
{}

/// One letter more, and offsets have four bytes.
pub fn row_large_form()
    ensures { Runs (new_store 4096) large_form }
{}

/// The changes of a transaction get one commit.
pub fn row_in_one_transaction()
    ensures runs { Runs (new_store 4096) in_one_transaction }
    ensures committed_early { Allows (new_store 4096) in_one_transaction 11 (Commit 1 2) → ⊥ }
{}
