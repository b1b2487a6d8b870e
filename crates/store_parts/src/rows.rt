// Worked examples of what the forms in pages show, by computing.
ghost use Rattle.std.specs.Prelude.{◌≡◌, [], ◌∷◌, true, false, Some, None};
ghost use Rattle.undo_model.specs.Data.{led, pointer};
ghost use Rattle.undo_model.specs.LogSteps.{marked_committed, purged_one, begun_purge};
ghost use Rattle.undo_model.specs.LogExamples.{one, two, three, log_three, place};
ghost use Rattle.store_parts.specs.Shows.{touched_from, log_of, entry_of};

/// Bits 0 and 2 of the first byte and bit 1 of the second are pieces 0, 2 and 9; the padding isn't
/// looked at.
pub fn row_touched()
    ensures pieces { touched_from 0 10 (5 ∷ 2 ∷ []) ≡ 0 ∷ 2 ∷ 9 ∷ [] }
    ensures padding { touched_from 0 10 (5 ∷ 254 ∷ []) ≡ 0 ∷ 2 ∷ 9 ∷ [] }
{}

/// Roll pointers lead where the record stands, with the bit of an insert or without it.
pub fn row_led()
    ensures other { led (pointer false (place 5 107)) ≡ Some (place 5 107) }
    ensures insert { led (pointer true (place 5 107)) ≡ Some (place 5 107) }
    ensures none { led 0 ≡ None }
{}

/// A log of three records on two pages shows those that purge has still to do, newest first.
pub fn row_log()
    ensures pages { (log_of log_three).pages ≡ 6 ∷ 4 ∷ [] }
    ensures active { (log_of log_three).records
        ≡ entry_of three ∷ entry_of two ∷ entry_of one ∷ [] }
    ensures due { (log_of (marked_committed 9 log_three)).records
        ≡ entry_of three ∷ entry_of two ∷ entry_of one ∷ [] }
    ensures passed { (log_of (purged_one (begun_purge (marked_committed 9 log_three)))).records
        ≡ entry_of three ∷ entry_of two ∷ [] }
    ensures done { (log_of (purged_one
        (purged_one (purged_one (marked_committed 9 log_three))))).records ≡ [] }
{}
