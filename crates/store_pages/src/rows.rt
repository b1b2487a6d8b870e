// Worked examples of what the forms in pages show, by computing.
ghost use Rattle.std.specs.Prelude.{◌≡◌, []};
ghost use Rattle.store_data.specs.Logs.{passed, with_entry};
ghost use Rattle.undo_model.specs.LogSteps.{appended, marked_committed, purged_one, page_dropped};
ghost use Rattle.undo_model.specs.LogExamples.{three, log_two, log_three};
ghost use Rattle.store_data.specs.Store.{committed};
ghost use Rattle.store_parts.specs.Shows.{log_of, record_of};

/// A log of three records on two pages: the steps on pages are the steps on plain data.
pub fn row_log()
    ensures appends { log_of (appended three log_two) ≡ with_entry three.at (record_of three.undo)
        (log_of log_two) }
    ensures commits { log_of (marked_committed 9 log_three) ≡ record
        (log_of log_three) { state = committed; number = 9 } }
    ensures purges { log_of (purged_one (marked_committed 9 log_three)) ≡ passed
        (log_of (marked_committed 9 log_three)) }
    ensures purges_on { log_of (purged_one (purged_one (marked_committed 9 log_three))) ≡ passed
        (passed (log_of (marked_committed 9 log_three))) }
    ensures purges_all { log_of
        (purged_one (purged_one (purged_one (marked_committed 9 log_three)))) ≡ passed
        (passed (passed (log_of (marked_committed 9 log_three)))) }
    ensures drops { (log_of (page_dropped
        (purged_one (purged_one (purged_one (marked_committed 9 log_three)))))).records ≡ [] }
{}
