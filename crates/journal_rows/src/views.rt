ghost use Rattle.std.specs.Prelude.{codes};
ghost use Rattle.journal_model.specs.Journal.{new_store, doc, report, busy, purging, View, Did, Purged, Audited};
ghost use Rattle.journal_rows.specs.Runs.{Runs, Allows};
ghost use Rattle.journal_rows.specs.ViewRuns.{repeatable_read, read_committed, four_views};

/// Under REPEATABLE READ a session keeps its first view; a document that it has changed is shown at
/// the newest.
pub fn row_repeatable_read()
    ensures runs { Runs (new_store 4096) repeatable_read }
    ensures second_view { Allows (new_store 4096) repeatable_read 20 (View 2 4) → ⊥ }
    ensures changed_elsewhere { Allows (new_store 4096) repeatable_read 23
        (Did 2 5 (doc (codes "{\"n\": 5}"))) → ⊥ }
    ensures at_its_view { Allows (new_store 4096) repeatable_read 20
        (Did 2 4 (doc (codes "{\"k\": 9, \"n\": 1}")))
        → ⊥ }
{}

/// Under READ COMMITTED each read takes a view.
pub fn row_read_committed()
    ensures runs { Runs (new_store 4096) read_committed }
    ensures without_a_view { Allows (new_store 4096) read_committed 18
        (Did 2 3 (doc (codes "{\"n\": 2}"))) → ⊥ }
    ensures old_view { Allows (new_store 4096) read_committed 18 (View 2 2) → ⊥ }
    ensures old_document { Allows (new_store 4096) read_committed 19
        (Did 2 3 (doc (codes "{\"n\": 1}"))) → ⊥ }
{}

/// Purge goes as far as the views in force let it, and a version is held while a view shows it.
pub fn row_four_views()
    ensures runs { Runs (new_store 4096) four_views }
    ensures past_a_view { Allows (new_store 4096) four_views 25 (Purged 2) → ⊥ }
    ensures out_of_order { Allows (new_store 4096) four_views 24 (Purged 2) → ⊥ }
    ensures busy_purge { Allows (new_store 4096) four_views 37 (Audited (busy purging)) → ⊥ }
    ensures fewer_versions { Allows (new_store 4096) four_views 37 (Audited (report 1 1 1 1)) → ⊥ }
    ensures past_the_last { Allows (new_store 4096) four_views 52 (Purged 5) → ⊥ }
    ensures more_versions { Allows (new_store 4096) four_views 53 (Audited (report 1 1 1 2)) → ⊥ }
{}
