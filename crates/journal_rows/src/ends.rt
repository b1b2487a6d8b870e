ghost use Rattle.journal_model.specs.Journal.{new_store, full, done, absent, restarted, by_rollback, by_deadlock, by_end, report, busy, session, Start, Did, Commit, Undone, Audited, Restart};
ghost use Rattle.journal_rows.specs.Runs.{Runs, Allows};
ghost use Rattle.journal_rows.specs.EndRuns.{rollback_under_reader, session_ends, restart_midway};

/// A rollback under a reader: the reader goes on with the document of its view.
pub fn row_rollback_under_reader()
    ensures runs { Runs (new_store 4096) rollback_under_reader }
    ensures answered_first { Allows (new_store 4096) rollback_under_reader 12 (Did 1 4 done) → ⊥ }
    ensures other_cause { Allows (new_store 4096) rollback_under_reader 12 (Undone 1 by_end) → ⊥ }
    ensures committed { Allows (new_store 4096) rollback_under_reader 12 (Commit 1 2) → ⊥ }
    ensures shown_dirty { Allows (new_store 4096) rollback_under_reader 14 (Did 2 2 absent) → ⊥ }
    ensures busy { Allows (new_store 4096) rollback_under_reader 12 (Audited (busy (session 1))) }
{}

/// A session whose statements are all answered has its open transaction undone. `begin` inside a
/// transaction is refused.
pub fn row_session_ends()
    ensures runs { Runs (new_store 4096) session_ends }
    ensures begun_twice { Allows (new_store 4096) session_ends 3 (Did 1 2 done) → ⊥ }
    ensures committed { Allows (new_store 4096) session_ends 6 (Commit 1 1) → ⊥ }
    ensures rolled_back { Allows (new_store 4096) session_ends 6 (Undone 1 by_rollback) → ⊥ }
    ensures by_deadlock { Allows (new_store 4096) session_ends 6 (Undone 1 by_deadlock) → ⊥ }
    ensures ended_early { Allows (new_store 4096) session_ends 4 (Undone 1 by_end) → ⊥ }
{}

/// A restart answers each unanswered statement, and nothing that was half done is left.
pub fn row_restart_midway()
    ensures runs { Runs (new_store 64) restart_midway }
    ensures other_count { Allows (new_store 64) restart_midway 7 (Restart 1) → ⊥ }
    ensures without_a_restart { Allows (new_store 64) restart_midway 7 (Did 2 1 restarted) → ⊥ }
    ensures goes_on { Allows (new_store 64) restart_midway 8 (Start 1 3) → ⊥ }
    ensures audited_first { Allows (new_store 64) restart_midway 8 (Audited (report 2 2 3 3)) → ⊥ }
    ensures answered_so { Allows (new_store 64) restart_midway 8 (Did 2 1 full) → ⊥ }
    ensures twice { Allows (new_store 64) restart_midway 9 (Did 2 1 restarted) → ⊥ }
    ensures more { Allows (new_store 64) restart_midway 12 (Audited (report 2 3 5 5)) → ⊥ }
    ensures again { Allows (new_store 64) restart_midway 9 (Restart 2) }
{}
