ghost use Rattle.journal_model.specs.Journal.{new_store, no_room, absent, report, busy, session, Wait, Did, Audited};
ghost use Rattle.journal_rows.specs.Runs.{Runs, Allows};
ghost use Rattle.journal_rows.specs.MixedRuns.{small_store, readers_between, levels_and_audits};

/// Four sessions in a store of 16 pages, many of whose changes find too few pages.
pub fn row_small_store()
    ensures runs { Runs (new_store 16) small_store }
    ensures other_need { Allows (new_store 16) small_store 16 (Did 3 2 (no_room 5 4)) → ⊥ }
    ensures busy_purge { Allows (new_store 16) small_store 28 (Audited (busy (session 3))) → ⊥ }
    ensures more_pieces { Allows (new_store 16) small_store 28 (Audited (report 3 3 7 7)) → ⊥ }
{}

/// Readers and writers of documents of two pieces, step by step between each other.
pub fn row_readers_between()
    ensures runs { Runs (new_store 4096) readers_between }
    ensures purged_away { Allows (new_store 4096) readers_between 20 (Audited (report 1 1 2 2))
        → ⊥ }
    ensures newest_shown { Allows (new_store 4096) readers_between 27 (Did 3 1 absent) → ⊥ }
    ensures another_holder { Allows (new_store 4096) readers_between 35 (Wait 3 2 1) → ⊥ }
{}

/// Transactions of both levels; audits count what open transactions have made, and what purge has
/// left.
pub fn row_levels_and_audits()
    ensures runs { Runs (new_store 4096) levels_and_audits }
    ensures dropped_versions { Allows (new_store 4096) levels_and_audits 67
        (Audited (report 4 4 6 6)) → ⊥ }
{}
