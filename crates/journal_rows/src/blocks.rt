ghost use Rattle.std.specs.Prelude.{[], ◌∷◌};
ghost use Rattle.journal_model.specs.Journal.{new_store, deadlock, full, memory, by_rollback, by_deadlock, by_end, busy, session, Start, Wait, Did, Undone, Purged, Audited};
ghost use Rattle.journal_rows.specs.Runs.{Runs, Allows};
ghost use Rattle.journal_rows.specs.LockRuns.{circle_of_three, circle_of_two};

/// The session whose request closes a circle is answered with it, from the holder back to itself,
/// and its transaction is undone before it goes on.
pub fn row_circle_of_two()
    ensures runs { Runs (new_store 4096) circle_of_two }
    ensures waits_too { Allows (new_store 4096) circle_of_two 17 (Did 2 3 full) → ⊥ }
    ensures from_itself { Allows (new_store 4096) circle_of_two 17 (Did 2 3 (deadlock (2 ∷ 1 ∷ [])))
        → ⊥ }
    ensures too_short { Allows (new_store 4096) circle_of_two 17 (Did 2 3 (deadlock (1 ∷ []))) → ⊥ }
    ensures not_this_one { Allows (new_store 4096) circle_of_two 15
        (Did 1 5 (deadlock (2 ∷ 1 ∷ []))) → ⊥ }
    ensures another_holder { Allows (new_store 4096) circle_of_two 15 (Wait 1 2 3) → ⊥ }
    ensures waits_again { Allows (new_store 4096) circle_of_two 16 (Wait 1 2 2) → ⊥ }
    ensures goes_on { Allows (new_store 4096) circle_of_two 18 (Start 2 4) → ⊥ }
    ensures ends { Allows (new_store 4096) circle_of_two 18 (Undone 2 by_end) → ⊥ }
    ensures rolls_back { Allows (new_store 4096) circle_of_two 18 (Undone 2 by_rollback) → ⊥ }
    ensures not_yet { Allows (new_store 4096) circle_of_two 19 (Did 1 5 (deadlock (2 ∷ 1 ∷ [])))
        → ⊥ }
    ensures undone_twice { Allows (new_store 4096) circle_of_two 19 (Undone 2 by_deadlock) → ⊥ }
    ensures past_the_last { Allows (new_store 4096) circle_of_two 26 (Purged 4) → ⊥ }
    ensures busy { Allows (new_store 4096) circle_of_two 18 (Audited (busy (session 2))) }
    ensures busy_waiting { Allows (new_store 4096) circle_of_two 17 (Audited (busy (session 1))) }
    ensures memory { Allows (new_store 4096) circle_of_two 17 (Did 2 3 memory) }
{}

/// Three sessions close a circle. The victim's rollback is still due while purge runs, and nothing
/// else of it may come first.
pub fn row_circle_of_three()
    ensures runs { Runs (new_store 4096) circle_of_three }
    ensures two_of_them { Allows (new_store 4096) circle_of_three 53
        (Did 3 5 (deadlock (1 ∷ 3 ∷ []))) → ⊥ }
    ensures starts { Allows (new_store 4096) circle_of_three 54 (Start 3 6) → ⊥ }
    ensures ends { Allows (new_store 4096) circle_of_three 54 (Undone 3 by_end) → ⊥ }
    ensures rolls_back { Allows (new_store 4096) circle_of_three 59 (Undone 3 by_rollback) → ⊥ }
    ensures busy { Allows (new_store 4096) circle_of_three 54 (Audited (busy (session 3))) }
{}
