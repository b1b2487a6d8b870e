ghost use Rattle.std.specs.Prelude.{◌≡◌, List, [], ◌∷◌, reverse, true, None};
ghost use Rattle.tree_model.specs.Tree.{null};
ghost use Rattle.journal_model.specs.Documents.{Insert};
ghost use Rattle.journal_model.specs.Journal.{Script, Opening, Entry, new_store, say, call, report, full, Start, Did, Audited, Restart};
ghost use Rattle.journal_model.specs.Legal.{Legal, commit_due};
ghost use Rattle.journal_model.specs.Built.{Built};
ghost use Rattle.journal_model.specs.Turns.{TurnsBy, Turns, AreEnded};

/// A journal that follows the lines of its script ends where all is answered, no session is inside
/// a transaction, and no commit is due.
pub fn turns_are_ended()
    ensures ended { (table : Built) (o : Opening) (script : Script) (entries : List Entry)
        → TurnsBy table o script entries
        → AreEnded o script (reverse entries) }
    ensures settled { (table : Built) (o : Opening) (script : Script) (entries : List Entry)
        → TurnsBy table o script entries
        → commit_due o script (reverse entries) ≡ None }
{}

/// What only a line asks for stands in no part but that line's: behind the last line nothing is
/// restarted, audited or purged, though it
/// would be legal. A run doesn't end before a commit that is due.
pub fn row_turns()
    ensures empty { Turns (new_store 4096) [] [] }
    ensures legal { Legal (new_store 4096) [] (Restart 0 ∷ Restart 0 ∷ []) }
    ensures restarted { Turns (new_store 4096) [] (Restart 0 ∷ Restart 0 ∷ []) → ⊥ }
    ensures audited { Turns (new_store 4096) [] (Audited (report 0 0 0 0) ∷ []) → ⊥ }
    ensures uncommitted { Turns (new_store 4096) (say 1 true (call (Insert 1 null)) ∷ [])
        (Start 1 1 ∷ Did 1 1 full ∷ []) → ⊥ }
{}
