ghost use Rattle.std.specs.Prelude.{◌≡◌, ◌≤◌, ℕ, List, true, Some};
ghost use Rattle.journal_model.specs.Documents.{look};
ghost use Rattle.journal_model.specs.Journal.{Script, Opening, Entry};
ghost use Rattle.journal_model.specs.Part.{docs, newest, shown, view_of, purged_of};
ghost use Rattle.journal_model.specs.Legal.{IsLegal};
ghost use Rattle.journal_model.specs.Locks.{sessions};
ghost use Rattle.journal_model.specs.Held.{is_in};
ghost use Rattle.journal_model.specs.History.{history, at_commit, newest_in, shown_in};
ghost use Rattle.history_model.specs.Laws.{IsRun};

/// The stored document behind the commits up to one that isn't purged past is the first in the
/// history among these commits.
#[tactic(auto, using(crate::proofs::HistoryLemmas::reads_at))]
pub fn reads_at_commits()
    ensures { (o : Opening) (script : Script) (past : List Entry) → IsRun o script
        → IsLegal o script past → (k d : ℕ) → purged_of o past ≤ k
        → look (docs o script past k) d ≡ at_commit k (history o script past d) }
{}

/// The newest document of a session is the first in the history that is committed or its own.
#[tactic(auto, using(crate::proofs::HistoryLemmas::reads_own))]
pub fn reads_newest()
    ensures { (o : Opening) (script : Script) (past : List Entry) → IsRun o script
        → IsLegal o script past → (s d : ℕ)
        → look (newest o script s past) d ≡ newest_in s (history o script past d) }
{}

/// The view of a session that is in force shows commits that aren't purged past.
#[tactic(auto, using(crate::proofs::ViewLemmas::view_above))]
pub fn views_are_kept()
    ensures { (o : Opening) (script : Script) → IsRun o script → (s : ℕ) → is_in s sessions ≡ true
        → (past : List Entry) (k : ℕ) → IsLegal o script past
        → view_of script s past ≡ Some k → purged_of o past ≤ k }
{}

/// What a read shows is the session's own change in the history, or else the first among the
/// commits of its view.
#[tactic(auto, using(crate::proofs::ViewLemmas::shown_so))]
pub fn reads_shown()
    ensures { (o : Opening) (script : Script) → IsRun o script → (s : ℕ) → is_in s sessions ≡ true
        → (past : List Entry) (d : ℕ) → IsLegal o script past
        → shown o script s d past ≡ shown_in s (view_of script s past) (history o script past d) }
{}
