ghost use Rattle.std.specs.Prelude.{◌≡◌, ℕ, List, true};
ghost use Rattle.journal_model.specs.Journal.{Script, Opening, Entry};
ghost use Rattle.journal_model.specs.Part.{own, touches};
ghost use Rattle.journal_model.specs.Locks.{sessions, holds};
ghost use Rattle.journal_model.specs.Held.{is_in};
ghost use Rattle.journal_model.specs.Legal.{IsLegal};
ghost use Rattle.journal_model.specs.History.{history, has_own};
ghost use Rattle.history_model.specs.Laws.{IsNumbered};

/// In a legal journal no two sessions hold one document.
#[tactic(auto, using(crate::proofs::LockLemmas::alone))]
pub fn one_holder()
    ensures { (o : Opening) (script : Script) (past : List Entry) → IsLegal o script past
        → (d s t : ℕ) → is_in s sessions ≡ true → is_in t sessions ≡ true
        → holds script s d past ≡ true → holds script t d past ≡ true → s ≡ t }
{}

/// No two sessions have own changes of one document.
#[tactic(auto, using(crate::proofs::OwnerLemmas::one_owner))]
pub fn one_owner()
    ensures { (o : Opening) (script : Script) (past : List Entry) → IsNumbered script
        → IsLegal o script past → (d s t : ℕ)
        → touches d (own script s past) ≡ true → touches d (own script t past) ≡ true → s ≡ t }
{}

/// A history has changes of a session that hasn't committed exactly where the session's own calls
/// have the document.
#[tactic(auto, using(crate::proofs::OwnedLemmas::owned_of))]
pub fn owns_its_changes()
    ensures { (o : Opening) (script : Script) (past : List Entry) → IsNumbered script
        → IsLegal o script past → (d s : ℕ)
        → has_own s (history o script past d) ≡ touches d (own script s past) }
{}
