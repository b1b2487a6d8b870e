ghost use Rattle.std.specs.Prelude.{◌≡◌, ℕ, List, []};
ghost use Rattle.journal_model.specs.Journal.{Script, Opening, Entry, new_store};
ghost use Rattle.journal_model.specs.Part.{own, commits_of, purged_of};
ghost use Rattle.journal_model.specs.Legal.{IsLegal};
ghost use Rattle.journal_model.specs.History.{history};
ghost use Rattle.journal_model.specs.Versions.{held, lobs_of};
ghost use Rattle.journal_model.specs.Documents.{look};
ghost use Rattle.history_model.specs.Scripts.{HasStatements, MayStand};
ghost use Rattle.history_model.specs.Laws.{IsRun, IsNumbered};
ghost use Rattle.history_model.specs.Sound.{OfOwners, AreOrdered, IsAfter, IsSound, IsFirst, IsAtRest, IsPieced};

/// The LOBs and versions that changes made, undone and purged leave are those that the document's
/// history holds.
#[tactic(auto, using(crate::proofs::HeldLemmas::held_is))]
pub fn held_by_histories()
    ensures { (o : Opening) (script : Script) → IsRun o script → IsFirst o
        → (past : List Entry) (d : ℕ) → IsLegal o script past
        → held o script past d ≡ lobs_of (history o script past d) }
{}

/// Each change in a history fits what stands below it: an insert where nothing stood, any other
/// where a document did; a LOB holds
/// what stands exactly where a document does.
pub fn histories_are_sound()
    ensures { (o : Opening) (script : Script) → IsRun o script → IsFirst o
        → (past : List Entry) (d : ℕ)
        → IsLegal o script past → IsSound (history o script past d) }
{}

/// In a history the changes of the session that hasn't committed stand on top, and below them
/// commits fall; none of them is purged past.
#[tactic(auto, using(crate::proofs::OrderLemmas::ordered_of, crate::proofs::OrderLemmas::after_of))]
pub fn histories_are_in_order()
    ensures ordered { (o : Opening) (script : Script) → IsRun o script → (past : List Entry) (d : ℕ)
        → IsLegal o script past → AreOrdered (history o script past d).changes }
    ensures unpurged { (o : Opening) (script : Script) → IsRun o script
        → (past : List Entry) (d : ℕ) → IsLegal o script past
        → OfOwners (IsAfter (purged_of o past)) (history o script past d).changes }
{}

/// What these laws ask of an opening holds of a new store.
#[tactic(auto, using(crate::proofs::NewLemmas::new_run, crate::proofs::NewLemmas::new_first, crate::proofs::NewLemmas::new_stands))]
pub fn new_stores()
    ensures run { (pages : ℕ) (script : Script) → IsNumbered script
        → IsRun (new_store pages) script }
    ensures first { (pages : ℕ) → IsFirst (new_store pages) }
    ensures pieced { (pages : ℕ) (script : Script) (d : ℕ)
        → IsPieced (history (new_store pages) script [] d) }
    ensures stand { (pages d : ℕ) → MayStand (look (new_store pages).documents d) }
{}

/// Where all commits are purged and no session has own changes, a document has no change left, and
/// one LOB, with one version of each
/// piece, exactly where it stands.
#[tactic(auto, using(crate::proofs::RestLemmas::all_purged))]
pub fn nothing_is_left()
    ensures { (o : Opening) (script : Script) → IsRun o script → IsFirst o → (past : List Entry)
        → IsLegal o script past → purged_of o past ≡ commits_of o past
        → ((s : ℕ) → own script s past ≡ []) → (d : ℕ)
        → IsAtRest (held o script past d) (history o script past d) }
{}

/// The LOB that holds a document has as many pieces as its bytes need, behind each change that a
/// history keeps.
pub fn histories_are_pieced()
    ensures { (o : Opening) (script : Script) → IsRun o script → IsFirst o → HasStatements script
        → ((d : ℕ) → MayStand (look o.documents d))
        → ((d : ℕ) → IsPieced (history o script [] d)) → (past : List Entry) (d : ℕ)
        → IsLegal o script past → IsPieced (history o script past d) }
{}
