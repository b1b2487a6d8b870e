ghost use Rattle.std.specs.Prelude.{◌≡◌, ◌≤◌, ◌+◌, ℕ, List, ◌∷◌, Some, None, true};
ghost use Rattle.binary_model.specs.Need.{index_pages};
ghost use Rattle.journal_model.specs.Journal.{Script, Opening, Entry};
ghost use Rattle.journal_model.specs.Locks.{sessions};
ghost use Rattle.journal_model.specs.Held.{HeldLob, is_in, versions_in};
ghost use Rattle.journal_model.specs.Versions.{held};
ghost use Rattle.journal_model.specs.Ceiling.{need_now, pushed_now, index_now, ceiling};
ghost use Rattle.history_model.specs.Laws.{Among};

/// The ceiling without an asker has the asker's need too.
#[tactic(auto, using(crate::proofs::CeilingLemmas::ceiling_apart))]
pub fn needs_stand_apart()
    ensures { (o : Opening) (script : Script) (s : ℕ) (past : List Entry) → 1 ≤ s → s ≤ 64
        → ceiling o script None past ≡ ceiling o script (Some s) past + need_now o script past s }
{}

/// The index pages that are counted for a LOB of a document never get fewer, and suffice for its
/// versions and those that a session's
/// unanswered change adds.
#[tactic(auto, using(crate::proofs::CeilingLemmas::index_stays, crate::proofs::CeilingLemmas::index_suffices))]
pub fn index_pages_suffice()
    ensures stays { (o : Opening) (script : Script) (d : ℕ) (e : Entry) (past : List Entry)
        → index_now o script d past ≤ index_now o script d (e ∷ past) }
    ensures suffice { (o : Opening) (script : Script) (d t : ℕ) (past : List Entry) (l : HeldLob)
        → is_in t sessions ≡ true → Among l (held o script past d)
        → index_pages (versions_in l + pushed_now o script d past t) ≤ index_now o script d past }
{}
