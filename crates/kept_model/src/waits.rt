//! Who waits for whom, and who is busy, read off the lock table and the sessions.
ghost use Rattle.std.specs.Prelude.{◌≡◌, ◌≤◌, ℕ, suc, true, List, Some};
ghost use Rattle.journal_model.specs.Journal.{Script, Opening, session, purging};
ghost use Rattle.journal_model.specs.Locks.{holder, is_circle};
ghost use Rattle.journal_model.specs.Legal.{is_met, IsBusy};
ghost use Rattle.kept_model.specs.Engine.{ReadView, asking, Engine};
ghost use Rattle.kept_model.specs.Names.{is_purging};
ghost use Rattle.kept_model.specs.Kept.{Kept};
ghost use Rattle.kept_model.specs.Waits.{IsCircle, IsAtWork};

/// A circle in the lock table is one by the journal.
pub fn circle_is_met()
    ensures { (o : Opening) (script : Script) (e : Engine) → Kept o script e
        → (s d : ℕ) (l : List ℕ) → (e.sessions s).task ≡ asking d → IsCircle e s l
        → is_circle script s l e.journal ≡ true }
{}

/// Whoever has a document's lock may be named by the entry of a wait for it.
pub fn lock_is_met()
    ensures { (o : Opening) (script : Script) (e : Engine) → Kept o script e
        → (s d h : ℕ) → e.locks d ≡ Some h
        → is_met o script s d h (holder script d e.journal) e.journal ≡ true }
{}

/// An audit may name a session whose change is under way, or whose rollback is by a statement or
/// by a deadlock; and purge, once it is begun or may begin.
pub fn work_is_busy()
    ensures session { (o : Opening) (script : Script) (e : Engine) → Kept o script e → (s : ℕ)
        → IsAtWork (e.sessions s).task → IsBusy o script (session s) e.journal }
    ensures may_purge { (o : Opening) (script : Script) (e : Engine) → Kept o script e
        → suc e.store.purged ≤ e.store.commits
        → ((s : ℕ) (v : ReadView) → (e.sessions s).view ≡ Some v → suc e.store.purged ≤ v.commits)
        → IsBusy o script purging e.journal }
    ensures purging { (o : Opening) (script : Script) (e : Engine) → Kept o script e
        → is_purging e.store.committed ≡ true → IsBusy o script purging e.journal }
{}
