// Which logs may be undone: a rollback begins, and what a change makes of its log.
ghost use Rattle.std.specs.Prelude.{◌≡◌, ◌≤◌, ℕ, suc, List, [], ◌∷◌, ◌++◌, length, Option, Some, None};
ghost use Rattle.page_model.specs.Pages.{Pages, Address};
ghost use Rattle.page_model.specs.Steps.{different};
ghost use Rattle.store_data.specs.Pieces.{pushed};
ghost use Rattle.store_data.specs.Store.{Run, Version, Piece, Lob, inserted, rebuilt, versioned, patched, removed, Record};
ghost use Rattle.lob_model.specs.Pieces.{versions};
ghost use Rattle.store_model.specs.Keeps.{Makes};
ghost use Rattle.store_model.specs.Lobs.{lob_of};
ghost use Rattle.store_model.specs.Moves.{ArePaired, StandThere};
ghost use Rattle.store_model.specs.Runs.{lobs_laid};
ghost use Rattle.store_model.specs.Steps.{on_lob, at_piece, at_version, with_piece, with_nodes};
ghost use Rattle.store_model.specs.Takes.{piece_of};
ghost use Rattle.store_model.specs.Versions.{AreUpTo};
ghost use Rattle.store_pages.specs.Runs.{LieIn};
ghost use Rattle.store_steps.specs.Lobs.{IsSingle};
ghost use Rattle.store_steps.specs.Reached.{AreBelow};
ghost use Rattle.store_model.specs.Consistent.{IsConsistent};
ghost use Rattle.rollback.specs.declared.job.Undoing.{Undoing};
ghost use Rattle.rollback.specs.Ends.{CanEnd};
ghost use Rattle.rollback.specs.Next.{IsUndoing};
ghost use Rattle.rollback.specs.Standing.{Scene, IsAt};
ghost use Rattle.store_steps.specs.Runs.{run_pages};
ghost use Rattle.rollback.specs.Undoable.{IsToCome, AreAscending, InLob, AreUndoable};

/// In a consistent store the undoing of a log's newest record may end, whatever its row before
/// names.
pub fn record_may_end()
    ensures { (told : Option Pages) (first : ℕ) (s : Scene) → IsAt told first s
        → IsConsistent s.store → CanEnd s }
{}

/// A job that is started is one that goes on, where the log's records may be undone.
pub fn undoing_begins()
    ensures { (told : Option Pages) (job : Undoing) (s : Scene) → IsAt told job.log.0 s
        → IsConsistent s.store → AreUndoable s.log.records s.store.lobs
        → job.reached ≡ None → IsUndoing told job s }
{}

/// The records of a log may be undone still where a change is made, event by event, whose record
/// is put in front of them: what a planning event makes of the LOBs, a piece that is added to a new
/// one, and a version that is pushed in front of one that is at most the version before.
pub fn changes_stay_undoable()
    ensures insert { (u : Address × Record) (us : List (Address × Record)) (l : Lob)
        (lobs : List Lob) → u.1.body ≡ inserted l.page → lob_of lobs l.page ≡ None → IsSingle l
        → AreUndoable us lobs → AreUndoable (u ∷ us) (lobs ++ l ∷ []) }
    ensures full { (u : Address × Record) (us : List (Address × Record)) (l : Lob)
        (lobs : List Lob) → u.1.body ≡ rebuilt l.page → lob_of lobs l.page ≡ None → IsSingle l
        → AreUndoable us lobs → AreUndoable (u ∷ us) (lobs ++ l ∷ []) }
    ensures piece { (u : Address × Record) (us : List (Address × Record)) (page : ℕ) (p : Piece)
        (index : List ℕ) (free : List Address) (lobs : List Lob) → Makes page u.1.body
        → p.older ≡ [] → AreUndoable (u ∷ us) lobs
        → AreUndoable (u ∷ us) (on_lob page (λ l. with_nodes index free (with_piece p l)) lobs) }
    ensures versioned { (u : Address × Record) (us : List (Address × Record)) (n : ℕ)
        (touched : List ℕ) → u.1.body ≡ versioned n touched → (lobs : List Lob) (l : Lob)
        → lob_of lobs u.1.before.lob.page ≡ Some l → (w : ℕ)
        → AreUpTo u.1.before.lob.version l.pieces → AreAscending touched
        → AreBelow (length l.pieces) touched → AreUndoable us lobs
        → AreUndoable (u ∷ us) (on_lob u.1.before.lob.page (at_version w) lobs) }
    ensures push { (u : Address × Record) (us : List (Address × Record)) (n : ℕ)
        (touched : List ℕ) → u.1.body ≡ versioned n touched → (lobs : List Lob) (l : Lob)
        → lob_of lobs u.1.before.lob.page ≡ Some l → (k : ℕ) (p : Piece) (node : Address)
        (x : Version) (index : List ℕ) (free : List Address) → piece_of k l.pieces ≡ Some p
        → p.head.number ≤ u.1.before.lob.version → x.number ≡ suc u.1.before.lob.version
        → IsToCome None k touched → AreUndoable (u ∷ us) lobs
        → AreUndoable (u ∷ us) (on_lob u.1.before.lob.page
        (λ m. with_nodes index free (at_piece k (pushed node x) m)) lobs) }
    ensures patched { (u : Address × Record) (us : List (Address × Record)) (old fresh : List Run)
        (lobs : List Lob) → u.1.body ≡ patched old → ArePaired old fresh → StandThere old lobs
        → different (run_pages old) ≤ 4
        → InLob u.1.before.lob.page lobs (λ l. LieIn old (versions l.pieces))
        → AreUndoable us lobs → AreUndoable (u ∷ us) (lobs_laid fresh lobs) }
    ensures delete { (u : Address × Record) (us : List (Address × Record)) (lobs : List Lob)
        → u.1.body ≡ removed → AreUndoable us lobs → AreUndoable (u ∷ us) lobs }
{}
