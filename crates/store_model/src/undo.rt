// Laws on the events of a rollback: what is undone in half leaves the rows behind the newest, and
// what is undone leaves the history before.
ghost use Rattle.std.specs.Prelude.{◌≡◌, ◌≢◌, ◌≤◌, ℕ, true, false, List, [], ◌∷◌, None, Some};
ghost use Rattle.page_model.specs.Pages.{Address};
ghost use Rattle.store_data.specs.Store.{Lob, Record, Store};
ghost use Rattle.store_model.specs.Lobs.{lob_of};
ghost use Rattle.store_model.specs.History.{history, changes};
ghost use Rattle.store_model.specs.Steps.{on_lobs, all_but_first};
ghost use Rattle.store_model.specs.Undo.{piece_freed, index_freed, version_popped, is_gone, without_newest, undo_ended, emptied, undone_record};
ghost use Rattle.store_model.specs.Behind.{AllBefore, AllRows, IsElsewhere, IsBelow, AtPiece};
ghost use Rattle.store_model.specs.Moves.{KeepsOlder, KeepsAll, IsNewest, OlderElsewhere, OthersElsewhere, OlderBelow};

/// The events before the last: pieces and index pages of a new LOB freed, versions popped.
#[tactic(auto, using(crate::proofs::UndoLemmas::free_keeps_older, crate::proofs::UndoLemmas::free_keeps_all, crate::proofs::UndoLemmas::index_keeps_older, crate::proofs::UndoLemmas::index_keeps_all))]
pub fn half_undone_keeps()
    ensures piece { (page : ℕ) (store : Store) (d : ℕ) (free : List Address)
        → AllBefore (IsElsewhere page) (changes store d)
        → KeepsOlder d store (piece_freed page free store) }
    ensures piece_others { (page : ℕ) (store : Store) (d : ℕ) (free : List Address)
        → AllRows (IsElsewhere page) store d → KeepsAll d store (piece_freed page free store) }
    ensures index { (page : ℕ) (store : Store) (d : ℕ)
        → AllBefore (IsElsewhere page) (changes store d)
        → KeepsOlder d store (index_freed page store) }
    ensures index_others { (page : ℕ) (store : Store) (d : ℕ) → AllRows (IsElsewhere page) store d
        → KeepsAll d store (index_freed page store) }
    ensures version { (page k n : ℕ) (free : List Address) (store : Store) (d : ℕ)
        → ((l : Lob) → lob_of store.lobs page ≡ Some l
        → AtPiece k (λ p. n ≤ p.head.number) l.pieces)
        → AllBefore (IsBelow page n) (changes store d)
        → KeepsOlder d store (version_popped page k free store) }
    ensures version_others { (page k n : ℕ) (free : List Address) (store : Store) (d : ℕ)
        → ((l : Lob) → lob_of store.lobs page ≡ Some l
        → AtPiece k (λ p. n ≤ p.head.number) l.pieces)
        → AllRows (IsBelow page n) store d → KeepsAll d store (version_popped page k free store) }
{}

/// The last event of a record: its document has the history before, where the row stays.
#[tactic(auto, using(crate::proofs::UndoLemmas::undo_own))]
pub fn undo_restores()
    ensures { (trx : ℕ) (place : Address) (u : Record) (store : Store) → IsNewest trx place u store
        → OlderElsewhere u.body (changes store u.doc)
        → is_gone (without_newest trx u store) u.before.state u.before ≡ false
        → history (undo_ended trx u store) u.doc ≡ all_but_first (history store u.doc) }
{}

/// Where the row goes, nothing was shown before.
pub fn undo_removes_row()
    ensures { (trx : ℕ) (place : Address) (u : Record) (store : Store) → IsNewest trx place u store
        → is_gone (without_newest trx u store) u.before.state u.before ≡ true
        → changes (without_newest trx u store) u.doc ≡ []
        → (history (undo_ended trx u store) u.doc ≡ record { trx = 0; length = 0; bytes = None } ∷ [])
        × (all_but_first (history store u.doc)
        ≡ record { trx = u.before.trx; length = u.before.lob.length; bytes = None } ∷ []) }
{}

/// Other documents stay.
#[tactic(auto, using(crate::proofs::UndoLemmas::undo_others))]
pub fn undo_keeps_others()
    ensures { (trx : ℕ) (place : Address) (u : Record) (store : Store) (d : ℕ)
        → IsNewest trx place u store → d ≢ u.doc → OthersElsewhere u.body store d
        → KeepsAll d store (undo_ended trx u store) }
{}

/// A record is undone whole.
#[tactic(auto, using(crate::proofs::UndoLemmas::undone_own))]
pub fn record_undone()
    ensures { (trx : ℕ) (place : Address) (u : Record) (store : Store) → IsNewest trx place u store
        → OlderElsewhere u.body (changes store u.doc)
        → OlderBelow u.body u.before (changes store u.doc)
        → is_gone (without_newest trx u
        (on_lobs (emptied u.body u.before) store)) u.before.state u.before ≡ false
        → history (undone_record trx u store) u.doc ≡ all_but_first (history store u.doc) }
{}
