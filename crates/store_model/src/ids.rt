// Transaction ids event by event, and the documents under a number of commits where an undo log
// comes or goes.
ghost use Rattle.std.specs.Prelude.{◌≡◌, ◌≢◌, ◌≤◌, ℕ, List, [], ◌∷◌};
ghost use Rattle.page_model.specs.Pages.{Address};
ghost use Rattle.store_data.specs.Store.{live, Row, Lob, Run, Body, Record, Log, Store};
ghost use Rattle.store_model.specs.History.{row_before};
ghost use Rattle.store_model.specs.Steps.{on_lobs, last_in};
ghost use Rattle.store_model.specs.Events.{Plan, log_begun, planned, patch_made, committed_by};
ghost use Rattle.store_model.specs.Undo.{undo_ended, on_oldest, record_passed, log_purged};
ghost use Rattle.store_model.specs.Owned.{AreSound, AreOf};
ghost use Rattle.store_model.specs.Behind.{AllRows};
ghost use Rattle.store_model.specs.Moves.{MayChange, Begins, IsNewest, OthersElsewhere, ArePaired, StandThere, IsUntouched};
ghost use Rattle.store_model.specs.Well.{IsWell};
ghost use Rattle.store_model.specs.Keeps.{KeepsUnder};
ghost use Rattle.store_model.specs.Ids.{HasIds};

/// A log with the next transaction id changes nothing that is shown.
pub fn log_begins()
    ensures well { (trx page : ℕ) (store : Store) → IsWell store → HasIds store
        → store.next_trx ≤ trx → IsWell (log_begun trx page store) }
    ensures ids { (trx page : ℕ) (store : Store) → HasIds store → store.next_trx ≤ trx → 1 ≤ trx
        → HasIds (log_begun trx page store) }
    ensures under { (trx page : ℕ) (store : Store) → HasIds store → store.next_trx ≤ trx
        → KeepsUnder 0 store (log_begun trx page store) }
{}

/// Every other event keeps the facts on ids.
pub fn ids_stay()
    ensures change { (p : Plan) (new : Row → Row) (body : Body) (f : List Lob → List Lob)
        (store : Store) → HasIds store → MayChange p store
        → (new (row_before store p.doc)).trx ≡ p.trx
        → HasIds (on_lobs f (planned p new body store)) }
    ensures lobs { (f : List Lob → List Lob) (store : Store) → HasIds store
        → HasIds (on_lobs f store) }
    ensures undo { (trx : ℕ) (place : Address) (u : Record) (store : Store) → IsWell store
        → HasIds store → IsNewest trx place u store → HasIds (undo_ended trx u store) }
    ensures commit { (trx : ℕ) (store : Store) → IsWell store → HasIds store
        → HasIds (committed_by trx store) }
    ensures pass { (a : Address) (u : Record) (store : Store) (l : Log) (ls : List Log)
        → IsWell store → HasIds store → store.committed ≡ l ∷ ls → last_in l.records ≡ (a, u) ∷ []
        → HasIds (record_passed a l.trx u store) }
    ensures first { (f : Log → Log) (store : Store) → ((l : Log) → (f l).records ≡ l.records)
        → ((l : Log) → (f l).trx ≡ l.trx) → HasIds store → HasIds (on_oldest f store) }
    ensures last { (store : Store) (l : Log) (ls : List Log) → HasIds store
        → store.committed ≡ l ∷ ls → l.records ≡ [] → HasIds (log_purged store) }
{}

/// Undoing a record leaves each document under every number of commits, also where its log goes
/// with it.
pub fn undo_keeps_under()
    ensures { (trx : ℕ) (place : Address) (u : Record) (store : Store) → IsWell store → HasIds store
        → IsNewest trx place u store
        → ((d : ℕ) → d ≢ u.doc → OthersElsewhere u.body store d)
        → KeepsUnder 0 store (undo_ended trx u store) }
{}

/// In a sound store the runs of one document's LOB touch no other document's.
pub fn runs_stay_inside()
    ensures others { (store : Store) (d e : ℕ) (rs : List Run) → IsWell store → AreSound store
        → d ≢ e → (row_before store d).state ≡ live
        → AreOf (row_before store d).lob.page store.lobs rs
        → AllRows (IsUntouched rs store.lobs) store e }
    ensures patch { (p : Plan) (old new : List Run) (store : Store) → IsWell store → AreSound store
        → MayChange p store → (row_before store p.doc).state ≡ live
        → AreOf (row_before store p.doc).lob.page store.lobs new → ArePaired old new
        → StandThere old store.lobs → Begins p store (patch_made p old new store) }
{}
