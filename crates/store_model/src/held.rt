// The LOBs of a store are those that it owns, and its rows stand in order, event by event.
ghost use Rattle.std.specs.Prelude.{◌≡◌, ◌≢◌, ℕ, true, not, ◌==◌, List, [], ◌∷◌, None, is_some};
ghost use Rattle.std.specs.Ordering.{nat_cmp};
ghost use Rattle.std.specs.FinMap.Entries.{put, where_key};
ghost use Rattle.page_model.specs.Pages.{Address};
ghost use Rattle.store_data.specs.Store.{live, Row, Lob, Run, Record, Log, Store, AreRising};
ghost use Rattle.store_model.specs.Lobs.{lob_of};
ghost use Rattle.store_model.specs.History.{row_before};
ghost use Rattle.store_model.specs.Steps.{on_lob, on_lobs, last_in};
ghost use Rattle.store_model.specs.Events.{Plan, log_begun, insert_begun, rebuild_begun, version_begun, patch_made, delete_made, committed_by};
ghost use Rattle.store_model.specs.Undo.{undo_ended, on_oldest, record_passed, log_purged};
ghost use Rattle.store_model.specs.Moves.{MayChange, IsNewest};
ghost use Rattle.store_model.specs.Well.{IsWell};
ghost use Rattle.store_model.specs.Owned.{owned_lobs, IsNotAmong, IsAmong, AreSound};
ghost use Rattle.store_model.specs.Held.{HasLobs};

/// Where no LOB is owned, none begins, and at each owned first page one does.
pub fn lobs_are_owned_ones()
    ensures none { (page : ℕ) (store : Store) → HasLobs store → IsNotAmong page (owned_lobs store)
        → lob_of store.lobs page ≡ None }
    ensures some { (page : ℕ) (store : Store) → HasLobs store → IsAmong page (owned_lobs store)
        → is_some (lob_of store.lobs page) ≡ true }
{}

/// Every event keeps that.
pub fn lobs_stay_owned()
    ensures begun { (trx page : ℕ) (store : Store) → HasLobs store
        → HasLobs (log_begun trx page store) }
    ensures insert { (p : Plan) (lob : Lob) (len : ℕ) (store : Store) → AreRising store.rows
        → MayChange p store → (row_before store p.doc).state ≢ live → HasLobs store
        → HasLobs (insert_begun p lob len store) }
    ensures full { (p : Plan) (lob : Lob) (len : ℕ) (store : Store) → AreRising store.rows
        → MayChange p store → (row_before store p.doc).state ≡ live → HasLobs store
        → HasLobs (rebuild_begun p lob len store) }
    ensures versioned { (p : Plan) (pieces : ℕ) (touched : List ℕ) (store : Store)
        → AreRising store.rows → MayChange p store → (row_before store p.doc).state ≡ live
        → HasLobs store → HasLobs (version_begun p pieces touched store) }
    ensures patched { (p : Plan) (old new : List Run) (store : Store) → AreRising store.rows
        → MayChange p store → (row_before store p.doc).state ≡ live → HasLobs store
        → HasLobs (patch_made p old new store) }
    ensures delete { (p : Plan) (store : Store) → AreRising store.rows → MayChange p store
        → (row_before store p.doc).state ≡ live → HasLobs store → HasLobs (delete_made p store) }
    ensures lob { (page : ℕ) (f : Lob → Lob) (store : Store) → ((l : Lob) → (f l).page ≡ l.page)
        → HasLobs store → HasLobs (on_lobs (on_lob page f) store) }
    ensures commit { (trx : ℕ) (store : Store) → HasLobs store → HasLobs (committed_by trx store) }
    ensures undo { (trx : ℕ) (place : Address) (u : Record) (store : Store) → AreRising store.rows
        → IsNewest trx place u store → IsWell store → AreSound store → HasLobs store
        → HasLobs (undo_ended trx u store) }
    ensures pass { (a : Address) (u : Record) (store : Store) (l : Log) (ls : List Log)
        → IsWell store → AreSound store → AreRising store.rows → store.committed ≡ l ∷ ls
        → last_in l.records ≡ (a, u) ∷ []
        → HasLobs store → HasLobs (record_passed a l.trx u store) }
    ensures first { (f : Log → Log) (store : Store) → ((l : Log) → (f l).records ≡ l.records)
        → HasLobs store → HasLobs (on_oldest f store) }
    ensures last { (store : Store) (l : Log) (ls : List Log) → store.committed ≡ l ∷ ls
        → l.records ≡ [] → HasLobs store → HasLobs (log_purged store) }
{}

/// Rows stay in rising order where one is set or taken out.
#[tactic(auto, using(crate::proofs::PassGives::rising_put, crate::proofs::PassGives::rising_out))]
pub fn rows_stay_rising()
    ensures set { (d : ℕ) (row : Row) (rows : List (ℕ × Row)) → AreRising rows
        → AreRising (put nat_cmp d row rows) }
    ensures out { (d : ℕ) (rows : List (ℕ × Row)) → AreRising rows
        → AreRising (where_key nat_cmp (λ n. not (n == d)) rows) }
{}
