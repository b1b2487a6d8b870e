// A consistent store stays so, event by event: the one law that a proof over events cites.
ghost use Rattle.std.specs.Prelude.{◌≡◌, ◌≢◌, ◌≤◌, ℕ, List, [], ◌∷◌, ◌++◌, Some};
ghost use Rattle.page_model.specs.Pages.{Address};
ghost use Rattle.store_data.specs.Store.{live, Version, Piece, Lob, Run, Record, Log, Store};
ghost use Rattle.store_model.specs.Lobs.{lob_of};
ghost use Rattle.store_model.specs.History.{changes, row_before};
ghost use Rattle.store_model.specs.Steps.{last_in};
ghost use Rattle.store_model.specs.Events.{Plan, log_begun, with_log_pages, with_row_pages, insert_begun, rebuild_begun, version_begun, patch_made, delete_made, piece_added, version_pushed, committed_by};
ghost use Rattle.store_model.specs.Undo.{undo_ended, record_passed, purge_begun, log_pages_left, log_purged, piece_freed, index_freed, version_popped, version_dropped};
ghost use Rattle.store_model.specs.Moves.{MayChange, IsNewest};
ghost use Rattle.store_model.specs.Well.{IsNew};
ghost use Rattle.store_model.specs.Owned.{owned, owned_lobs, rest_of, data_page, data_pages, IsNotAmong, IsAmong, AreDifferent, AreSound};
ghost use Rattle.store_model.specs.Takes.{AreUnowned, piece_of};
ghost use Rattle.store_model.specs.Versions.{AreOlderUpTo, AreUpTo, IsLowered};
ghost use Rattle.store_model.specs.Consistent.{IsConsistent};

/// Where a log and a change begin. The pages of a new log and LOB are different, and none was
/// owned.
pub fn changes_stay_consistent()
    ensures log { (trx page : ℕ) (store : Store) → IsConsistent store → store.next_trx ≤ trx
        → 1 ≤ trx → IsNotAmong page (owned store) → IsConsistent (log_begun trx page store) }
    ensures insert { (p : Plan) (store : Store) → IsConsistent store → MayChange p store
        → IsNew p.place (changes store p.doc) → (lob : Lob) (len : ℕ)
        → AreDifferent (lob.page ∷ rest_of (Some lob))
        → AreUnowned (lob.page ∷ rest_of (Some lob)) store → lob.version ≡ 1
        → AreUpTo 1 lob.pieces
        → (row_before store p.doc).state ≢ live → IsConsistent (insert_begun p lob len store) }
    ensures full { (p : Plan) (store : Store) → IsConsistent store → MayChange p store
        → IsNew p.place (changes store p.doc) → (lob : Lob) (len : ℕ)
        → AreDifferent (lob.page ∷ rest_of (Some lob))
        → AreUnowned (lob.page ∷ rest_of (Some lob)) store → lob.version ≡ 1
        → AreUpTo 1 lob.pieces
        → (row_before store p.doc).state ≡ live → IsConsistent (rebuild_begun p lob len store) }
    ensures versioned { (p : Plan) (store : Store) → IsConsistent store → MayChange p store
        → IsNew p.place (changes store p.doc) → (pieces : ℕ) (touched : List ℕ)
        → (row_before store p.doc).state ≡ live
        → IsConsistent (version_begun p pieces touched store) }
    ensures patched { (p : Plan) (store : Store) → IsConsistent store → MayChange p store
        → IsNew p.place (changes store p.doc) → (old fresh : List Run)
        → (row_before store p.doc).state ≡ live → IsConsistent (patch_made p old fresh store) }
    ensures delete { (p : Plan) (store : Store) → IsConsistent store → MayChange p store
        → IsNew p.place (changes store p.doc)
        → (row_before store p.doc).state ≡ live → IsConsistent (delete_made p store) }
{}

/// Where a LOB that is owned changes. Index pages that are taken stand in front of the others.
pub fn lob_events_stay_consistent()
    ensures push { (page : ℕ) (l : Lob) (store : Store) → IsConsistent store
        → lob_of store.lobs page ≡ Some l → IsAmong page (owned_lobs store)
        → (k : ℕ) (p : Piece) (node : Address) (v : Version) (taken : List ℕ) (free : List Address)
        → piece_of k l.pieces ≡ Some p → v.number ≤ l.version
        → AreDifferent (taken ++ data_page l.page v)
        → AreUnowned (taken ++ data_page l.page v) store
        → IsConsistent (version_pushed page k node v (taken ++ l.index) free store) }
    ensures add { (page : ℕ) (l : Lob) (store : Store) → IsConsistent store
        → lob_of store.lobs page ≡ Some l → IsAmong page (owned_lobs store)
        → (p : Piece) (taken : List ℕ) (free : List Address)
        → AreOlderUpTo l.version (p.head ∷ p.older)
        → AreDifferent (taken ++ data_pages l.page (p.head ∷ p.older))
        → AreUnowned (taken ++ data_pages l.page (p.head ∷ p.older)) store
        → IsConsistent (piece_added page p (taken ++ l.index) free store) }
    ensures pop { (page : ℕ) (l : Lob) (store : Store) → IsConsistent store
        → lob_of store.lobs page ≡ Some l → IsAmong page (owned_lobs store)
        → (k : ℕ) (p : Piece) (x : Version) (xs : List Version) (free : List Address)
        → piece_of k l.pieces ≡ Some p → p.older ≡ x ∷ xs
        → IsConsistent (version_popped page k free store) }
    ensures drop { (page : ℕ) (l : Lob) (store : Store) → IsConsistent store
        → lob_of store.lobs page ≡ Some l → IsAmong page (owned_lobs store)
        → (k : ℕ) (p : Piece) (free : List Address) → piece_of k l.pieces ≡ Some p
        → IsConsistent (version_dropped page k free store) }
    ensures free { (page : ℕ) (l : Lob) (store : Store) → IsConsistent store
        → lob_of store.lobs page ≡ Some l → IsAmong page (owned_lobs store)
        → (free : List Address) → IsConsistent (piece_freed page free store) }
    ensures index { (page : ℕ) (l : Lob) (store : Store) → IsConsistent store
        → lob_of store.lobs page ≡ Some l → IsAmong page (owned_lobs store)
        → (i : ℕ) (is : List ℕ) → l.index ≡ i ∷ is → IsConsistent (index_freed page store) }
{}

/// At a commit, at the end of a record's undoing, and through purge.
pub fn records_stay_consistent()
    ensures commit { (trx : ℕ) (store : Store) → IsConsistent store
        → IsConsistent (committed_by trx store) }
    ensures undo { (trx : ℕ) (place : Address) (u : Record) (store : Store) → IsConsistent store
        → IsNewest trx place u store → IsLowered u.body u.before store.lobs
        → IsConsistent (undo_ended trx u store) }
    ensures begun { (store : Store) → IsConsistent store → IsConsistent (purge_begun store) }
    ensures pass { (a : Address) (u : Record) (store : Store) (l : Log) (ls : List Log)
        → IsConsistent store → store.committed ≡ l ∷ ls → last_in l.records ≡ (a, u) ∷ []
        → IsConsistent (record_passed a l.trx u store) }
    ensures last { (store : Store) (l : Log) (ls : List Log) → IsConsistent store
        → store.committed ≡ l ∷ ls → l.records ≡ [] → IsConsistent (log_purged store) }
{}

/// Where lists of pages change and leave the store sound.
pub fn pages_stay_consistent()
    ensures log { (trx : ℕ) (pages : List ℕ) (store : Store) → IsConsistent store
        → AreSound (with_log_pages trx pages store)
        → IsConsistent (with_log_pages trx pages store) }
    ensures rows { (pages : List ℕ) (store : Store) → IsConsistent store
        → AreSound (with_row_pages pages store) → IsConsistent (with_row_pages pages store) }
    ensures left { (pages : List ℕ) (store : Store) → IsConsistent store
        → AreSound (log_pages_left pages store) → IsConsistent (log_pages_left pages store) }
{}
