// Well-formed stores: each event keeps them so, and what each keeps of the histories.
ghost use Rattle.std.specs.Prelude.{◌≡◌, ◌≢◌, ◌≤◌, ℕ, suc, true, List, [], ◌∷◌, Some, is_some};
ghost use Rattle.page_model.specs.Pages.{Address};
ghost use Rattle.store_data.specs.Pieces.{piece_at, dropped};
ghost use Rattle.store_data.specs.Store.{live, Version, Piece, Lob, Run, Record, Log, Store};
ghost use Rattle.store_model.specs.Lobs.{lob_of};
ghost use Rattle.store_model.specs.History.{Change, changes, row_before};
ghost use Rattle.store_model.specs.Steps.{on_lobs, last_in};
ghost use Rattle.store_model.specs.Events.{Plan, with_log_pages, with_row_pages, insert_begun, rebuild_begun, version_begun, patch_made, delete_made, piece_added, version_pushed, committed_by};
ghost use Rattle.store_model.specs.Undo.{undo_ended, record_passed, purge_begun, log_pages_left, log_purged, piece_freed, index_freed, version_popped, version_dropped};
ghost use Rattle.store_model.specs.Locked.{newest_in};
ghost use Rattle.store_model.specs.Behind.{AtPiece};
ghost use Rattle.store_model.specs.Moves.{MayChange, IsUnnamed, IsNewest, KeepsOlder, KeepsAll};
ghost use Rattle.store_model.specs.Purging.{SeesSame};
ghost use Rattle.store_model.specs.Well.{IsNew, IsWell};
ghost use Rattle.store_model.specs.Keeps.{Restores, IsVersioned, Makes, Frees, KeepsUnder};

/// A store stays well formed where a change begins.
pub fn change_stays_well()
    ensures insert { (p : Plan) (lob : Lob) (n : ℕ) (store : Store) → IsWell store
        → MayChange p store → IsNew p.place (changes store p.doc) → IsUnnamed lob.page store
        → (row_before store p.doc).state ≢ live → IsWell (insert_begun p lob n store) }
    ensures full { (p : Plan) (lob : Lob) (n : ℕ) (store : Store) → IsWell store → MayChange p store
        → IsNew p.place (changes store p.doc) → IsUnnamed lob.page store
        → (row_before store p.doc).state ≡ live → IsWell (rebuild_begun p lob n store) }
    ensures versioned { (p : Plan) (pieces : ℕ) (touched : List ℕ) (store : Store) → IsWell store
        → MayChange p store → IsNew p.place (changes store p.doc)
        → (row_before store p.doc).state ≡ live → IsWell (version_begun p pieces touched store) }
    ensures patched { (p : Plan) (old new : List Run) (store : Store) → IsWell store
        → MayChange p store → IsNew p.place (changes store p.doc)
        → (row_before store p.doc).state ≡ live → IsWell (patch_made p old new store) }
    ensures delete { (p : Plan) (store : Store) → IsWell store → MayChange p store
        → IsNew p.place (changes store p.doc)
        → (row_before store p.doc).state ≡ live → IsWell (delete_made p store) }
{}

/// It stays so under every other event. Events that change LOBs alone don't touch what this says.
pub fn events_stay_well()
    ensures lobs { (f : List Lob → List Lob) (store : Store) → IsWell store
        → IsWell (on_lobs f store) }
    ensures commit { (trx : ℕ) (store : Store) → IsWell store → IsWell (committed_by trx store) }
    ensures undo { (trx : ℕ) (place : Address) (u : Record) (store : Store) → IsWell store
        → IsNewest trx place u store → IsWell (undo_ended trx u store) }
    ensures pass { (a : Address) (u : Record) (store : Store) (l : Log) (ls : List Log)
        → IsWell store → store.committed ≡ l ∷ ls → last_in l.records ≡ (a, u) ∷ []
        → IsWell (record_passed a l.trx u store) }
    ensures begun { (store : Store) → IsWell store → IsWell (purge_begun store) }
    ensures pages { (pages : List ℕ) (store : Store) → IsWell store
        → IsWell (log_pages_left pages store) }
    ensures last { (store : Store) (l : Log) (ls : List Log) → IsWell store
        → store.committed ≡ l ∷ ls → l.records ≡ [] → IsWell (log_purged store) }
{}

/// The further events of a change whose record is the newest of its document, and those that undo
/// it: the rows behind stay, and other documents.
pub fn half_done_keeps()
    ensures push { (store : Store) (d : ℕ) (c : Change) (cs : List Change) → IsWell store
        → changes store d ≡ c ∷ cs → IsVersioned c.undo.body
        → (k : ℕ) (node : Address) (v : Version) (index : List ℕ) (free : List Address)
        → v.number ≡ (row_before store d).lob.version
        → KeepsOlder d store (version_pushed
        (row_before store d).lob.page k node v index free store) }
    ensures push_others { (store : Store) (d : ℕ) (c : Change) (cs : List Change) → IsWell store
        → changes store d ≡ c ∷ cs → IsVersioned c.undo.body
        → (k : ℕ) (node : Address) (v : Version) (index : List ℕ) (free : List Address) (q : ℕ)
        → d ≢ q
        → KeepsAll q store (version_pushed
        (row_before store d).lob.page k node v index free store) }
    ensures pop { (store : Store) (d : ℕ) (c : Change) (cs : List Change) → IsWell store
        → changes store d ≡ c ∷ cs → IsVersioned c.undo.body → (k : ℕ) (free : List Address)
        → ((l : Lob) → lob_of store.lobs (row_before store d).lob.page ≡ Some l
        → AtPiece k (λ p. (row_before store d).lob.version ≤ p.head.number) l.pieces)
        → KeepsOlder d store (version_popped (row_before store d).lob.page k free store) }
    ensures pop_others { (store : Store) (d : ℕ) (c : Change) (cs : List Change) → IsWell store
        → changes store d ≡ c ∷ cs → IsVersioned c.undo.body → (k : ℕ) (free : List Address) (q : ℕ)
        → ((l : Lob) → lob_of store.lobs (row_before store d).lob.page ≡ Some l
        → AtPiece k (λ p. (row_before store d).lob.version ≤ p.head.number) l.pieces)
        → d ≢ q → KeepsAll q store (version_popped (row_before store d).lob.page k free store) }
    ensures piece { (store : Store) (d : ℕ) (c : Change) (cs : List Change) → IsWell store
        → changes store d ≡ c ∷ cs → (page : ℕ) → Makes page c.undo.body
        → (piece : Piece) (index : List ℕ) (free : List Address)
        → KeepsOlder d store (piece_added page piece index free store) }
    ensures piece_others { (store : Store) (d : ℕ) (c : Change) (cs : List Change) → IsWell store
        → changes store d ≡ c ∷ cs → (page : ℕ) → Makes page c.undo.body
        → (piece : Piece) (index : List ℕ) (free : List Address) (q : ℕ) → d ≢ q
        → KeepsAll q store (piece_added page piece index free store) }
    ensures freed { (store : Store) (d : ℕ) (c : Change) (cs : List Change) → IsWell store
        → changes store d ≡ c ∷ cs → (page : ℕ) → Makes page c.undo.body
        → (free : List Address) → KeepsOlder d store (piece_freed page free store) }
    ensures freed_others { (store : Store) (d : ℕ) (c : Change) (cs : List Change) → IsWell store
        → changes store d ≡ c ∷ cs → (page : ℕ) → Makes page c.undo.body
        → (free : List Address) (q : ℕ) → d ≢ q → KeepsAll q store (piece_freed page free store) }
    ensures index { (store : Store) (d : ℕ) (c : Change) (cs : List Change) → IsWell store
        → changes store d ≡ c ∷ cs → (page : ℕ) → Makes page c.undo.body
        → KeepsOlder d store (index_freed page store) }
    ensures index_others { (store : Store) (d : ℕ) (c : Change) (cs : List Change) → IsWell store
        → changes store d ≡ c ∷ cs → (page : ℕ) → Makes page c.undo.body
        → (q : ℕ) → d ≢ q → KeepsAll q store (index_freed page store) }
{}

/// The last event of an undone record gives back the history before its change, or nothing where
/// nothing was shown.
pub fn undo_gives_back()
    ensures { (trx : ℕ) (place : Address) (u : Record) (store : Store) → IsWell store
        → IsNewest trx place u store → Restores u store (undo_ended trx u store) }
{}

/// Whoever sees the purged transaction sees each document as before, at each event that purges a
/// record: the LOB before it is freed piece by piece, versions are dropped while one that is at
/// most the raised one is left, and the record is passed.
pub fn purge_shows_the_same()
    ensures piece { (a : Address) (u : Record) (store : Store) (l : Log) (ls : List Log)
        → IsWell store → store.committed ≡ l ∷ ls → last_in l.records ≡ (a, u) ∷ []
        → (free : List Address) → Frees u.body → (d : ℕ)
        → SeesSame l.trx d store (piece_freed u.before.lob.page free store) }
    ensures index { (a : Address) (u : Record) (store : Store) (l : Log) (ls : List Log)
        → IsWell store → store.committed ≡ l ∷ ls → last_in l.records ≡ (a, u) ∷ []
        → Frees u.body → (d : ℕ) → SeesSame l.trx d store (index_freed u.before.lob.page store) }
    ensures version { (a : Address) (u : Record) (store : Store) (l : Log) (ls : List Log)
        → IsWell store → store.committed ≡ l ∷ ls → last_in l.records ≡ (a, u) ∷ []
        → (k : ℕ) (free : List Address) → IsVersioned u.body
        → ((m : Lob) → lob_of store.lobs u.before.lob.page ≡ Some m
        → AtPiece k (λ p. is_some
        (piece_at (dropped p) (suc u.before.lob.version)) ≡ true) m.pieces)
        → (d : ℕ) → SeesSame l.trx d store (version_dropped u.before.lob.page k free store) }
    ensures pass { (a : Address) (u : Record) (store : Store) (l : Log) (ls : List Log)
        → IsWell store → store.committed ≡ l ∷ ls → last_in l.records ≡ (a, u) ∷ []
        → (d : ℕ) → SeesSame l.trx d store (record_passed a l.trx u store) }
{}

/// Where only lists of pages change, nothing that is shown does.
pub fn pages_change_nothing()
    ensures log { (trx : ℕ) (pages : List ℕ) (store : Store) → IsWell store
        → IsWell (with_log_pages trx pages store) }
    ensures log_all { (trx : ℕ) (pages : List ℕ) (d : ℕ) (store : Store)
        → KeepsAll d store (with_log_pages trx pages store) }
    ensures log_under { (trx : ℕ) (pages : List ℕ) (store : Store)
        → KeepsUnder 0 store (with_log_pages trx pages store) }
    ensures rows { (pages : List ℕ) (store : Store) → IsWell store
        → IsWell (with_row_pages pages store) }
    ensures rows_all { (pages : List ℕ) (d : ℕ) (store : Store)
        → KeepsAll d store (with_row_pages pages store) }
    ensures rows_under { (pages : List ℕ) (store : Store)
        → KeepsUnder 0 store (with_row_pages pages store) }
{}

/// The newest record of a transaction is the newest change of its document.
#[tactic(auto, using(crate::proofs::NewestLemmas::newest_of_well))]
pub fn newest_is_newest()
    ensures { (trx : ℕ) (place : Address) (u : Record) (store : Store) → IsWell store
        → newest_in trx store.active ≡ Some (place, u) → IsNewest trx place u store }
{}
