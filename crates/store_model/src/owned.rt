// Owned pages, event by event: each takes or gives exactly the pages that it names, so a sound
// store stays sound.
ghost use Rattle.std.specs.Prelude.{◌≡◌, ◌≢◌, ℕ, ◌+◌, List, [], ◌∷◌, Some, None};
ghost use Rattle.page_model.specs.Pages.{Address};
ghost use Rattle.page_model.specs.Counts.{times};
ghost use Rattle.store_data.specs.Store.{live, Version, Piece, Lob, Run, Record, Log, Store, AreRising};
ghost use Rattle.store_model.specs.Lobs.{lob_of};
ghost use Rattle.store_model.specs.History.{row_before};
ghost use Rattle.store_model.specs.Steps.{last_in};
ghost use Rattle.store_model.specs.Events.{Plan, log_begun, insert_begun, rebuild_begun, version_begun, patch_made, delete_made, piece_added, version_pushed, committed_by};
ghost use Rattle.store_model.specs.Undo.{undo_ended, record_passed, log_purged, piece_freed, index_freed, version_popped, version_dropped};
ghost use Rattle.store_model.specs.Moves.{MayChange, IsNewest};
ghost use Rattle.store_model.specs.Well.{IsWell};
ghost use Rattle.store_model.specs.Owned.{owned, owned_lobs, rest_of, data_page, data_pages, piece_pages, IsNotAmong, IsAmong, AreDifferent, AreSound};
ghost use Rattle.store_model.specs.Takes.{Takes, Gives, AreUnowned, piece_of, gone_pages, made_pages, freed_pages};

/// What takes unowned pages, each once, or gives pages, leaves a sound store sound.
pub fn counts_keep_sound()
    ensures takes { (pages : List ℕ) (old new : Store) → AreSound old → AreDifferent pages
        → AreUnowned pages old → Takes pages old new → AreSound new }
    ensures gives { (pages : List ℕ) (old new : Store) → AreSound old → Gives pages old new
        → AreSound new }
{}

/// A change that is begun takes its new LOB, or nothing; the record itself takes none, where its
/// log has room.
pub fn changes_take()
    ensures log { (trx page : ℕ) (store : Store) (n : ℕ)
        → times n (owned (log_begun trx page store)) ≡ times n (owned store) + times n (page ∷ []) }
    ensures insert { (p : Plan) (lob : Lob) (len : ℕ) (store : Store) → AreRising store.rows
        → MayChange p store → IsNotAmong lob.page (owned_lobs store)
        → lob_of store.lobs lob.page ≡ None
        → (row_before store p.doc).state ≢ live
        → Takes (lob.page ∷ rest_of (Some lob)) store (insert_begun p lob len store) }
    ensures full { (p : Plan) (lob : Lob) (len : ℕ) (store : Store) → AreRising store.rows
        → MayChange p store → IsNotAmong lob.page (owned_lobs store)
        → lob_of store.lobs lob.page ≡ None
        → (row_before store p.doc).state ≡ live
        → Takes (lob.page ∷ rest_of (Some lob)) store (rebuild_begun p lob len store) }
    ensures versioned { (p : Plan) (pieces : ℕ) (touched : List ℕ) (store : Store)
        → AreRising store.rows → MayChange p store → (row_before store p.doc).state ≡ live
        → Takes [] store (version_begun p pieces touched store) }
    ensures patched { (p : Plan) (old new : List Run) (store : Store) → AreRising store.rows
        → MayChange p store → (row_before store p.doc).state ≡ live
        → Takes [] store (patch_made p old new store) }
    ensures delete { (p : Plan) (store : Store) → AreRising store.rows → MayChange p store
        → (row_before store p.doc).state ≡ live → Takes [] store (delete_made p store) }
    ensures commit { (trx : ℕ) (store : Store) (n : ℕ)
        → times n (owned (committed_by trx store)) ≡ times n (owned store) }
{}

/// One LOB that is owned changes: pieces and versions take and give their data pages, and index
/// pages as the list of them changes.
pub fn lob_events_move()
    ensures push { (page : ℕ) (l : Lob) (store : Store) → AreSound store
        → lob_of store.lobs page ≡ Some l → IsAmong page (owned_lobs store)
        → (k : ℕ) (p : Piece) (node : Address) (v : Version) (index : List ℕ) (free : List Address)
        (n : ℕ) → piece_of k l.pieces ≡ Some p
        → times n (owned (version_pushed page k node v index free store)) + times n l.index
        ≡ times n (owned store) + (times n index + times n (data_page l.page v)) }
    ensures pop { (page : ℕ) (l : Lob) (store : Store) → AreSound store
        → lob_of store.lobs page ≡ Some l → IsAmong page (owned_lobs store)
        → (k : ℕ) (p : Piece) (x : Version) (xs : List Version) (free : List Address) (n : ℕ)
        → piece_of k l.pieces ≡ Some p → p.older ≡ x ∷ xs
        → times n (owned (version_popped page k free store)) + times n
        (data_page l.page p.head) ≡ times n (owned store) }
    ensures drop { (page : ℕ) (l : Lob) (store : Store) → AreSound store
        → lob_of store.lobs page ≡ Some l → IsAmong page (owned_lobs store)
        → (k : ℕ) (p : Piece) (free : List Address) (n : ℕ) → piece_of k l.pieces ≡ Some p
        → times n (owned (version_dropped page k free store)) + times n
        (data_pages l.page (last_in p.older)) ≡ times n (owned store) }
    ensures add { (page : ℕ) (l : Lob) (store : Store) → AreSound store
        → lob_of store.lobs page ≡ Some l → IsAmong page (owned_lobs store)
        → (p : Piece) (index : List ℕ) (free : List Address) (n : ℕ)
        → times n (owned (piece_added page p index free store)) + times n l.index ≡ times n
        (owned store) + (times n index + times n (data_pages l.page (p.head ∷ p.older))) }
    ensures free { (page : ℕ) (l : Lob) (store : Store) → AreSound store
        → lob_of store.lobs page ≡ Some l → IsAmong page (owned_lobs store)
        → (free : List Address) (n : ℕ)
        → times n (owned (piece_freed page free store)) + times n
        (piece_pages l.page (last_in l.pieces)) ≡ times n (owned store) }
    ensures index { (page : ℕ) (l : Lob) (store : Store) → AreSound store
        → lob_of store.lobs page ≡ Some l → IsAmong page (owned_lobs store)
        → (i : ℕ) (is : List ℕ) (n : ℕ) → l.index ≡ i ∷ is
        → times n (owned (index_freed page store)) + times n (i ∷ []) ≡ times n (owned store) }
{}

/// An undone record gives what is left of the LOB that it made, and its log's pages where it was
/// the last; a passed one gives what is left of the LOB before, where it is of kind Full or
/// Removed; a purged log gives its pages.
pub fn records_give()
    ensures undo { (trx : ℕ) (place : Address) (u : Record) (store : Store) → AreRising store.rows
        → IsNewest trx place u store → IsWell store → AreSound store
        → (n : ℕ) → times n (owned (undo_ended trx u store)) +
        (times n (gone_pages trx store.active) + times n (made_pages u.body store.lobs))
        ≡ times n (owned store) }
    ensures pass { (a : Address) (u : Record) (store : Store) (l : Log) (ls : List Log)
        → IsWell store → AreSound store → AreRising store.rows → store.committed ≡ l ∷ ls
        → last_in l.records ≡ (a, u) ∷ []
        → Gives (freed_pages u.body u.before store.lobs) store (record_passed a l.trx u store) }
    ensures log { (store : Store) (l : Log) (ls : List Log) (n : ℕ) → store.committed ≡ l ∷ ls
        → l.records ≡ [] → times n (owned (log_purged store)) + times n l.pages ≡ times n
        (owned store) }
{}
