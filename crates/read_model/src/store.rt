//! The events of a store, seen from one document.
ghost use Rattle.std.specs.Prelude.{◌≡◌, ◌≢◌, ℕ, map, option_map, List, [], ◌∷◌, Some, None, true, false};
ghost use Rattle.page_model.specs.Pages.{Address};
ghost use Rattle.store_data.specs.Store.{Run, Row, Version, Lob, Record, Log, Store, Body, inserted, rebuilt, versioned, patched, removed, live};
ghost use Rattle.store_model.specs.Lobs.{joined};
ghost use Rattle.store_model.specs.Runs.{all_laid, lobs_laid};
ghost use Rattle.store_model.specs.Steps.{last_in, on_lobs};
ghost use Rattle.store_model.specs.History.{changes, row_before, absent_row, seen, history};
ghost use Rattle.store_model.specs.Events.{Plan, record_of, planned, insert_begun, rebuild_begun, version_begun, patch_made, delete_made, version_pushed, committed_by};
ghost use Rattle.store_model.specs.Undo.{version_popped, version_dropped, is_gone, unmade, without_newest, undo_ended, record_passed, cleared, purge_begun, log_purged};
ghost use Rattle.store_model.specs.Moves.{MayChange, IsNewest, OlderElsewhere};
ghost use Rattle.store_model.specs.Locked.{IsLocked};
ghost use Rattle.store_model.specs.Behind.{AllRows, AllBefore, IsBelow, IsElsewhere};
ghost use Rattle.store_model.specs.Well.{IsChain};
ghost use Rattle.read_model.specs.Patches.{Entry};
ghost use Rattle.read_model.specs.Document.{Document, Sees, IsVisible, IsOther, AreDistinct, content, parts_at};
ghost use Rattle.read_model.specs.Flight.{Flight, Ready, Absent};
ghost use Rattle.read_model.specs.Steps.{opened};
ghost use Rattle.read_model.specs.Events.{Adds, Removes, Forgets, Touches, Frees, Passes, Sweeps, Event, AllMove, all_after};
ghost use Rattle.read_model.specs.Kinds.{on_lobs as doc_lobs, IsOlder, MayPop, MayDropAt};
ghost use Rattle.store_model.specs.Ids.{base_of};
ghost use Rattle.read_model.specs.OfStore.{entry, document, ClearsElsewhere};

/// On a store the planning of an insert puts its record at the head of its document's chain.
pub fn insert_keeps()
    ensures { (sees : Sees) (p : Plan) (lob : Lob) (n : ℕ) (store : Store) → MayChange p store
        → sees p.trx ≡ false
        → AllRows (IsElsewhere lob.page) store p.doc
        → Adds sees (document store p.doc) (document (insert_begun p lob n store) p.doc)
        (p.place, record_of p (row_before store p.doc) (inserted lob.page)) }
{}

/// So does the planning of a new encoding.
pub fn rebuild_keeps()
    ensures { (sees : Sees) (p : Plan) (lob : Lob) (n : ℕ) (store : Store) → MayChange p store
        → sees p.trx ≡ false
        → AllRows (IsElsewhere lob.page) store p.doc
        → Adds sees (document store p.doc) (document (rebuild_begun p lob n store) p.doc)
        (p.place, record_of p (row_before store p.doc) (rebuilt lob.page)) }
{}

/// So does the planning of new versions.
pub fn version_keeps()
    ensures { (sees : Sees) (p : Plan) (pieces : ℕ) (touched : List ℕ) (store : Store)
        → MayChange p store → sees p.trx ≡ false
        → Adds sees (document store p.doc) (document (version_begun p pieces touched store) p.doc)
        (p.place, record_of p (row_before store p.doc) (versioned pieces touched)) }
{}

/// So does a change in place.
pub fn patch_keeps()
    ensures { (sees : Sees) (p : Plan) (old new : List Run) (store : Store) → MayChange p store
        → sees p.trx ≡ false
        → lobs_laid old (lobs_laid new store.lobs) ≡ store.lobs
        → Adds sees (document store p.doc) (document (patch_made p old new store) p.doc)
        (p.place, record_of p (row_before store p.doc) (patched old)) }
{}

/// So does a deletion.
pub fn delete_keeps()
    ensures { (sees : Sees) (p : Plan) (store : Store) → MayChange p store → sees p.trx ≡ false
        → Adds sees (document store p.doc) (document (delete_made p store) p.doc)
        (p.place, record_of p (row_before store p.doc) removed) }
{}

/// On a store a version that is pushed changes nothing that an older view reads of a document.
pub fn push_keeps()
    ensures { (sees : Sees) (store : Store) (d : ℕ) (page k : ℕ) (node : Address) (x : Version)
        (index : List ℕ) (free : List Address)
        → IsOlder sees (document store d) page x.number
        → Touches sees (document store d)
        (document (version_pushed page k node x index free store) d) }
{}

/// On a store a version that is popped frees its node in each document that may meet it.
pub fn pop_keeps()
    ensures { (sees : Sees) (store : Store) (d : ℕ) (page k : ℕ) (node head : Address)
        (free : List Address) → MayPop sees (document store d) page k node head
        → Frees sees (document store d) (document (version_popped page k free store) d) node head }
{}

/// On a store a version that purge drops changes nothing that a view which finds its own without it
/// reads.
pub fn drop_keeps()
    ensures { (sees : Sees) (store : Store) (d : ℕ) (page k : ℕ) (free : List Address)
        → MayDropAt sees (document store d) page k
        → Touches sees (document store d) (document (version_dropped page k free store) d) }
{}

/// The last event of a record's undoing takes it off its document's chain, where a row is left.
pub fn undo_keeps()
    ensures { (sees : Sees) (trx : ℕ) (place : Address) (u : Record) (store : Store)
        → IsNewest trx place u store
        → sees (row_before store u.doc).trx ≡ false → OlderElsewhere u.body (changes store u.doc)
        → IsOther place (map entry (changes (without_newest trx u store) u.doc))
        → is_gone (without_newest trx u store) u.before.state u.before ≡ false
        → Removes sees (document store u.doc) (document (undo_ended trx u store) u.doc) (place, u) }
{}

/// Where no row is left, the view shows no document before and behind it.
pub fn undo_keeps_without_row()
    ensures { (sees : Sees) (trx : ℕ) (place : Address) (u : Record) (store : Store)
        → IsNewest trx place u store
        → sees (row_before store u.doc).trx ≡ false → sees u.before.trx ≡ true → sees 0 ≡ true
        → IsOther place (map entry (changes (without_newest trx u store) u.doc))
        → is_gone (without_newest trx u store) u.before.state u.before ≡ true
        → Forgets sees (document store u.doc) (document (undo_ended trx u store) u.doc) (place, u) }
{}

/// A commit leaves each document's row, records and LOBs.
pub fn commit_keeps()
    ensures { (trx d : ℕ) (store : Store) → IsLocked d store.active
        → document (committed_by trx store) d ≡ document store d }
{}

/// Purge of a record takes it off the end of its document's chain.
pub fn pass_keeps()
    ensures { (sees : Sees) (a : Address) (u : Record) (store : Store) (l : Log) (ls : List Log)
        → store.committed ≡ l ∷ ls
        → last_in l.records ≡ (a, u) ∷ [] → sees l.trx ≡ true
        → IsChain (row_before store u.doc) (changes store u.doc)
        → ClearsElsewhere sees store u.doc u.before u.body
        → row_before (record_passed a l.trx u store) u.doc ≡ row_before store u.doc
        → Passes sees (document store u.doc) (document (record_passed a l.trx u store) u.doc) }
{}

/// Purge removes a deleted row with its deletion.
pub fn sweep_keeps()
    ensures { (sees : Sees) (a : Address) (u : Record) (store : Store) (l : Log)
        → sees (row_before store u.doc).trx ≡ true
        → (row_before store u.doc).state ≢ live → sees 0 ≡ true
        → row_before (record_passed a l.trx u store) u.doc ≡ absent_row
        → Sweeps sees (document store u.doc) (document (record_passed a l.trx u store) u.doc) }
{}

/// Of a change of one document, another sees at most that LOBs change.
pub fn others_see_lobs_change()
    ensures { (p : Plan) (new : Row → Row) (body : Body) (f : List Lob → List Lob) (store : Store)
        (d : ℕ) → d ≢ p.doc
        → document (on_lobs f (planned p new body store)) d ≡ doc_lobs f (document store d) }
{}

/// Of an undoing of one document's record, another document sees at most that LOBs change.
pub fn others_see_lobs_restored()
    ensures { (trx : ℕ) (place : Address) (u : Record) (store : Store) (d : ℕ)
        → IsNewest trx place u store → d ≢ u.doc
        → document (undo_ended trx u store) d ≡ doc_lobs (unmade u.body u.before)
        (document store d) }
{}

/// Runs of other pages keep a read.
pub fn other_pages_touched()
    ensures { (sees : Sees) (doc : Document) (rs : List Run)
        → ((above older : List Entry) (v : Row) → IsVisible sees doc above older v → v.state ≡ live
        → map (all_laid rs) (parts_at doc.lobs v.lob) ≡ parts_at doc.lobs v.lob)
        → Touches sees doc (doc_lobs (lobs_laid rs) doc) }
{}

/// Where the newest row isn't seen and the rows before are of lower versions, so is the visible
/// one.
pub fn older_versions()
    ensures { (sees : Sees) (store : Store) (d : ℕ) → (page n : ℕ)
        → sees (row_before store d).trx ≡ false → AllBefore (IsBelow page n) (changes store d)
        → IsOlder sees (document store d) page n }
{}

/// In a chain whose oldest row is seen, a row is visible.
pub fn some_row_is_visible()
    ensures { (sees : Sees) (store : Store) (d : ℕ) → IsChain (row_before store d) (changes store d)
        → sees (base_of (row_before store d) (changes store d)).trx ≡ true
        → (above : List Entry) × (older : List Entry) × (v : Row)
        × IsVisible sees (document store d) above older v }
{}

/// What the view sees is what the store's history shows it.
pub fn shows_the_history()
    ensures { (sees : Sees) (store : Store) (d : ℕ) (above older : List Entry) (v : Row)
        → IsVisible sees (document store d) above older v
        → seen sees (history store d) ≡ option_map joined (content store.lobs v above) }
{}

/// Whatever comes between its events, a read answers the bytes that the store showed to its view at
/// the first of them.
pub fn answers_the_store()
    ensures { (sees : Sees) (store : Store) (d : ℕ) (above older : List Entry) (v : Row)
        (xs : List (Event × Document))
        → AreDistinct (document store d).records → IsVisible sees (document store d) above older v
        → AllMove sees (document store d) xs
        → (g : Flight) → g ≡ all_after sees (document store d) xs (opened sees (document store d))
        → (g.phase ≡ Ready → seen sees (history store d) ≡ Some (joined g.copied))
        × (g.phase ≡ Absent → seen sees (history store d) ≡ None) }
{}

/// Of purge's passing of another document's record, a document sees at most that LOBs change.
pub fn others_see_lobs_cleared()
    ensures { (a : Address) (u : Record) (store : Store) (l : Log) (ls : List Log) (d : ℕ)
        → store.committed ≡ l ∷ ls
        → last_in l.records ≡ (a, u) ∷ [] → d ≢ u.doc
        → document (record_passed a l.trx u store) d ≡ doc_lobs (cleared u.body u.before)
        (document store d) }
{}

/// The first event of a log's purge leaves each document.
pub fn purge_begins()
    ensures { (store : Store) (d : ℕ) → document (purge_begun store) d ≡ document store d }
{}

/// So does its last, with which the log goes.
pub fn purge_ends()
    ensures { (store : Store) (d : ℕ) (l : Log) (ls : List Log) → store.committed ≡ l ∷ ls
        → l.records ≡ []
        → document (log_purged store) d ≡ document store d }
{}
