//! The kinds of change, planned and undone.
ghost use Rattle.std.specs.Prelude.{◌≡◌, ◌≢◌, ℕ, List, ◌∷◌, ◌++◌, Some};
ghost use Rattle.page_model.specs.Pages.{Address};
ghost use Rattle.store_data.specs.Store.{live, Run, Version, Piece, Lob, patched, removed, Record, Store};
ghost use Rattle.store_model.specs.History.{Change, row_before, changes};
ghost use Rattle.store_model.specs.Events.{Plan, insert_begun, rebuild_begun, version_begun, patch_made, delete_made};
ghost use Rattle.store_data.specs.Pieces.{pushed};
ghost use Rattle.store_model.specs.Steps.{on_lob, with_nodes, with_piece, at_piece};
ghost use Rattle.store_model.specs.Undo.{undo_ended};
ghost use Rattle.store_model.specs.Keeps.{IsVersioned, Makes};
ghost use Rattle.store_model.specs.Behind.{AllRows};
ghost use Rattle.store_model.specs.Moves.{MayChange, ArePaired, StandThere, IsUntouched, IsNewest};
ghost use Rattle.store_model.specs.Consistent.{IsConsistent};
ghost use Rattle.store_model.specs.Lobs.{lob_of};
ghost use Rattle.store_model.specs.Owned.{rest_of, data_page, data_pages, AreDifferent};
ghost use Rattle.store_model.specs.Takes.{AreUnowned, piece_of};
ghost use Rattle.store_model.specs.Versions.{AreOlderUpTo, AreUpTo};
ghost use Rattle.store_model.specs.Well.{IsNew};
ghost use Rattle.kept_model.specs.Plans.{Plans};
ghost use Rattle.kept_model.specs.Works.{Works};
ghost use Rattle.kept_model.specs.Undoes.{Undoes, HasMore};

/// The planning event of each kind does to a store what the engine's asks for. The pages of a new
/// LOB are different ones that the store doesn't own.
pub fn kinds_are_planned()
    ensures insert { (p : Plan) (store : Store) → IsConsistent store → MayChange p store
        → IsNew p.place (changes store p.doc) → (lob : Lob) (n : ℕ)
        → AreDifferent (lob.page ∷ rest_of (Some lob))
        → AreUnowned (lob.page ∷ rest_of (Some lob)) store → lob.version ≡ 1
        → AreUpTo 1 lob.pieces
        → (row_before store p.doc).state ≢ live → Plans p store (insert_begun p lob n store) }
    ensures full { (p : Plan) (store : Store) → IsConsistent store → MayChange p store
        → IsNew p.place (changes store p.doc) → (lob : Lob) (n : ℕ)
        → AreDifferent (lob.page ∷ rest_of (Some lob))
        → AreUnowned (lob.page ∷ rest_of (Some lob)) store → lob.version ≡ 1
        → AreUpTo 1 lob.pieces
        → (row_before store p.doc).state ≡ live → Plans p store (rebuild_begun p lob n store) }
    ensures versioned { (p : Plan) (store : Store) → IsConsistent store → MayChange p store
        → IsNew p.place (changes store p.doc) → (pieces : ℕ) (touched : List ℕ)
        → (row_before store p.doc).state ≡ live
        → Plans p store (version_begun p pieces touched store) }
    ensures patched { (p : Plan) (store : Store) → IsConsistent store → MayChange p store
        → IsNew p.place (changes store p.doc) → (old new : List Run)
        → (row_before store p.doc).state ≡ live → ArePaired old new → StandThere old store.lobs
        → ((d : ℕ) → d ≢ p.doc → AllRows (IsUntouched new store.lobs) store d)
        → Plans p store (patch_made p old new store) }
    ensures delete { (p : Plan) (store : Store) → IsConsistent store → MayChange p store
        → IsNew p.place (changes store p.doc)
        → (row_before store p.doc).state ≡ live → Plans p store (delete_made p store) }
{}

/// The event that undoes a record of one event, where its log has more.
pub fn records_are_undone()
    ensures patched { (trx : ℕ) (place : Address) (u : Record) (store : Store) (old : List Run)
        → u.body ≡ patched old → IsConsistent store → IsNewest trx place u store
        → HasMore trx place u store.active
        → ((d : ℕ) → d ≢ u.doc → AllRows (IsUntouched old store.lobs) store d)
        → Undoes trx place u store (undo_ended trx u store) }
    ensures removed { (trx : ℕ) (place : Address) (u : Record) (store : Store) → u.body ≡ removed
        → IsConsistent store → IsNewest trx place u store → HasMore trx place u store.active
        → Undoes trx place u store (undo_ended trx u store) }
{}

/// The further events of a change: a piece of a new LOB is added, a version is pushed. The pages
/// that are taken for it, index pages and those of data, are different ones that the store doesn't
/// own.
pub fn changes_go_on()
    ensures piece { (store : Store) (trx d : ℕ) (c : Change) (cs : List Change) → IsConsistent store
        → changes store d ≡ c ∷ cs → c.trx ≡ trx → (page : ℕ) → Makes page c.undo.body
        → (m : Lob) → lob_of store.lobs page ≡ Some m
        → (piece : Piece) (taken : List ℕ) (free : List Address)
        → AreOlderUpTo m.version (piece.head ∷ piece.older)
        → AreDifferent (taken ++ data_pages m.page (piece.head ∷ piece.older))
        → AreUnowned (taken ++ data_pages m.page (piece.head ∷ piece.older)) store
        → Works trx d (on_lob page (λ l. with_nodes (taken ++ m.index) free (with_piece piece l)))
        store }
    ensures version { (store : Store) (trx d : ℕ) (c : Change) (cs : List Change) → IsConsistent store
        → changes store d ≡ c ∷ cs → c.trx ≡ trx → IsVersioned c.undo.body
        → (m : Lob) → lob_of store.lobs (row_before store d).lob.page ≡ Some m
        → (k : ℕ) (p : Piece) → piece_of k m.pieces ≡ Some p
        → (node : Address) (v : Version) (taken : List ℕ) (free : List Address)
        → v.number ≡ (row_before store d).lob.version
        → AreDifferent (taken ++ data_page m.page v)
        → AreUnowned (taken ++ data_page m.page v) store
        → Works trx d (on_lob (row_before store d).lob.page
        (λ l. with_nodes (taken ++ m.index) free (at_piece k (pushed node v) l))) store }
{}
