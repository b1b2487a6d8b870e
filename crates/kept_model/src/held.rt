//! What the events do to the LOBs and versions of documents, by kind of change.
ghost use Rattle.std.specs.Prelude.{◌≡◌, ◌≢◌, ◌≤◌, ◌<◌, ℕ, true, suc, ◌+◌, List, [], ◌∷◌, map, Some};
ghost use Rattle.page_model.specs.Pages.{Address};
ghost use Rattle.journal_model.specs.Held.{inserted, rebuilt, versioned, patched, removed, is_in, new_lob};
ghost use Rattle.journal_model.specs.History.{last_of};
ghost use Rattle.store_data.specs.Store.{live, Run, Version, Piece, Lob, Record, Log, Store};
ghost use Rattle.store_data.specs.Store as bodies;
ghost use Rattle.store_data.specs.Pieces.{pushed, popped, dropped};
ghost use Rattle.store_model.specs.Lobs.{lob_of};
ghost use Rattle.store_model.specs.History.{Change, row_before, changes};
ghost use Rattle.store_model.specs.Steps.{last_in, on_lob, on_lobs, with_nodes, with_piece, without_piece, without_index, at_piece};
ghost use Rattle.store_model.specs.Events.{Plan, insert_begun, rebuild_begun, version_begun, patch_made, delete_made};
ghost use Rattle.store_model.specs.Undo.{undo_ended, record_passed};
ghost use Rattle.store_model.specs.Keeps.{IsVersioned, Makes, Frees};
ghost use Rattle.store_model.specs.Moves.{MayChange, IsNewest};
ghost use Rattle.store_model.specs.Owned.{owned, IsNotAmong, AreDifferent};
ghost use Rattle.store_model.specs.Takes.{piece_of};
ghost use Rattle.store_model.specs.Versions.{IsLowered};
ghost use Rattle.store_model.specs.Consistent.{IsConsistent};
ghost use Rattle.kept_model.specs.Engine.{Left};
ghost use Rattle.kept_model.specs.Held.{numbers_of, held_lob, pieces_left, pushes_left};
ghost use Rattle.kept_model.specs.Pages.{PlansLobs, WorksLobs, HalvesLobs, UndoesLobs, DropsLobs, PassesLobs};

/// The planning event of each kind: a new LOB with its first pieces, one version of each; or a LOB
/// whose touched pieces are all still to be pushed; or none.
pub fn lobs_are_planned()
    ensures insert { (p : Plan) (store : Store) → IsConsistent store → MayChange p store
        → (lob : Lob) (len m n : ℕ) (left : Left) → IsNotAmong lob.page (owned store)
        → held_lob lob ≡ new_lob m → m + pieces_left left ≡ n
        → (row_before store p.doc).state ≢ live
        → PlansLobs p (inserted n) left store (insert_begun p lob len store) }
    ensures full { (p : Plan) (store : Store) → IsConsistent store → MayChange p store
        → (lob : Lob) (len m n : ℕ) (left : Left) → IsNotAmong lob.page (owned store)
        → held_lob lob ≡ new_lob m → m + pieces_left left ≡ n
        → (row_before store p.doc).state ≡ live
        → PlansLobs p (rebuilt n) left store (rebuild_begun p lob len store) }
    ensures versioned { (p : Plan) (store : Store) → IsConsistent store → MayChange p store
        → (pieces : ℕ) (touched : List ℕ) (left : Left) → (row_before store p.doc).state ≡ live
        → (m : Lob) → lob_of store.lobs (row_before store p.doc).lob.page ≡ Some m
        → pushes_left left ≡ map suc touched → AreDifferent (map suc touched)
        → PlansLobs p (versioned (map suc touched)) left store
        (version_begun p pieces touched store) }
    ensures patched { (p : Plan) (store : Store) → MayChange p store → (left : Left)
        → (row_before store p.doc).state ≡ live → (old new : List Run)
        → PlansLobs p patched left store (patch_made p old new store) }
    ensures delete { (p : Plan) (store : Store) → MayChange p store → (left : Left)
        → (row_before store p.doc).state ≡ live
        → PlansLobs p removed left store (delete_made p store) }
{}

/// A piece of one version is added, or the next of the touched pieces gets the row's version.
pub fn lobs_go_on()
    ensures piece { (store : Store) (d : ℕ) (c : Change) (cs : List Change) → IsConsistent store
        → changes store d ≡ c ∷ cs → (page : ℕ) → Makes page c.undo.body
        → (m : Lob) → lob_of store.lobs page ≡ Some m
        → (left more : Left) (piece : Piece) (index : List ℕ) (free : List Address)
        → piece.head.number ≡ 1 → piece.older ≡ []
        → pieces_left left ≡ suc (pieces_left more) → WorksLobs d left more store
        (on_lobs (on_lob page (λ l. with_nodes index free (with_piece piece l))) store) }
    ensures version { (store : Store) (d : ℕ) (c : Change) (cs : List Change) → IsConsistent store
        → changes store d ≡ c ∷ cs → IsVersioned c.undo.body
        → (m : Lob) → lob_of store.lobs (row_before store d).lob.page ≡ Some m
        → (k : ℕ) (free : List Address) (left more : Left) (node : Address) (v : Version)
        (index : List ℕ) → v.number ≡ (row_before store d).lob.version
        → pushes_left left ≡ suc k ∷ pushes_left more
        → WorksLobs d left more store (on_lobs (on_lob (row_before store d).lob.page
        (λ l. with_nodes index free (at_piece k (pushed node v) l))) store) }
{}

/// The events of an undone record but its last: of a new LOB its last piece is freed, or an index
/// page; of a piece the raised version is popped, where another is left.
pub fn lobs_are_half_undone()
    ensures piece { (store : Store) (d : ℕ) (c : Change) (cs : List Change) → IsConsistent store
        → changes store d ≡ c ∷ cs → (page : ℕ) → Makes page c.undo.body
        → (m : Lob) → lob_of store.lobs page ≡ Some m
        → (trx : ℕ) → c.trx ≡ trx → (free : List Address) → HalvesLobs trx d store
        (on_lobs (on_lob page (λ l. record (without_piece l) { free = free })) store) }
    ensures index { (store : Store) (d : ℕ) (c : Change) (cs : List Change) → IsConsistent store
        → changes store d ≡ c ∷ cs → (page : ℕ) → Makes page c.undo.body
        → (m : Lob) → lob_of store.lobs page ≡ Some m
        → (trx : ℕ) → c.trx ≡ trx
        → HalvesLobs trx d store (on_lobs (on_lob page without_index) store) }
    ensures version { (store : Store) (d : ℕ) (c : Change) (cs : List Change) → IsConsistent store
        → changes store d ≡ c ∷ cs → IsVersioned c.undo.body
        → (m : Lob) → lob_of store.lobs (row_before store d).lob.page ≡ Some m
        → (k : ℕ) (free : List Address) (trx : ℕ) → c.trx ≡ trx
        → (p : Piece) (x : Version) (older : List Version) → piece_of k m.pieces ≡ Some p
        → p.older ≡ x ∷ older → p.head.number ≡ (row_before store d).lob.version
        → HalvesLobs trx d store (on_lobs (on_lob (row_before store d).lob.page
        (λ l. record (at_piece k popped l) { free = free })) store) }
{}

/// The last event of an undone record: what is left of its LOB goes, or the LOB's version goes back
/// once no entry has the raised one.
pub fn lobs_are_undone()
    ensures made { (trx : ℕ) (place : Address) (u : Record) (store : Store) → IsConsistent store
        → IsNewest trx place u store → (page : ℕ) → Makes page u.body
        → (m : Lob) → lob_of store.lobs page ≡ Some m
        → UndoesLobs trx u.doc store (undo_ended trx u store) }
    ensures raised { (trx : ℕ) (place : Address) (u : Record) (store : Store) → IsConsistent store
        → IsNewest trx place u store → (pieces : ℕ) (touched : List ℕ)
        → u.body ≡ bodies.versioned pieces touched
        → (m : Lob) → lob_of store.lobs (row_before store u.doc).lob.page ≡ Some m
        → IsLowered u.body u.before store.lobs
        → UndoesLobs trx u.doc store (undo_ended trx u store) }
    ensures patched { (trx : ℕ) (place : Address) (u : Record) (store : Store) → IsConsistent store
        → IsNewest trx place u store → (old : List Run) → u.body ≡ bodies.patched old
        → UndoesLobs trx u.doc store (undo_ended trx u store) }
    ensures removed { (trx : ℕ) (place : Address) (u : Record) (store : Store) → IsConsistent store
        → IsNewest trx place u store → u.body ≡ bodies.removed
        → UndoesLobs trx u.doc store (undo_ended trx u store) }
{}

/// The events of a purged record but its last: the LOB before loses its last piece, or an index
/// page; a touched piece that still has a version from before the change loses it.
pub fn lobs_are_half_purged()
    ensures piece { (a : Address) (u : Record) (store : Store) (l : Log) (ls : List Log)
        → IsConsistent store → store.committed ≡ l ∷ ls → last_in l.records ≡ (a, u) ∷ []
        → Frees u.body → (m : Lob) → lob_of store.lobs u.before.lob.page ≡ Some m
        → (free : List Address) → DropsLobs l u.doc store (on_lobs
        (on_lob u.before.lob.page (λ m. record (without_piece m) { free = free })) store) }
    ensures index { (a : Address) (u : Record) (store : Store) (l : Log) (ls : List Log)
        → IsConsistent store → store.committed ≡ l ∷ ls → last_in l.records ≡ (a, u) ∷ []
        → Frees u.body → (m : Lob) → lob_of store.lobs u.before.lob.page ≡ Some m
        → DropsLobs l u.doc store (on_lobs (on_lob u.before.lob.page without_index) store) }
    ensures version { (a : Address) (u : Record) (store : Store) (l : Log) (ls : List Log)
        → IsConsistent store → store.committed ≡ l ∷ ls → last_in l.records ≡ (a, u) ∷ []
        → (pieces : ℕ) (touched : List ℕ) → u.body ≡ bodies.versioned pieces touched
        → (m : Lob) → lob_of store.lobs u.before.lob.page ≡ Some m
        → (k : ℕ) (free : List Address) (p : Piece) → piece_of k m.pieces ≡ Some p
        → is_in k touched ≡ true → last_of (numbers_of p) ≤ u.before.lob.version
        → DropsLobs l u.doc store (on_lobs (on_lob u.before.lob.page
        (λ m. record (at_piece k dropped m) { free = free })) store) }
{}

/// The event that ends a record: the LOB before a new encoding or a removal goes; behind new
/// versions no touched piece has one from before.
pub fn lobs_are_purged()
    ensures freed { (a : Address) (u : Record) (store : Store) (l : Log) (ls : List Log)
        → IsConsistent store → store.committed ≡ l ∷ ls → last_in l.records ≡ (a, u) ∷ []
        → Frees u.body → (m : Lob) → lob_of store.lobs u.before.lob.page ≡ Some m
        → PassesLobs l u.doc store (record_passed a l.trx u store) }
    ensures inserted { (a : Address) (u : Record) (store : Store) (l : Log) (ls : List Log)
        → IsConsistent store → store.committed ≡ l ∷ ls → last_in l.records ≡ (a, u) ∷ []
        → (page : ℕ) → u.body ≡ bodies.inserted page
        → PassesLobs l u.doc store (record_passed a l.trx u store) }
    ensures patched { (a : Address) (u : Record) (store : Store) (l : Log) (ls : List Log)
        → IsConsistent store → store.committed ≡ l ∷ ls → last_in l.records ≡ (a, u) ∷ []
        → (old : List Run) → u.body ≡ bodies.patched old
        → PassesLobs l u.doc store (record_passed a l.trx u store) }
    ensures versioned { (a : Address) (u : Record) (store : Store) (l : Log) (ls : List Log)
        → IsConsistent store → store.committed ≡ l ∷ ls → last_in l.records ≡ (a, u) ∷ []
        → (pieces : ℕ) (touched : List ℕ) → u.body ≡ bodies.versioned pieces touched
        → (m : Lob) → lob_of store.lobs u.before.lob.page ≡ Some m
        → ((k : ℕ) (p : Piece) → is_in k touched ≡ true → piece_of k m.pieces ≡ Some p
        → u.before.lob.version < last_of (numbers_of p))
        → PassesLobs l u.doc store (record_passed a l.trx u store) }
{}
