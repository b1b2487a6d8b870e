// LOB versions: the LOB of a document's newest row has that row's version and no newer entry, event
// by event.
ghost use Rattle.std.specs.Prelude.{◌≡◌, ◌≤◌, ℕ, List, [], ◌∷◌, ◌++◌, Some, None};
ghost use Rattle.page_model.specs.Pages.{Address};
ghost use Rattle.store_data.specs.Pieces.{pushed, popped, dropped, all_but_last};
ghost use Rattle.store_data.specs.Store.{live, Version, Piece, Lob, Run, Record, Log, Store};
ghost use Rattle.store_model.specs.Lobs.{joined, lob_of, heads};
ghost use Rattle.store_model.specs.History.{content, row_before};
ghost use Rattle.store_model.specs.Steps.{on_lob, on_lobs, on_piece, last_in};
ghost use Rattle.store_model.specs.Events.{Plan, log_begun, insert_begun, rebuild_begun, version_begun, patch_made, delete_made, committed_by};
ghost use Rattle.store_model.specs.Undo.{undo_ended, on_oldest, record_passed, log_purged};
ghost use Rattle.store_model.specs.Moves.{MayChange, IsUnnamed, IsNewest};
ghost use Rattle.store_model.specs.Well.{IsWell};
ghost use Rattle.store_model.specs.Versions.{AreOlderUpTo, AreUpTo, IsLowered, HasVersions};

/// A live document's newest row shows the newest data of each piece of its LOB, also while a change
/// of it is half done.
#[tactic(auto, using(crate::proofs::VersionBack::newest_shows))]
pub fn newest_row_shows()
    ensures { (store : Store) (d : ℕ) (l : Lob) → HasVersions store
        → (row_before store d).state ≡ live
        → lob_of store.lobs (row_before store d).lob.page ≡ Some l
        → content store.lobs (row_before store d) ≡ Some (joined (heads l.pieces)) }
{}

/// Each event keeps the versions.
pub fn versions_stay()
    ensures begun { (trx page : ℕ) (store : Store) → HasVersions store
        → HasVersions (log_begun trx page store) }
    ensures insert { (p : Plan) (store : Store) → MayChange p store → IsWell store
        → HasVersions store → (lob : Lob) (len : ℕ) → IsUnnamed lob.page store
        → lob_of store.lobs lob.page ≡ None
        → lob.version ≡ 1 → AreUpTo 1 lob.pieces → HasVersions (insert_begun p lob len store) }
    ensures full { (p : Plan) (store : Store) → MayChange p store → IsWell store → HasVersions store
        → (lob : Lob) (len : ℕ) → IsUnnamed lob.page store → lob_of store.lobs lob.page ≡ None
        → lob.version ≡ 1 → AreUpTo 1 lob.pieces → (row_before store p.doc).state ≡ live
        → HasVersions (rebuild_begun p lob len store) }
    ensures versioned { (p : Plan) (store : Store) → MayChange p store → IsWell store
        → HasVersions store → (pieces : ℕ) (touched : List ℕ)
        → (row_before store p.doc).state ≡ live
        → HasVersions (version_begun p pieces touched store) }
    ensures patched { (p : Plan) (store : Store) → MayChange p store → IsWell store
        → HasVersions store → (old new : List Run) → (row_before store p.doc).state ≡ live
        → HasVersions (patch_made p old new store) }
    ensures delete { (p : Plan) (store : Store) → MayChange p store → IsWell store
        → HasVersions store → (row_before store p.doc).state ≡ live
        → HasVersions (delete_made p store) }
    ensures lob { (page : ℕ) (f : Lob → Lob) (store : Store) → IsWell store
        → ((l : Lob) → (f l).page ≡ l.page) → ((l : Lob) → (f l).version ≡ l.version)
        → ((l : Lob) → lob_of store.lobs page ≡ Some l → AreUpTo l.version l.pieces
        → AreUpTo l.version (f l).pieces) → HasVersions store
        → HasVersions (on_lobs (on_lob page f) store) }
    ensures commit { (trx : ℕ) (store : Store) → IsWell store → HasVersions store
        → HasVersions (committed_by trx store) }
    ensures undo { (trx : ℕ) (place : Address) (u : Record) (store : Store) → IsWell store
        → IsNewest trx place u store → HasVersions store → IsLowered u.body u.before store.lobs
        → HasVersions (undo_ended trx u store) }
    ensures pass { (a : Address) (u : Record) (store : Store) (l : Log) (ls : List Log)
        → IsWell store → store.committed ≡ l ∷ ls → last_in l.records ≡ (a, u) ∷ []
        → HasVersions store
        → HasVersions (record_passed a l.trx u store) }
    ensures first { (f : Log → Log) (store : Store) → ((m : Log) → (f m).records ≡ m.records)
        → ((m : Log) → (f m).trx ≡ m.trx) → HasVersions store → HasVersions (on_oldest f store) }
    ensures last { (store : Store) (l : Log) (ls : List Log) → store.committed ≡ l ∷ ls
        → l.records ≡ [] → HasVersions store → HasVersions (log_purged store) }
{}

/// Numbers of pieces that are pushed, popped, dropped, added and freed.
#[tactic(auto, using(crate::proofs::VersionEvents::up_pushed, crate::proofs::VersionEvents::up_popped, crate::proofs::VersionEvents::up_dropped, crate::proofs::VersionEvents::up_added, crate::proofs::VersionEvents::up_front))]
pub fn numbers_stay()
    ensures push { (v k : ℕ) (node : Address) (x : Version) (ps : List Piece) → x.number ≤ v
        → AreUpTo v ps → AreUpTo v (on_piece k (pushed node x) ps) }
    ensures pop { (v k : ℕ) (ps : List Piece) → AreUpTo v ps → AreUpTo v (on_piece k popped ps) }
    ensures drop { (v k : ℕ) (ps : List Piece) → AreUpTo v ps → AreUpTo v (on_piece k dropped ps) }
    ensures add { (v : ℕ) (p : Piece) (ps : List Piece) → AreOlderUpTo v (p.head ∷ p.older)
        → AreUpTo v ps → AreUpTo v (ps ++ p ∷ []) }
    ensures free { (v : ℕ) (ps : List Piece) → AreUpTo v ps → AreUpTo v (all_but_last ps) }
{}
