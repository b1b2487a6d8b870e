// What each event keeps of the documents under a number of commits: a change and its rollback all
// of them, and purge those from the purged commit on.
ghost use Rattle.std.specs.Prelude.{◌≡◌, ℕ, suc, true, List, [], ◌∷◌, ◌++◌, Some, is_some};
ghost use Rattle.page_model.specs.Pages.{Address};
ghost use Rattle.store_data.specs.Pieces.{piece_at, dropped};
ghost use Rattle.store_data.specs.Store.{Row, Body, Lob, Record, Log, Store};
ghost use Rattle.store_model.specs.Lobs.{lob_of};
ghost use Rattle.store_model.specs.History.{Past, history, changes, stands, is_among, under};
ghost use Rattle.store_model.specs.Steps.{on_lobs, last_in};
ghost use Rattle.store_model.specs.Events.{Plan, planned};
ghost use Rattle.store_model.specs.Undo.{piece_freed, index_freed, version_dropped, record_passed, purge_begun, log_pages_left, log_purged};
ghost use Rattle.store_model.specs.Owned.{owned, IsNotAmong};
ghost use Rattle.store_model.specs.Behind.{AtPiece};
ghost use Rattle.store_model.specs.Moves.{MayChange, Begins, KeepsOlder, IsUnnamed};
ghost use Rattle.store_model.specs.Well.{IsWell};
ghost use Rattle.store_model.specs.Keeps.{IsVersioned, Frees, KeepsUnder};

/// Purge of a commit keeps each document under each number from this commit on.
pub fn purge_keeps_under()
    ensures begun { (store : Store) → KeepsUnder 0 store (purge_begun store) }
    ensures piece { (a : Address) (u : Record) (store : Store) (l : Log) (ls : List Log)
        → IsWell store → store.committed ≡ l ∷ ls → last_in l.records ≡ (a, u) ∷ []
        → (free : List Address) → Frees u.body
        → KeepsUnder l.number store (piece_freed u.before.lob.page free store) }
    ensures index { (a : Address) (u : Record) (store : Store) (l : Log) (ls : List Log)
        → IsWell store → store.committed ≡ l ∷ ls → last_in l.records ≡ (a, u) ∷ []
        → Frees u.body → KeepsUnder l.number store (index_freed u.before.lob.page store) }
    ensures version { (a : Address) (u : Record) (store : Store) (l : Log) (ls : List Log)
        → IsWell store → store.committed ≡ l ∷ ls → last_in l.records ≡ (a, u) ∷ []
        → (k : ℕ) (free : List Address) → IsVersioned u.body
        → ((m : Lob) → lob_of store.lobs u.before.lob.page ≡ Some m
        → AtPiece k (λ p. is_some
        (piece_at (dropped p) (suc u.before.lob.version)) ≡ true) m.pieces)
        → KeepsUnder l.number store (version_dropped u.before.lob.page k free store) }
    ensures pass { (a : Address) (u : Record) (store : Store) (l : Log) (ls : List Log)
        → IsWell store → store.committed ≡ l ∷ ls → last_in l.records ≡ (a, u) ∷ []
        → KeepsUnder l.number store (record_passed a l.trx u store) }
    ensures pages { (pages : List ℕ) (store : Store)
        → KeepsUnder 0 store (log_pages_left pages store) }
    ensures last { (store : Store) (l : Log) (ls : List Log) → store.committed ≡ l ∷ ls
        → l.records ≡ [] → KeepsUnder l.number store (log_purged store) }
{}

/// A record that is passed is the oldest change of its document, and no other document loses one.
pub fn pass_loses_the_oldest()
    ensures { (a : Address) (u : Record) (store : Store) (l : Log) (ls : List Log)
        → store.committed ≡ l ∷ ls → last_in l.records ≡ (a, u) ∷ []
        → changes store u.doc ≡ changes
        (record_passed a l.trx u store) u.doc
        ++ record { place = a; trx = l.trx; undo = u } ∷ [] }
{}

/// A change that is begun, and each event in the midst of it or of its rollback, keeps each
/// document under all numbers of commits, since none of them has the active transaction among its
/// first.
pub fn changes_keep_under()
    ensures begun { (p : Plan) (old new : Store) → MayChange p old → Begins p old new
        → ((k x : ℕ) → is_among new k x ≡ is_among old k x) → KeepsUnder 0 old new }
    ensures among { (p : Plan) (new : Row → Row) (body : Body) (f : List Lob → List Lob)
        (store : Store) (k x : ℕ)
        → is_among (on_lobs f (planned p new body store)) k x ≡ is_among store k x }
    ensures half { (old new : Store) (d k : ℕ) (h h' : Past) (hs hs' : List Past)
        → history old d ≡ h ∷ hs → history new d ≡ h' ∷ hs' → h'.trx ≡ h.trx
        → stands h.trx old.active ≡ true
        → ((x : ℕ) → is_among new k x ≡ is_among old k x) → KeepsOlder d old new
        → under new d k ≡ under old d k }
{}

/// A page that isn't owned is no row's LOB, so a new LOB may begin there.
pub fn unowned_is_unnamed()
    ensures { (page : ℕ) (store : Store) → IsWell store → IsNotAmong page (owned store)
        → IsUnnamed page store }
{}
