//! The events of the purge of a commit.
ghost use Rattle.std.specs.Prelude.{◌≡◌, ◌≤◌, ℕ, suc, true, false, List, [], ◌∷◌, Some, is_some};
ghost use Rattle.page_model.specs.Pages.{Address};
ghost use Rattle.journal_model.specs.Journal.{Script, Opening, Purged};
ghost use Rattle.journal_model.specs.Legal.{Allowed};
ghost use Rattle.history_model.specs.Laws.{IsRun};
ghost use Rattle.store_data.specs.Store.{Piece, Lob, Record, Log, Store};
ghost use Rattle.store_data.specs.Pieces.{piece_at, dropped};
ghost use Rattle.store_model.specs.Lobs.{lob_of};
ghost use Rattle.store_model.specs.Steps.{last_in, on_lob, at_piece, without_piece, without_index};
ghost use Rattle.store_model.specs.Behind.{AtPiece};
ghost use Rattle.store_model.specs.Keeps.{IsVersioned, Frees};
ghost use Rattle.store_model.specs.Undo.{record_passed};
ghost use Rattle.store_model.specs.Consistent.{IsConsistent};
ghost use Rattle.store_model.specs.Takes.{piece_of};
ghost use Rattle.kept_model.specs.Engine.{ReadView, Engine};
ghost use Rattle.kept_model.specs.Names.{is_begun, is_old};
ghost use Rattle.kept_model.specs.Passes.{Passes, pass_event};
ghost use Rattle.kept_model.specs.Drops.{Drops, drop_event};
ghost use Rattle.kept_model.specs.Purges.{begun_event, purged_event};
ghost use Rattle.kept_model.specs.Kept.{Kept};

/// The first event, where every view in force sees the commit.
pub fn begun_keeps()
    ensures { (o : Opening) (script : Script) (e : Engine) → Kept o script e
        → (l : Log) (ls : List Log) → e.store.committed ≡ l ∷ ls → is_begun l.state ≡ false
        → ((s : ℕ) (v : ReadView) → (e.sessions s).view ≡ Some v
        → suc e.store.purged ≤ v.commits) → Kept o script (begun_event e) }
{}

/// The event that ends a record.
pub fn pass_keeps()
    ensures { (o : Opening) (script : Script) (e : Engine) → Kept o script e
        → (l : Log) (ls : List Log) (u : Record) (next : Store) → e.store.committed ≡ l ∷ ls
        → is_begun l.state ≡ true
        → Passes l ls u e.store next → Kept o script (pass_event next e) }
{}

/// Such an event of a store, for every kind of record.
pub fn records_are_passed()
    ensures { (a : Address) (u : Record) (store : Store) (l : Log) (ls : List Log) → IsConsistent store
        → store.committed ≡ l ∷ ls → last_in l.records ≡ (a, u) ∷ []
        → Passes l ls u store (record_passed a l.trx u store) }
{}

/// The last event, where the log is empty.
pub fn purge_keeps()
    ensures { (o : Opening) (script : Script) → IsRun o script → (e : Engine) → Kept o script e
        → (l : Log) (ls : List Log) → e.store.committed ≡ l ∷ ls → is_begun l.state ≡ true
        → l.records ≡ []
        → Kept o script (purged_event e) }
{}

/// Its entry may follow.
pub fn purge_is_allowed()
    ensures { (o : Opening) (script : Script) → IsRun o script → (e : Engine) → Kept o script e
        → (l : Log) (ls : List Log) → e.store.committed ≡ l ∷ ls → is_begun l.state ≡ true
        → l.records ≡ []
        → Allowed o script (Purged (suc e.store.purged)) e.journal }
{}

/// An event of a record's purge but its last, as a version dropped, or a piece or an index page
/// freed.
pub fn drop_keeps()
    ensures { (o : Opening) (script : Script) (e : Engine) → Kept o script e
        → (l : Log) (ls : List Log) (d : ℕ) (f : List Lob → List Lob)
        → e.store.committed ≡ l ∷ ls → is_begun l.state ≡ true
        → Drops l d f e.store → Kept o script (drop_event f e) }
{}

/// Such events of a store: of the LOB before a new encoding or a removal a piece is freed, or an
/// index page; of a change that made versions the oldest one of a piece is dropped, where who sees
/// the change finds its version without it.
pub fn purge_goes_on()
    ensures piece { (a : Address) (u : Record) (store : Store) (l : Log) (ls : List Log)
        → IsConsistent store → store.committed ≡ l ∷ ls → last_in l.records ≡ (a, u) ∷ []
        → Frees u.body → (m : Lob) → lob_of store.lobs u.before.lob.page ≡ Some m
        → (free : List Address) → Drops l u.doc
        (on_lob u.before.lob.page (λ m. record (without_piece m) { free = free })) store }
    ensures index { (a : Address) (u : Record) (store : Store) (l : Log) (ls : List Log)
        → IsConsistent store → store.committed ≡ l ∷ ls → last_in l.records ≡ (a, u) ∷ []
        → Frees u.body → (m : Lob) → lob_of store.lobs u.before.lob.page ≡ Some m
        → (i : ℕ) (is : List ℕ) → m.index ≡ i ∷ is
        → Drops l u.doc (on_lob u.before.lob.page without_index) store }
    ensures version { (a : Address) (u : Record) (store : Store) (l : Log) (ls : List Log)
        → IsConsistent store → store.committed ≡ l ∷ ls → last_in l.records ≡ (a, u) ∷ []
        → (k : ℕ) (free : List Address) → IsVersioned u.body
        → ((m : Lob) → lob_of store.lobs u.before.lob.page ≡ Some m
        → AtPiece k (λ p. is_some (piece_at (dropped p) (suc u.before.lob.version)) ≡ true)
        m.pieces)
        → (m : Lob) → lob_of store.lobs u.before.lob.page ≡ Some m
        → (p : Piece) → piece_of k m.pieces ≡ Some p → Drops l u.doc
        (on_lob u.before.lob.page (λ m. record (at_piece k dropped m) { free = free })) store }
{}
