//! All reads under way, of whatever documents.
ghost use Rattle.std.specs.Prelude.{◌≡◌, ◌≢◌, ℕ, suc, map, List, [], ◌∷◌, true, false};
ghost use Rattle.page_model.specs.Pages.{Address};
ghost use Rattle.store_data.specs.Store.{Run, Version, Lob, Record, Log, Store, versioned};
ghost use Rattle.store_model.specs.Runs.{lobs_laid};
ghost use Rattle.store_model.specs.Steps.{on_lob, last_in, on_lobs};
ghost use Rattle.store_model.specs.Purging.{AllTo, FindsWithout};
ghost use Rattle.store_model.specs.History.{Change, changes, row_before};
ghost use Rattle.store_model.specs.Events.{Plan, insert_begun, rebuild_begun, version_begun, patch_made, delete_made, version_pushed, committed_by};
ghost use Rattle.store_model.specs.Undo.{version_popped, version_dropped, is_gone, without_newest, undo_ended, record_passed};
ghost use Rattle.store_model.specs.Moves.{MayChange, IsNewest, IsUntouched, OthersElsewhere};
ghost use Rattle.store_model.specs.Locked.{IsLocked};
ghost use Rattle.store_model.specs.Behind.{AllRows, AllBefore, IsElsewhere};
ghost use Rattle.store_model.specs.Well.{IsChain};
ghost use Rattle.read_model.specs.Document.{IsOther, AreDistinct, pieces_at};
ghost use Rattle.read_model.specs.Events.{Touches, Frees};
ghost use Rattle.store_model.specs.Keeps.{Frees as FreesBefore};
ghost use Rattle.read_model.specs.Kinds.{AtOne, AtOthers, IsPushed, HasNoNode};
ghost use Rattle.read_model.specs.OfStore.{entry, document};
ghost use Rattle.read_model.specs.Reads.{Read, AreReads, MaySee, handed, shifted};

/// A change in place keeps all reads under way, of whatever documents.
pub fn all_kept_by_patch()
    ensures { (p : Plan) (old new : List Run) (store : Store) (rs : List Read) → MayChange p store
        → lobs_laid old (lobs_laid new store.lobs) ≡ store.lobs
        → ((d : ℕ) → d ≢ p.doc → AllRows (IsUntouched new store.lobs) store d)
        → MaySee (λ r. r.sees p.trx ≡ false) rs → AreReads store rs
        → AreReads (patch_made p old new store) rs }
{}

/// An insert keeps all reads under way.
pub fn all_kept_by_insert()
    ensures { (p : Plan) (lob : Lob) (n : ℕ) (store : Store) (rs : List Read) → MayChange p store
        → ((d : ℕ) → AllRows (IsElsewhere lob.page) store d)
        → MaySee (λ r. r.sees p.trx ≡ false) rs → AreReads store rs
        → AreReads (insert_begun p lob n store) rs }
{}

/// A new encoding keeps all reads under way.
pub fn all_kept_by_rebuild()
    ensures { (p : Plan) (lob : Lob) (n : ℕ) (store : Store) (rs : List Read) → MayChange p store
        → ((d : ℕ) → AllRows (IsElsewhere lob.page) store d)
        → MaySee (λ r. r.sees p.trx ≡ false) rs → AreReads store rs
        → AreReads (rebuild_begun p lob n store) rs }
{}

/// The planning of new versions keeps all reads under way.
pub fn all_kept_by_new_versions()
    ensures { (p : Plan) (pieces : ℕ) (touched : List ℕ) (store : Store) (rs : List Read)
        → MayChange p store
        → MaySee (λ r. r.sees p.trx ≡ false) rs → AreReads store rs
        → AreReads (version_begun p pieces touched store) rs }
{}

/// A deletion keeps all reads under way.
pub fn all_kept_by_delete()
    ensures { (p : Plan) (store : Store) (rs : List Read) → MayChange p store
        → MaySee (λ r. r.sees p.trx ≡ false) rs → AreReads store rs
        → AreReads (delete_made p store) rs }
{}

/// The last event of a record's undoing keeps all reads, where the record is handed on to those of
/// its document.
pub fn all_kept_by_undo()
    ensures { (trx : ℕ) (place : Address) (u : Record) (store : Store) (rs : List Read)
        → IsNewest trx place u store
        → IsChain (row_before store u.doc) (changes store u.doc)
        → IsOther place (map entry (changes (without_newest trx u store) u.doc))
        → ((d : ℕ) → d ≢ u.doc → OthersElsewhere u.body store d)
        → MaySee (λ r. (r.sees trx ≡ false) × (r.sees 0 ≡ true)
        × (is_gone (without_newest trx u store) u.before.state u.before ≡ true
        → r.sees u.before.trx ≡ true)) rs
        → AreReads store rs → AreReads (undo_ended trx u store) (map (handed u.doc place u) rs) }
{}

/// A commit keeps all reads under way.
pub fn all_kept_by_commit()
    ensures { (trx : ℕ) (store : Store) (rs : List Read) → ((d : ℕ) → IsLocked d store.active)
        → AreReads store rs → AreReads (committed_by trx store) rs }
{}

/// Purge of a record keeps all reads under way, where their views see the purged transaction.
pub fn all_kept_by_purge()
    ensures { (a : Address) (u : Record) (store : Store) (l : Log) (ls : List Log) (rs : List Read)
        → store.committed ≡ l ∷ ls
        → last_in l.records ≡ (a, u) ∷ [] → IsChain (row_before store u.doc) (changes store u.doc)
        → AreDistinct (map entry (changes store u.doc))
        → ((d : ℕ) → d ≢ u.doc → FreesBefore u.body
        → AllRows (IsElsewhere u.before.lob.page) store d)
        → MaySee (λ r. (r.sees l.trx ≡ true) × (r.sees 0 ≡ true)) rs → AreReads store rs
        → AreReads (record_passed a l.trx u store) rs }
{}

/// Work on LOBs does, where it touches none that a view needs.
pub fn all_kept_by_touch()
    ensures { (old new : Store) (rs : List Read)
        → MaySee (λ r. Touches r.sees (document old r.doc) (document new r.doc)) rs
        → AreReads old rs → AreReads new rs }
{}

/// And a pop, where searches at the freed node are moved.
pub fn all_kept_by_pop()
    ensures { (old new : Store) (node head : Address) (rs : List Read)
        → MaySee (λ r. Frees r.sees (document old r.doc) (document new r.doc) node head) rs
        → AreReads old rs → AreReads new (map (shifted node head) rs) }
{}

/// A push keeps all reads whose views don't see the change.
pub fn all_kept_by_push()
    ensures { (store : Store) (d k : ℕ) (node : Address) (x : Version) (index : List ℕ)
        (free : List Address) (c : Change) (cs : List Change) (pieces : ℕ) (touched : List ℕ)
        (rs : List Read)
        → changes store d ≡ c ∷ cs → IsChain (row_before store d) (changes store d)
        → c.undo.body ≡ versioned pieces touched
        → x.number ≡ suc c.undo.before.lob.version
        → ((e : ℕ) → e ≢ d → AllRows (IsElsewhere c.undo.before.lob.page) store e)
        → MaySee (λ r. r.sees c.trx ≡ false) rs
        → AreReads store rs → AreReads
        (version_pushed c.undo.before.lob.page k node x index free store) rs }
{}

/// So does a pop.
pub fn all_kept_by_pop_of_version()
    ensures { (store : Store) (d k : ℕ) (node head : Address) (free : List Address) (c : Change)
        (cs : List Change) (pieces : ℕ) (touched : List ℕ) (rs : List Read)
        → changes store d ≡ c ∷ cs → IsChain (row_before store d) (changes store d)
        → c.undo.body ≡ versioned pieces touched
        → AtOne k (IsPushed (suc c.undo.before.lob.version) node head) (HasNoNode node)
        (pieces_at store.lobs c.undo.before.lob.page)
        → ((q : ℕ) → q ≢ c.undo.before.lob.page
        → AtOthers (HasNoNode node) (pieces_at store.lobs q))
        → ((e : ℕ) → e ≢ d → AllRows (IsElsewhere c.undo.before.lob.page) store e)
        → MaySee (λ r. r.sees c.trx ≡ false) rs
        → AreReads store rs → AreReads (version_popped c.undo.before.lob.page k free store)
        (map (shifted node head) rs) }
{}

/// A drop keeps all reads whose views see the purged transaction.
pub fn all_kept_by_drop()
    ensures { (store : Store) (page k trx : ℕ) (free : List Address) (rs : List Read)
        → ((d : ℕ) → AllTo trx (FindsWithout page k store.lobs) (row_before store d)
        (changes store d))
        → MaySee (λ r. r.sees trx ≡ true) rs → AreReads store rs
        → AreReads (version_dropped page k free store) rs }
{}

/// Work on the LOB of a change that no view sees keeps all reads.
pub fn all_kept_elsewhere()
    ensures { (store : Store) (d page : ℕ) (f : Lob → Lob) (rs : List Read)
        → ((l : Lob) → (f l).page ≡ l.page)
        → AllBefore (IsElsewhere page) (changes store d)
        → ((e : ℕ) → e ≢ d → AllRows (IsElsewhere page) store e)
        → MaySee (λ r. r.sees (row_before store d).trx ≡ false) rs
        → AreReads store rs → AreReads (on_lobs (on_lob page f) store) rs }
{}
