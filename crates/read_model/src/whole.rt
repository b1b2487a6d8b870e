//! All reads over a well store.
ghost use Rattle.std.specs.Prelude.{◌≡◌, ◌≢◌, ℕ, suc, map, List, [], ◌∷◌, true, false};
ghost use Rattle.page_model.specs.Pages.{Address};
ghost use Rattle.store_data.specs.Store.{Version, Record, Log, Store, versioned};
ghost use Rattle.store_model.specs.Steps.{last_in};
ghost use Rattle.store_model.specs.History.{Change, changes};
ghost use Rattle.store_model.specs.Events.{version_pushed, committed_by};
ghost use Rattle.store_model.specs.Undo.{version_popped, is_gone, without_newest, undo_ended, record_passed};
ghost use Rattle.store_model.specs.Moves.{IsNewest, OthersElsewhere};
ghost use Rattle.store_model.specs.Well.{IsWell};
ghost use Rattle.read_model.specs.Document.{AreDistinct, pieces_at};
ghost use Rattle.read_model.specs.Kinds.{AtOne, AtOthers, IsPushed, HasNoNode};
ghost use Rattle.read_model.specs.OfStore.{document};
ghost use Rattle.read_model.specs.Reads.{Read, AreReads, MaySee, handed, shifted};

/// In a well-formed store the records of a document stand at places of their own.
pub fn places_are_distinct()
    ensures { (store : Store) (d : ℕ) → IsWell store → AreDistinct (document store d).records }
{}

/// Over a well-formed store an undoing keeps all reads under way, where the record is handed on to
/// those of its document.
pub fn whole_kept_by_undo()
    ensures { (trx : ℕ) (place : Address) (u : Record) (store : Store) (rs : List Read)
        → IsWell store → IsNewest trx place u store
        → ((d : ℕ) → d ≢ u.doc → OthersElsewhere u.body store d)
        → MaySee (λ r. (r.sees trx ≡ false) × (r.sees 0 ≡ true)
        × (is_gone (without_newest trx u store) u.before.state u.before ≡ true
        → r.sees u.before.trx ≡ true)) rs
        → AreReads store rs → AreReads (undo_ended trx u store) (map (handed u.doc place u) rs) }
{}

/// Over a well-formed store a commit keeps all reads under way.
pub fn whole_kept_by_commit()
    ensures { (trx : ℕ) (store : Store) (rs : List Read) → IsWell store → AreReads store rs
        → AreReads (committed_by trx store) rs }
{}

/// Over a well-formed store a push keeps all reads under way.
pub fn whole_kept_by_push()
    ensures { (store : Store) (d k : ℕ) (node : Address) (x : Version) (index : List ℕ)
        (free : List Address) (c : Change) (cs : List Change) (pieces : ℕ) (touched : List ℕ)
        (rs : List Read)
        → IsWell store → changes store d ≡ c ∷ cs → c.undo.body ≡ versioned pieces touched
        → x.number ≡ suc c.undo.before.lob.version → MaySee (λ r. r.sees c.trx ≡ false) rs
        → AreReads store rs → AreReads
        (version_pushed c.undo.before.lob.page k node x index free store) rs }
{}

/// Over a well-formed store a pop keeps all reads under way, where a search at the freed node goes
/// on from the head.
pub fn whole_kept_by_pop()
    ensures { (store : Store) (d k : ℕ) (node head : Address) (free : List Address) (c : Change)
        (cs : List Change) (pieces : ℕ) (touched : List ℕ) (rs : List Read)
        → IsWell store → changes store d ≡ c ∷ cs → c.undo.body ≡ versioned pieces touched
        → AtOne k (IsPushed (suc c.undo.before.lob.version) node head) (HasNoNode node)
        (pieces_at store.lobs c.undo.before.lob.page)
        → ((q : ℕ) → q ≢ c.undo.before.lob.page
        → AtOthers (HasNoNode node) (pieces_at store.lobs q))
        → MaySee (λ r. r.sees c.trx ≡ false) rs
        → AreReads store rs → AreReads (version_popped c.undo.before.lob.page k free store)
        (map (shifted node head) rs) }
{}

/// Over a well-formed store purge of a record keeps all reads under way, where their views see the
/// purged transaction.
pub fn whole_kept_by_purge()
    ensures { (a : Address) (u : Record) (store : Store) (l : Log) (ls : List Log) (rs : List Read)
        → IsWell store → store.committed ≡ l ∷ ls
        → last_in l.records ≡ (a, u) ∷ []
        → MaySee (λ r. (r.sees l.trx ≡ true) × (r.sees 0 ≡ true)) rs
        → AreReads store rs → AreReads (record_passed a l.trx u store) rs }
{}
