// Laws on the events of purge: whoever sees the purged transaction sees each document as before.
ghost use Rattle.std.specs.Prelude.{◌≡◌, ◌≢◌, ◌≤◌, ℕ, true, List, [], ◌∷◌};
ghost use Rattle.page_model.specs.Pages.{Address};
ghost use Rattle.store_data.specs.Logs.{passed};
ghost use Rattle.store_data.specs.Store.{deleted, removed, Record, Log, Store};
ghost use Rattle.store_model.specs.History.{row_of, row_before, changes, is_among, under};
ghost use Rattle.store_model.specs.Steps.{last_in};
ghost use Rattle.store_model.specs.Undo.{piece_freed, index_freed, on_oldest, purge_begun, version_dropped, cleared, is_newest, record_passed, log_pages_left, log_purged};
ghost use Rattle.store_model.specs.Behind.{AllRows, SameParts, IsElsewhere};
ghost use Rattle.store_model.specs.Moves.{KeepsAll};
ghost use Rattle.store_model.specs.Purging.{SeesSame, AllTo, Meets, FindsWithout};

/// LOBs freed piece by piece, and versions dropped, are not read by who sees the transaction.
#[tactic(auto, using(crate::proofs::PurgeLemmas::drop_seen, crate::proofs::PurgeLemmas::free_seen, crate::proofs::PurgeLemmas::index_seen))]
pub fn purge_frees()
    ensures version { (trx page k : ℕ) (free : List Address) (store : Store) (d : ℕ)
        → AllTo trx (FindsWithout page k store.lobs) (row_before store d) (changes store d)
        → SeesSame trx d store (version_dropped page k free store) }
    ensures piece { (trx page d : ℕ) (free : List Address) (store : Store)
        → AllTo trx (IsElsewhere page) (row_before store d) (changes store d)
        → SeesSame trx d store (piece_freed page free store) }
    ensures index { (trx page d : ℕ) (store : Store)
        → AllTo trx (IsElsewhere page) (row_before store d) (changes store d)
        → SeesSame trx d store (index_freed page store) }
{}

/// A record is passed: its document loses the rows before the record's own, and other documents
/// stay.
#[tactic(auto, using(crate::proofs::PurgeLemmas::pass_own, crate::proofs::PurgeLemmas::pass_others))]
pub fn record_passes()
    ensures own { (a : Address) (u : Record) (store : Store) (l : Log) (ls : List Log)
        → store.committed ≡ l ∷ ls
        → AllTo l.trx (SameParts store.lobs (cleared u.body u.before store.lobs))
        (row_before store u.doc) (changes (on_oldest passed store) u.doc)
        → Meets l.trx (row_before store u.doc) (changes (on_oldest passed store) u.doc)
        → (is_newest a l.trx (row_of store u.doc) ≡ true → u.body ≡ removed
        → ((row_before store u.doc).state ≡ deleted)
        × (changes (on_oldest passed store) u.doc ≡ []))
        → SeesSame l.trx u.doc store (record_passed a l.trx u store) }
    ensures others { (a : Address) (u : Record) (store : Store) (l : Log) (ls : List Log) (d : ℕ)
        → store.committed ≡ l ∷ ls → last_in l.records ≡ (a, u) ∷ [] → d ≢ u.doc
        → AllRows (SameParts store.lobs (cleared u.body u.before store.lobs)) store d
        → KeepsAll d store (record_passed a l.trx u store) }
{}

/// The first event, and the log's pages: nothing that is shown changes, and from the purged commit
/// on the same transactions are seen.
#[tactic(auto, using(crate::proofs::PurgeLemmas::begun_keeps, crate::proofs::PurgeLemmas::pages_keep, crate::proofs::PurgeLemmas::log_keeps, crate::proofs::PurgeLemmas::log_among))]
pub fn log_goes()
    ensures begun { (d : ℕ) (store : Store) → KeepsAll d store (purge_begun store) }
    ensures pages { (d : ℕ) (pages : List ℕ) (store : Store)
        → KeepsAll d store (log_pages_left pages store) }
    ensures last { (d : ℕ) (store : Store) (l : Log) (ls : List Log) → store.committed ≡ l ∷ ls
        → l.records ≡ [] → KeepsAll d store (log_purged store) }
    ensures among { (k x : ℕ) (store : Store) (l : Log) (ls : List Log) → store.committed ≡ l ∷ ls
        → l.number ≤ k → is_among (log_purged store) k x ≡ is_among store k x }
{}

/// So purge leaves each document under each number of commits that has the purged transaction among
/// its first.
#[tactic(auto, using(crate::proofs::PurgeLemmas::seen_under))]
pub fn under_stays()
    ensures { (trx d k : ℕ) (old new : Store) → SeesSame trx d old new → is_among old k trx ≡ true
        → ((x : ℕ) → is_among new k x ≡ is_among old k x) → under new d k ≡ under old d k }
{}
