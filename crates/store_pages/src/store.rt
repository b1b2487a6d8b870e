// A whole store, and what it is where one part changes.
ghost use Rattle.std.specs.Prelude.{◌≡◌, ℕ, List, [], ◌∷◌, ◌++◌, Some};
ghost use Rattle.page_model.specs.Pages.{Pages, Address};
ghost use Rattle.page_model.specs.Spans.{SameOutside, SetsField};
ghost use Rattle.page_model.specs.Lists.{IsList, list_spans};
ghost use Rattle.page_model.specs.Counts.{times};
ghost use Rattle.page_space.specs.System.{MakesSystem};
ghost use Rattle.page_space.specs.declared.layout.TheConstants.{NEXT_TRX_ID};
ghost use Rattle.store_data.specs.Store.{active, Lob, Log, Row, Store};
ghost use Rattle.lob_model.specs.Lobs.{IsLob, lob_pages};
ghost use Rattle.undo_model.specs.Data.{Log as LogThere, led};
ghost use Rattle.undo_model.specs.Logs.{IsLog, log_node};
ghost use Rattle.undo_model.specs.LogLists.{pages_in, active_base};
ghost use Rattle.store_model.specs.Lobs.{lob_of};
ghost use Rattle.store_model.specs.Steps.{on_lob, on_lobs, without_lob, log_of as log_in};
ghost use Rattle.store_model.specs.Owned.{owned};
ghost use Rattle.store_model.specs.Held.{HasLobs};
ghost use Rattle.store_parts.specs.Standing.{mark};
ghost use Rattle.store_parts.specs.Shows.{IsStore, log_of, empty_store};
ghost use Rattle.store_parts.specs.Keeps.{Keeps};
ghost use Rattle.store_pages.specs.Changes.{LogAt, RowsAt};
ghost use Rattle.store_parts.specs.Logs.{CommitsLog};
ghost use Rattle.store_pages.specs.Oldest.{OldestAt};
ghost use Rattle.store_pages.specs.Logs.{LogsAt, NamesRecord};
ghost use Rattle.store_model.specs.Undo.{counts_as_purged};
ghost use Rattle.store_model.specs.Well.{AreDistinct};
ghost use Rattle.undo_model.specs.LogSteps.{is_purged};
ghost use Rattle.store_model.specs.Events.{committed_by};

/// A new system page is an empty store.
#[tactic(auto, using(crate::proofs::StartLemmas::new_store))]
pub fn new_store_stands()
    ensures { (old new : Pages) → MakesSystem old new → IsStore new empty_store }
{}

/// The map marks the pages that the store owns, each once, and no others.
#[tactic(auto, using(crate::proofs::MarkLemmas::marks_owned))]
pub fn map_marks_owned()
    ensures { (pages : Pages) (store : Store) → IsStore pages store → HasLobs store → (n : ℕ)
        → times n (owned store) ≡ mark pages n }
{}

/// One LOB changes in its pages, and pages are taken for it or given back.
#[tactic(auto, using(crate::proofs::LobStoreLemmas::lob_changed))]
pub fn lob_changes()
    ensures { (old new : Pages) (store : Store) → IsStore old store
        → (page : ℕ) (l : Lob) (f : Lob → Lob) → lob_of store.lobs page ≡ Some l → IsLob new (f l)
        → Keeps [] (lob_pages l) (lob_pages (f l)) old new
        → IsStore new (on_lobs (on_lob page f) store) }
{}

/// A LOB begins in pages that were taken for it.
#[tactic(auto, using(crate::proofs::LobStoreLemmas::lob_begun))]
pub fn lob_begins()
    ensures { (old new : Pages) (store : Store) → IsStore old store → (m : Lob) → IsLob new m
        → Keeps [] [] (lob_pages m) old new
        → IsStore new (on_lobs (λ ls. ls ++ m ∷ []) store) }
{}

/// A LOB is gone, and its pages are given back.
#[tactic(auto, using(crate::proofs::LobStoreLemmas::lob_gone))]
pub fn lob_goes()
    ensures { (old new : Pages) (store : Store) → IsStore old store → (page : ℕ) (l : Lob)
        → lob_of store.lobs page ≡ Some l → Keeps [] (lob_pages l) [] old new
        → IsStore new (on_lobs (without_lob page) store) }
{}

/// An active log of a store stands there in its pages, has room for a page more, and may change or
/// go.
#[tactic(auto, using(crate::proofs::LogStoreLemmas::log_at))]
pub fn log_changes()
    ensures { (old : Pages) (store : Store) (trx : ℕ) (x : Log) → IsStore old store
        → log_in store.active trx ≡ Some x → LogAt old store trx x }
{}

/// The logs of a store stand on pages of their own, the active ones and the committed ones each in
/// their list; an active log that the store has is one of the former.
#[tactic(auto, using(crate::proofs::AllLogsLemmas::logs_at))]
pub fn logs_stand()
    ensures { (pages : Pages) (store : Store) → IsStore pages store → LogsAt pages store }
{}

/// Whether purge has passed the record that a row names: by the pages' fields as by the store, where
/// no two logs have one transaction.
pub fn purged_shows()
    ensures { (pages : Pages) (store : Store) → (is : IsStore pages store)
        → AreDistinct (store.active ++ store.committed)
        → (row : Row) (n : ℕ) → row.roll ≡ led n → NamesRecord store row
        → is_purged (is.stored.active ++ is.stored.committed) (led n) row.trx
        ≡ counts_as_purged store row }
{}

/// An active log is begun, in front of the others.
#[tactic(auto, using(crate::proofs::StoreMoveLemmas::log_begun))]
pub fn log_begins()
    ensures { (old mid new : Pages) (store : Store) (m : LogThere) → IsStore old store → IsLog mid m
        → m.state ≡ active → Keeps [] [] (pages_in m.parts) old mid
        → ((nodes : List Address) → IsList mid active_base nodes
        → IsList new active_base (log_node m.page ∷ nodes)
        × SameOutside (list_spans active_base (log_node m.page ∷ nodes)) mid new)
        → IsStore new (record store { active = log_of m ∷ store.active }) }
{}

/// An active log is committed: it leaves the list of active ones for the end of the others, and the
/// commits are counted.
pub fn log_commits()
    ensures { (old new : Pages) (store : Store) (trx : ℕ) (x : Log) → IsStore old store
        → log_in store.active trx ≡ Some x
        → ((l : LogThere) → IsLog old l → log_of l ≡ x
        → (m : LogThere) × CommitsLog l m store.commits old new)
        → IsStore new (committed_by trx store) }
{}

/// The oldest committed log may change as purge goes on, and go.
pub fn log_is_purged()
    ensures { (old : Pages) (store : Store) (x : Log) (xs : List Log) → IsStore old store
        → store.committed ≡ x ∷ xs → OldestAt old store x }
{}

/// The rows of a store may change, with row pages taken and given back.
#[tactic(auto, using(crate::proofs::StoreMoveLemmas::rows_at))]
pub fn rows_change()
    ensures { (old : Pages) (store : Store) → IsStore old store → RowsAt old store }
{}

/// The next transaction id may change.
#[tactic(auto, using(crate::proofs::StoreMoveLemmas::next_trx_changed))]
pub fn next_trx_changes()
    ensures { (old new : Pages) (store : Store) (v : ℕ) → IsStore old store
        → SetsField 0 NEXT_TRX_ID 8 v old new → IsStore new (record store { next_trx = v }) }
{}
