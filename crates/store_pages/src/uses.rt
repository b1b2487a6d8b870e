// Calls on one part, as calls on the store.
ghost use Rattle.std.specs.Prelude.{◌≡◌, ℕ, List, length, Some};
ghost use Rattle.page_model.specs.Pages.{Pages, Address};
ghost use Rattle.page_model.specs.Spans.{SameOutside};
ghost use Rattle.store_data.specs.Store.{active, Version, Piece, Lob, Log, Store};
ghost use Rattle.lob_model.specs.Lobs.{IsLob, lob_pages, lob_spans};
ghost use Rattle.undo_model.specs.Data.{Record, Log as LogThere};
ghost use Rattle.undo_model.specs.Logs.{IsLog};
ghost use Rattle.store_parts.specs.Appends.{AppendsRecord};
ghost use Rattle.store_model.specs.Lobs.{lob_of};
ghost use Rattle.store_model.specs.Steps.{on_lob, on_lobs, log_of as log_in};
ghost use Rattle.store_model.specs.Events.{version_pushed};
ghost use Rattle.store_pages.specs.Pushes.{Pushes};
ghost use Rattle.store_parts.specs.Shows.{IsStore, log_of};
ghost use Rattle.store_parts.specs.Keeps.{AreAsMany};
ghost use Rattle.store_pages.specs.Changes.{RecordsChange};

/// What is written within a LOB's own pages changes the LOB alone.
#[tactic(auto, using(crate::proofs::UseLemmas::lob_written))]
pub fn version_set()
    ensures { (old new : Pages) (store : Store) (page : ℕ) (l : Lob) (f : Lob → Lob)
        → IsStore old store → lob_of store.lobs page ≡ Some l
        → IsLob new (f l) → SameOutside (lob_spans l) old new
        → AreAsMany (lob_pages l) (lob_pages (f l))
        → IsStore new (on_lobs (on_lob page f) store) }
{}

/// A version is pushed, on a node and a page that are taken for it.
pub fn version_is_pushed()
    ensures { (old new : Pages) (store : Store) (page : ℕ) (l : Lob) (x : Version) (node : Address)
        (rest : List Address) (bs : List Piece) (p : Piece) (cs : List Piece)
        → IsStore old store → lob_of store.lobs page ≡ Some l → Pushes l x node rest bs p cs old new
        → IsStore new (version_pushed page (length bs) node x l.index rest store) }
{}

/// An appended record is one of its transaction's log.
#[tactic(auto, using(crate::proofs::AppendLemmas::append_recorded))]
pub fn record_appended()
    ensures { (old new : Pages) (store : Store) (trx roll : ℕ) (x : Log) (r : Record)
        → IsStore old store → log_in store.active trx ≡ Some x
        → ((l : LogThere) → IsLog old l → log_of l ≡ x → l.state ≡ active
        → AppendsRecord l r roll old new) → RecordsChange trx r roll store new }
{}
