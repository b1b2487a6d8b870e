// The row pages stand on where another part of a store changes: what keeps a directory of the rows
// right. Pages hold one list of row pages at most, so these are those that the caller knows.
ghost use Rattle.std.specs.Prelude.{◌≡◌, ℕ, List, [], ◌∷◌, Some};
ghost use Rattle.page_model.specs.Pages.{Pages, Address};
ghost use Rattle.page_model.specs.Spans.{SameOutside, SetsField};
ghost use Rattle.page_model.specs.Lists.{IsList, list_spans};
ghost use Rattle.page_space.specs.declared.layout.TheConstants.{NEXT_TRX_ID};
ghost use Rattle.store_data.specs.Store.{active, Version, Piece, Lob, Log, Store};
ghost use Rattle.lob_model.specs.Lobs.{lob_pages, lob_spans};
ghost use Rattle.undo_model.specs.Data.{Record, Log as LogThere};
ghost use Rattle.undo_model.specs.Logs.{IsLog, log_node};
ghost use Rattle.undo_model.specs.LogLists.{pages_in, active_base};
ghost use Rattle.store_model.specs.Lobs.{lob_of};
ghost use Rattle.store_model.specs.Steps.{log_of as log_in};
ghost use Rattle.store_parts.specs.Shows.{IsStore, log_of};
ghost use Rattle.store_parts.specs.Keeps.{Keeps, AreAsMany};
ghost use Rattle.store_parts.specs.Appends.{AppendsRecord};
ghost use Rattle.store_parts.specs.Logs.{ChangesLog, GivesLog, CommitsLog, ChangesOldest, PurgesLog};
ghost use Rattle.store_pages.specs.Lobs.{TakesFor, GivesOf};
ghost use Rattle.store_pages.specs.Pushes.{Pushes};
ghost use Rattle.store_pages.specs.Stands.{RowsStand};

/// Where an active log is begun, has a record appended, changes, goes, or is committed.
pub fn rows_stand_by_log()
    ensures begun { (old mid new : Pages) (store : Store) (m : LogThere) → IsStore old store
        → IsLog mid m → m.state ≡ active → Keeps [] [] (pages_in m.parts) old mid
        → ((nodes : List Address) → IsList mid active_base nodes
        → IsList new active_base (log_node m.page ∷ nodes)
        × SameOutside (list_spans active_base (log_node m.page ∷ nodes)) mid new)
        → RowsStand old new }
    ensures appended { (old new : Pages) (store : Store) (trx roll : ℕ) (x : Log) (r : Record)
        → IsStore old store → log_in store.active trx ≡ Some x
        → ((l : LogThere) → IsLog old l → log_of l ≡ x → l.state ≡ active
        → AppendsRecord l r roll old new) → RowsStand old new }
    ensures changed { (old new : Pages) (store : Store) (trx : ℕ) (x : Log) (f : Log → Log)
        → IsStore old store → log_in store.active trx ≡ Some x
        → ((l : LogThere) → IsLog old l → log_of l ≡ x → l.state ≡ active
        → ChangesLog f l old new) → RowsStand old new }
    ensures gone { (old new : Pages) (store : Store) (trx : ℕ) (x : Log)
        → IsStore old store → log_in store.active trx ≡ Some x
        → ((l : LogThere) → IsLog old l → log_of l ≡ x → l.state ≡ active
        → GivesLog l old new) → RowsStand old new }
    ensures committed { (old new : Pages) (store : Store) (trx : ℕ) (x : Log)
        → IsStore old store → log_in store.active trx ≡ Some x
        → ((l : LogThere) → IsLog old l → log_of l ≡ x
        → (m : LogThere) × CommitsLog l m store.commits old new) → RowsStand old new }
{}

/// Where purge goes on in the oldest committed log, and where it goes.
pub fn rows_stand_by_oldest()
    ensures changed { (old new : Pages) (store : Store) (x : Log) (xs : List Log) (f : Log → Log)
        → IsStore old store → store.committed ≡ x ∷ xs
        → ((l : LogThere) → IsLog old l → log_of l ≡ x → ChangesOldest f l old new)
        → RowsStand old new }
    ensures purged { (old new : Pages) (store : Store) (x : Log) (xs : List Log)
        → IsStore old store → store.committed ≡ x ∷ xs
        → ((l : LogThere) → IsLog old l → log_of l ≡ x → PurgesLog l store.purged old new)
        → RowsStand old new }
{}

/// Where a LOB begins, is written, takes a page, gives one back, has a version pushed, or whatever
/// else its pages become.
pub fn rows_stand_by_lob()
    ensures begun { (old new : Pages) (store : Store) (own : List ℕ) → IsStore old store
        → Keeps [] [] own old new → RowsStand old new }
    ensures changed { (old new : Pages) (store : Store) (page : ℕ) (l : Lob) (own : List ℕ)
        → IsStore old store → lob_of store.lobs page ≡ Some l → Keeps [] (lob_pages l) own old new
        → RowsStand old new }
    ensures written { (old new : Pages) (store : Store) (page : ℕ) (l : Lob) → IsStore old store
        → lob_of store.lobs page ≡ Some l → SameOutside (lob_spans l) old new → RowsStand old new }
    ensures takes { (old new : Pages) (store : Store) (page : ℕ) (l : Lob) (p : ℕ)
        → IsStore old store → lob_of store.lobs page ≡ Some l → TakesFor l p old new
        → RowsStand old new }
    ensures gives { (old new : Pages) (store : Store) (page : ℕ) (l : Lob) (p : ℕ) (own : List ℕ)
        → IsStore old store → lob_of store.lobs page ≡ Some l → GivesOf l p old new
        → AreAsMany (lob_pages l) (p ∷ own) → RowsStand old new }
    ensures pushed { (old new : Pages) (store : Store) (page : ℕ) (l : Lob) (x : Version)
        (node : Address) (rest : List Address) (bs : List Piece) (p : Piece) (cs : List Piece)
        → IsStore old store → lob_of store.lobs page ≡ Some l → Pushes l x node rest bs p cs old new
        → RowsStand old new }
{}

/// Where the next transaction id changes.
pub fn rows_stand_by_next_trx()
    ensures { (old new : Pages) (store : Store) (v : ℕ) → IsStore old store
        → SetsField 0 NEXT_TRX_ID 8 v old new → RowsStand old new }
{}
