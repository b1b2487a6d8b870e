//! Events of a store whose chains are whole.
ghost use Rattle.std.specs.Prelude.{◌≡◌, ◌≢◌, ◌⊎◌, ℕ, suc, map, List, [], ◌∷◌, true, false};
ghost use Rattle.page_model.specs.Pages.{Address};
ghost use Rattle.store_data.specs.Store.{Record, Log, Store, versioned};
ghost use Rattle.store_model.specs.Steps.{last_in};
ghost use Rattle.store_model.specs.Purging.{AllTo, FindsWithout};
ghost use Rattle.store_model.specs.History.{Change, changes, row_before};
ghost use Rattle.store_model.specs.Undo.{is_gone, without_newest, undo_ended, record_passed};
ghost use Rattle.store_model.specs.Moves.{IsNewest};
ghost use Rattle.store_model.specs.Well.{IsChain};
ghost use Rattle.read_model.specs.Document.{Sees, IsOther, AreDistinct, pieces_at};
ghost use Rattle.read_model.specs.Events.{Removes, Passes, Sweeps};
ghost use Rattle.read_model.specs.Kinds.{IsOlder, MayPop, MayDropAt, AtOne, AtOthers, IsPushed, HasNoNode};
ghost use Rattle.read_model.specs.OfStore.{entry, document};

/// In a well-formed chain the undoing of the newest record, of a transaction that the view doesn't
/// see, takes it off.
pub fn undo_of_whole_chain()
    ensures { (sees : Sees) (trx : ℕ) (place : Address) (u : Record) (store : Store)
        → IsNewest trx place u store
        → IsChain (row_before store u.doc) (changes store u.doc) → sees trx ≡ false
        → IsOther place (map entry (changes (without_newest trx u store) u.doc))
        → is_gone (without_newest trx u store) u.before.state u.before ≡ false
        → Removes sees (document store u.doc) (document (undo_ended trx u store) u.doc) (place, u) }
{}

/// What a push or a pop asks for: the view's row is of a version below the raised one.
pub fn raised_in_whole_chain()
    ensures { (sees : Sees) (store : Store) (d : ℕ) (c : Change) (cs : List Change) (pieces : ℕ)
        (touched : List ℕ)
        → changes store d ≡ c ∷ cs → IsChain (row_before store d) (changes store d)
        → c.undo.body ≡ versioned pieces touched → sees c.trx ≡ false
        → IsOlder sees (document store d) c.undo.before.lob.page (suc c.undo.before.lob.version) }
{}

/// The event with which purge ends a record, where the view sees the purged transaction.
pub fn pass_in_whole_chain()
    ensures { (sees : Sees) (a : Address) (u : Record) (store : Store) (l : Log) (ls : List Log)
        → store.committed ≡ l ∷ ls
        → last_in l.records ≡ (a, u) ∷ [] → sees l.trx ≡ true → sees 0 ≡ true
        → IsChain (row_before store u.doc) (changes store u.doc)
        → AreDistinct (map entry (changes store u.doc))
        → Passes sees (document store u.doc) (document (record_passed a l.trx u store) u.doc)
        ⊎ Sweeps sees (document store u.doc) (document (record_passed a l.trx u store) u.doc) }
{}

/// A version that purge drops is none that the view needs.
pub fn drop_in_whole_chain()
    ensures { (sees : Sees) (store : Store) (d page k trx : ℕ) → sees trx ≡ true
        → AllTo trx (FindsWithout page k store.lobs) (row_before store d) (changes store d)
        → MayDropAt sees (document store d) page k }
{}

/// What a pop of the raised version asks for holds in a well-formed chain.
pub fn pop_in_whole_chain()
    ensures { (sees : Sees) (store : Store) (d k : ℕ) (node head : Address) (c : Change)
        (cs : List Change) (pieces : ℕ) (touched : List ℕ)
        → changes store d ≡ c ∷ cs → IsChain (row_before store d) (changes store d)
        → c.undo.body ≡ versioned pieces touched → sees c.trx ≡ false
        → AtOne k (IsPushed (suc c.undo.before.lob.version) node head) (HasNoNode node)
        (pieces_at store.lobs c.undo.before.lob.page)
        → ((q : ℕ) → q ≢ c.undo.before.lob.page
        → AtOthers (HasNoNode node) (pieces_at store.lobs q))
        → MayPop sees (document store d) c.undo.before.lob.page k node head }
{}
