//! Pages of logs and rows move beside what an event is named for, and nothing else does.
ghost use Rattle.std.specs.Prelude.{◌≡◌, ℕ, true, List, ◌∷◌};
ghost use Rattle.page_model.specs.Pages.{Address};
ghost use Rattle.journal_model.specs.Journal.{Script, Opening};
ghost use Rattle.store_data.specs.Store.{Record, Log, Store};
ghost use Rattle.store_model.specs.Events.{Plan, with_row_pages};
ghost use Rattle.store_model.specs.Owned.{AreSound};
ghost use Rattle.store_model.specs.Undo.{log_pages_left};
ghost use Rattle.kept_model.specs.Engine.{Engine};
ghost use Rattle.kept_model.specs.Names.{is_begun};
ghost use Rattle.kept_model.specs.Plans.{Plans};
ghost use Rattle.kept_model.specs.Undoes.{Undoes};
ghost use Rattle.kept_model.specs.Lasts.{Ends};
ghost use Rattle.kept_model.specs.Passes.{Passes};
ghost use Rattle.kept_model.specs.Paged.{with_pages, page_event};
ghost use Rattle.kept_model.specs.Kept.{Kept};

/// An event may take a page for its transaction's log and one for the rows, or give them back, where
/// no page is owned twice behind it.
pub fn pages_move_along()
    ensures plans { (p : Plan) (old new : Store) (pages rows : List ℕ) → Plans p old new
        → AreSound (with_pages p.trx pages rows new)
        → Plans p old (with_pages p.trx pages rows new) }
    ensures undoes { (trx : ℕ) (place : Address) (u : Record) (old new : Store)
        (pages rows : List ℕ) → Undoes trx place u old new
        → AreSound (with_pages trx pages rows new)
        → Undoes trx place u old (with_pages trx pages rows new) }
    ensures ends { (trx : ℕ) (place : Address) (u : Record) (old new : Store) (rows : List ℕ)
        → Ends trx place u old new → AreSound (with_row_pages rows new)
        → Ends trx place u old (with_row_pages rows new) }
    ensures passes { (l : Log) (ls : List Log) (u : Record) (old new : Store) (rows : List ℕ)
        → Passes l ls u old new → AreSound (with_row_pages rows new)
        → Passes l ls u old (with_row_pages rows new) }
{}

/// The log that is purged gives back a page, where its first one stays.
pub fn page_keeps()
    ensures { (o : Opening) (script : Script) (e : Engine) → Kept o script e
        → (l : Log) (ls : List Log) → e.store.committed ≡ l ∷ ls → is_begun l.state ≡ true
        → (pages : List ℕ) → AreSound (log_pages_left pages e.store)
        → Kept o script (page_event pages e) }
{}
