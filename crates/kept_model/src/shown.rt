//! What a kept engine shows is what its journal says, whatever statements, rollbacks and purges are
//! half done.
ghost use Rattle.std.specs.Prelude.{◌≡◌, ◌≤◌, ◌<◌, ℕ, List, length, Option, Some, None, option_map, false};
ghost use Rattle.journal_model.specs.Documents.{look};
ghost use Rattle.journal_model.specs.Journal.{Script, Opening, Reply, Undoer};
ghost use Rattle.journal_model.specs.Part.{docs, newest, shown};
ghost use Rattle.history_model.specs.Laws.{IsRun};
ghost use Rattle.page_model.specs.Pages.{Address};
ghost use Rattle.store_data.specs.Store.{Row, Record};
ghost use Rattle.store_model.specs.Events.{Plan};
ghost use Rattle.store_model.specs.Locked.{newest_in};
ghost use Rattle.store_model.specs.Moves.{MayChange, IsNewest};
ghost use Rattle.store_data.specs.Pieces.{Part};
ghost use Rattle.store_model.specs.Lobs.{joined};
ghost use Rattle.store_model.specs.History.{row_before, stands, under};
ghost use Rattle.read_model.specs.Flight.{Flight, Ready, Absent, IsFlight};
ghost use Rattle.read_model.specs.Patches.{Entry as Undo};
ghost use Rattle.read_model.specs.Document.{IsVisible};
ghost use Rattle.read_model.specs.Steps.{opened};
ghost use Rattle.read_model.specs.OfStore.{document};
ghost use Rattle.kept_model.specs.Engine.{ReadView, sees_by, Left, fetching, making, reading, undoing, Engine};
ghost use Rattle.kept_model.specs.Rows.{bytes_of};
ghost use Rattle.kept_model.specs.Stored.{known_from};
ghost use Rattle.kept_model.specs.Views.{newest_parts, IsViewIn};
ghost use Rattle.kept_model.specs.Reading.{view_now};
ghost use Rattle.kept_model.specs.Kept.{Kept};

/// Each document under a number of commits, from those that purge has passed or is passing on, is
/// the stored document behind them.
#[tactic(auto, using(crate::proofs::ShownLemmas::under_is_stored))]
pub fn documents_are_stored()
    ensures { (o : Opening) (script : Script) (e : Engine) → Kept o script e → (k : ℕ)
        → known_from o e.store ≤ k → IsRun o script → (d : ℕ)
        → under e.store d k ≡ bytes_of (look (docs o script e.journal k) d) }
{}

/// A view that is taken now is one.
pub fn view_is_taken()
    ensures { (o : Opening) (script : Script) (e : Engine) → Kept o script e
        → IsViewIn o e.store (view_now e.store) }
{}

/// The first event of a read leaves it with its invariant, and with the document to show that the
/// journal says.
pub fn read_begins()
    ensures { (o : Opening) (script : Script) (e : Engine) → Kept o script e → IsRun o script
        → (s : ℕ) (v : ReadView) → (e.sessions s).view ≡ Some v → (d : ℕ)
        → ((left : Left) (r : Reply) → (e.sessions s).task ≡ making d left r → ⊥)
        → ((u : Undoer) → (e.sessions s).task ≡ undoing u → ⊥)
        → (parts : Option (List Part)) × (option_map joined parts
        ≡ bytes_of (shown o script s d e.journal))
        × IsFlight (sees_by (e.sessions s).trx v) (document e.store d) parts
        (opened (sees_by (e.sessions s).trx v) (document e.store d)) }
{}

/// The row that a read finds has the length of the document that the journal shows: as many bytes
/// its buffer has.
pub fn found_row_is_measured()
    ensures { (o : Opening) (script : Script) → IsRun o script → (e : Engine) → Kept o script e
        → (s : ℕ) (v : ReadView) → (e.sessions s).view ≡ Some v → (d : ℕ)
        → ((left : Left) (r : Reply) → (e.sessions s).task ≡ making d left r → ⊥)
        → ((u : Undoer) → (e.sessions s).task ≡ undoing u → ⊥)
        → (above older : List Undo) (row : Row)
        → IsVisible (sees_by (e.sessions s).trx v) (document e.store d) above older row
        → (bytes : List ℕ) → bytes_of (shown o script s d e.journal) ≡ Some bytes
        → row.lob.length ≡ length bytes }
{}

/// A read that is ready has copied the bytes of the document that the journal shows, and an absent
/// one is shown none.
pub fn read_is_right()
    ensures { (o : Opening) (script : Script) (e : Engine) → Kept o script e
        → (s d : ℕ) (f : Flight) → (e.sessions s).task ≡ reading d f
        → (f.phase ≡ Ready → bytes_of (shown o script s d e.journal) ≡ Some (joined f.copied))
        × (f.phase ≡ Absent → bytes_of (shown o script s d e.journal) ≡ None) }
{}

/// A session that has a document's lock may change it: no other transaction has a record of it.
pub fn holder_may_change()
    ensures { (o : Opening) (script : Script) (e : Engine) → Kept o script e → (s : ℕ) (p : Plan)
        → (e.sessions s).trx ≡ Some p.trx → e.locks p.doc ≡ Some s → MayChange p e.store }
{}

/// The newest record of a session's transaction is of a document that it has the lock of, and that
/// document's newest.
pub fn newest_is_locked()
    ensures { (o : Opening) (script : Script) (e : Engine) → Kept o script e
        → (s trx : ℕ) (place : Address) (u : Record) → (e.sessions s).trx ≡ Some trx
        → newest_in trx e.store.active ≡ Some (place, u)
        → (e.locks u.doc ≡ Some s) × IsNewest trx place u e.store }
{}

/// What a change finds as its document's newest pieces, while it reads them, are the bytes of the
/// newest document that the journal says: so a change that has read them all is planned on those.
/// Its row's reference has their length.
pub fn newest_is_fetched()
    ensures bytes { (o : Opening) (script : Script) → IsRun o script → (e : Engine)
        → Kept o script e → (s d : ℕ) (f : Flight) → (e.sessions s).task ≡ fetching d f
        → option_map joined (newest_parts e.store d)
        ≡ bytes_of (look (newest o script s e.journal) d) }
    ensures length { (o : Opening) (script : Script) → IsRun o script → (e : Engine)
        → Kept o script e → (s d : ℕ) (f : Flight) → (e.sessions s).task ≡ fetching d f
        → (ps : List Part) → newest_parts e.store d ≡ Some ps
        → (row_before e.store d).lob.length ≡ length (joined ps) }
{}
