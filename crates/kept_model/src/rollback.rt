//! The events of a rollback's end.
ghost use Rattle.std.specs.Prelude.{◌≡◌, ◌≢◌, ◌≤◌, ℕ, suc, true, List, [], ◌∷◌, Some, None};
ghost use Rattle.page_model.specs.Pages.{Address};
ghost use Rattle.journal_model.specs.Journal.{Script, Opening, Undoer, by_rollback, by_deadlock, by_end, done, Entry, Did, Undone};
ghost use Rattle.journal_model.specs.Part.{unanswered};
ghost use Rattle.history_model.specs.Laws.{IsRun};
ghost use Rattle.store_data.specs.Store.{Version, Piece, Lob, Run, Body, versioned, patched, removed, Record, Store};
ghost use Rattle.store_model.specs.Undo.{undo_ended};
ghost use Rattle.store_model.specs.Behind.{AllRows, AtPiece};
ghost use Rattle.store_model.specs.Keeps.{Makes};
ghost use Rattle.store_model.specs.Lobs.{lob_of};
ghost use Rattle.store_model.specs.History.{Change, changes, row_before};
ghost use Rattle.store_data.specs.Pieces.{popped};
ghost use Rattle.store_model.specs.Steps.{on_lob, at_piece, without_piece, without_index};
ghost use Rattle.store_model.specs.Moves.{IsNewest, IsUntouched};
ghost use Rattle.store_model.specs.Consistent.{IsConsistent};
ghost use Rattle.store_model.specs.Takes.{piece_of};
ghost use Rattle.store_model.specs.Versions.{IsLowered};
ghost use Rattle.kept_model.specs.Engine.{undoing, Engine};
ghost use Rattle.kept_model.specs.Names.{is_old};
ghost use Rattle.read_model.specs.Flight.{Flight};
ghost use Rattle.read_model.specs.Steps.{moved};
ghost use Rattle.read_model.specs.Document.{pieces_at};
ghost use Rattle.read_model.specs.Kinds.{AtOne, AtOthers, IsPushed, HasNoNode};
ghost use Rattle.kept_model.specs.Halves.{Halves, half_event};
ghost use Rattle.kept_model.specs.Undoes.{Undoes, HasMore};
ghost use Rattle.kept_model.specs.Lasts.{Ends, HasOne, last_event};
ghost use Rattle.kept_model.specs.Ended.{IsEnding, undone_event};
ghost use Rattle.kept_model.specs.Kept.{Kept};

/// The event that undoes the last record of a transaction, whose log goes.
pub fn last_keeps()
    ensures { (o : Opening) (script : Script) (e : Engine) → Kept o script e
        → (s trx : ℕ) (place : Address) (u : Record) (next : Store) → Ends trx place u e.store next
        → (v : Undoer) → (e.sessions s).task ≡ undoing v → (e.sessions s).trx ≡ Some trx
        → IsNewest trx place u e.store → e.locks u.doc ≡ Some s
        → Kept o script (last_event s place u next e) }
{}

/// Such an event of a store, of the kinds whose records are undone by one event.
pub fn last_records_are_undone()
    ensures patched { (trx : ℕ) (place : Address) (u : Record) (store : Store) (old : List Run)
        → u.body ≡ patched old → IsConsistent store → IsNewest trx place u store
        → HasOne trx place u store.active
        → ((d : ℕ) → d ≢ u.doc → AllRows (IsUntouched old store.lobs) store d)
        → Ends trx place u store (undo_ended trx u store) }
    ensures removed { (trx : ℕ) (place : Address) (u : Record) (store : Store) → u.body ≡ removed
        → IsConsistent store → IsNewest trx place u store → HasOne trx place u store.active
        → Ends trx place u store (undo_ended trx u store) }
{}

/// With nothing left to undo the rollback ends: the session is outside a transaction, and its locks
/// are free.
pub fn end_keeps()
    ensures { (o : Opening) (script : Script) → IsRun o script → (e : Engine) → Kept o script e
        → (s : ℕ) (v : Undoer) (past : List Entry)
        → (e.sessions s).task ≡ undoing v → (e.sessions s).trx ≡ None
        → IsEnding o script s e.journal past → Kept o script (undone_event s past e) }
{}

/// Its entries, by each cause.
pub fn ends_are_legal()
    ensures deadlock { (o : Opening) (script : Script) (e : Engine) → Kept o script e → (s : ℕ)
        → (e.sessions s).task ≡ undoing by_deadlock
        → IsEnding o script s e.journal (Undone s by_deadlock ∷ e.journal) }
    ensures end { (o : Opening) (script : Script) (e : Engine) → Kept o script e → (s : ℕ)
        → (e.sessions s).task ≡ undoing by_end → IsEnding o script s e.journal (Undone s by_end
        ∷ e.journal) }
    ensures statement { (o : Opening) (script : Script) (e : Engine) → Kept o script e
        → (s i : ℕ) → (e.sessions s).task ≡ undoing by_rollback → unanswered s e.journal ≡ Some i
        → IsEnding o script s e.journal (Did s i done ∷ Undone s by_rollback ∷ e.journal) }
{}

/// An event of an undone record but its last, as a version popped, or a piece or an index page
/// freed, with the reads turned.
pub fn half_keeps()
    ensures { (o : Opening) (script : Script) (e : Engine) → Kept o script e
        → (s trx d : ℕ) (turn : ℕ → Flight → Flight) (f : List Lob → List Lob)
        → Halves trx d turn f e.store
        → (v : Undoer) → (e.sessions s).task ≡ undoing v → (e.sessions s).trx ≡ Some trx
        → e.locks d ≡ Some s → Kept o script (half_event turn f e) }
{}

/// Such events: a version is popped, and reads that were led to its node go on at the head; a piece
/// of a new LOB is freed, or an index page of it.
pub fn halves_are_undone()
    ensures version { (store : Store) (trx d : ℕ) (c : Change) (cs : List Change) → IsConsistent store
        → changes store d ≡ c ∷ cs → c.trx ≡ trx → (pieces : ℕ) (touched : List ℕ)
        → c.undo.body ≡ versioned pieces touched
        → (m : Lob) → lob_of store.lobs (row_before store d).lob.page ≡ Some m
        → (k : ℕ) (p : Piece) (x : Version) (xs : List Version) → piece_of k m.pieces ≡ Some p
        → p.older ≡ x ∷ xs → (node head : Address) (free : List Address)
        → (row_before store d).lob.page ≡ c.undo.before.lob.page
        → ((l : Lob) → lob_of store.lobs (row_before store d).lob.page ≡ Some l
        → AtPiece k (λ p. (row_before store d).lob.version ≤ p.head.number) l.pieces)
        → AtOne k (IsPushed (suc c.undo.before.lob.version) node head) (HasNoNode node)
        (pieces_at store.lobs c.undo.before.lob.page)
        → ((q : ℕ) → q ≢ c.undo.before.lob.page
        → AtOthers (HasNoNode node) (pieces_at store.lobs q))
        → Halves trx d (λ q. moved node head) (on_lob (row_before store d).lob.page
        (λ l. record (at_piece k popped l) { free = free })) store }
    ensures piece { (store : Store) (trx d : ℕ) (c : Change) (cs : List Change) → IsConsistent store
        → changes store d ≡ c ∷ cs → c.trx ≡ trx → (page : ℕ) → Makes page c.undo.body
        → (m : Lob) → lob_of store.lobs page ≡ Some m → (free : List Address)
        → Halves trx d (λ q f. f) (on_lob page (λ l. record (without_piece l) { free = free }))
        store }
    ensures index { (store : Store) (trx d : ℕ) (c : Change) (cs : List Change) → IsConsistent store
        → changes store d ≡ c ∷ cs → c.trx ≡ trx → (page : ℕ) → Makes page c.undo.body
        → (m : Lob) → lob_of store.lobs page ≡ Some m
        → (i : ℕ) (is : List ℕ) → m.index ≡ i ∷ is
        → Halves trx d (λ q f. f) (on_lob page without_index) store }
{}

/// The last undo event of a record that made a LOB, by Insert or Full, or raised a version; where
/// its log has more, and where it is the last one. A version that was raised goes back once no entry
/// of the LOB has it.
pub fn lob_records_are_undone()
    ensures made { (trx : ℕ) (place : Address) (u : Record) (store : Store) → IsConsistent store
        → IsNewest trx place u store → (page : ℕ) → Makes page u.body
        → HasMore trx place u store.active → Undoes trx place u store (undo_ended trx u store) }
    ensures last_made { (trx : ℕ) (place : Address) (u : Record) (store : Store) → IsConsistent store
        → IsNewest trx place u store → (page : ℕ) → Makes page u.body
        → HasOne trx place u store.active → Ends trx place u store (undo_ended trx u store) }
    ensures raised { (trx : ℕ) (place : Address) (u : Record) (store : Store) → IsConsistent store
        → IsNewest trx place u store → (pieces : ℕ) (touched : List ℕ)
        → u.body ≡ versioned pieces touched → IsLowered u.body u.before store.lobs
        → HasMore trx place u store.active
        → Undoes trx place u store (undo_ended trx u store) }
    ensures last_raised { (trx : ℕ) (place : Address) (u : Record) (store : Store) → IsConsistent store
        → IsNewest trx place u store → (pieces : ℕ) (touched : List ℕ)
        → u.body ≡ versioned pieces touched → IsLowered u.body u.before store.lobs
        → HasOne trx place u store.active
        → Ends trx place u store (undo_ended trx u store) }
{}
