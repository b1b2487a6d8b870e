//! Events keep the versions that are held.
ghost use Rattle.std.specs.Prelude.{◌≡◌, ◌⊎◌, ◌≤◌, ◌+◌, ℕ, true, false, length, List, [], ◌∷◌, ◌++◌, Option, Some, None};
ghost use Rattle.journal_model.specs.Documents.{Call};
ghost use Rattle.journal_model.specs.Journal.{Script, Opening, Reply, Undoer, Audit, call, commit, statement, statements, Entry, Audited, new_store};
ghost use Rattle.page_model.specs.Pages.{Address};
ghost use Rattle.history_model.specs.Laws.{IsRun};
ghost use Rattle.history_model.specs.Sound.{IsFirst};
ghost use Rattle.journal_model.specs.Part.{answered, unanswered, under_way};
ghost use Rattle.journal_model.specs.History.{one_made, newest_in, history};
ghost use Rattle.store_data.specs.Store.{Lob, Record, Log, Store};
ghost use Rattle.store_model.specs.Steps.{on_lobs};
ghost use Rattle.store_model.specs.Events.{Plan};
ghost use Rattle.read_model.specs.Flight.{Flight};
ghost use Rattle.kept_model.specs.Engine.{ReadView, Left, nothing, fetching, making, idle, reading, undoing, Session, Engine, released};
ghost use Rattle.kept_model.specs.First.{new_engine};
ghost use Rattle.kept_model.specs.Quiet.{granted, quiet_event};
ghost use Rattle.kept_model.specs.Reading.{read_event};
ghost use Rattle.kept_model.specs.Pages.{IsNotMaking, IsStill, LockGoes, AreQuiet, PlansLobs, WorksLobs, HalvesLobs, UndoesLobs, DropsLobs, PassesLobs};
ghost use Rattle.kept_model.specs.Plans.{Plans, plan_event};
ghost use Rattle.kept_model.specs.Begun.{log_event};
ghost use Rattle.kept_model.specs.Works.{work_event};
ghost use Rattle.kept_model.specs.Answers.{change_answered};
ghost use Rattle.kept_model.specs.Commits.{commit_event, due_event};
ghost use Rattle.kept_model.specs.Halves.{half_event};
ghost use Rattle.kept_model.specs.Undoes.{Undoes, undo_event};
ghost use Rattle.kept_model.specs.Lasts.{Ends, last_event};
ghost use Rattle.kept_model.specs.Ended.{IsEnding, undone_event};
ghost use Rattle.journal_model.specs.Versions.{held};
ghost use Rattle.kept_model.specs.Names.{is_begun, is_purging};
ghost use Rattle.kept_model.specs.Stored.{whole, front};
ghost use Rattle.kept_model.specs.Held.{lob_list};
ghost use Rattle.kept_model.specs.Passes.{Passes, pass_event};
ghost use Rattle.kept_model.specs.Drops.{drop_event};
ghost use Rattle.kept_model.specs.Purges.{begun_event, purged_event};
ghost use Rattle.kept_model.specs.Kept.{Kept, KeptPages};

/// A new store has none.
pub fn first_keeps_pages()
    ensures { (pages : ℕ) (script : Script) → KeptPages (new_store pages) script new_engine }
{}

/// Each event of a session that leaves the store and enters nothing of a change that is made, of a
/// commit, a rollback or a purge: a start, an ask, a wait, a piece read, a refusal, a begin, a
/// view, an answer to a read, a rollback begun.
pub fn quiet_keeps_pages()
    ensures { (o : Opening) (script : Script) (e : Engine) → KeptPages o script e
        → (s : ℕ) (x : Session) (locks : ℕ → Option ℕ) (es : List Entry) → AreQuiet script s es
        → x.trx ≡ (e.sessions s).trx → IsStill (e.sessions s).task → IsNotMaking x.task
        → ((d : ℕ) → LockGoes s (e.locks d) (locks d))
        → KeptPages o script (quiet_event s x locks (es ++ e.journal) e) }
{}

/// Its locks, where it is granted one that is free or its own, and where it lets all go.
pub fn locks_go()
    ensures granted { (d s : ℕ) (locks : ℕ → Option ℕ) → (locks d ≡ None) ⊎ (locks d ≡ Some s)
        → (q : ℕ) → LockGoes s (locks q) (granted d s locks q) }
    ensures released { (s : ℕ) (locks : ℕ → Option ℕ) (q : ℕ)
        → LockGoes s (locks q) (released s locks q) }
{}

/// An audit, whatever is under way.
pub fn audit_keeps_pages()
    ensures { (o : Opening) (script : Script) (e : Engine) → KeptPages o script e
        → (s : ℕ) (a : Audit)
        → KeptPages o script (quiet_event s (e.sessions s) e.locks (Audited a ∷ e.journal) e) }
{}

/// One more event of a read.
pub fn read_keeps_pages()
    ensures { (o : Opening) (script : Script) (e : Engine) → KeptPages o script e
        → (s d : ℕ) (f : Flight) → (e.sessions s).task ≡ reading d f
        → (v : ReadView) → KeptPages o script (read_event s d f v e) }
{}

/// The planning event of a change, of its kind: its LOB is in front of the others, or the newest
/// one is raised.
pub fn plan_keeps_pages()
    ensures { (o : Opening) (script : Script) (e : Engine) → Kept o script e → KeptPages o script e
        → (s : ℕ) (p : Plan) (left : Left) (r : Reply) (next : Store) → Plans p e.store next
        → (read : Flight) → (e.sessions s).task ≡ fetching p.doc read
        → (e.sessions s).trx ≡ Some p.trx
        → (c : Call) → under_way script s e.journal ≡ Some (call c)
        → PlansLobs p (one_made s c (newest_in s (history o script e.journal p.doc))).kind left
        e.store next → KeptPages o script (plan_event s p left r next e) }
{}

/// The same where the transaction's log is begun in it.
pub fn first_plan_keeps_pages()
    ensures { (o : Opening) (script : Script) (e : Engine) → Kept o script e → KeptPages o script e
        → (s page : ℕ) (p : Plan) (left : Left) (r : Reply) (next : Store)
        → Plans p (log_event s page e).store next
        → (read : Flight) → (e.sessions s).task ≡ fetching p.doc read
        → (e.sessions s).trx ≡ None → p.trx ≡ e.store.next_trx
        → (c : Call) → under_way script s e.journal ≡ Some (call c)
        → PlansLobs p (one_made s c (newest_in s (history o script e.journal p.doc))).kind left
        (log_event s page e).store next
        → KeptPages o script (plan_event s p left r next (log_event s page e)) }
{}

/// A further event of a change.
pub fn work_keeps_pages()
    ensures { (o : Opening) (script : Script) (e : Engine) → Kept o script e → KeptPages o script e
        → (s d : ℕ) (left more : Left) (r : Reply) (f : List Lob → List Lob)
        → (e.sessions s).task ≡ making d left r
        → WorksLobs d left more e.store (on_lobs f e.store)
        → KeptPages o script (work_event s d more r f e) }
{}

/// The answer to a change, behind its last page change: it has made all of its versions.
pub fn answer_keeps_pages()
    ensures { (o : Opening) (script : Script) (e : Engine) → Kept o script e → KeptPages o script e
        → (s i d : ℕ) (r : Reply) → (e.sessions s).task ≡ making d nothing r
        → unanswered s e.journal ≡ Some i → KeptPages o script (change_answered s i r e) }
{}

/// Outside a transaction the commit is made in the same event.
pub fn outside_keeps_pages()
    ensures { (o : Opening) (script : Script) → IsRun o script → (e : Engine) → Kept o script e
        → KeptPages o script e → (s i trx d : ℕ) (r : Reply)
        → (e.sessions s).task ≡ making d nothing r
        → (e.sessions s).level ≡ None → (e.sessions s).trx ≡ Some trx
        → unanswered s e.journal ≡ Some i
        → KeptPages o script (due_event s trx (change_answered s i r e)) }
{}

/// The statement `commit` of a session that has a transaction.
pub fn commit_keeps_pages()
    ensures { (o : Opening) (script : Script) → IsRun o script → (e : Engine) → Kept o script e
        → KeptPages o script e
        → (s i trx : ℕ) → (e.sessions s).trx ≡ Some trx → (e.sessions s).task ≡ idle
        → statement script s i ≡ Some commit → i ≡ answered s e.journal + 1
        → i ≤ length (statements s script) → KeptPages o script (commit_event s i trx e) }
{}

/// An event of an undone record but its last.
pub fn half_keeps_pages()
    ensures { (o : Opening) (script : Script) (e : Engine) → Kept o script e → KeptPages o script e
        → (s trx d : ℕ) (turn : ℕ → Flight → Flight) (f : List Lob → List Lob)
        → HalvesLobs trx d e.store (on_lobs f e.store)
        → (v : Undoer) → (e.sessions s).task ≡ undoing v → (e.sessions s).trx ≡ Some trx
        → e.locks d ≡ Some s → KeptPages o script (half_event turn f e) }
{}

/// Its last event, where its log has more.
pub fn undo_keeps_pages()
    ensures { (o : Opening) (script : Script) (e : Engine) → Kept o script e → KeptPages o script e
        → (s trx : ℕ) (place : Address) (u : Record) (next : Store)
        → Undoes trx place u e.store next → UndoesLobs trx u.doc e.store next
        → (v : Undoer) → (e.sessions s).task ≡ undoing v → (e.sessions s).trx ≡ Some trx
        → e.locks u.doc ≡ Some s → KeptPages o script (undo_event place u next e) }
{}

/// The last event of the last record, whose log goes.
pub fn last_keeps_pages()
    ensures { (o : Opening) (script : Script) (e : Engine) → Kept o script e → KeptPages o script e
        → (s trx : ℕ) (place : Address) (u : Record) (next : Store)
        → Ends trx place u e.store next → UndoesLobs trx u.doc e.store next
        → (v : Undoer) → (e.sessions s).task ≡ undoing v → (e.sessions s).trx ≡ Some trx
        → e.locks u.doc ≡ Some s → KeptPages o script (last_event s place u next e) }
{}

/// The end of a rollback: the versions held are without those of its changes.
pub fn end_keeps_pages()
    ensures { (o : Opening) (script : Script) → IsRun o script → (e : Engine) → Kept o script e
        → KeptPages o script e → (s : ℕ) (v : Undoer) (past : List Entry)
        → (e.sessions s).task ≡ undoing v → (e.sessions s).trx ≡ None
        → IsEnding o script s e.journal past → KeptPages o script (undone_event s past e) }
{}

/// The first event of purge.
pub fn begun_keeps_pages()
    ensures { (o : Opening) (script : Script) (e : Engine) → KeptPages o script e
        → (l : Log) (ls : List Log) → e.store.committed ≡ l ∷ ls → is_begun l.state ≡ false
        → KeptPages o script (begun_event e) }
{}

/// An event of a record's purge but its last.
pub fn drop_keeps_pages()
    ensures { (o : Opening) (script : Script) → IsRun o script → IsFirst o → (e : Engine)
        → Kept o script e → KeptPages o script e
        → (l : Log) (ls : List Log) (d : ℕ) (f : List Lob → List Lob)
        → e.store.committed ≡ l ∷ ls → is_begun l.state ≡ true
        → DropsLobs l d e.store (on_lobs f e.store) → KeptPages o script (drop_event f e) }
{}

/// The event that ends a record.
pub fn pass_keeps_pages()
    ensures { (o : Opening) (script : Script) → IsRun o script → IsFirst o → (e : Engine)
        → Kept o script e → KeptPages o script e
        → (l : Log) (ls : List Log) (u : Record) (next : Store)
        → e.store.committed ≡ l ∷ ls → is_begun l.state ≡ true
        → Passes l ls u e.store next → PassesLobs l u.doc e.store next
        → KeptPages o script (pass_event next e) }
{}

/// The last event, where the log is empty: the versions held are those of the journal.
pub fn purge_keeps_pages()
    ensures { (o : Opening) (script : Script) → IsRun o script → (e : Engine) → Kept o script e
        → KeptPages o script e → (l : Log) (ls : List Log)
        → e.store.committed ≡ l ∷ ls → is_begun l.state ≡ true → l.records ≡ []
        → KeptPages o script (purged_event e) }
{}

/// Of a document on which nobody is at work, while no commit is half purged, the store has the LOBs
/// and versions that the journal says are held.
pub fn versions_are_held()
    ensures { (o : Opening) (script : Script) → IsRun o script → IsFirst o → (e : Engine)
        → Kept o script e → KeptPages o script e → (d : ℕ) → front e d ≡ whole
        → is_purging e.store.committed ≡ false → lob_list e.store d ≡ held o script e.journal d }
{}
