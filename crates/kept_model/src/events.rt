//! Events keep all that an engine keeps, and the entries that they add are legal.
ghost use Rattle.std.specs.Prelude.{◌≡◌, ◌≤◌, ◌+◌, ℕ, true, List, [], ◌∷◌, ◌⊎◌, length, Option, Some, None};
ghost use Rattle.page_model.specs.Pages.{Address};
ghost use Rattle.journal_model.specs.Documents.{Call, call_doc};
ghost use Rattle.journal_model.specs.Journal.{Script, Opening, Level, Reply, Undoer, call, commit, Entry, Start, statement, statements, new_store};
ghost use Rattle.journal_model.specs.Part.{answered, unanswered, is_ok_reply, newest, under_way};
ghost use Rattle.journal_model.specs.Replies.{reply_to};
ghost use Rattle.journal_model.specs.History.{one_made, newest_in, history};
ghost use Rattle.journal_model.specs.Held.{is_in};
ghost use Rattle.journal_model.specs.Locks.{sessions};
ghost use Rattle.history_model.specs.Laws.{IsRun};
ghost use Rattle.store_data.specs.Store.{Lob, Record, Store};
ghost use Rattle.store_data.specs.Pieces.{Part};
ghost use Rattle.store_model.specs.History.{row_before};
ghost use Rattle.store_model.specs.Events.{Plan};
ghost use Rattle.store_model.specs.Moves.{MayChange, IsNewest};
ghost use Rattle.store_model.specs.Owned.{owned, IsNotAmong};
ghost use Rattle.store_model.specs.Consistent.{IsConsistent};
ghost use Rattle.read_model.specs.Flight.{Flight};
ghost use Rattle.kept_model.specs.Engine.{ReadView, Left, nothing, idle, fetching, making, reading, undoing, Session, Engine};
ghost use Rattle.kept_model.specs.Names.{is_old};
ghost use Rattle.kept_model.specs.Rows.{bytes_of};
ghost use Rattle.kept_model.specs.Views.{will_show};
ghost use Rattle.kept_model.specs.Fetches.{fetch_begun};
ghost use Rattle.kept_model.specs.Commits.{commit_event, due_event};
ghost use Rattle.kept_model.specs.Plans.{Plans, plan_event};
ghost use Rattle.kept_model.specs.Begun.{log_event};
ghost use Rattle.kept_model.specs.Works.{Works, work_event};
ghost use Rattle.kept_model.specs.Undoes.{Undoes, undo_event};
ghost use Rattle.kept_model.specs.Reading.{read_event};
ghost use Rattle.kept_model.specs.Answers.{change_answered};
ghost use Rattle.kept_model.specs.Quiet.{granted, IsQuiet, quiet_event};
ghost use Rattle.kept_model.specs.First.{new_engine};
ghost use Rattle.kept_model.specs.Kept.{Kept};

/// The statement `commit` of a session that has a transaction.
pub fn commit_keeps()
    ensures { (o : Opening) (script : Script) → IsRun o script → (e : Engine) → Kept o script e
        → (s i trx : ℕ) → (e.sessions s).trx ≡ Some trx → (e.sessions s).task ≡ idle
        → statement script s i ≡ Some commit → i ≡ answered s e.journal + 1
        → i ≤ length (statements s script) → Kept o script (commit_event s i trx e) }
{}

/// The planning event of a change that has its lock and has read its document; of any kind.
pub fn plan_keeps()
    ensures { (o : Opening) (script : Script) (e : Engine) → Kept o script e
        → (s : ℕ) (p : Plan) (left : Left) (r : Reply) (next : Store) → Plans p e.store next
        → (read : Flight) → (e.sessions s).task ≡ fetching p.doc read
        → (e.sessions s).trx ≡ Some p.trx
        → (c : Call) → under_way script s e.journal ≡ Some (call c) → call_doc c ≡ p.doc
        → r ≡ reply_to c (newest o script s e.journal) → is_ok_reply r ≡ true
        → will_show left next.lobs (row_before next p.doc)
        ≡ bytes_of (one_made s c (newest_in s (history o script e.journal p.doc))).left
        → ((bytes : List ℕ) → will_show left next.lobs (row_before next p.doc) ≡ Some bytes
        → (row_before next p.doc).lob.length ≡ length bytes)
        → Kept o script (plan_event s p left r next e) }
{}

/// The planning event of a transaction's first change, in which its undo log is begun, on a page
/// that the store doesn't own.
pub fn first_plan_keeps()
    ensures { (o : Opening) (script : Script) (e : Engine) → Kept o script e
        → (s page : ℕ) (p : Plan)
        → (left : Left) (r : Reply) (next : Store) → IsNotAmong page (owned e.store)
        → Plans p (log_event s page e).store next
        → (read : Flight) → (e.sessions s).task ≡ fetching p.doc read
        → (e.sessions s).trx ≡ None → p.trx ≡ e.store.next_trx
        → (c : Call) → under_way script s e.journal ≡ Some (call c) → call_doc c ≡ p.doc
        → r ≡ reply_to c (newest o script s e.journal) → is_ok_reply r ≡ true
        → will_show left next.lobs (row_before next p.doc)
        ≡ bytes_of (one_made s c (newest_in s (history o script e.journal p.doc))).left
        → ((bytes : List ℕ) → will_show left next.lobs (row_before next p.doc) ≡ Some bytes
        → (row_before next p.doc).lob.length ≡ length bytes)
        → Kept o script (plan_event s p left r next (log_event s page e)) }
{}

/// With its log begun the store is consistent, and the session may change the document that it has
/// the lock of.
pub fn log_may_change()
    ensures { (o : Opening) (script : Script) (e : Engine) → Kept o script e
        → (s page : ℕ) (p : Plan)
        → (read : Flight) → (e.sessions s).task ≡ fetching p.doc read
        → (e.sessions s).trx ≡ None → p.trx ≡ e.store.next_trx
        → IsNotAmong page (owned e.store)
        → IsConsistent (log_event s page e).store × MayChange p (log_event s page e).store }
{}

/// A further event of a change that is planned, which changes LOBs alone; of any kind.
pub fn work_keeps()
    ensures { (o : Opening) (script : Script) (e : Engine) → (kept : Kept o script e)
        → (s trx d : ℕ) (left more : Left) (r : Reply) (f : List Lob → List Lob)
        → Works trx d f e.store
        → (is : (e.sessions s).task ≡ making d left r) → (e.sessions s).trx ≡ Some trx
        → will_show more (f e.store.lobs) (row_before e.store d)
        ≡ bytes_of (one_made s (kept.making s d left r is).change
        (newest_in s (history o script e.journal d))).left
        → Kept o script (work_event s d more r f e) }
{}

/// The last event of an undone record, with the reads of its document handed on.
pub fn undo_keeps()
    ensures { (o : Opening) (script : Script) (e : Engine) → Kept o script e
        → (s trx : ℕ) (place : Address) (u : Record) (next : Store)
        → Undoes trx place u e.store next
        → (v : Undoer) → (e.sessions s).task ≡ undoing v → (e.sessions s).trx ≡ Some trx
        → IsNewest trx place u e.store → e.locks u.doc ≡ Some s
        → Kept o script (undo_event place u next e) }
{}

/// One more event of a read.
pub fn read_keeps()
    ensures { (o : Opening) (script : Script) (e : Engine) → (kept : Kept o script e)
        → (s d : ℕ) (f : Flight) → (is : (e.sessions s).task ≡ reading d f)
        → Kept o script (read_event s d f (kept.reads s d f is).view e) }
{}

/// The answer to a change in a transaction, behind its last page change.
pub fn answer_keeps()
    ensures { (o : Opening) (script : Script) (e : Engine) → Kept o script e
        → (s i d : ℕ) (r : Reply) (l : Level) → (e.sessions s).task ≡ making d nothing r
        → (e.sessions s).level ≡ Some l
        → unanswered s e.journal ≡ Some i → Kept o script (change_answered s i r e) }
{}

/// Outside a transaction the commit is made in the same event.
pub fn outside_keeps()
    ensures { (o : Opening) (script : Script) → IsRun o script → (e : Engine) → Kept o script e
        → (s i trx d : ℕ) (r : Reply) → (e.sessions s).task ≡ making d nothing r
        → (e.sessions s).level ≡ None → (e.sessions s).trx ≡ Some trx
        → unanswered s e.journal ≡ Some i
        → Kept o script (due_event s trx (change_answered s i r e)) }
{}

/// A new store's engine keeps all to begin with.
pub fn first_keeps()
    ensures { (pages : ℕ) (script : Script) → Kept (new_store pages) script new_engine }
{}

/// Each event that leaves the store, as a start, an ask, a piece read, a refusal, a view or an
/// answer to a read: what it owes is of the session that acts.
pub fn quiet_keeps()
    ensures { (o : Opening) (script : Script) (e : Engine) → Kept o script e
        → (s : ℕ) (x : Session) (locks : ℕ → Option ℕ) (past : List Entry)
        → IsQuiet o script s x locks past e → Kept o script (quiet_event s x locks past e) }
{}

/// One of them: a change is started, and granted the lock of its document.
pub fn change_is_granted()
    ensures { (o : Opening) (script : Script) (e : Engine) → Kept o script e
        → (s i : ℕ) (c : Call) → (e.sessions s).task ≡ idle → statement script s i ≡ Some (call c)
        → i ≡ answered s e.journal + 1 → i ≤ length (statements s script)
        → is_in s sessions ≡ true → ((e.locks (call_doc c) ≡ None)
        ⊎ (e.locks (call_doc c) ≡ Some s))
        → IsQuiet o script s (record (e.sessions s) { task = fetching (call_doc c) (fetch_begun e.store (call_doc c)) })
        (granted (call_doc c) s e.locks) (Start s i ∷ e.journal) e }
{}
