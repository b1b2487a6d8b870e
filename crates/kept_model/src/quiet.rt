//! Events that leave the store keep all that an engine keeps.
ghost use Rattle.std.specs.Prelude.{◌≡◌, ◌≢◌, ◌≤◌, ◌<◌, ◌+◌, ◌⊎◌, ℕ, true, false, List, [], ◌∷◌, length, Option, Some, None, IsSome};
ghost use Rattle.journal_model.specs.Documents.{Call, call_doc};
ghost use Rattle.journal_model.specs.Journal.{Script, Opening, Level, Statement, Reply, deadlock, memory, done, inside, Audit, call, get, size, begin, commit, rollback, by_rollback, by_deadlock, by_end, Entry, Start, View, Wait, Audited, statement, statements};
ghost use Rattle.journal_model.specs.Part.{answered, unanswered, part, commits_of, shown};
ghost use Rattle.journal_model.specs.Replies.{doc_reply, size_reply};
ghost use Rattle.journal_model.specs.Held.{is_in};
ghost use Rattle.journal_model.specs.Locks.{sessions, holder, is_circle};
ghost use Rattle.journal_model.specs.Legal.{has_waited, is_met, MayAudit};
ghost use Rattle.history_model.specs.Laws.{IsRun};
ghost use Rattle.store_data.specs.Pieces.{Part};
ghost use Rattle.store_model.specs.History.{stands};
ghost use Rattle.read_model.specs.Flight.{Flight};
ghost use Rattle.read_model.specs.Steps.{opened};
ghost use Rattle.read_model.specs.OfStore.{document};
ghost use Rattle.kept_model.specs.Engine.{ReadView, sees_by, idle, asking, fetching, reading, undoing, Engine, released};
ghost use Rattle.kept_model.specs.Reading.{view_now};
ghost use Rattle.kept_model.specs.Quiet.{granted, quiet_event};
ghost use Rattle.kept_model.specs.Answers.{IsRefusedBy, answered_at, answer_event, at_once, outside_session, opened_session};
ghost use Rattle.kept_model.specs.Fetches.{fetch_begun, fetch_event};
ghost use Rattle.kept_model.specs.Kept.{Kept};

/// A change is started and isn't granted its lock.
pub fn change_asks()
    ensures { (o : Opening) (script : Script) (e : Engine) → Kept o script e → (s i : ℕ)
        → (e.sessions s).task ≡ idle → i ≡ answered s e.journal + 1
        → i ≤ length (statements s script)
        → (c : Call) → statement script s i ≡ Some (call c)
        → Kept o script (quiet_event s (record (e.sessions s) { task = asking (call_doc c) })
        e.locks (Start s i ∷ e.journal) e) }
{}

/// A wait is entered.
pub fn wait_keeps()
    ensures { (o : Opening) (script : Script) (e : Engine) → Kept o script e → (s d h : ℕ)
        → (e.sessions s).task ≡ asking d → has_waited (part script s e.journal) ≡ false → h ≢ s
        → is_met o script s d h (holder script d e.journal) e.journal ≡ true
        → Kept o script (quiet_event s (record (e.sessions s) { task = asking d }) e.locks
        (Wait s d h ∷ e.journal) e) }
{}

/// A lock that was waited for is granted.
pub fn lock_is_granted()
    ensures { (o : Opening) (script : Script) (e : Engine) → Kept o script e → (s d : ℕ)
        → (e.sessions s).task ≡ asking d → is_in s sessions ≡ true
        → (e.locks d ≡ None) ⊎ (e.locks d ≡ Some s)
        → Kept o script (quiet_event s (record (e.sessions s) { task = fetching d (fetch_begun e.store d) })
        (granted d s e.locks) e.journal e) }
{}

/// A change reads on in its document: one more piece.
pub fn piece_is_read()
    ensures { (o : Opening) (script : Script) (e : Engine) → Kept o script e
        → (s d : ℕ) (f : Flight) → (e.sessions s).task ≡ fetching d f
        → Kept o script (quiet_event s
        (record (e.sessions s) { task = fetching d (fetch_event e.store d f) }) e.locks
        e.journal e) }
{}

/// A rollback is begun, by its statement or at a session's end.
pub fn rollback_begins()
    ensures statement { (o : Opening) (script : Script) (e : Engine) → Kept o script e
        → (s i : ℕ) → (e.sessions s).task ≡ idle → i ≡ answered s e.journal + 1
        → i ≤ length (statements s script)
        → statement script s i ≡ Some rollback → IsSome (e.sessions s).level
        → Kept o script (quiet_event s (record (e.sessions s) { task = undoing by_rollback })
        e.locks (Start s i ∷ e.journal) e) }
    ensures end { (o : Opening) (script : Script) (e : Engine) → Kept o script e → (s : ℕ)
        → (e.sessions s).task ≡ idle → answered s e.journal ≡ length (statements s script)
        → IsSome (e.sessions s).level
        → Kept o script (quiet_event s (record (e.sessions s) { task = undoing by_end }) e.locks
        e.journal e) }
{}

/// A change is refused: nothing is to be changed, or it may not be, or too few pages are free.
pub fn refusal_keeps()
    ensures { (o : Opening) (script : Script) (e : Engine) → Kept o script e
        → (s i : ℕ) (c : Call) → unanswered s e.journal ≡ Some i
        → statement script s i ≡ Some (call c)
        → (f : Flight) → (e.sessions s).task ≡ fetching (call_doc c) f → (r : Reply)
        → IsRefusedBy o script s c r e.journal → Kept o script (answer_event s i r idle e) }
{}

/// A change is answered that it closes a circle. In a transaction the rollback begins.
pub fn deadlock_keeps()
    ensures inside { (o : Opening) (script : Script) (e : Engine) → Kept o script e
        → (s i : ℕ) (c : Call) → unanswered s e.journal ≡ Some i
        → statement script s i ≡ Some (call c)
        → (e.sessions s).task ≡ asking (call_doc c) → (cs : List ℕ)
        → is_circle script s cs e.journal ≡ true
        → (l : Level) → (e.sessions s).level ≡ Some l
        → Kept o script (answer_event s i (deadlock cs) (undoing by_deadlock) e) }
    ensures outside { (o : Opening) (script : Script) (e : Engine) → Kept o script e
        → (s i : ℕ) (c : Call) → unanswered s e.journal ≡ Some i
        → statement script s i ≡ Some (call c)
        → (e.sessions s).task ≡ asking (call_doc c) → (cs : List ℕ)
        → is_circle script s cs e.journal ≡ true
        → (e.sessions s).level ≡ None → Kept o script (answer_event s i (deadlock cs) idle e) }
{}

/// Want of memory, before a change is planned, and in a read.
pub fn memory_keeps()
    ensures change { (o : Opening) (script : Script) (e : Engine) → Kept o script e
        → (s i : ℕ) (c : Call) → unanswered s e.journal ≡ Some i
        → statement script s i ≡ Some (call c)
        → ((e.sessions s).task ≡ asking (call_doc c)) ⊎ ((f : Flight)
        × ((e.sessions s).task ≡ fetching (call_doc c) f))
        → Kept o script (answer_event s i memory idle e) }
    ensures read { (o : Opening) (script : Script) (e : Engine) → Kept o script e
        → (s i d : ℕ) (f : Flight) → unanswered s e.journal ≡ Some i
        → (e.sessions s).task ≡ reading d f
        → (statement script s i ≡ Some (get d)) ⊎ (statement script s i ≡ Some (size d))
        → Kept o script (answer_event s i memory idle e) }
{}

/// A read is started, under its transaction's view or one that is taken now.
pub fn read_starts()
    ensures viewed { (o : Opening) (script : Script) → IsRun o script → (e : Engine)
        → Kept o script e → (s i d : ℕ) → (e.sessions s).task ≡ idle
        → i ≡ answered s e.journal + 1 → i ≤ length (statements s script)
        → (st : Statement) → statement script s i ≡ Some st → (st ≡ get d) ⊎ (st ≡ size d)
        → (v : ReadView) → (e.sessions s).view ≡ Some v
        → Kept o script (quiet_event s (record (e.sessions s)
        { task = reading d (opened (sees_by (e.sessions s).trx v) (document e.store d)) }) e.locks
        (Start s i ∷ e.journal) e) }
    ensures taken { (o : Opening) (script : Script) → IsRun o script → (e : Engine)
        → Kept o script e → (s i d : ℕ) → (e.sessions s).task ≡ idle
        → i ≡ answered s e.journal + 1 → i ≤ length (statements s script)
        → (st : Statement) → statement script s i ≡ Some st → (st ≡ get d) ⊎ (st ≡ size d)
        → (e.sessions s).view ≡ None
        → Kept o script (quiet_event s (record (e.sessions s) {
          task = reading d (opened (sees_by (e.sessions s).trx (view_now e.store))
              (document e.store d));
          view = Some (view_now e.store);
        }) e.locks
        (View s (commits_of o e.journal) ∷ Start s i ∷ e.journal) e) }
{}

/// A read is answered by what the journal shows.
pub fn read_is_answered()
    ensures get { (o : Opening) (script : Script) (e : Engine) → Kept o script e
        → (s i d : ℕ) (f : Flight) → unanswered s e.journal ≡ Some i
        → (e.sessions s).task ≡ reading d f
        → statement script s i ≡ Some (get d)
        → Kept o script (answer_event s i (doc_reply (shown o script s d e.journal)) idle e) }
    ensures size { (o : Opening) (script : Script) (e : Engine) → Kept o script e
        → (s i d : ℕ) (f : Flight) → unanswered s e.journal ≡ Some i
        → (e.sessions s).task ≡ reading d f
        → statement script s i ≡ Some (size d)
        → Kept o script (answer_event s i (size_reply (shown o script s d e.journal)) idle e) }
{}

/// A transaction is begun, or there is one, or memory is wanting.
pub fn begin_keeps()
    ensures outside { (o : Opening) (script : Script) (e : Engine) → Kept o script e → (s i : ℕ)
        → (e.sessions s).task ≡ idle → i ≡ answered s e.journal + 1
        → i ≤ length (statements s script)
        → (l : Level) → statement script s i ≡ Some (begin l) → (e.sessions s).level ≡ None
        → Kept o script (at_once s i done (opened_session l (e.sessions s)) e.locks e) }
    ensures inside { (o : Opening) (script : Script) (e : Engine) → Kept o script e → (s i : ℕ)
        → (e.sessions s).task ≡ idle → i ≡ answered s e.journal + 1
        → i ≤ length (statements s script)
        → (l : Level) → statement script s i ≡ Some (begin l) → (m : Level)
        → (e.sessions s).level ≡ Some m
        → Kept o script (at_once s i inside (answered_at (Some m) idle (e.sessions s)) e.locks e) }
    ensures memory_inside { (o : Opening) (script : Script) (e : Engine) → Kept o script e
        → (s i : ℕ) → (e.sessions s).task ≡ idle → i ≡ answered s e.journal + 1
        → i ≤ length (statements s script)
        → (l : Level) → statement script s i ≡ Some (begin l) → (m : Level)
        → (e.sessions s).level ≡ Some m
        → Kept o script (at_once s i memory (answered_at (Some m) idle (e.sessions s)) e.locks e) }
    ensures memory_outside { (o : Opening) (script : Script) (e : Engine) → Kept o script e
        → (s i : ℕ) → (e.sessions s).task ≡ idle → i ≡ answered s e.journal + 1
        → i ≤ length (statements s script)
        → (l : Level) → statement script s i ≡ Some (begin l) → (e.sessions s).level ≡ None
        → Kept o script (at_once s i memory (outside_session (e.sessions s)) (released s e.locks)
        e) }
{}

/// A commit of a session that has no log, and a rollback outside a transaction.
pub fn nothing_keeps()
    ensures commit { (o : Opening) (script : Script) (e : Engine) → Kept o script e → (s i : ℕ)
        → (e.sessions s).task ≡ idle → i ≡ answered s e.journal + 1
        → i ≤ length (statements s script)
        → statement script s i ≡ Some commit → (e.sessions s).trx ≡ None
        → Kept o script (at_once s i done (outside_session (e.sessions s)) (released s e.locks) e) }
    ensures rollback { (o : Opening) (script : Script) (e : Engine) → Kept o script e → (s i : ℕ)
        → (e.sessions s).task ≡ idle → i ≡ answered s e.journal + 1
        → i ≤ length (statements s script)
        → statement script s i ≡ Some rollback → (e.sessions s).level ≡ None
        → Kept o script (at_once s i done (outside_session (e.sessions s)) (released s e.locks) e) }
{}

/// An audit, whatever session is at work.
pub fn audit_keeps()
    ensures { (o : Opening) (script : Script) (e : Engine) → Kept o script e
        → (s : ℕ) (a : Audit) → MayAudit o script a e.journal
        → Kept o script (quiet_event s (e.sessions s) e.locks (Audited a ∷ e.journal) e) }
{}
