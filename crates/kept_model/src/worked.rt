//! A run of two sessions, computed event by event.
ghost use Rattle.std.specs.Prelude.{◌≡◌, [], ◌∷◌, ◌++◌, map, Some, None};
ghost use Rattle.binary_model.specs.Canonical.{canonical};
ghost use Rattle.journal_model.specs.Journal.{full, part, done, doc, by_rollback, Start, View, Did, Commit, Undone, Purged};
ghost use Rattle.store_model.specs.History.{history, changes};
ghost use Rattle.read_model.specs.Flight.{Unpatch, Ready};
ghost use Rattle.journal_model.specs.Held.{versioned, rebuilt, new_lob, add};
ghost use Rattle.store_model.specs.Owned.{owned};
ghost use Rattle.kept_model.specs.Stored.{begun};
ghost use Rattle.kept_model.specs.Held.{front_kind, half_drop, half_lobs, lob_list};
ghost use Rattle.kept_model.specs.Engine.{sees_by};
ghost use Rattle.kept_model.specs.Reading.{view_now};
ghost use Rattle.kept_model.specs.Worked.{tree, front_bytes, back_bytes, text, view, flight_of, seen_row, a_change, e_planned, e_inserted, e_set, e_copied, e_rolled, e_ready, e_answered, e_purged};

/// The journal that the events enter, the newest entry first.
pub fn events_are_entered()
    ensures { e_purged.journal ≡ Purged 1 ∷ Did 2 1 (doc text) ∷ Did 1 4 done
        ∷ Undone 1 by_rollback ∷ Start 1 4 ∷ Did 1 3 (part 1) ∷ Start 1 3 ∷ Did 1 2 done
        ∷ Start 1 2 ∷ View 2 1 ∷ Start 2 1 ∷ Commit 1 1 ∷ Did 1 1 full ∷ Start 1 1 ∷ [] }
{}

/// The read copies the second piece as the change left it; its old byte is handed on when the
/// change is undone, so what it answers is what its view saw.
pub fn read_is_kept_across_it()
    ensures changed { map (λ p. p.bytes) (flight_of (e_copied.sessions 2).task).copied
        ≡ front_bytes ∷ (0 ∷ 5 ∷ 2 ∷ 0 ∷ 110 ∷ []) ∷ [] }
    ensures walking { (flight_of (e_copied.sessions 2).task).phase ≡ Unpatch }
    ensures right { map (λ p. p.bytes) (flight_of (e_ready.sessions 2).task).copied
        ≡ front_bytes ∷ back_bytes ∷ [] }
    ensures ready { (flight_of (e_ready.sessions 2).task).phase ≡ Ready }
{}

/// While the change stands a view from before it, and one that is taken now, see the insert; the
/// session itself sees its change.
pub fn views_see_commits()
    ensures old_view { (seen_row (sees_by None view) e_set).trx ≡ 1 }
    ensures view_now { (seen_row (sees_by None (view_now e_set.store)) e_set).trx ≡ 1 }
    ensures own { (seen_row (sees_by (Some 2) (view_now e_set.store)) e_set).trx ≡ 2 }
{}

/// The lock is held from the change on until the transaction ends.
pub fn locks_are_freed()
    ensures committed { e_inserted.locks 1 ≡ None }
    ensures changed { e_set.locks 1 ≡ Some 1 }
    ensures undone { e_rolled.locks 1 ≡ None }
{}

/// Before purge the insert is still in the history; behind it the document alone is left.
pub fn one_row_is_left()
    ensures set { map (λ h. h.trx) (history e_set.store 1) ≡ 2 ∷ 1 ∷ 0 ∷ [] }
    ensures undone { map (λ h. h.trx) (history e_answered.store 1) ≡ 1 ∷ 0 ∷ [] }
    ensures purged { history e_purged.store 1
        ≡ record { trx = 1; length = 13; bytes = Some (front_bytes ++ back_bytes) } ∷ [] }
    ensures changes { changes e_purged.store 1 ≡ [] }
    ensures logs { e_purged.store.committed ≡ [] }
{}

/// The bytes are those that are stored for the document.
pub fn bytes_are_the_documents()
    ensures { canonical tree ≡ front_bytes ++ back_bytes }
{}

/// The LOB of the document while its second piece isn't added, behind the insert, while the change
/// in place stands, and behind purge.
pub fn versions_stand_in_the_store()
    ensures half { lob_list e_planned.store 1 ≡ new_lob 1 ∷ [] }
    ensures inserted { lob_list e_inserted.store 1 ≡ new_lob 2 ∷ [] }
    ensures set { lob_list e_set.store 1 ≡ new_lob 2 ∷ [] }
    ensures purged { lob_list e_purged.store 1 ≡ new_lob 2 ∷ [] }
    ensures pages { owned e_purged.store ≡ 0 ∷ 3 ∷ 4 ∷ [] }
{}

/// Of a LOB of three pieces the first and third get a version. The first is made; both are, and the
/// old one of the first is dropped. A LOB before a new encoding has lost its last piece.
pub fn halves_are_counted()
    ensures made { front_kind (begun 1) (1 ∷ []) a_change ≡ versioned (1 ∷ []) }
    ensures has_one { add (versioned (1 ∷ [])) (new_lob 3 ∷ []) ≡ record {
      version = 2;
      pieces = (2 ∷ 1 ∷ []) ∷ (1 ∷ []) ∷ (1 ∷ []) ∷ [];
    } ∷ [] }
    ensures dropped { half_lobs (1 ∷ []) (a_change ∷ []) (new_lob 3 ∷ []) ≡ record {
      version = 2;
      pieces = (2 ∷ []) ∷ (1 ∷ []) ∷ (2 ∷ 1 ∷ []) ∷ [];
    } ∷ [] }
    ensures cut { half_drop (0 ∷ []) (rebuilt 2) (add (rebuilt 2) (new_lob 3 ∷ [])) ≡ new_lob 2
        ∷ new_lob 2 ∷ [] }
{}
