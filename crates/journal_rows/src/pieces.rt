ghost use Rattle.journal_model.specs.Journal.{new_store, full, part, absent, report, busy, session, purging, View, Did, Commit, Audited};
ghost use Rattle.journal_rows.specs.Runs.{Runs, Allows};
ghost use Rattle.journal_rows.specs.PieceRuns.{purged_behind, one_piece, two_pieces, small_and_large, read_in_pieces};

/// The longest document of one piece.
pub fn row_one_piece()
    ensures runs { Runs (new_store 4096) one_piece }
    ensures two_pieces { Allows (new_store 4096) one_piece 3 (Audited (report 1 1 2 2)) → ⊥ }
{}

/// The shortest document of two pieces. An audit counts documents, LOBs, pieces and versions, each
/// exactly.
pub fn row_two_pieces()
    ensures runs { Runs (new_store 4096) two_pieces }
    ensures other_documents { Allows (new_store 4096) two_pieces 3 (Audited (report 0 1 2 2)) → ⊥ }
    ensures other_lobs { Allows (new_store 4096) two_pieces 3 (Audited (report 1 2 2 2)) → ⊥ }
    ensures other_pieces { Allows (new_store 4096) two_pieces 3 (Audited (report 1 1 1 2)) → ⊥ }
    ensures other_versions { Allows (new_store 4096) two_pieces 3 (Audited (report 1 1 2 3)) → ⊥ }
    ensures busy_session { Allows (new_store 4096) two_pieces 3 (Audited (busy (session 1))) → ⊥ }
    ensures busy_purge { Allows (new_store 4096) two_pieces 3 (Audited (busy purging)) }
{}

/// A change of at most 100 bytes makes no version, a larger one makes one of each piece that it
/// touches.
pub fn row_small_and_large()
    ensures runs { Runs (new_store 4096) small_and_large }
    ensures one_more { Allows (new_store 4096) small_and_large 4 (Did 1 2 (part 101)) → ⊥ }
    ensures rewritten { Allows (new_store 4096) small_and_large 4 (Did 1 2 full) → ⊥ }
    ensures a_version { Allows (new_store 4096) small_and_large 6 (Audited (report 1 1 1 2)) → ⊥ }
    ensures none { Allows (new_store 4096) small_and_large 10 (Audited (report 1 1 1 1)) → ⊥ }
{}

/// A reader goes on with the document of its view, though both pieces are changed under it.
pub fn row_read_in_pieces()
    ensures runs { Runs (new_store 4096) read_in_pieces }
    ensures two_views { Allows (new_store 4096) read_in_pieces 7 (View 2 1) → ⊥ }
    ensures early_view { Allows (new_store 4096) read_in_pieces 5 (View 2 1) → ⊥ }
    ensures other_view { Allows (new_store 4096) read_in_pieces 6 (View 2 2) → ⊥ }
    ensures absent { Allows (new_store 4096) read_in_pieces 10 (Did 2 2 absent) → ⊥ }
    ensures uncommitted { Allows (new_store 4096) read_in_pieces 9 (Did 2 2 absent) → ⊥ }
    ensures other_commit { Allows (new_store 4096) read_in_pieces 9 (Commit 1 3) → ⊥ }
{}

/// Purge drops the versions that no view needs.
pub fn row_purged_behind()
    ensures { Runs (new_store 4096) purged_behind }
{}
