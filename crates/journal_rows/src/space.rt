ghost use Rattle.journal_model.specs.Journal.{new_store, no_room, full, Did};
ghost use Rattle.journal_rows.specs.Runs.{Runs, Allows};
ghost use Rattle.journal_rows.specs.SpaceRuns.{ten_pieces};

/// A document of ten pieces needs 14 pages, and 11 at least are free behind a small one, so it may
/// be refused with 11, 12 or 13.
pub fn row_ten_pieces()
    ensures runs { Runs (new_store 16) ten_pieces }
    ensures other_need { Allows (new_store 16) ten_pieces 4 (Did 1 2 (no_room 13 12)) → ⊥ }
    ensures too_few { Allows (new_store 16) ten_pieces 4 (Did 1 2 (no_room 14 10)) → ⊥ }
    ensures enough { Allows (new_store 16) ten_pieces 4 (Did 1 2 (no_room 14 14)) → ⊥ }
    ensures small_change { Allows (new_store 16) ten_pieces 1 (Did 1 1 (no_room 5 4)) → ⊥ }
    ensures one_less { Allows (new_store 16) ten_pieces 4 (Did 1 2 (no_room 14 11)) }
    ensures one_more { Allows (new_store 16) ten_pieces 4 (Did 1 2 (no_room 14 13)) }
    ensures made { Allows (new_store 16) ten_pieces 4 (Did 1 2 full) }
{}
