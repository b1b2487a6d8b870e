// Worked examples, by computing.
ghost use Rattle.std.specs.Prelude.{◌≡◌, [], ◌∷◌, Some, None};
ghost use Rattle.store_data.specs.Pieces.{piece_at, pushed, popped, dropped};
ghost use Rattle.lob_model.specs.Pieces.{lob_at, IsFalling};
ghost use Rattle.lob_model.specs.Places.{at_place, first_entries, IsSteady};
ghost use Rattle.lob_model.specs.Changes.{piece};
ghost use Rattle.lob_model.specs.Search.{sought, at, more, gone};
ghost use Rattle.lob_model.specs.Rows.{entry, three, other};

/// A piece, and a document of two pieces, at a version: the newest that is not above it.
pub fn row_reads()
    ensures newest { piece_at three 9 ≡ Some (entry 96 5 30 (5 ∷ [])) }
    ensures between { piece_at three 4 ≡ Some (entry 216 4 20 (4 ∷ [])) }
    ensures oldest { piece_at three 3 ≡ Some (entry 156 1 3 (1 ∷ [])) }
    ensures too_old { piece_at three 0 ≡ None }
    ensures whole { lob_at 5 (three ∷ other ∷ []) ≡ Some (5 ∷ 7 ∷ 8 ∷ []) }
    ensures before { lob_at 2 (three ∷ other ∷ []) ≡ Some (1 ∷ 7 ∷ 8 ∷ []) }
{}

/// A push, a pop and a drop: the head keeps its place, and what was the head goes to the node.
pub fn row_changes()
    ensures push { pushed (at_place 3 336) (entry 0 6 50 (6 ∷ [])) other
        ≡ piece (entry 276 6 50 (6 ∷ [])) (entry 336 1 40 (7 ∷ 8 ∷ []) ∷ []) }
    ensures pop { popped three ≡ piece (entry 96 4 20 (4 ∷ [])) (entry 156 1 3 (1 ∷ []) ∷ []) }
    ensures drop { piece_at (dropped three) 3 ≡ None }
    ensures left { piece_at (dropped three) 4 ≡ Some (entry 216 4 20 (4 ∷ [])) }
{}

/// A search along the versions, so many at a time.
pub fn row_searches()
    ensures second { sought 8 4 (three.head ∷ three.older) ≡ at (at_place 3 216) }
    ensures no_further { sought 2 1 (three.head ∷ three.older) ≡ more (at_place 3 156) }
    ensures none { sought 8 0 (three.head ∷ three.older) ≡ gone }
{}

/// Version numbers fall, from below the LOB's next one.
pub fn row_falls()
    ensures falls { IsFalling 6 (three.head ∷ three.older) }
    ensures bounded { IsFalling 5 (three.head ∷ three.older) → ⊥ }
{}

/// Along the list of heads the page may change behind ten, and not behind one.
pub fn row_turns()
    ensures behind_ten { IsSteady 9 3 (at_place 3 636 ∷ at_place 8 39 ∷ []) }
    ensures behind_one { IsSteady 0 3 (at_place 3 96 ∷ at_place 8 39 ∷ []) → ⊥ }
{}

/// The ten entries of a first page.
pub fn row_entries()
    ensures { first_entries 3 ≡ at_place 3 96 ∷ at_place 3 156 ∷ at_place 3 216 ∷ at_place 3 276
        ∷ at_place 3 336 ∷ at_place 3 396 ∷ at_place 3 456 ∷ at_place 3 516 ∷ at_place 3 576
        ∷ at_place 3 636 ∷ [] }
{}
