// Worked examples, by computing.
ghost use Rattle.std.specs.Prelude.{◌≡◌, [], ◌∷◌, ◌++◌, Some, None};
ghost use Rattle.undo_model.specs.Bytes.{record_bytes};
ghost use Rattle.undo_model.specs.Reading.{record_in};
ghost use Rattle.undo_model.specs.Examples.{patched_record, patched_bytes, no_record, versioned_record};

/// A record with two runs: its bytes, and what they are read as.
pub fn row_patched()
    ensures bytes { record_bytes patched_record no_record ≡ patched_bytes }
    ensures reads { record_in 16 patched_bytes ≡ Some
        (record { undo = patched_record; previous = no_record }) }
{}

/// A record of touched pieces reads back.
pub fn row_versioned()
    ensures { record_in 16 (record_bytes versioned_record no_record) ≡ Some
        (record { undo = versioned_record; previous = no_record }) }
{}

/// A byte more, a byte less, or a page outside the store is no record.
pub fn row_bad()
    ensures more { record_in 16 (patched_bytes ++ 0 ∷ []) ≡ None }
    ensures page { record_in 3 patched_bytes ≡ None }
{}
