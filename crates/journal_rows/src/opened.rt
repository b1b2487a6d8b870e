ghost use Rattle.std.specs.Prelude.{◌≡◌};
ghost use Rattle.journal_model.specs.History.{lobs_at, first_history};
ghost use Rattle.journal_model.specs.Versions.{lobs_of};
ghost use Rattle.journal_rows.specs.Runs.{Runs};
ghost use Rattle.journal_rows.specs.OpenedRuns.{left_versions, left_versions_opening, left_lists, left_lists_opening, left_deleted, left_deleted_opening};

/// The changes, LOBs and versions that another run left are counted, read below and purged like a
/// run's own.
pub fn row_left_versions()
    ensures runs { Runs left_versions_opening left_versions }
    ensures lobs_1 { lobs_at left_versions_opening 1
        ≡ lobs_of (first_history left_versions_opening 1) }
    ensures lobs_2 { lobs_at left_versions_opening 2
        ≡ lobs_of (first_history left_versions_opening 2) }
    ensures lobs_3 { lobs_at left_versions_opening 3
        ≡ lobs_of (first_history left_versions_opening 3) }
{}

/// Version lists that another run left.
pub fn row_left_lists()
    ensures runs { Runs left_lists_opening left_lists }
    ensures lobs_1 { lobs_at left_lists_opening 1 ≡ lobs_of (first_history left_lists_opening 1) }
    ensures lobs_2 { lobs_at left_lists_opening 2 ≡ lobs_of (first_history left_lists_opening 2) }
    ensures lobs_3 { lobs_at left_lists_opening 3 ≡ lobs_of (first_history left_lists_opening 3) }
{}

/// A deleted document that another run left, whose LOBs are held until purge, and a restart.
pub fn row_left_deleted()
    ensures runs { Runs left_deleted_opening left_deleted }
    ensures lobs_1 { lobs_at left_deleted_opening 1
        ≡ lobs_of (first_history left_deleted_opening 1) }
    ensures lobs_2 { lobs_at left_deleted_opening 2
        ≡ lobs_of (first_history left_deleted_opening 2) }
    ensures lobs_3 { lobs_at left_deleted_opening 3
        ≡ lobs_of (first_history left_deleted_opening 3) }
{}
