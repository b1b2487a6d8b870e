ghost use Rattle.std.specs.Prelude.{◌++◌};
ghost use Rattle.journal_model.specs.Turns.{Turns};
ghost use Rattle.journal_rows.specs.UnpurgedRuns.{after_commits, one_insert, with_commit, purged_to};

/// With 255 commits unpurged behind a line nothing is purged by itself, and with 256 all of them
/// are.
pub fn row_unpurged()
    ensures below { Turns (after_commits 254) one_insert (with_commit 255) }
    ensures above { Turns (after_commits 255) one_insert (with_commit 256 ++ purged_to 256) }
{}
