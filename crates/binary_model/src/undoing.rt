//! A change that is made and taken back.
ghost use Rattle.std.specs.Prelude.{◌≡◌, ℕ, List, length};
ghost use Rattle.binary_model.specs.Change.{put_all, put_back, runs};

/// The runs between two lists of one length, put over the old one and then put back, leave the old
/// one.
pub fn changes_are_undone()
    ensures { (old new : List ℕ) → length old ≡ length new →
        put_back (runs old new) (put_all (runs old new) old) ≡ old }
{}
