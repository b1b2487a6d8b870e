// Laws on what is recovered. Each is a function with nothing to do, whose clause a proof may cite.
ghost use Rattle.std.specs.Prelude.{◌≡◌, ℕ, ◌≤◌, List, length};
ghost use Rattle.file_model.specs.declared.layout.Layout.{Layout};
ghost use Rattle.file_model.specs.Sections.{wanted, IsInLimits};
ghost use Rattle.file_model.specs.Doublewrite.{Batch};
ghost use Rattle.file_model.specs.Recovered.{recovered, AreFinal};
ghost use Rattle.doublewrite.specs.Steps.{IsAtRest, IsArmed, IsHome, MayArm, MayHome, MayRest, MayRepair};

/// What each step of a batch, and a repair, may leave recovers the same pages, where the batch's
/// images are the pages
/// that were recovered as it was armed.
pub fn batch_recovers()
    ensures arm { (l : Layout) (batch : Batch) (file image : List ℕ) → IsInLimits l
        → wanted l ≤ length file → IsAtRest l file → AreFinal batch (recovered l file)
        → MayArm l batch file image → recovered l image ≡ recovered l file }
    ensures home { (l : Layout) (batch : Batch) (file image : List ℕ) → IsInLimits l
        → wanted l ≤ length file → IsArmed l batch file → MayHome l batch file image
        → recovered l image ≡ recovered l file }
    ensures rest { (l : Layout) (batch : Batch) (file image : List ℕ) → IsInLimits l
        → wanted l ≤ length file → IsHome l batch file → MayRest l file image
        → recovered l image ≡ recovered l file }
    ensures repair { (l : Layout) (file image : List ℕ) → IsInLimits l → wanted l ≤ length file
        → MayRepair l file image → recovered l image ≡ recovered l file }
{}
