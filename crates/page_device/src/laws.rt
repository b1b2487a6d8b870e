// Laws on a store's file. Each is a function with nothing to do, whose clause a proof may cite.
ghost use Rattle.std.specs.Prelude.{◌≡◌, ℕ, ◌<◌, length, replicate};
ghost use Rattle.page_model.specs.Pages.{page_bytes, page_at};
ghost use Rattle.file_model.specs.declared.layout.Layout.{Layout};
ghost use Rattle.file_model.specs.Sections.{wanted, IsInLimits};
ghost use Rattle.file_model.specs.Control.{new_file, live_of};
ghost use Rattle.file_model.specs.Blocks.{log_of, log_end};
ghost use Rattle.file_model.specs.Recovered.{IsWell, recovered};

/// What `create` writes is opened with its layout. Region 0 is live, no log has a block, and each
/// page is blank.
pub fn new_file_is_a_store()
    ensures well { (l : Layout) → IsInLimits l → IsWell l (new_file l) }
    ensures size { (l : Layout) → IsInLimits l → length (new_file l) ≡ wanted l }
    ensures live { (l : Layout) → IsInLimits l → live_of (new_file l) ≡ 0 }
    ensures logs { (l : Layout) (region : ℕ) → IsInLimits l
        → log_of l region (new_file l) ≡ log_end }
    ensures blank { (l : Layout) (n : ℕ) → IsInLimits l → n < l.pages
        → page_at (recovered l (new_file l)) n ≡ replicate page_bytes 0 }
{}
