// Laws on what is recovered. Each is a function with nothing to do, whose clause a proof may cite.
ghost use Rattle.std.specs.Prelude.{◌≡◌, ◌⊎◌, ℕ, ◌+◌, ◌≤◌, List};
ghost use Rattle.file_model.specs.Sections.{IsInLimits};
ghost use Rattle.file_model.specs.Doublewrite.{repaired};
ghost use Rattle.file_model.specs.Frames.{applied};
ghost use Rattle.file_model.specs.Blocks.{block_len, region_room};
ghost use Rattle.file_model.specs.Recovered.{recovered};
ghost use Rattle.redo_log.specs.Logs.{LogState, MayFlush};
ghost use Rattle.redo_log.specs.Switches.{MaySwitch, MayBeSwitched};

/// What a flush may leave recovers the pages from before, or those with all groups that waited.
pub fn flush_recovers()
    ensures { (s : LogState) (file image : List ℕ) → IsInLimits s.layout → s.region ≤ 1
        → s.used + block_len s.pending ≤ region_room s.layout → MaySwitch s file
        → MayFlush s file image
        → (recovered s.layout image ≡ recovered s.layout file)
        ⊎ (recovered s.layout image ≡ applied s.pending (recovered s.layout file)) }
{}

/// What a switch may leave recovers the same pages, where the pages at their homes are what is
/// recovered.
pub fn switch_recovers()
    ensures { (s : LogState) (file image : List ℕ) → IsInLimits s.layout → s.region ≤ 1
        → MaySwitch s file → repaired s.layout file ≡ recovered s.layout file
        → MayBeSwitched s file image → recovered s.layout image ≡ recovered s.layout file }
{}
