// What holds of a map for the crates above, which change other bytes of page 0.
ghost use Rattle.std.specs.Prelude.{List};
ghost use Rattle.page_model.specs.Pages.{Pages};
ghost use Rattle.page_model.specs.Spans.{Span, AreApart, SameOutside};
ghost use Rattle.page_space.specs.Map.{IsMap, map_spans};

/// A map stays where nothing changes but bytes apart from it.
pub fn map_stays()
    ensures { (spans : List Span) (old new : Pages) → SameOutside spans old new
        → AreApart spans map_spans
        → IsMap old → IsMap new }
{}
