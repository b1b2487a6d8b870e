// Steps of a call on parts that are taken out of a store: the rest stands on. Each is a function
// with nothing to do, whose clause a proof may cite.
ghost use Rattle.std.specs.Prelude.{◌≡◌, ◌+◌, ℕ, List, [], ◌∷◌};
ghost use Rattle.page_model.specs.Pages.{Pages};
ghost use Rattle.page_model.specs.Spans.{Span, AreApart, SameOutside};
ghost use Rattle.page_model.specs.Counts.{times};
ghost use Rattle.page_space.specs.Map.{TakesPage, GivesPage};
ghost use Rattle.store_parts.specs.Standing.{AreOn, Moves};
ghost use Rattle.store_parts.specs.Keeps.{Keeps, IsWithin, first_nodes};

/// A call that takes, writes and gives back pages of its own keeps the rest of every store.
pub fn rest_kept()
    ensures { (firsts own own' : List ℕ) (spans : List Span) (old new : Pages) → IsWithin firsts own
        → AreApart spans (first_nodes firsts)
        → Moves own own' spans old new → Keeps firsts own own' old new }
{}

/// So does the taking of a page, which then is its own.
pub fn page_taken()
    ensures { (firsts own : List ℕ) (page : ℕ) (old new : Pages) → IsWithin firsts own
        → TakesPage page old new → Keeps firsts own (page ∷ own) old new }
{}

/// So does the giving back of a page that is its own.
pub fn page_given()
    ensures { (firsts own own' : List ℕ) (page : ℕ) (old new : Pages) → IsWithin firsts own
        → ((n : ℕ) → times n own ≡ times n (page ∷ []) + times n own') → GivesPage page old new
        → Keeps firsts own own' old new }
{}

/// So do writes in pages that are its own.
pub fn bytes_written()
    ensures { (firsts own : List ℕ) (spans : List Span) (old new : Pages) → IsWithin firsts own
        → AreApart spans (first_nodes firsts)
        → SameOutside spans old new → AreOn own spans → Keeps firsts own own old new }
{}

/// One call behind another keeps what both keep.
#[tactic(auto, using(crate::proofs::KeepLemmas::keeps_then))]
pub fn calls_follow()
    ensures { (firsts a b c : List ℕ) (old mid new : Pages) → Keeps firsts a b old mid
        → Keeps firsts b c mid new → Keeps firsts a c old new }
{}
