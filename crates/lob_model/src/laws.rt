// Laws on LOBs as plain data, and the frame. Each is a function with nothing to do, whose clause a
// proof may cite.
ghost use Rattle.std.specs.Prelude.{◌≡◌, ℕ, ◌<◌, ◌≤◌, List, ◌∷◌, ◌++◌, Some, IfSome, option_map};
ghost use Rattle.page_model.specs.Pages.{Pages, Address};
ghost use Rattle.page_model.specs.Spans.{Span, AreApart, SameOutside};
ghost use Rattle.store_data.specs.Store.{Version, Piece, Lob};
ghost use Rattle.store_data.specs.Pieces.{piece_at, part_of, pushed, popped, dropped};
ghost use Rattle.lob_model.specs.Pieces.{lob_at, head_place};
ghost use Rattle.lob_model.specs.Lobs.{IsLob, lob_spans};

/// A push leaves each older version as it reads.
pub fn push_keeps_older()
    ensures { (new : Version) (node : Address) (p : Piece) (v : ℕ) → v < new.number
        → option_map part_of (piece_at (pushed node new p) v) ≡ option_map part_of (piece_at p v) }
{}

/// From its own number on, a pushed version is the one that is read.
pub fn push_shows_newest()
    ensures { (new : Version) (node : Address) (p : Piece) (v : ℕ) → new.number ≤ v
        → option_map part_of (piece_at (pushed node new p) v) ≡ Some (part_of new) }
{}

/// A document reads as before at each version below that of a push.
pub fn push_keeps_what_is_read()
    ensures { (new : Version) (node : Address) (before : List Piece) (p : Piece)
        (behind : List Piece) (v : ℕ) → v < new.number
        → lob_at v (before ++ pushed node new p ∷ behind) ≡ lob_at v (before ++ p ∷ behind) }
{}

/// A pop behind a push is the piece before.
pub fn pop_takes_back()
    ensures { (new : Version) (node : Address) (p : Piece) → popped (pushed node new p) ≡ p }
{}

/// Without its oldest version a piece reads as before at each version at which it is still found.
pub fn drop_keeps_what_is_found()
    ensures { (p : Piece) (v : ℕ) → IfSome (piece_at (dropped p) v) (λ x. piece_at p v ≡ Some x) }
{}

/// A document reads as before at each version at which it is still found.
pub fn drop_keeps_what_is_read()
    ensures { (before : List Piece) (p : Piece) (behind : List Piece) (v : ℕ)
        → IfSome (lob_at v (before ++ dropped p ∷ behind))
        (λ bytes. lob_at v (before ++ p ∷ behind) ≡ Some bytes) }
{}

/// The heads stay where they are.
pub fn heads_keep_their_places()
    ensures push { (new : Version) (node : Address) (p : Piece)
        → head_place (pushed node new p) ≡ head_place p }
    ensures pop { (p : Piece) → head_place (popped p) ≡ head_place p }
    ensures oldest { (p : Piece) → head_place (dropped p) ≡ head_place p }
{}

/// A LOB stays where nothing changes but bytes apart from its pages.
pub fn lob_stays()
    ensures { (spans : List Span) (old new : Pages) (lob : Lob)
        → SameOutside spans old new → AreApart spans (lob_spans lob) → IsLob old lob
        → IsLob new lob }
{}
