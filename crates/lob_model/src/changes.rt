// Laws on the changes of a LOB in pages: behind each the changed LOB stands there. Each is a
// function with nothing to do, whose clause a proof may cite.
ghost use Rattle.std.specs.Prelude.{◌≡◌, ℕ, ◌+◌, List, [], ◌∷◌, ◌++◌};
ghost use Rattle.page_model.specs.Pages.{Pages, Address, field, null_page};
ghost use Rattle.page_model.specs.Spans.{span, IsApartFromAll, SameOutside, SetsField};
ghost use Rattle.page_model.specs.Lists.{IsList, list_spans, base_span};
ghost use Rattle.store_data.specs.Store.{Version, Piece, Lob};
ghost use Rattle.store_data.specs.Pieces.{pushed, popped};
ghost use Rattle.lob_model.specs.Pieces.{AreFalling};
ghost use Rattle.lob_model.specs.Places.{heads_base, free_base, entry_span, whole_page, first_entries};
ghost use Rattle.lob_model.specs.Lobs.{IsPage, IsLob, IsLobBut, lob_spans};
ghost use Rattle.lob_model.specs.Begin.{begun, refilled, bare_lob};
ghost use Rattle.lob_model.specs.Changes.{with_pieces, piece, Pushing, Popping, Dropping, Adding, Freeing, Refilling};
ghost use Rattle.lob_model.specs.Search.{sought, Tells};
ghost use Rattle.lob_model.specs.declared.layout.TheConstants.{FIRST_TYPE, LOB_VERSION, CHAIN};

/// A first page without pieces, whose ten entries are free, is a LOB.
pub fn new_lob_stands()
    ensures { (pages : Pages) (page : ℕ) → IsPage pages FIRST_TYPE page
        → field pages page LOB_VERSION 4 ≡ 1
        → field pages page CHAIN 4 ≡ null_page → IsList pages (heads_base page) []
        → IsList pages (free_base page) (first_entries page) → IsLob pages (begun page) }
{}

/// An index page more.
pub fn refill_stands()
    ensures { (old new : Pages) (lob : Lob) (page : ℕ) → Refilling old new lob page
        → IsLob new (refilled page lob) }
{}

/// A free node taken.
pub fn taken_node_stands()
    ensures { (old new : Pages) (lob : Lob) (node : Address) (rest : List Address) → IsLob old lob
        → lob.free ≡ node ∷ rest
        → IsList new (free_base lob.page) rest
        → SameOutside (list_spans (free_base lob.page) (node ∷ rest)) old new
        → IsLobBut new (record lob { free = rest }) (node ∷ [])
        × SameOutside (lob_spans lob) old new }
{}

/// A node given back.
pub fn given_node_stands()
    ensures { (old new : Pages) (lob : Lob) (node : Address) → IsLobBut old lob (node ∷ [])
        → IsList new (free_base lob.page) (node ∷ lob.free)
        → SameOutside (list_spans (free_base lob.page) (node ∷ lob.free)) old new
        → IsLob new (record lob { free = node ∷ lob.free }) × SameOutside (lob_spans lob) old new }
{}

/// Writing the entry of a node that is in no list changes nothing of the LOB.
pub fn loose_entry_is_unseen()
    ensures { (old new : Pages) (lob : Lob) (node : Address) → IsLobBut old lob (node ∷ [])
        → SameOutside (entry_span node ∷ []) old new → IsLobBut new lob (node ∷ []) }
{}

/// Nor does writing a page that it doesn't have.
pub fn other_page_is_unseen()
    ensures { (old new : Pages) (lob : Lob) (loose : List Address) (page : ℕ)
        → IsLobBut old lob loose
        → IsApartFromAll (lob_spans lob) (whole_page page)
        → SameOutside (whole_page page ∷ []) old new
        → IsLobBut new lob loose }
{}

/// Another version of the whole LOB.
pub fn set_version_stands()
    ensures { (old new : Pages) (lob : Lob) (v : ℕ) → IsLob old lob → AreFalling (v + 1) lob.pieces
        → SetsField lob.page LOB_VERSION 4 v old new
        → IsLob new (record lob { version = v }) × SameOutside (lob_spans lob) old new }
{}

/// A version pushed.
pub fn push_stands()
    ensures { (old new : Pages) (l : Lob) (bs : List Piece) (p : Piece) (cs : List Piece)
        (x : Version) (node : Address)
        → Pushing old new l bs p cs x node
        → IsLob new (with_pieces l (bs ++ pushed node x p ∷ cs)) }
{}

/// A version popped: its node is in no list.
pub fn pop_stands()
    ensures { (old new : Pages) (l : Lob) (bs : List Piece) (h x : Version) (more : List Version)
        (cs : List Piece)
        → Popping old new l bs h x more cs
        → IsLobBut new (with_pieces l (bs ++ popped (piece h (x ∷ more)) ∷ cs)) (x.place ∷ []) }
{}

/// The oldest version dropped: its node is in no list.
pub fn drop_stands()
    ensures { (old new : Pages) (l : Lob) (bs : List Piece) (h : Version) (ys : List Version)
        (x : Version) (cs : List Piece)
        → Dropping old new l bs h ys x cs
        → IsLobBut new (with_pieces l (bs ++ piece h ys ∷ cs)) (x.place ∷ []) }
{}

/// A piece added.
pub fn add_stands()
    ensures { (old new : Pages) (l : Lob) (ps : List Piece) (x : Version) → Adding old new l ps x
        → IsLob new (with_pieces l (ps ++ piece x [] ∷ [])) }
{}

/// The last piece freed: its node is in no list.
pub fn free_stands()
    ensures { (old new : Pages) (l : Lob) (ps : List Piece) (x : Version) → Freeing old new l ps x
        → IsLobBut new (with_pieces l ps) (x.place ∷ []) }
{}

/// Behind the last piece the free nodes go too.
pub fn emptied_stands()
    ensures { (old new : Pages) (l : Lob) (loose : List Address)
        → IsLobBut old (with_pieces l []) loose
        → SameOutside (base_span (free_base l.page) ∷ []) old new → IsList new (free_base l.page) []
        → IsLob new (record l { pieces = []; free = [] }) }
{}

/// The first index page taken out of the chain of a LOB that is being given back.
pub fn unchained_stands()
    ensures { (old new : Pages) (l : Lob) (n : ℕ) (more : List ℕ)
        → IsLob old (bare_lob l (n ∷ more))
        → SameOutside (span l.page CHAIN 4 ∷ []) old new
        → field new l.page CHAIN 4 ≡ field old n CHAIN 4
        → IsLob new (bare_lob l more) }
{}

/// What a search along versions tells of the one that is to be read.
pub fn search_tells()
    ensures { (n v : ℕ) (xs : List Version) → Tells n v xs (sought n v xs) }
{}
