// A LOB of a store takes a page more or gives one back. That the changed LOB stands is what the
// call on it says.
ghost use Rattle.std.specs.Prelude.{◌≡◌, ◌≢◌, ℕ, List, [], ◌∷◌, ◌++◌, length, Some};
ghost use Rattle.page_model.specs.Pages.{Pages, Address};
ghost use Rattle.store_data.specs.Store.{Version, Piece, Lob, Store};
ghost use Rattle.store_data.specs.Pieces.{popped, dropped};
ghost use Rattle.lob_model.specs.Lobs.{IsLob, lob_pages};
ghost use Rattle.lob_model.specs.Changes.{piece};
ghost use Rattle.store_model.specs.Lobs.{lob_of};
ghost use Rattle.store_model.specs.Steps.{on_lob, on_lobs, at_piece, with_nodes, with_piece, without_piece, without_index};
ghost use Rattle.store_model.specs.Events.{piece_added};
ghost use Rattle.store_model.specs.Undo.{piece_freed, index_freed, version_popped, version_dropped};
ghost use Rattle.store_parts.specs.Shows.{IsStore};
ghost use Rattle.store_parts.specs.Keeps.{AreAsMany};
ghost use Rattle.store_pages.specs.Lobs.{TakesFor, GivesOf};

/// Whatever changes in a LOB with a page that it takes, the store is the one with that LOB changed.
pub fn lob_grows()
    ensures { (old new : Pages) (store : Store) → IsStore old store → (page : ℕ) (l : Lob)
        (f : Lob → Lob) (p : ℕ) → lob_of store.lobs page ≡ Some l → IsLob new (f l)
        → TakesFor l p old new → AreAsMany (p ∷ lob_pages l) (lob_pages (f l))
        → IsStore new (on_lobs (on_lob page f) store) }
{}

/// So it is with a page that it gives back.
pub fn lob_shrinks()
    ensures { (old new : Pages) (store : Store) → IsStore old store → (page : ℕ) (l : Lob)
        (f : Lob → Lob) (p : ℕ) → lob_of store.lobs page ≡ Some l → IsLob new (f l)
        → GivesOf l p old new → AreAsMany (lob_pages l) (p ∷ lob_pages (f l))
        → IsStore new (on_lobs (on_lob page f) store) }
{}

/// A piece is added behind the others, with a data page that is taken for it.
pub fn piece_is_added()
    ensures { (old new : Pages) (store : Store) (page : ℕ) (l : Lob) (x : Version)
        (free : List Address) → IsStore old store → lob_of store.lobs page ≡ Some l
        → x.page ≢ l.page → IsLob new (with_nodes l.index free (with_piece (piece x []) l))
        → TakesFor l x.page old new → IsStore new
        (piece_added page (piece x []) l.index free store) }
{}

/// A version is popped, and the page of its data is given back.
pub fn version_is_popped()
    ensures { (old new : Pages) (store : Store) (page : ℕ) (l : Lob) (bs : List Piece)
        (h x : Version) (more : List Version) (cs : List Piece) (free : List Address)
        → IsStore old store → lob_of store.lobs page ≡ Some l
        → l.pieces ≡ bs ++ piece h (x ∷ more) ∷ cs → h.page ≢ l.page
        → IsLob new (record (at_piece (length bs) popped l) { free = free })
        → GivesOf l h.page old new → IsStore new (version_popped page (length bs) free store) }
{}

/// The oldest version of a piece is dropped, and the page of its data is given back.
pub fn version_is_dropped()
    ensures { (old new : Pages) (store : Store) (page : ℕ) (l : Lob) (bs : List Piece)
        (h : Version) (ys : List Version) (x : Version) (cs : List Piece) (free : List Address)
        → IsStore old store → lob_of store.lobs page ≡ Some l
        → l.pieces ≡ bs ++ piece h (ys ++ x ∷ []) ∷ cs → x.page ≢ l.page
        → IsLob new (record (at_piece (length bs) dropped l) { free = free })
        → GivesOf l x.page old new → IsStore new (version_dropped page (length bs) free store) }
{}

/// The last piece is freed, and its data page is given back.
pub fn piece_is_freed()
    ensures { (old new : Pages) (store : Store) (page : ℕ) (l : Lob) (ps : List Piece)
        (x : Version) (free : List Address) → IsStore old store → lob_of store.lobs page ≡ Some l
        → l.pieces ≡ ps ++ piece x [] ∷ [] → x.page ≢ l.page
        → IsLob new (record (without_piece l) { free = free }) → GivesOf l x.page old new
        → IsStore new (piece_freed page free store) }
{}

/// The first index page is given back.
pub fn index_page_is_freed()
    ensures { (old new : Pages) (store : Store) (page : ℕ) (l : Lob) (i : ℕ) (more : List ℕ)
        → IsStore old store → lob_of store.lobs page ≡ Some l → l.index ≡ i ∷ more
        → IsLob new (without_index l) → GivesOf l i old new → IsStore new (index_freed page store) }
{}
