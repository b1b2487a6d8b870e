//! A read from its first event on to its end: what an engine has between two of its events.
ghost use Rattle.std.specs.Prelude.{◌≡◌, ◌≢◌, ℕ, List, [], Option, Some, None};
ghost use Rattle.page_model.specs.Pages.{Pages};
ghost use Rattle.store_data.specs.Pieces.{Part};
ghost use Rattle.store_data.specs.Store.{Row as StoreRow, Store};
ghost use Rattle.store_model.specs.Consistent.{IsConsistent};
ghost use Rattle.store_model.specs.Heads.{KeepHeads};
ghost use Rattle.store_parts.specs.Shows.{IsStore};
ghost use Rattle.row_dir.specs.Directory.{IsDirectory};
ghost use Rattle.row_dir.specs.declared.dir.RowDir.{RowDir};
ghost use Rattle.read_model.specs.Patches.{Entry};
ghost use Rattle.read_model.specs.Document.{Sees, AreDistinct, IsVisible, content};
ghost use Rattle.read_model.specs.Flight.{lent, IsFlight};
ghost use Rattle.read_views.specs.Flights.{flight_of, row_read, KeepsPlaces};
ghost use Rattle.read_views.specs.declared.flight.Flight.{Flight};
ghost use Rattle.read_views.specs.declared.flight.Phase.TheVariants.{Seek, Found, Pieces};
ghost use Rattle.version_read.specs.Lent.{IsLent};
ghost use Rattle.version_read.specs.Reads.{document_of, IsUnderWay, StepsOn};

/// Before its first event a read is as it must be, and is to show what its view sees.
pub fn read_is_started()
    ensures { (told : Option Pages) (pages : Pages) (store : Store) (dir : RowDir) (sees : Sees)
        (f : Flight) → told ≡ Some pages → (is : IsStore pages store)
        → IsDirectory dir is.stored.rows → AreDistinct (document_of store f).records
        → (above older : List Entry) (v : StoreRow)
        → IsVisible sees (document_of store f) above older v → f.phase ≡ Seek → f.row ≡ None
        → IsUnderWay told pages store dir sees (content store.lobs v above) f }
{}

/// Behind each event a read is as it must be, and is to show the same.
pub fn read_stays_under_way()
    ensures { (told : Option Pages) (pages : Pages) (store : Store) (dir : RowDir) (sees : Sees)
        (shown : Option (List Part)) (old new : Flight)
        → IsUnderWay told pages store dir sees shown old → StepsOn sees store shown old new
        → new.doc ≡ old.doc → IsUnderWay told pages store dir sees shown new }
{}

/// So it is where it has been lent what fits the LOB of its row.
pub fn lent_read_is_under_way()
    ensures { (told : Option Pages) (pages : Pages) (store : Store) (dir : RowDir) (sees : Sees)
        (shown : Option (List Part)) (old new : Flight) (n : ℕ)
        → IsUnderWay told pages store dir sees shown old → old.phase ≡ Found n
        → flight_of new ≡ lent (flight_of old) → new.phase ≡ Pieces → new.doc ≡ old.doc
        → IsLent store.lobs new → IsUnderWay told pages store dir sees shown new }
{}

/// What was lent to a read fits on behind an event of others, handed on or led on by it or not: where
/// the read meets its invariant before and behind the event, with the same document to show, which
/// isn't empty, and heads keep their places (`store_model` says of each event that they do).
pub fn lent_stays()
    ensures { (old new : Store) (sees : Sees) (shown : Option (List Part)) (f g : Flight)
        → IsConsistent old → f.phase ≡ Pieces → IsLent old.lobs f
        → IsFlight sees (document_of old f) shown (flight_of f)
        → IsFlight sees (document_of new f) shown (flight_of g)
        → KeepsPlaces f g → row_read g.row ≡ row_read f.row → KeepHeads old.lobs new.lobs
        → shown ≢ Some [] → (g.head ≡ None → g.node ≡ None) → IsLent new.lobs g }
{}
