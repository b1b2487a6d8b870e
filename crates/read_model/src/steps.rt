//! A read's own events.
ghost use Rattle.std.specs.Prelude.{◌≡◌, List, Option};
ghost use Rattle.store_data.specs.Pieces.{Part};
ghost use Rattle.store_data.specs.Store.{Row};
ghost use Rattle.read_model.specs.Patches.{Entry};
ghost use Rattle.read_model.specs.Document.{Document, Sees, IsVisible, AreDistinct, content, under, pieces_at};
ghost use Rattle.read_model.specs.Flight.{Flight, IsFlight};
ghost use Rattle.read_model.specs.Steps.{opened, event_of_read};
ghost use Rattle.read_model.specs.Progress.{IsUnderWay, AreThere, IsLower};

/// What a view sees by the chain is the document under the view.
pub fn seen_is_under()
    ensures { (sees : Sees) (doc : Document) (above older : List Entry) (v : Row)
        → IsVisible sees doc above older v
        → under sees doc ≡ content doc.lobs v above }
{}

/// The first event of a read leaves a read under way that is to show what its view sees.
pub fn read_begins()
    ensures { (sees : Sees) (doc : Document) (above older : List Entry) (v : Row)
        → AreDistinct doc.records
        → IsVisible sees doc above older v
        → IsFlight sees doc (content doc.lobs v above) (opened sees doc) }
{}

/// Each further event leaves a read under way that is to show the same.
pub fn read_goes_on()
    ensures { (sees : Sees) (doc : Document) (shown : Option (List Part)) (f : Flight)
        → AreDistinct doc.records
        → IsFlight sees doc shown f → IsFlight sees doc shown (event_of_read sees doc f) }
{}

/// Each event brings the read on: to a later phase, or with fewer records or nodes left in the same
/// one.
pub fn read_comes_on()
    ensures { (sees : Sees) (doc : Document) (shown : Option (List Part)) (f : Flight)
        → IsUnderWay f.phase → AreDistinct doc.records
        → AreThere f.row.lob.version (pieces_at doc.lobs f.row.lob.page) → IsFlight sees doc shown f
        → IsLower doc (event_of_read sees doc f) f }
{}
