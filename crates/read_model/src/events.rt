//! What the events of others leave of a read under way.
ghost use Rattle.std.specs.Prelude.{◌≡◌, List, Option, Some, None};
ghost use Rattle.page_model.specs.Pages.{Address};
ghost use Rattle.store_data.specs.Pieces.{Part};
ghost use Rattle.store_data.specs.Store.{Row};
ghost use Rattle.read_model.specs.Patches.{Entry};
ghost use Rattle.read_model.specs.Document.{Document, Sees, IsVisible, AreDistinct, under};
ghost use Rattle.read_model.specs.Flight.{Flight, Ready, Absent, IsFlight};
ghost use Rattle.read_model.specs.Steps.{opened, hand_on, moved};
ghost use Rattle.read_model.specs.Events.{Adds, Removes, Forgets, Touches, Frees, Passes, Sweeps, Event, AllMove, all_after};

/// A change by a transaction that the view doesn't see keeps a read under way.
pub fn kept_by_change()
    ensures { (sees : Sees) (old new : Document) (e : Entry) (shown : Option (List Part))
        (f : Flight)
        → Adds sees old new e → IsFlight sees old shown f → IsFlight sees new shown f }
{}

/// The undoing of the newest record keeps a read to which the record is handed on.
pub fn kept_by_undo()
    ensures { (sees : Sees) (old new : Document) (e : Entry) (shown : Option (List Part))
        (f : Flight)
        → Removes sees old new e → IsFlight sees old shown f
        → IsFlight sees new shown (hand_on e.0 e.1 f) }
{}

/// The undoing of an insert over a purged deletion, which leaves no row, keeps a read to which its
/// record is handed on.
pub fn kept_by_undo_without_row()
    ensures { (sees : Sees) (old new : Document) (e : Entry) (shown : Option (List Part))
        (f : Flight)
        → Forgets sees old new e → IsFlight sees old shown f
        → IsFlight sees new shown (hand_on e.0 e.1 f) }
{}

/// Pushes, drops, and work on LOBs that the view doesn't see keep a read.
pub fn kept_by_work_on_lobs()
    ensures { (sees : Sees) (old new : Document) (shown : Option (List Part)) (f : Flight)
        → Touches sees old new → IsFlight sees old shown f → IsFlight sees new shown f }
{}

/// A pop keeps a read whose search goes on from the head where it stood at the freed node.
pub fn kept_by_pop()
    ensures { (sees : Sees) (old new : Document) (node head : Address) (shown : Option (List Part))
        (f : Flight)
        → Frees sees old new node head → IsFlight sees old shown f
        → IsFlight sees new shown (moved node head f) }
{}

/// Purge past records keeps a read where the view sees the changes that are purged.
pub fn kept_by_purge()
    ensures { (sees : Sees) (old new : Document) (shown : Option (List Part)) (f : Flight)
        → Passes sees old new → IsFlight sees old shown f → IsFlight sees new shown f }
{}

/// The purge of a deleted row whose deletion the view sees keeps a read.
pub fn kept_by_purge_of_row()
    ensures { (sees : Sees) (old new : Document) (shown : Option (List Part)) (f : Flight)
        → Sweeps sees old new → IsFlight sees old shown f → IsFlight sees new shown f }
{}

/// Whatever comes between its events, a read that is ready has copied what its view saw at the
/// first of them, and one that is absent saw nothing.
pub fn answers_its_view()
    ensures { (sees : Sees) (doc : Document) (above older : List Entry) (v : Row)
        (xs : List (Event × Document))
        → AreDistinct doc.records → IsVisible sees doc above older v → AllMove sees doc xs
        → (g : Flight) → g ≡ all_after sees doc xs (opened sees doc)
        → (g.phase ≡ Ready → under sees doc ≡ Some g.copied)
        × (g.phase ≡ Absent → under sees doc ≡ None) }
{}
