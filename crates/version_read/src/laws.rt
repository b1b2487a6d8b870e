//! What a store's pages hold of a document's records.
ghost use Rattle.std.specs.Prelude.{◌≡◌, ℕ, List, Option, Some, false};
ghost use Rattle.store_data.specs.Pieces.{Part};
ghost use Rattle.read_model.specs.Document.{Document, Sees, AreDistinct};
ghost use Rattle.read_model.specs.Flight.{Flight, Seek, Unpatch, IsFlight};
ghost use Rattle.read_model.specs.Steps.{judging, put};
ghost use Rattle.version_read.specs.Next.{NextIn};
ghost use Rattle.page_model.specs.Pages.{Pages, Address};
ghost use Rattle.store_data.specs.Store.{Record, Store};
ghost use Rattle.store_model.specs.Undo.{record_at};
ghost use Rattle.store_parts.specs.Shows.{IsStore};
ghost use Rattle.read_model.specs.OfStore.{document};
ghost use Rattle.version_read.specs.Records.{StandsIn};

/// The record of a document that is found at a place stands there in the pages of the store.
pub fn record_stands()
    ensures { (pages : Pages) (store : Store) → IsStore pages store → (d : ℕ) (a : Address)
        (r : Record) → record_at (document store d).records a ≡ Some r → StandsIn pages a r }
{}

/// Where a walk's cursor leads, a record of its document stands, and putting it back leaves the
/// read as it must be.
pub fn walk_leads_to_a_record()
    ensures { (sees : Sees) (doc : Document) (shown : Option (List Part)) (f : Flight)
        → AreDistinct doc.records → f.phase ≡ Unpatch → IsFlight sees doc shown f
        → (a : Address) → f.cursor ≡ Some a → NextIn sees doc shown a (λ r. put r f) }
{}

/// A row that is judged and not seen came by a record of its document, and the read may go on at
/// the row before.
pub fn seek_leads_to_a_record()
    ensures { (sees : Sees) (doc : Document) (shown : Option (List Part)) (f : Flight)
        → AreDistinct doc.records → f.phase ≡ Seek → IsFlight sees doc shown f
        → sees f.row.trx ≡ false → (a : Address) × (f.row.roll ≡ Some a)
        × NextIn sees doc shown a (λ r. judging r.before) }
{}
