//! Three laws on lists of records with old bytes, and what they rest on.
ghost use Rattle.std.specs.Prelude.{◌≡◌, List, ◌∷◌};
ghost use Rattle.store_data.specs.Pieces.{Part};
ghost use Rattle.store_data.specs.Store.{Run};
ghost use Rattle.store_model.specs.Runs.{all_laid};
ghost use Rattle.read_model.specs.Patches.{Entry, back, runs, AreMadeOn, AreAtSamePlaces};

/// Old bytes of the newest record put back, and then those of the rest, are those of all put back.
pub fn newest_first()
    ensures { (e : Entry) (es : List Entry) (part : Part)
        → back (e ∷ es) part ≡ back es (all_laid (runs e) part) }
{}

/// What was copied from a page leads back to itself, by the records made on the page since.
pub fn copied_leads_back()
    ensures { (es : List Entry) (copied now : Part) → AreMadeOn copied es now
        → back es copied ≡ copied }
{}

/// What stands in the page now leads back to what was copied.
pub fn now_leads_back()
    ensures { (es : List Entry) (copied now : Part) → AreMadeOn copied es now
        → back es now ≡ copied }
{}

/// Old bytes put back over new ones at the same places are the old bytes.
pub fn old_over_new()
    ensures { (old new : List Run) (part : Part) → AreAtSamePlaces old new
        → all_laid old (all_laid new part) ≡ all_laid old part }
{}

/// Where what is copied and what stands in the page lead back to one part, what is copied still
/// does when a record with the page's bytes comes.
pub fn copied_and_new_record()
    ensures { (es : List Entry) (old : List Run) (copied now shown : Part) → back es copied ≡ shown
        → back es now ≡ shown
        → all_laid old now ≡ now → back es (all_laid old copied) ≡ shown }
{}
