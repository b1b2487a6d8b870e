// Laws on changes in place: old bytes put back give the copied bytes again. `v` is a piece as it
// was copied from its page, `records` are those made on the page after that, the newest first, and
// `bytes` are the page's data now.
ghost use Rattle.std.specs.Prelude.{◌≡◌, List, ◌∷◌, ℕ};
ghost use Rattle.store_data.specs.Pieces.{Part};
ghost use Rattle.store_data.specs.Store.{Record};
ghost use Rattle.store_model.specs.Runs.{old_runs, all_laid, put_back};
ghost use Rattle.store_model.specs.Patches.{AreMade, IsMixed, with_bytes};

/// The copied bytes, with the old bytes of later records put back, are the copied bytes.
#[tactic(auto, using(crate::proofs::RunLemmas::copy_put_back))]
pub fn copy_stays()
    ensures { (records : List Record) (v : Part) (bytes : List ℕ) → AreMade records v bytes
        → put_back records v ≡ v }
{}

/// The page's present bytes, with the same old bytes put back, are the copied bytes.
#[tactic(auto, using(crate::proofs::RunLemmas::page_put_back))]
pub fn page_goes_back()
    ensures { (records : List Record) (v : Part) (bytes : List ℕ) → AreMade records v bytes
        → put_back records (with_bytes bytes v) ≡ v }
{}

/// The same of any bytes that differ from the copied ones only where the records have runs, as
/// those of a copy that was made between two of them, or into which some were put back already.
#[tactic(auto, using(crate::proofs::RunLemmas::mixed_put_back))]
pub fn mixed_goes_back()
    ensures { (records : List Record) (v : Part) (bytes mixed : List ℕ) → AreMade records v bytes
        → IsMixed records v mixed → put_back records (with_bytes mixed v) ≡ v }
{}

/// A record's old bytes put back first and the rest then: the record may be taken off the list as
/// soon as its bytes are put back.
pub fn record_taken_off()
    ensures { (u : Record) (records : List Record) (v : Part)
        → put_back (u ∷ records) v ≡ put_back records (all_laid (old_runs u.body) v) }
{}
