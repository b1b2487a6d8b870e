// Bytes written in place.
ghost use Rattle.std.specs.Prelude.{◌≡◌, ℕ, List, Some};
ghost use Rattle.page_model.specs.Pages.{Pages, all_written};
ghost use Rattle.store_data.specs.Store.{Lob, Run, Store};
ghost use Rattle.store_model.specs.Lobs.{lob_of};
ghost use Rattle.store_model.specs.Steps.{on_lobs};
ghost use Rattle.store_model.specs.Runs.{lobs_laid};
ghost use Rattle.lob_model.specs.Pieces.{versions};
ghost use Rattle.store_parts.specs.Shows.{IsStore};
ghost use Rattle.store_pages.specs.Runs.{LieIn, writes_of};

/// Runs of bytes are written over the data of a LOB's versions, the first run first: the store has
/// them laid over its LOBs, and nothing else of it changed.
#[tactic(auto, using(crate::proofs::RunStoreLemmas::runs_laid))]
pub fn runs_are_laid()
    ensures { (old : Pages) (store : Store) (page : ℕ) (l : Lob) (runs : List Run)
        → IsStore old store → lob_of store.lobs page ≡ Some l → LieIn runs (versions l.pieces)
        → IsStore (all_written (writes_of runs) old) (on_lobs (lobs_laid runs) store) }
{}
