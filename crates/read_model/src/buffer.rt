//! The buffer of a read, and runs in pages.
ghost use Rattle.std.specs.Prelude.{◌≡◌, ◌++◌, ℕ, List};
ghost use Rattle.page_model.specs.Pages.{Pages, all_written};
ghost use Rattle.store_data.specs.Store.{Run};
ghost use Rattle.store_model.specs.Lobs.{joined};
ghost use Rattle.store_model.specs.Runs.{all_laid};
ghost use Rattle.read_model.specs.Buffer.{parts_in, left_in};
ghost use Rattle.read_model.specs.OnPages.{part_in, writes_of, AllInPages};

/// The pieces of a buffer and what is left behind them are the buffer.
pub fn pieces_are_the_buffer()
    ensures { (lob : ℕ) (from buffer : List ℕ)
        → joined (parts_in lob from buffer) ++ left_in from buffer ≡ buffer }
{}

/// Runs that are written in pages are laid over the parts that stand there.
pub fn written_runs_are_laid()
    ensures { (rs : List Run) (pages : Pages) (page at n : ℕ) → AllInPages rs pages
        → part_in (all_written (writes_of rs) pages) page at n ≡ all_laid rs
        (part_in pages page at n) }
{}
