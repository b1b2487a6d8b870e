// Where a mini-transaction gets its pages from.
ghost use Rattle.std.specs.Prelude.{◌≡◌, ◌+◌, ◌-◌, ◌≤◌, ◌<◌, ◌^◌, if◌then◌else◌, is_ok, false, IsTrue, List, ℕ, Some, IfOk, OnOk, IfSome, vec_capacity};
ghost use Rattle.page_model.specs.Pages.{AreWhole, page_at};
ghost use Rattle.page_model.specs.Steps.{max_pins};
ghost use Rattle.engine_base.specs.Faults.{HasCause, FailsPlainly};
ghost use Rattle.page_model.specs.Frames.{max_group};
ghost use Rattle.mini_trx.specs.Caches.{CacheState, KeepsPages};

use engine_base::{Fault, PageBuf, PageNo};

/// A cache of numbered pages. It has 16 frames to lend, and a buffer for one group of 262,144
/// bytes, all taken when the cache is made.
pub trait Cache {
    /// The cache's own pages, what of it is lent, and how often it has failed.
    ghost state: { Self → CacheState };

    /// Pages that are told are as many as `count` says, and whole.
    ghost whole: { (c : Self) (pages : List (List ℕ)) → (state c).told ≡ Some pages
        → AreWhole pages (state c).count };

    ghost few: { (c : Self) → (state c).count < 2 ^ 32 };

    /// What a mini-transaction leaves of the cache, whatever it does: its own pages among other
    /// things.
    ghost stays: { Self → Self → Type 0 };

    ghost stays_still: { (c : Self) → stays c c };

    ghost stays_on: { (a b c : Self) → stays a b → stays b c → stays a c };

    ghost stays_pages: { (a b : Self) → stays a b → KeepsPages (state a) (state b) };

    /// How many pages there are.
    fn count(&self) -> u32
        ensures { result ≡ (state self.now).count };

    /// Lends a frame with a copy of the page: the one copy of a page that a pin costs. Takes no
    /// memory.
    fn lend(&mut self, page: PageNo) -> Result<PageBuf, Fault>
        requires page { page.0 < (state self.old).count }
        requires spare { (state self.old).lent < max_pins }
        ensures copy { IfOk result (λ frame.
            IfSome (state self.old).told (λ pages. frame ≡ page_at pages page.0)) }
        ensures holds { OnOk result (IsTrue ((state self.new).holds page.0)) }
        ensures lent { (state self.new).lent
            ≡ (if is_ok result then (state self.old).lent + 1 else (state self.old).lent) }
        ensures out { (state self.new).out ≡ (state self.old).out }
        ensures stays { stays self.old self.new }
        ensures cause { HasCause (state self.old).faults (state self.new).faults result }
        ensures plain { FailsPlainly result };

    /// Takes a frame back. What stands in it is not looked at.
    fn give_back(&mut self, frame: PageBuf)
        ensures lent { (state self.new).lent ≡ (state self.old).lent - 1 }
        ensures out { (state self.new).out ≡ (state self.old).out }
        ensures stays { stays self.old self.new }
        ensures faults { (state self.new).faults ≡ (state self.old).faults };

    /// Takes the buffer back. What stands in it is not looked at.
    fn keep(&mut self, buffer: Vec<u8>)
        requires { max_group ≤ vec_capacity buffer }
        ensures lent { (state self.new).lent ≡ (state self.old).lent }
        ensures out { (state self.new).out ≡ false }
        ensures stays { stays self.old self.new }
        ensures faults { (state self.new).faults ≡ (state self.old).faults };
}
