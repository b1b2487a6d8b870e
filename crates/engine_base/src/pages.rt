// Numbered pages, as a mini-transaction reads and writes them.
ghost use Rattle.std.specs.Prelude.{◌≡◌, ◌+◌, ◌≤◌, ◌<◌, ◌^◌, List, [], ◌∷◌, ℕ, length, Some, IfSome, OnOk, option_map};
ghost use Rattle.page_model.specs.Pages.{AreWhole, bytes_at, written, page_bytes};
ghost use Rattle.page_model.specs.Steps.{PageState, MayUse, Uses, AddsWrite, AddsNone, different, write_head};
ghost use Rattle.engine_base.specs.Faults.{HasCause, FailsPlainly};

use crate::{Fault, PageNo};

/// Pages of 16,384 bytes, numbered from 0. A page is pinned from the first call that touches it on;
/// at most 16 are.
pub trait Pages {
    /// The pages and the writes made where they are told, the pages touched, the room, and how
    /// often it has failed.
    ghost state: { Self → PageState };

    /// Pages that are told are as many as `count` says, and whole.
    ghost whole: { (p : Self) (pages : List (List ℕ)) → (state p).told ≡ Some pages
        → AreWhole pages (state p).count };

    /// A page has a number of 32 bits.
    ghost few: { (p : Self) → (state p).count < 2 ^ 32 };

    /// What lies below stands as before in all that no read and no write may change, as a cache's
    /// own pages.
    ghost stays: { Self → Self → Type 0 };

    ghost stays_still: { (p : Self) → stays p p };

    ghost stays_on: { (a b c : Self) → stays a b → stays b c → stays a c };

    /// How many pages there are.
    fn count(&self) -> u32
        ensures { result ≡ (state self.now).count };

    /// How many pages are pinned.
    fn pins(&self) -> usize
        ensures { result ≡ different (state self.now).touched };

    /// How many bytes of writes are left, each write counted with eight more for its head.
    fn room(&self) -> u32
        ensures { result ≡ (state self.now).room };

    /// Reads bytes of a page. After a `Fault` the mini-transaction is to be abandoned.
    fn read(&mut self, page: PageNo, at: u16, into: &mut [u8]) -> Result<(), Fault>
        requires page { page.0 < (state self.old).count }
        requires within { at + length into.old ≤ page_bytes }
        requires may { MayUse (page.0 ∷ []) 0 0 (state self.old) }
        ensures bytes { OnOk result (IfSome (state self.old).told
            (λ pages. into.new ≡ bytes_at pages page.0 at (length into.old))) }
        ensures told { (state self.new).told ≡ (state self.old).told }
        ensures writes { AddsNone (state self.old) (state self.new) }
        ensures uses { Uses state stays (page.0 ∷ []) 0 0 self.old self.new }
        ensures cause { HasCause (state self.old).faults (state self.new).faults result }
        ensures plain { FailsPlainly result };

    /// Writes over bytes of a page. It is one write, also of no bytes and of bytes that stand there
    /// already. At a `Fault` the pages may hold anything, and the mini-transaction is to be
    /// abandoned.
    fn write(&mut self, page: PageNo, at: u16, bytes: &[u8]) -> Result<(), Fault>
        requires page { page.0 < (state self.old).count }
        requires within { at + length bytes.now ≤ page_bytes }
        requires may { MayUse (page.0 ∷ []) 0 (length bytes.now + write_head) (state self.old) }
        ensures written { OnOk result ((state self.new).told
            ≡ option_map (λ pages. written pages page.0 at bytes.now) (state self.old).told) }
        ensures writes { OnOk result (AddsWrite page.0 at bytes.now (state self.old)
            (state self.new)) }
        ensures uses { Uses state stays (page.0 ∷ []) 0 (length bytes.now + write_head) self.old
            self.new }
        ensures cause { HasCause (state self.old).faults (state self.new).faults result }
        ensures plain { FailsPlainly result };
}
