// A mini-transaction: reads and writes of pages that take effect together, or not at all.
ghost use Rattle.std.specs.Prelude.{◌≡◌, ◌+◌, ◌≤◌, ◌<◌, ◌-◌, Some, refl, ◌⊎◌, true, length, map, IfOk, IsTrue, All, not, option_map, vec_capacity};
ghost use Rattle.page_model.specs.Pages.{all_written};
ghost use Rattle.page_model.specs.Steps.{max_pins, among};
ghost use Rattle.engine_base.specs.Faults.{HasCause, FailsPlainly};
ghost use Rattle.mini_trx.specs.Copies.{page_of};
ghost use Rattle.mini_trx.specs.Pins.{IsPlace};
ghost use Rattle.page_model.specs.Frames.{max_group, IsInside};
ghost use Rattle.mini_trx.specs.Caches.{IsCoherent, Begins, mtr_state};
ghost use Rattle.mini_trx.specs.Mtrs.{PinsAtMost};

use crate::lent::LentPages;
use crate::{Cache, Group, Holdings, Memo};
use engine_base::{Fault, MAX_GROUP, PageNo, Pages};

/// A mini-transaction over the pages of a cache. A page is pinned by the first call on it: the
/// cache lends a copy, at most 16 of them, and all reads and writes work on the copies. No call
/// here takes memory.
/// It ends by `commit`, whose group the cache then takes by its own `put`, or by `abandon`; no
/// other way lets it go.
///
/// What it holds is a parameter so that the two endings can say what they leave of the cache behind
/// the reference.
pub struct Mtr<'a, C: Cache, H: Holdings = Memo> {
    cache: &'a mut C,
    memo: H,
    ghost coherent: { IsCoherent (C.state cache.now) (H.copies memo) (H.writes memo) },
}

impl<'a, C: Cache> Mtr<'a, C> {
    /// Begins over this cache with the buffer that is the cache's.
    pub fn new(cache: &'a mut C, buffer: Vec<u8>) -> Mtr<'a, C>
        requires none_lent { (C.state cache.old).lent ≡ 0 }
        requires capacity { max_group ≤ vec_capacity buffer }
        ensures same_reference { result.cache.ghost_name ≡ cache.entry.ghost_name }
        ensures cache { result.cache.now ≡ cache.old }
        ensures begins { Begins (C.state cache.old) (⟦<Mtr<'a, C> as Pages>⟧.state result) }
    {
        Mtr {
            cache,
            memo: Memo::new(buffer),
        }
    }
}

impl<'a, C: Cache> Pages for Mtr<'a, C> {
    ghost use Rattle.std.specs.Prelude.{◌≡◌, refl};
    ghost use Rattle.std.proofs.Common.{◌∙◌};
    ghost use Rattle.page_model.proofs.WholeLemmas.{whole_told};
    ghost use Rattle.mini_trx.specs.Caches.{mtr_state};

    ghost state = { λ m. mtr_state (C.state m.cache.now) m.memo.lent m.memo.group.writes };

    ghost whole = { λ m pages told. whole_told (C.state m.cache.now).told
        (C.state m.cache.now).count m.memo.group.writes pages (C.whole m.cache.now)
        m.coherent.inside told };

    ghost few = { λ m. C.few m.cache.now };

    ghost stays = { λ m n. (n.cache.ghost_name ≡ m.cache.ghost_name)
        × C.stays m.cache.now n.cache.now
        × ((C.state n.cache.now).out ≡ (C.state m.cache.now).out) };

    ghost stays_still = { λ m. (refl, C.stays_still m.cache.now, refl) };

    ghost stays_on = { λ a b c first then. (
      then.0 ∙ first.0,
      C.stays_on a.cache.now b.cache.now c.cache.now first.1 then.1,
      then.2 ∙ first.2,
    ) };

    fn count(&self) -> u32 {
        self.cache.count()
    }

    fn pins(&self) -> usize {
        self.memo.lent.len()
    }

    fn room(&self) -> u32 {
        (MAX_GROUP - self.memo.group.len()) as u32
    }

    /// Pins the page, and copies the bytes out of its frame.
    fn read(&mut self, page: PageNo, at: u16, into: &mut [u8]) -> Result<(), Fault> {
        let place = pin(self.cache, &mut self.memo.lent, page)?;
        let at = usize::from(at);
        into.copy_from_slice(&self.memo.lent.bytes(place)[at..at + into.len()]);
        Ok(())
    }

    /// Pins the page, and copies the bytes once into its frame and once into the group.
    fn write(&mut self, page: PageNo, at: u16, bytes: &[u8]) -> Result<(), Fault> {
        let place = pin(self.cache, &mut self.memo.lent, page)?;
        self.memo.write(place, page, at, bytes);
        Ok(())
    }
}

// Where the page stands among the lent ones, after it has been lent if need be.
fn pin<C: Cache>(cache: &mut C, lent: &mut LentPages, page: PageNo) -> Result<usize, Fault>
    requires page { page.0 < (C.state cache.old).count }
    requires frames { (C.state cache.old).lent ≤ length lent.old }
    requires spare { (among (map page_of lent.old) page.0 ≡ true) ⊎ (length lent.old < max_pins) }
    ensures place { IfOk result (λ i. IsPlace i page.0 lent.new) }
    ensures pins { PinsAtMost page.0 (C.state cache.old) (C.state cache.new) lent.old lent.new }
    ensures out { (C.state cache.new).out ≡ (C.state cache.old).out }
    ensures stays { C.stays cache.old cache.new }
    ensures cause { HasCause (C.state cache.old).faults (C.state cache.new).faults result }
    ensures plain { FailsPlainly result }
{
    if let Some(place) = lent.find(page) {
        return Ok(place);
    }
    let frame = cache.lend(page)?;
    let place = lent.len();
    lent.push(page, frame);
    Ok(place)
}

// Gives all frames back.
fn give_back_all<C: Cache, H: Holdings>(cache: &mut C, memo: &mut H)
    ensures lent { (C.state cache.new).lent
        ≡ (C.state cache.old).lent - length (H.copies memo.old) }
    ensures out { (C.state cache.new).out ≡ (C.state cache.old).out }
    ensures stays { C.stays cache.old cache.new }
    ensures faults { (C.state cache.new).faults ≡ (C.state cache.old).faults }
    ensures writes { H.writes memo.new ≡ H.writes memo.old }
{
    while let Some(frame) = memo.take_frame() {
        cache.give_back(frame);
    }
}

impl<'a, C: Cache, H: Holdings> Mtr<'a, C, H> {
    /// Ends with all its writes, in order, as one group. The cache's own pages are as they were
    /// until the group is put.
    /// Copies nothing: the group's buffer moves into the result, and the frames back to the cache.
    pub fn commit(self) -> Group
        ensures writes { (mtr_state (C.state self.entry.cache.now) (H.copies self.entry.memo)
            (H.writes self.entry.memo)).writes
            ≡ Some result.writes }
        ensures capacity { max_group ≤ result.capacity }
        ensures inside { All (IsInside (C.state self.exit.0.now).count) result.writes }
        ensures held { All (λ w. IsTrue ((C.state self.exit.0.now).holds w.page)) result.writes }
        ensures told { (mtr_state (C.state self.entry.cache.now) (H.copies self.entry.memo)
            (H.writes self.entry.memo)).told
            ≡ option_map (all_written result.writes) (C.state self.exit.0.now).told }

        // What it leaves of the cache.
        ensures stays { C.stays self.entry.cache.now self.exit.0.now }
        ensures none_lent { (C.state self.exit.0.now).lent ≡ 0 }
        ensures out { (C.state self.exit.0.now).out ≡ (C.state self.entry.cache.now).out }
        ensures faults { (C.state self.exit.0.now).faults ≡ (C.state self.entry.cache.now).faults }
    {
        let Mtr { cache, mut memo } = self;
        give_back_all(cache, &mut memo);
        memo.into_group()
    }

    /// Ends with nothing changed: the frames and the buffer go back to the cache as they are.
    pub fn abandon(self)
        ensures stays { C.stays self.entry.cache.now self.exit.0.now }
        ensures none_lent { (C.state self.exit.0.now).lent ≡ 0 }
        ensures home { IsTrue (not (C.state self.exit.0.now).out) }
        ensures faults { (C.state self.exit.0.now).faults ≡ (C.state self.entry.cache.now).faults }
    {
        let Mtr { cache, mut memo } = self;
        give_back_all(cache, &mut memo);
        cache.keep(memo.into_group().into_buffer());
    }
}
