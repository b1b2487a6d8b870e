// Pages reserved, taken and given back.
ghost use Rattle.std.specs.Prelude.{◌≡◌, ◌+◌, ◌-◌, ◌*◌, ◌<◌, ◌≤◌, [], ◌∷◌, IfOk, IfErr, OnOk, OnErr};
ghost use Rattle.page_model.specs.Steps.{MayUse, Uses, Becomes, write_head};
ghost use Rattle.engine_base.specs.Faults.{HasCause, FailsPlainly, IsHonest};
ghost use Rattle.page_space.specs.Map.{IsSize, IfMapped, IsUsed, TakesPage, GivesPage, free_of};
ghost use Rattle.page_space.specs.Answers.{AnswersReserve, HasSpaceCause, IsHonestRefusal, IsOddCount, IsSpentOrOdd, IsRaisedOrNotUsed};

use crate::SpaceError;
use crate::bits::{is_set, with_bit, without_bit};
use crate::count::{free_pages, lowest_free};
use crate::layout::{FREE_PAGES, MAP, SYSTEM};
use engine_base::{Fault, PageNo, Pages, read_field, strange, write_field};
use std::marker::Model;

/// How many free pages are promised and not yet taken. It is seen as that number.
#[derive(Debug, Drop)]
pub struct Space {
    reserved: u32,
}

impl Model for Space {
    ghost use Rattle.std.specs.Prelude.{ℕ, ◌<◌, ◌^◌};

    ghost Value = { ℕ };

    ghost view = { λ s. s.reserved };

    ghost invariant = { λ s. s.reserved < 2 ^ 32 };
}

impl Default for Space {
    ghost is_default = { λ s. s ≡ 0 };

    fn default() -> Self {
        Space { reserved: 0 }
    }
}

impl Space {
    pub fn new() -> Space
        ensures { result ≡ 0 }
    {
        Space { reserved: 0 }
    }

    /// How many pages are promised.
    pub fn reserved(&self) -> u32
        ensures { result ≡ self.now }
    {
        self.reserved
    }

    /// Promises n further pages. Each later `take` uses one of them up. A refusal changes nothing.
    /// Touches page 0, and writes nothing.
    pub fn reserve<P: Pages>(&mut self, p: &mut P, n: u32) -> Result<(), SpaceError>
        requires size { IsSize (P.state p.old).count }
        requires may { MayUse (0 ∷ []) 0 0 (P.state p.old) }
        ensures answers { IfMapped (P.state p.old).told
            (λ pages. AnswersReserve n (free_of pages - self.old) result) }
        ensures ok { OnOk result (self.new ≡ self.old + n) }
        ensures err { OnErr result (self.new ≡ self.old) }

        // As many takes as are reserved succeed.
        ensures covered { IfMapped (P.state p.old).told (λ pages.
            self.old ≤ free_of pages → self.new ≤ free_of pages) }

        ensures honest { IfErr result
            (IsHonestRefusal (IsOddCount (P.state p.old).told (P.state p.old).count) n) }
        ensures cause { HasSpaceCause (P.state p.old).faults (P.state p.new).faults result }

        ensures told { (P.state p.new).told ≡ (P.state p.old).told }
        ensures uses { Uses P.state P.stays (0 ∷ []) 0 0 p.old p.new }
    {
        let free = free_pages(p).map_err(SpaceError::Fault)?;
        let unreserved = free.saturating_sub(self.reserved);
        if n > unreserved {
            return Err(SpaceError::Full {
                need: n,
                free: unreserved,
            });
        }
        self.reserved += n;
        Ok(())
    }

    /// Takes the lowest free page, which uses up one that is reserved. Touches page 0, and writes 5
    /// bytes in two writes.
    pub fn take<P: Pages>(&mut self, p: &mut P) -> Result<PageNo, Fault>
        requires one { 1 ≤ self.old }
        requires size { IsSize (P.state p.old).count }
        requires may { MayUse (0 ∷ []) 0 (5 + 2 * write_head) (P.state p.old) }
        ensures takes { IfMapped (P.state p.old).told (λ pages. self.old ≤ free_of pages
            → IfOk result (λ page. Becomes (P.state p.new).told (λ new.
            TakesPage page.0 pages new × (self.new ≤ free_of new)))) }
        ensures there { IfOk result (λ page. page.0 < (P.state p.old).count) }
        ensures ok { OnOk result (self.new + 1 ≡ self.old) }
        ensures err { OnErr result (self.new ≡ self.old) }

        // Strange names the count of free pages, as it stood at the call.
        ensures honest { IfErr result
            (IsHonest (IsSpentOrOdd (P.state p.old).told (P.state p.old).count)) }
        ensures never { IfMapped (P.state p.old).told
            (λ pages. self.old ≤ free_of pages → FailsPlainly result) }
        ensures cause { HasCause (P.state p.old).faults (P.state p.new).faults result }

        ensures uses { Uses P.state P.stays (0 ∷ []) 0 (5 + 2 * write_head) p.old p.new }
    {
        let free = free_pages(p)?;
        if free == 0 {
            return strange(SYSTEM, FREE_PAGES, 0);
        }
        let Some(found) = lowest_free(p)? else {
            return strange(SYSTEM, FREE_PAGES, u64::from(free));
        };
        let byte = with_bit(found.byte, found.page % 8);
        write_field(p, SYSTEM, MAP + (found.page / 8) as u16, 1, u64::from(byte))?;
        write_field(p, SYSTEM, FREE_PAGES, 4, u64::from(free - 1))?;
        self.reserved -= 1;
        Ok(PageNo(found.page))
    }

    /// Gives a page that is used back. It isn't reserved. Touches page 0, and writes 5 bytes in two
    /// writes.
    pub fn give<P: Pages>(&mut self, p: &mut P, page: PageNo) -> Result<(), Fault>
        requires page { page.0 < (P.state p.old).count }
        requires size { IsSize (P.state p.old).count }
        requires may { MayUse (0 ∷ []) 0 (5 + 2 * write_head) (P.state p.old) }
        ensures gives { IfMapped (P.state p.old).told (λ pages. IsUsed pages page.0
            → OnOk result (Becomes (P.state p.new).told (GivesPage page.0 pages))) }
        ensures reserved { self.new ≡ self.old }

        // Strange names the count of free pages or the byte with the page's bit, as either stood at
        // the call.
        ensures honest { IfErr result
            (IsHonest (IsRaisedOrNotUsed (P.state p.old).told (P.state p.old).count page.0)) }
        ensures never { IfMapped (P.state p.old).told
            (λ pages. IsUsed pages page.0 → FailsPlainly result) }
        ensures cause { HasCause (P.state p.old).faults (P.state p.new).faults result }

        ensures uses { Uses P.state P.stays (0 ∷ []) 0 (5 + 2 * write_head) p.old p.new }
    {
        let count = p.count();
        let free = free_pages(p)?;
        if free >= count {
            return strange(SYSTEM, FREE_PAGES, u64::from(free));
        }
        let at = MAP + (page.0 / 8) as u16;
        let byte = read_field(p, SYSTEM, at, 1)?;
        if !is_set(byte as u8, page.0 % 8) {
            return strange(SYSTEM, at, byte);
        }
        let byte = without_bit(byte as u8, page.0 % 8);
        write_field(p, SYSTEM, at, 1, u64::from(byte))?;
        write_field(p, SYSTEM, FREE_PAGES, 4, u64::from(free + 1))?;
        Ok(())
    }

    /// Takes back the promise of n pages.
    pub fn unreserve(&mut self, n: u32)
        requires { n ≤ self.old }
        ensures { self.new + n ≡ self.old }
    {
        self.reserved -= n;
    }
}
