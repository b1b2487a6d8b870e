// The count of free pages, and the map's lowest free page, read and judged.
ghost use Rattle.std.specs.Prelude.{◌≡◌, ℕ, ◌*◌, ◌/◌, ◌<◌, ◌≤◌, ◌==◌, [], ◌∷◌, length, slice_index, IfOk, IfErr, IfSome, IfNone};
ghost use Rattle.page_model.specs.Steps.{MayUse, Uses};
ghost use Rattle.engine_base.specs.Faults.{HasCause, FailsPlainly, IsHonest};
ghost use Rattle.page_space.specs.declared.layout.TheConstants.{MAP_BYTES};
ghost use Rattle.page_space.specs.Bits.{AreOnes, IsLowestZero};
ghost use Rattle.page_space.specs.Map.{IsSize, IfMapped, IsLowestFree, IsUsed, bit, free_of};
ghost use Rattle.page_space.specs.Answers.{IsOddCount};

use crate::bits::{is_set, lowest_zero};
use crate::layout::{FREE_PAGES, MAP, MAP_BYTES, SYSTEM};
use engine_base::{Fault, PageNo, Pages, read_field, strange};

/// How many pages are free. Strange where that is more than there are.
pub fn free_pages<P: Pages>(p: &mut P) -> Result<u32, Fault>
    requires size { IsSize (P.state p.old).count }
    requires may { MayUse (0 ∷ []) 0 0 (P.state p.old) }
    ensures value { IfOk result (λ n. IfSome (P.state p.old).told (λ pages. n ≡ free_of pages)) }
    ensures fits { IfOk result (λ n. n ≤ (P.state p.old).count) }
    ensures honest { IfErr result (IsHonest
        (IsOddCount (P.state p.old).told (P.state p.old).count)) }
    ensures never { IfMapped (P.state p.old).told (λ pages. FailsPlainly result) }
    ensures told { (P.state p.new).told ≡ (P.state p.old).told }
    ensures uses { Uses P.state P.stays (0 ∷ []) 0 0 p.old p.new }
    ensures cause { HasCause (P.state p.old).faults (P.state p.new).faults result }
{
    let count = p.count();
    let free = read_field(p, SYSTEM, FREE_PAGES, 4)?;
    if free > u64::from(count) {
        return strange(SYSTEM, FREE_PAGES, free);
    }
    Ok(free as u32)
}

/// Whether the map says that the page is used.
pub fn is_used<P: Pages>(p: &mut P, page: PageNo) -> Result<bool, Fault>
    requires size { IsSize (P.state p.old).count }
    requires page { page.0 < (P.state p.old).count }
    requires may { MayUse (0 ∷ []) 0 0 (P.state p.old) }
    ensures value { IfOk result (λ used. IfSome (P.state p.old).told (λ pages.
        used ≡ (bit pages page.0 == 1))) }
    ensures told { (P.state p.new).told ≡ (P.state p.old).told }
    ensures uses { Uses P.state P.stays (0 ∷ []) 0 0 p.old p.new }
    ensures cause { HasCause (P.state p.old).faults (P.state p.new).faults result }
    ensures plain { FailsPlainly result }
{
    let byte = read_field(p, SYSTEM, MAP + (page.0 / 8) as u16, 1)?;
    Ok(is_set(byte as u8, page.0 % 8))
}

/// A free page, and the byte of the map that has its bit.
#[derive(Clone, Copy)]
pub struct Found {
    pub page: u32,
    pub byte: u8,
}

/// The lowest free page.
pub fn lowest_free<P: Pages>(p: &mut P) -> Result<Option<Found>, Fault>
    requires size { IsSize (P.state p.old).count }
    requires may { MayUse (0 ∷ []) 0 0 (P.state p.old) }
    ensures there { IfOk result (λ found. IfSome found (λ f. f.page < (P.state p.old).count)) }
    ensures some { IfOk result (λ found. IfSome found (λ f. IfSome (P.state p.old).told (λ pages.
        IsLowestFree pages f.page f.byte))) }
    ensures none { IfOk result (λ found. IfNone found (IfSome (P.state p.old).told (λ pages.
        (k : ℕ) → k < (P.state p.old).count → IsUsed pages k))) }
    ensures told { (P.state p.new).told ≡ (P.state p.old).told }
    ensures uses { Uses P.state P.stays (0 ∷ []) 0 0 p.old p.new }
    ensures cause { HasCause (P.state p.old).faults (P.state p.new).faults result }
    ensures plain { FailsPlainly result }
{
    let count = p.count();
    let mut map = [0u8; MAP_BYTES];
    p.read(SYSTEM, MAP, &mut map)?;
    Ok(lowest_in(&map, count))
}

// The lowest free page of a map.
fn lowest_in(map: &[u8], count: u32) -> Option<Found>
    requires map { length map.now ≤ MAP_BYTES }
    requires within { count ≤ 8 * length map.now }
    ensures some { IfSome result (λ f. IsLowestZero map.now count f.page
        × (f.byte ≡ slice_index map.now (f.page / 8))) }
    ensures none { IfNone result (AreOnes map.now count) }
{
    let Some(page) = lowest_zero(map, count) else {
        return None;
    };
    Some(Found {
        page,
        byte: map[page as usize / 8],
    })
}
