// The pages of a LOB that is being given back.
ghost use Rattle.std.specs.Prelude.{◌≡◌, ◌+◌, ◌*◌, ◌<◌, ◌≤◌, ℕ, List, [], ◌∷◌, false, Some, IfOk, IfErr, IfSome, OnOk};
ghost use Rattle.page_model.specs.Pages.{Pages, field};
ghost use Rattle.page_model.specs.Steps.{MayUse, Uses, Becomes, write_head};
ghost use Rattle.engine_base.specs.Faults.{HasCause, FailsPlainly, IsHonest};
ghost use Rattle.page_space.specs.Map.{IsSize, IsMap, IsUsed};
ghost use Rattle.page_space.specs.Answers.{IsRaisedOrNotUsed};
ghost use Rattle.store_data.specs.Store.{Lob};
ghost use Rattle.lob_model.specs.declared.layout.TheConstants.{CHAIN};
ghost use Rattle.lob_bytes.specs.Frees.{CanGive, GivesIndexPage, GivesFirst, IsChainLink, IsOddChain, IsOddGiving, has_some, link_number, unchain_room};

use engine_base::{Fault, NULL_PAGE, PageNo, Pages, read_field, strange, write_field};
use lob_model::layout::CHAIN;
use page_space::Space;

/// Gives back the first index page of the chain of a LOB that has no pieces, the one that was made
/// last, and tells whether another is left. Where there is none it changes nothing and answers
/// false. Besides page 0 and the page named it touches one, and it writes 9 bytes in three writes.
pub fn free_index_page<P: Pages>(p: &mut P, space: &mut Space, first: PageNo) -> Result<bool, Fault>
    requires page { first.0 < (P.state p.old).count }
    requires size { IsSize (P.state p.old).count }
    requires may { MayUse (0 ∷ first.0 ∷ []) 1 unchain_room (P.state p.old) }
    ensures gives { (pages : Pages) (lob : Lob) (page : ℕ) (more : List ℕ)
        → (P.state p.old).told ≡ Some pages → lob.page ≡ first.0
        → CanGive lob (page ∷ more) pages
        → IfOk result (λ left. left ≡ has_some more)
        × OnOk result (Becomes (P.state p.new).told (GivesIndexPage lob page more pages)) }
    ensures none { (pages : Pages) (lob : Lob)
        → (P.state p.old).told ≡ Some pages → lob.page ≡ first.0 → CanGive lob [] pages
        → IfOk result (λ left. left ≡ false)
        × ((P.state p.new).told ≡ (P.state p.old).told) }
    ensures reserved { space.new ≡ space.old }

    // Strange names a number in the chain, or what giving the page back found, as each stood.
    ensures honest { IfErr result (IsHonest (IsOddGiving (P.state p.old) first.0)) }
    ensures never { (pages : Pages) (lob : Lob) (index : List ℕ)
        → (P.state p.old).told ≡ Some pages → lob.page ≡ first.0 → CanGive lob index pages
        → FailsPlainly result }
    ensures cause { HasCause (P.state p.old).faults (P.state p.new).faults result }
    ensures uses { Uses P.state P.stays (0 ∷ first.0 ∷ []) 1 unchain_room p.old p.new }
{
    let Some(page) = chain_link(p, first)? else {
        return Ok(false);
    };
    let next = chain_link(p, page)?;
    space.give(p, page)?;
    write_field(p, first, CHAIN, 4, u64::from(number(next)))?;
    Ok(next.is_some())
}

// The page that the chain leads to from this one, if any.
fn chain_link<P: Pages>(p: &mut P, page: PageNo) -> Result<Option<PageNo>, Fault>
    requires page { page.0 < (P.state p.old).count }
    requires may { MayUse (page.0 ∷ []) 0 0 (P.state p.old) }
    ensures value { IfOk result (λ link. IfSome (P.state p.old).told
        (λ pages. link_number link ≡ field pages page.0 CHAIN 4)) }
    ensures place { IfOk result (λ link. IfSome link (λ n. n.0 < (P.state p.old).count)) }
    ensures honest { IfErr result
        (IsHonest (IsOddChain (P.state p.old).told (P.state p.old).count page.0)) }
    ensures never { IfSome (P.state p.old).told
        (λ pages. IsChainLink (P.state p.old).count (field pages page.0 CHAIN 4)
        → FailsPlainly result) }
    ensures cause { HasCause (P.state p.old).faults (P.state p.new).faults result }
    ensures told { (P.state p.new).told ≡ (P.state p.old).told }
    ensures uses { Uses P.state P.stays (page.0 ∷ []) 0 0 p.old p.new }
{
    let count = p.count();
    let there = read_field(p, page, CHAIN, 4)?;
    if there == u64::from(NULL_PAGE) {
        return Ok(None);
    }
    if there >= u64::from(count) {
        return strange(page, CHAIN, there);
    }
    Ok(Some(PageNo(there as u32)))
}

// The number of the page, or the null one.
fn number(link: Option<PageNo>) -> u32
    ensures { result ≡ link_number link }
{
    match link {
        Some(page) => page.0,
        None => NULL_PAGE,
    }
}

/// Gives back the first page of a LOB of which nothing else is left. Touches page 0 alone, and
/// writes 5 bytes in two writes.
pub fn free_first<P: Pages>(p: &mut P, space: &mut Space, page: PageNo) -> Result<(), Fault>
    requires page { page.0 < (P.state p.old).count }
    requires size { IsSize (P.state p.old).count }
    requires may { MayUse (0 ∷ []) 0 (5 + 2 * write_head) (P.state p.old) }
    ensures gives { (pages : Pages) → (P.state p.old).told ≡ Some pages → IsMap pages
        → IsUsed pages page.0
        → OnOk result (Becomes (P.state p.new).told (GivesFirst page.0 pages)) }
    ensures reserved { space.new ≡ space.old }

    // Strange names the count of free pages or the byte with the page's bit, as either stood.
    ensures honest { IfErr result
        (IsHonest (IsRaisedOrNotUsed (P.state p.old).told (P.state p.old).count page.0)) }
    ensures never { (pages : Pages) → (P.state p.old).told ≡ Some pages → IsMap pages
        → IsUsed pages page.0 → FailsPlainly result }
    ensures cause { HasCause (P.state p.old).faults (P.state p.new).faults result }
    ensures uses { Uses P.state P.stays (0 ∷ []) 0 (5 + 2 * write_head) p.old p.new }
{
    space.give(p, page)
}
