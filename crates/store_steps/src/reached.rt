//! From one touched piece to the next, by the head that is kept.
ghost use Rattle.std.specs.Prelude.{◌≡◌, ◌+◌, ◌<◌, ◌≤◌, ◌^◌, List, [], ◌∷◌, length, map, Some, IfOk, IfSome};
ghost use Rattle.page_model.specs.Pages.{Pages};
ghost use Rattle.page_model.specs.Steps.{MayUse, Uses};
ghost use Rattle.engine_base.specs.Faults.{HasCause, FailsPlainly};
ghost use Rattle.engine_base.specs.Addresses.{address_of};
ghost use Rattle.store_data.specs.Store.{Lob};
ghost use Rattle.lob_model.specs.Lobs.{IsLob};
ghost use Rattle.lob_model.specs.Pieces.{head_place};
ghost use Rattle.lob_pages.specs.Entries.{FitsPage};
ghost use Rattle.lob_index.specs.Heads.{nth};
ghost use Rattle.file_lists.specs.Links.{link_of};
ghost use Rattle.store_parts.specs.Shows.{touched_from};
ghost use Rattle.store_steps.specs.Touched.{next_touched};
ghost use Rattle.store_steps.specs.Reached.{piece_in, IsFit, IsHeadAt};

use crate::touched::touched_behind;
use engine_base::{Addr, Fault, PageNo, Pages, strange};
use lob_index::{head, head_after};
use lob_model::layout::HEADS;
use undo_records::Touched;

/// A touched piece, with the address of its head: from there a walk goes on to the next one.
#[derive(Clone, Copy)]
pub struct Reached {
    pub piece: u32,
    pub head: Addr,
}

// The head of the k-th piece, found from the last one on that was reached, which is behind none but
// it.
fn walk<P: Pages>(
    p: &mut P,
    first: PageNo,
    last: Option<Reached>,
    k: u32,
) -> Result<Option<Addr>, Fault>
    requires first { first.0 < (P.state p.old).count }
    requires fit { IsFit (P.state p.old).count last }
    requires behind { IfSome last (λ r. r.piece ≤ k) }
    requires may { MayUse (first.0 ∷ []) 5 0 (P.state p.old) }
    ensures value { (pages : Pages) (l : Lob) → (P.state p.old).told ≡ Some pages
        → l.page ≡ first.0 → IsLob pages l → IsHeadAt last l
        → IfOk result (λ link. link_of link ≡ nth k (map head_place l.pieces)) }
    ensures place { IfOk result
        (λ link. IfSome link (λ a. FitsPage (P.state p.old).count (address_of a))) }
    ensures never { (pages : Pages) (l : Lob) → (P.state p.old).told ≡ Some pages
        → l.page ≡ first.0 → IsLob pages l → IsHeadAt last l → FailsPlainly result }
    ensures told { (P.state p.new).told ≡ (P.state p.old).told }
    ensures cause { HasCause (P.state p.old).faults (P.state p.new).faults result }
    ensures uses { Uses P.state P.stays (first.0 ∷ []) 5 0 p.old p.new }
{
    match last {
        Some(r) => head_after(p, r.head, r.piece, k - r.piece),
        None => head(p, first, k),
    }
}

/// The head of the k-th piece of the LOB with that first page, found from the piece that was reached
/// last, which is behind none but it. Touches the LOB's first page and five others. Strange names the
/// length of the list of heads, and the piece, where the LOB has none there; or an address in a head's
/// node.
pub fn reach<P: Pages>(
    p: &mut P,
    first: PageNo,
    last: Option<Reached>,
    k: u32,
) -> Result<Addr, Fault>
    requires first { first.0 < (P.state p.old).count }
    requires fit { IsFit (P.state p.old).count last }
    requires behind { IfSome last (λ r. r.piece ≤ k) }
    requires may { MayUse (first.0 ∷ []) 5 0 (P.state p.old) }
    ensures value { (pages : Pages) (l : Lob) → (P.state p.old).told ≡ Some pages
        → l.page ≡ first.0 → IsLob pages l → IsHeadAt last l
        → IfOk result (λ a. Some (address_of a) ≡ nth k (map head_place l.pieces)) }
    ensures place { IfOk result (λ a. FitsPage (P.state p.old).count (address_of a)) }
    ensures never { (pages : Pages) (l : Lob) → (P.state p.old).told ≡ Some pages
        → l.page ≡ first.0 → IsLob pages l → IsHeadAt last l → k < length l.pieces
        → FailsPlainly result }
    ensures told { (P.state p.new).told ≡ (P.state p.old).told }
    ensures cause { HasCause (P.state p.old).faults (P.state p.new).faults result }
    ensures uses { Uses P.state P.stays (first.0 ∷ []) 5 0 p.old p.new }
{
    let Some(a) = walk(p, first, last, k)? else {
        return strange(first, HEADS, u64::from(k));
    };
    Ok(a)
}

// The piece that was reached last.
fn piece_of(last: Option<Reached>) -> Option<u32>
    ensures { result ≡ piece_in last }
{
    match last {
        Some(r) => Some(r.piece),
        None => None,
    }
}

/// The first touched piece behind the one that was reached last.
pub fn next_behind(touched: &Touched, last: Option<Reached>) -> Option<u32>
    requires last { IfSome last (λ r. r.piece + 1 < 2 ^ 32) }
    ensures value { result ≡ next_touched (piece_in last)
        (touched_from 0 touched.now.pieces touched.now.bits) }
    ensures below { IfSome result (λ k. k < touched.now.pieces) }
    ensures small { IfSome result (λ k. k + 1 < 2 ^ 32) }
    ensures behind { IfSome result (λ k. IfSome last (λ r. r.piece ≤ k)) }
{
    touched_behind(touched, piece_of(last))
}
