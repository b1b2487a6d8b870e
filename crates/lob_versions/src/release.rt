// A node given up with the page of its version's data.
ghost use Rattle.std.specs.Prelude.{◌≡◌, ◌+◌, ◌*◌, ◌<◌, ◌≤◌, List, [], ◌∷◌, ◌++◌, ℕ, Some, IfErr, OnOk};
ghost use Rattle.page_model.specs.Pages.{Pages, Address};
ghost use Rattle.page_model.specs.Lists.{IsList, IsBasePlace, IsNodePlace};
ghost use Rattle.page_model.specs.Steps.{MayUse, Uses, Becomes, write_head};
ghost use Rattle.engine_base.specs.Faults.{HasCause, FailsPlainly, IsHonest};
ghost use Rattle.engine_base.specs.Addresses.{address_of};
ghost use Rattle.file_lists.specs.Changes.{ChangesList};
ghost use Rattle.page_space.specs.Map.{IsSize};
ghost use Rattle.store_data.specs.Store.{Lob};
ghost use Rattle.lob_pages.specs.Entries.{FitsPage};
ghost use Rattle.lob_versions.specs.Releases.{IsAt, IsOddAtEnd, CanRelease, Releases, IsOddRelease};

use engine_base::{Addr, Fault, PageNo, Pages};
use file_lists::{remove_first, remove_last};
use lob_index::{give_data, give_node};
use lob_model::layout::VERSIONS;
use page_space::Space;

/// The end of a version list at which a node stands: the newest of its versions are the first.
#[derive(Clone, Copy)]
pub enum End {
    First,
    Last,
}

// Takes the node at that end out of a list. Besides the pages named it touches that of its one
// neighbour, and it writes 16 bytes in three writes.
fn take_out<P: Pages>(p: &mut P, base: Addr, node: Addr, end: End) -> Result<(), Fault>
    requires base { IsBasePlace (P.state p.old).count (address_of base) }
    requires node { IsNodePlace (P.state p.old).count (address_of node) }
    requires may { MayUse (node.page.0 ∷ base.page.0 ∷ []) 1 (16 + 3 * write_head)
        (P.state p.old) }
    ensures removes { (pages : Pages) (before behind : List Address)
        → (P.state p.old).told ≡ Some pages
        → IsList pages (address_of base) (before ++ address_of node ∷ behind)
        → IsAt end before behind
        → OnOk result (Becomes (P.state p.new).told (ChangesList (address_of base)
        (before ++ address_of node ∷ behind) (before ++ behind) pages)) }
    ensures honest { IfErr result (IsHonest
        (IsOddAtEnd end (P.state p.old) (address_of base) (address_of node))) }
    ensures never { (pages : Pages) (before behind : List Address)
        → (P.state p.old).told ≡ Some pages
        → IsList pages (address_of base) (before ++ address_of node ∷ behind)
        → IsAt end before behind → FailsPlainly result }
    ensures cause { HasCause (P.state p.old).faults (P.state p.new).faults result }
    ensures uses { Uses P.state P.stays (node.page.0 ∷ base.page.0 ∷ []) 1
        (16 + 3 * write_head) p.old p.new }
{
    match end {
        End::First => remove_first(p, base, node),
        End::Last => remove_last(p, base, node),
    }
}

/// Takes the node at that end out of the version list of a head, and gives back the node and the
/// page of its version's data. The first page of the LOB stays. Touches page 0 and, besides the
/// pages named, those of the node's one neighbour and of the first free node; writes 49 bytes in
/// ten writes.
pub fn release<P: Pages>(
    p: &mut P,
    space: &mut Space,
    first: PageNo,
    head: Addr,
    node: Addr,
    page: PageNo,
    end: End,
) -> Result<(), Fault>
    requires first { first.0 < (P.state p.old).count }
    requires head { FitsPage (P.state p.old).count (address_of head) }
    requires node { FitsPage (P.state p.old).count (address_of node) }
    requires page { page.0 < (P.state p.old).count }
    requires size { IsSize (P.state p.old).count }
    requires may { MayUse (node.page.0 ∷ head.page.0 ∷ first.0 ∷ 0 ∷ []) 2
        (49 + 10 * write_head) (P.state p.old) }
    ensures releases { (pages : Pages) (own : List ℕ) (lob : Lob) (before behind : List Address)
        → (P.state p.old).told ≡ Some pages → lob.page ≡ first.0
        → CanRelease own lob (address_of head) (address_of node) before behind page.0 pages
        → IsAt end before behind
        → OnOk result (Becomes (P.state p.new).told
        (Releases own lob (address_of node) page.0 pages)) }
    ensures reserved { space.new ≡ space.old }
    ensures honest { IfErr result (IsHonest
        (IsOddRelease end first.0 (address_of head) (address_of node) page.0 (P.state p.old))) }
    ensures never { (pages : Pages) (own : List ℕ) (lob : Lob) (before behind : List Address)
        → (P.state p.old).told ≡ Some pages → lob.page ≡ first.0
        → CanRelease own lob (address_of head) (address_of node) before behind page.0 pages
        → IsAt end before behind
        → FailsPlainly result }
    ensures cause { HasCause (P.state p.old).faults (P.state p.new).faults result }
    ensures uses { Uses P.state P.stays (node.page.0 ∷ head.page.0 ∷ first.0 ∷ 0 ∷ []) 2
        (49 + 10 * write_head) p.old p.new }
{
    let base = Addr {
        page: head.page,
        at: head.at + VERSIONS,
    };
    take_out(p, base, node, end)?;
    give_node(p, first, node)?;
    give_data(p, space, first, page)
}
