// A version of a piece sought by its number, and the versions of a piece counted.
ghost use Rattle.std.specs.Prelude.{◌≡◌, ◌+◌, ◌<◌, ◌≤◌, List, [], ◌∷◌, length, IfOk, IfErr};
ghost use Rattle.page_model.specs.Pages.{Pages};
ghost use Rattle.page_model.specs.Steps.{MayUse, Uses};
ghost use Rattle.engine_base.specs.Faults.{HasCause, FailsPlainly, IsHonest};
ghost use Rattle.engine_base.specs.Addresses.{address_of};
ghost use Rattle.page_space.specs.Map.{IsSize};
ghost use Rattle.store_data.specs.Store.{Version, Piece, Lob};
ghost use Rattle.lob_model.specs.Pieces.{piece_versions};
ghost use Rattle.lob_model.specs.Search.{sought};
ghost use Rattle.lob_pages.specs.Entries.{FitsPage};
ghost use Rattle.lob_versions.specs.Found.{found_of, IsSearch};
ghost use Rattle.lob_versions.specs.Links.{IsOddEntry};

use crate::links::{entry_at, older_at};
use engine_base::{Addr, Fault, Pages, read_field};
use file_lists::len;
use lob_model::layout::{VERSION, VERSIONS};
use lob_pages::LobVersion;

/// What a search finds.
#[derive(Clone, Copy, Debug, PartialEq, Eq)]
pub enum Found {
    /// The version is this entry.
    At(Addr),
    /// All that were looked at are newer, and this entry is the next one to look at.
    More(Addr),
    /// All versions are newer.
    Gone,
}

/// Looks at up to eight versions of a piece, from an entry on, for the first whose number is at
/// most v. The entry is the head, or a node of its version list. Touches at most seven pages
/// besides that of the entry, and writes nothing.
pub fn find_version<P: Pages>(
    p: &mut P,
    head: Addr,
    from: Addr,
    v: LobVersion,
) -> Result<Found, Fault>
    requires from { FitsPage (P.state p.old).count (address_of from) }
    requires may { MayUse (from.page.0 ∷ []) 7 0 (P.state p.old) }
    ensures finds { (pages : Pages) (lob : Lob) (piece : Piece) (x : Version) (rest : List Version)
        → IsSearch (P.state p.old).told (address_of head) (address_of from) pages lob piece x rest
        → IfOk result (λ found. found_of found ≡ sought 8 v.0 (x ∷ rest)) }

    // Strange names the address of an entry, as it stood at the call.
    ensures honest { IfErr result
        (IsHonest (IsOddEntry (P.state p.old).told (P.state p.old).count)) }
    ensures never { (pages : Pages) (lob : Lob) (piece : Piece) (x : Version) (rest : List Version)
        → IsSearch (P.state p.old).told (address_of head) (address_of from) pages lob piece x rest
        → FailsPlainly result }
    ensures cause { HasCause (P.state p.old).faults (P.state p.new).faults result }
    ensures told { (P.state p.new).told ≡ (P.state p.old).told }
    ensures uses { Uses P.state P.stays (from.page.0 ∷ []) 7 0 p.old p.new }
{
    let mut node = from;
    'nodes: for _n in 0..8u32 {
        let number = read_field(p, node.page, node.at + VERSION, 4)?;
        if number <= u64::from(v.0) {
            return Ok(Found::At(node));
        }
        let Some(next) = entry_at(p, node.page, older_at(head, node))? else {
            return Ok(Found::Gone);
        };
        node = next;
    }
    Ok(Found::More(node))
}

/// How many versions a piece has, the head counted. A list whose length says 4,294,967,295, which
/// is that of no LOB in a store of at most 32,768 pages, counts as that many. Touches the page of
/// the head, and writes nothing.
pub fn count<P: Pages>(p: &mut P, head: Addr) -> Result<u32, Fault>
    requires head { FitsPage (P.state p.old).count (address_of head) }
    requires may { MayUse (head.page.0 ∷ []) 0 0 (P.state p.old) }
    ensures counts { (pages : Pages) (lob : Lob) (piece : Piece)
        → IsSearch (P.state p.old).told (address_of head) (address_of head) pages lob piece
        piece.head piece.older → IsSize (P.state p.old).count
        → IfOk result (λ n. n ≡ length (piece_versions piece)) }
    ensures plain { FailsPlainly result }
    ensures cause { HasCause (P.state p.old).faults (P.state p.new).faults result }
    ensures told { (P.state p.new).told ≡ (P.state p.old).told }
    ensures uses { Uses P.state P.stays (head.page.0 ∷ []) 0 0 p.old p.new }
{
    let base = Addr {
        page: head.page,
        at: head.at + VERSIONS,
    };
    let older = len(p, base)?;
    Ok(older.saturating_add(1))
}
