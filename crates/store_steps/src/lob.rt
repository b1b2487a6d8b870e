//! A LOB that goes, part by part: its pieces from the last on, its index pages, its first page.
ghost use Rattle.std.specs.Prelude.{◌≡◌, ◌+◌, ◌*◌, ◌<◌, ℕ, false, List, [], ◌∷◌, Some, IfOk, OnOk};
ghost use Rattle.page_model.specs.Pages.{Pages};
ghost use Rattle.page_model.specs.Steps.{MayUse, Uses, Becomes, write_head};
ghost use Rattle.engine_base.specs.Faults.{HasCause, FailsPlainly};
ghost use Rattle.page_space.specs.Map.{IsSize};
ghost use Rattle.store_data.specs.Store.{Lob, Store};
ghost use Rattle.lob_model.specs.Lobs.{IfLob};
ghost use Rattle.lob_bytes.specs.Freeing.{free_room};
ghost use Rattle.undo_model.specs.Rows.{RowPage};
ghost use Rattle.store_model.specs.Lobs.{lob_of};
ghost use Rattle.store_model.specs.Steps.{on_lobs, without_lob};
ghost use Rattle.store_steps.specs.Standing.{StandsOn};
ghost use Rattle.store_steps.specs.Lobs.{left_in, has_part, IsSingle, FreesPart};

use engine_base::{Addr, Fault, NULL_PAGE, PageNo, Pages, read_field};
use file_lists::len;
use lob_model::layout::{CHAIN, HEADS};
use page_space::Space;

/// What a LOB that goes still has beside its first page.
#[derive(Clone, Copy)]
pub enum Left {
    Pieces,
    Index,
    Nothing,
}

// What is left of the LOB.
fn left_of<P: Pages>(p: &mut P, page: PageNo) -> Result<Left, Fault>
    requires page { page.0 < (P.state p.old).count }
    requires may { MayUse (page.0 ∷ []) 0 0 (P.state p.old) }
    ensures value { IfLob (P.state p.old).told page.0
        (λ pages lob. IfOk result (λ left. left ≡ left_in lob.pieces lob.index)) }
    ensures plain { FailsPlainly result }
    ensures told { (P.state p.new).told ≡ (P.state p.old).told }
    ensures cause { HasCause (P.state p.old).faults (P.state p.new).faults result }
    ensures uses { Uses P.state P.stays (page.0 ∷ []) 0 0 p.old p.new }
{
    let pieces = len(p, Addr { page, at: HEADS })?;
    if pieces > 0 {
        return Ok(Left::Pieces);
    }
    let next = read_field(p, page, CHAIN, 4)?;
    if next == u64::from(NULL_PAGE) {
        return Ok(Left::Nothing);
    }
    Ok(Left::Index)
}

/// Of a LOB whose pieces have one version each the last piece goes, or where it has none the index
/// page that was made last. True where there was one; else its first page alone was read. Touches page 0, the LOB's first page and three
/// others, and writes 49 bytes at most in ten writes.
pub fn free_part<P: Pages>(p: &mut P, space: &mut Space, page: PageNo) -> Result<bool, Fault>
    requires page { page.0 < (P.state p.old).count }
    requires size { IsSize (P.state p.old).count }
    requires may { MayUse (0 ∷ page.0 ∷ []) 3 free_room (P.state p.old) }
    ensures frees { (there : List RowPage) (pages : Pages) (store : Store) (l : Lob)
        → (P.state p.old).told ≡ Some pages → StandsOn there pages store
        → lob_of store.lobs page.0 ≡ Some l → IsSingle l
        → IfOk result (λ b. b ≡ has_part l.pieces l.index)
        × OnOk result (Becomes (P.state p.new).told (FreesPart there page.0 l store)) }
    ensures still { IfOk result (λ b. b ≡ false
        → Uses P.state P.stays (0 ∷ page.0 ∷ []) 0 0 p.old p.new) }
    ensures reserved { space.new ≡ space.old }
    ensures never { (there : List RowPage) (pages : Pages) (store : Store) (l : Lob)
        → (P.state p.old).told ≡ Some pages → StandsOn there pages store
        → lob_of store.lobs page.0 ≡ Some l → IsSingle l → FailsPlainly result }
    ensures cause { HasCause (P.state p.old).faults (P.state p.new).faults result }
    ensures uses { Uses P.state P.stays (0 ∷ page.0 ∷ []) 3 free_room p.old p.new }
{
    match left_of(p, page)? {
        Left::Pieces => {
            lob_bytes::free_last_piece(p, space, page)?;
            Ok(true)
        }
        Left::Index => {
            lob_bytes::free_index_page(p, space, page)?;
            Ok(true)
        }
        Left::Nothing => Ok(false),
    }
}

/// The LOB of which its first page is left goes. Touches page 0 alone, and writes 5 bytes in two
/// writes.
pub fn free_rest<P: Pages>(p: &mut P, space: &mut Space, page: PageNo) -> Result<(), Fault>
    requires page { page.0 < (P.state p.old).count }
    requires size { IsSize (P.state p.old).count }
    requires may { MayUse (0 ∷ []) 0 (5 + 2 * write_head) (P.state p.old) }
    ensures gives { (there : List RowPage) (pages : Pages) (store : Store) (l : Lob)
        → (P.state p.old).told ≡ Some pages → StandsOn there pages store
        → lob_of store.lobs page.0 ≡ Some l → l.pieces ≡ [] → l.index ≡ []
        → OnOk result (Becomes (P.state p.new).told
        (λ new. StandsOn there new (on_lobs (without_lob page.0) store))) }
    ensures reserved { space.new ≡ space.old }
    ensures never { (there : List RowPage) (pages : Pages) (store : Store) (l : Lob)
        → (P.state p.old).told ≡ Some pages → StandsOn there pages store
        → lob_of store.lobs page.0 ≡ Some l → FailsPlainly result }
    ensures cause { HasCause (P.state p.old).faults (P.state p.new).faults result }
    ensures uses { Uses P.state P.stays (0 ∷ []) 0 (5 + 2 * write_head) p.old p.new }
{
    lob_bytes::free_first(p, space, page)
}
