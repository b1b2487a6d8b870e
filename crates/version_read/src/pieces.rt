//! The pieces of a document, copied one behind another.
ghost use Rattle.std.specs.Prelude.{◌≡◌, ◌<◌, List, [], length, map, Option, Some, None, IfOk, IfSome, OnErr, unwrap_or};
ghost use Rattle.page_model.specs.Pages.{Pages};
ghost use Rattle.page_model.specs.Steps.{MayUse, Uses};
ghost use Rattle.engine_base.specs.Addresses.{address_of};
ghost use Rattle.engine_base.specs.Faults.{HasCause, FailsPlainly};
ghost use Rattle.store_data.specs.Pieces.{Part};
ghost use Rattle.store_data.specs.Store.{Store};
ghost use Rattle.lob_model.specs.Pieces.{head_place};
ghost use Rattle.lob_model.specs.Lobs.{IfLob};
ghost use Rattle.lob_pages.specs.Entries.{FitsPage};
ghost use Rattle.file_lists.specs.Links.{link_of};
ghost use Rattle.lob_index.specs.Heads.{nth};
ghost use Rattle.row_dir.specs.Directory.{IsBelow};
ghost use Rattle.read_model.specs.Document.{Sees};
ghost use Rattle.version_read.specs.Reads.{IsUnderWay, StepsOn};
ghost use Rattle.version_read.specs.Pieces.{IsPast};

use crate::copies::look_at;
use crate::places::check_place;
use crate::rows::{present_row, row_now};
use engine_base::{Addr, Fault, PageNo, Pages, strange};
use lob_index::head;
use read_views::{Flight, Phase};
use row_dir::RowDir;

/// An event of a read in Pieces: up to eight nodes of the next piece's version list are looked at,
/// and where the version is among them the piece is copied. The event that copies the last piece
/// begins the walk. Touches at most 16 pages, and leaves the read as it was at an `Err`. Strange
/// names what the calls on LOBs and rows name; an address that the read keeps or that was found, at
/// which no entry fits; the head of a piece all of whose versions are newer than the row's, with the
/// row's; or the length in an entry, where the buffer has no place for so many bytes.
pub fn copy_piece<P: Pages>(flight: &mut Flight, p: &mut P, rows: &RowDir) -> Result<(), Fault>
    requires phase { flight.old.phase ≡ Phase.Pieces }
    requires below { IsBelow (P.state p.old).count rows.now }
    requires may { MayUse [] 16 0 (P.state p.old) }
    ensures copies { (pages : Pages) (store : Store) (sees : Sees) (shown : Option (List Part))
        → IsUnderWay (P.state p.old).told pages store rows.now sees shown flight.old
        → IfOk result (λ _. StepsOn sees store shown flight.old flight.new) }
    ensures of { (flight.new.view ≡ flight.old.view) × (flight.new.doc ≡ flight.old.doc) }
    ensures err { OnErr result (flight.new ≡ flight.old) }
    ensures never { (pages : Pages) (store : Store) (sees : Sees) (shown : Option (List Part))
        → IsUnderWay (P.state p.old).told pages store rows.now sees shown flight.old
        → FailsPlainly result }
    ensures cause { HasCause (P.state p.old).faults (P.state p.new).faults result }
    ensures told { (P.state p.new).told ≡ (P.state p.old).told }
    ensures uses { Uses P.state P.stays [] 16 0 p.old p.new }
{
    match flight.head {
        Some(head) => copy_from_known(flight, p, rows, head),
        None => copy_from_first(flight, p, rows),
    }
}

// The same, where the head of the piece is known.
fn copy_from_known<P: Pages>(
    flight: &mut Flight,
    p: &mut P,
    rows: &RowDir,
    head: Addr,
) -> Result<(), Fault>
    requires phase { flight.old.phase ≡ Phase.Pieces }
    requires head { flight.old.head ≡ Some head }
    requires below { IsBelow (P.state p.old).count rows.now }
    requires may { MayUse [] 12 0 (P.state p.old) }
    ensures copies { (pages : Pages) (store : Store) (sees : Sees) (shown : Option (List Part))
        → IsUnderWay (P.state p.old).told pages store rows.now sees shown flight.old
        → IfOk result (λ _. StepsOn sees store shown flight.old flight.new) }
    ensures of { (flight.new.view ≡ flight.old.view) × (flight.new.doc ≡ flight.old.doc) }
    ensures err { OnErr result (flight.new ≡ flight.old) }
    ensures never { (pages : Pages) (store : Store) (sees : Sees) (shown : Option (List Part))
        → IsUnderWay (P.state p.old).told pages store rows.now sees shown flight.old
        → FailsPlainly result }
    ensures cause { HasCause (P.state p.old).faults (P.state p.new).faults result }
    ensures told { (P.state p.new).told ≡ (P.state p.old).told }
    ensures uses { Uses P.state P.stays [] 12 0 p.old p.new }
{
    let from = search_start(flight.node, head);
    check_place(p.count(), head)?;
    check_place(p.count(), from)?;
    look_at(flight, p, rows, head, from)
}

// The node at which a search stands, else the head.
fn search_start(node: Option<Addr>, head: Addr) -> Addr
    ensures { result ≡ unwrap_or node head }
{
    match node {
        Some(at) => at,
        None => head,
    }
}

// The same, where the piece's head is looked for from the LOB's first page on.
fn copy_from_first<P: Pages>(flight: &mut Flight, p: &mut P, rows: &RowDir) -> Result<(), Fault>
    requires phase { flight.old.phase ≡ Phase.Pieces }
    requires head { flight.old.head ≡ None }
    requires below { IsBelow (P.state p.old).count rows.now }
    requires may { MayUse [] 16 0 (P.state p.old) }
    ensures copies { (pages : Pages) (store : Store) (sees : Sees) (shown : Option (List Part))
        → IsUnderWay (P.state p.old).told pages store rows.now sees shown flight.old
        → IfOk result (λ _. StepsOn sees store shown flight.old flight.new) }
    ensures of { (flight.new.view ≡ flight.old.view) × (flight.new.doc ≡ flight.old.doc) }
    ensures err { OnErr result (flight.new ≡ flight.old) }
    ensures never { (pages : Pages) (store : Store) (sees : Sees) (shown : Option (List Part))
        → IsUnderWay (P.state p.old).told pages store rows.now sees shown flight.old
        → FailsPlainly result }
    ensures cause { HasCause (P.state p.old).faults (P.state p.new).faults result }
    ensures told { (P.state p.new).told ≡ (P.state p.old).told }
    ensures uses { Uses P.state P.stays [] 16 0 p.old p.new }
{
    let row = present_row(flight.row, flight.doc);
    match first_head(p, row.lob.page, flight.piece)? {
        Some(head) => look_at(flight, p, rows, head, head),
        None => end_pieces(flight, p, rows),
    }
}

// The head behind k others in the LOB with that first page. Strange names byte 0 of that page, with
// the number, where it is none.
fn first_head<P: Pages>(p: &mut P, page: PageNo, k: u32) -> Result<Option<Addr>, Fault>
    requires may { MayUse [] 5 0 (P.state p.old) }
    ensures value { IfLob (P.state p.old).told page.0
        (λ pages lob. IfOk result (λ link. link_of link ≡ nth k (map head_place lob.pieces))) }
    ensures place { IfOk result
        (λ link. IfSome link (λ a. FitsPage (P.state p.old).count (address_of a))) }
    ensures never { IfLob (P.state p.old).told page.0 (λ pages lob. FailsPlainly result) }
    ensures cause { HasCause (P.state p.old).faults (P.state p.new).faults result }
    ensures told { (P.state p.new).told ≡ (P.state p.old).told }
    ensures uses { Uses P.state P.stays [] 5 0 p.old p.new }
{
    if page.0 >= p.count() {
        return strange(page, 0, u64::from(k));
    }
    head(p, page, k)
}

// No piece is left, and the walk begins.
fn end_pieces<P: Pages>(flight: &mut Flight, p: &mut P, rows: &RowDir) -> Result<(), Fault>
    requires phase { flight.old.phase ≡ Phase.Pieces }
    requires below { IsBelow (P.state p.old).count rows.now }
    requires may { MayUse [] 1 0 (P.state p.old) }
    ensures copies { (pages : Pages) (store : Store) (sees : Sees) (shown : Option (List Part))
        → (u : IsUnderWay (P.state p.old).told pages store rows.now sees shown flight.old)
        → IsPast store flight.old → IfOk result (λ _. StepsOn sees store shown flight.old flight.new) }
    ensures of { (flight.new.view ≡ flight.old.view) × (flight.new.doc ≡ flight.old.doc) }
    ensures err { OnErr result (flight.new ≡ flight.old) }
    ensures never { (pages : Pages) (store : Store) (sees : Sees) (shown : Option (List Part))
        → IsUnderWay (P.state p.old).told pages store rows.now sees shown flight.old
        → FailsPlainly result }
    ensures cause { HasCause (P.state p.old).faults (P.state p.new).faults result }
    ensures told { (P.state p.new).told ≡ (P.state p.old).told }
    ensures uses { Uses P.state P.stays [] 1 0 p.old p.new }
{
    let row = row_now(p, rows, flight.doc)?;
    flight.begin_walk(&row);
    Ok(())
}
