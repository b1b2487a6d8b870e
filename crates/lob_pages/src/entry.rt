// An entry of a LOB's index (MySQL 8.0, lob0index.h, `index_entry_t`).
ghost use Rattle.std.specs.Prelude.{◌≡◌, ◌+◌, ◌≤◌, ◌<◌, [], ◌∷◌, length, IfSome, IfOk, OnOk};
ghost use Rattle.page_model.specs.Steps.{MayUse, Uses, AddsNone, Told, write_head};
ghost use Rattle.engine_base.specs.Faults.{HasCause, FailsPlainly};
ghost use Rattle.engine_base.specs.Addresses.{address_of};
ghost use Rattle.lob_model.specs.Places.{at_place};
ghost use Rattle.lob_model.specs.declared.layout.TheConstants.{ENTRY, CREATOR};
ghost use Rattle.lob_pages.specs.Entries.{FitsPage, IsEntryAt, HasEntryLinks, HasEntryFields, HasNarrowIds, SetsEntry, SetsEntryFields, AddsEntry, AddsEntryFields, SameBefore};

use crate::bytes::{address_in, number_at, put_address, put_number, put_u32, u32_at};
use crate::layout::{FIRST_VERSION, LAST_VERSION, NEXT, PREVIOUS};
use crate::{LobVersion, TrxId, UndoNo};
use engine_base::{Addr, Fault, PageNo, Pages};
use lob_model::layout::{
    CREATOR, CREATOR_UNDO, ENTRY, LENGTH, MODIFIER, MODIFIER_UNDO, PAGE, VERSION, VERSIONS,
};

/// The base of a list: how many nodes it has, and the addresses of both ends.
#[derive(Clone, Copy, Debug, PartialEq, Eq)]
pub struct Base {
    pub length: u32,
    pub first: Addr,
    pub last: Addr,
}

/// The fields of an entry, in the order in which they stand.
#[derive(Clone, Copy, Debug, PartialEq, Eq)]
pub struct Entry {
    pub previous: Addr,
    pub next: Addr,
    /// The older versions of the piece, the newest of them first.
    pub versions: Base,
    pub creator: TrxId,
    pub modifier: TrxId,
    pub creator_undo: UndoNo,
    pub modifier_undo: UndoNo,
    /// The page of the data.
    pub page: PageNo,
    /// How many bytes of data.
    pub length: u32,
    pub version: LobVersion,
}

/// Reads an entry, whatever its fields hold: they are not judged here.
pub fn read_entry<P: Pages>(p: &mut P, at: Addr) -> Result<Entry, Fault>
    requires place { FitsPage (P.state p.old).count (address_of at) }
    requires may { MayUse (at.page.0 ∷ []) 0 0 (P.state p.old) }
    ensures value { IfOk result (λ e. IfSome (P.state p.old).told
        (λ pages. IsEntryAt pages (address_of at) e)) }
    ensures fits { IfOk result HasNarrowIds }

    ensures told { (P.state p.new).told ≡ (P.state p.old).told }
    ensures writes { AddsNone (P.state p.old) (P.state p.new) }
    ensures uses { Uses P.state P.stays (at.page.0 ∷ []) 0 0 p.old p.new }

    ensures cause { HasCause (P.state p.old).faults (P.state p.new).faults result }
    ensures plain { FailsPlainly result }
{
    let mut bytes = [0u8; ENTRY as usize];
    p.read(at.page, at.at, &mut bytes)?;
    Ok(entry_in(&bytes))
}

// The entry in its bytes.
fn entry_in(bytes: &[u8]) -> Entry
    requires { length bytes.now ≡ ENTRY }
    ensures value { IsEntryAt (bytes.now ∷ []) (at_place 0 0) result }
    ensures fits { HasNarrowIds result }
{
    Entry {
        previous: address_in(bytes, PREVIOUS),
        next: address_in(bytes, NEXT),
        versions: Base {
            length: u32_at(bytes, VERSIONS),
            first: address_in(bytes, FIRST_VERSION),
            last: address_in(bytes, LAST_VERSION),
        },
        creator: TrxId(number_at(bytes, CREATOR, 6)),
        modifier: TrxId(number_at(bytes, MODIFIER, 6)),
        creator_undo: UndoNo(u32_at(bytes, CREATOR_UNDO)),
        modifier_undo: UndoNo(u32_at(bytes, MODIFIER_UNDO)),
        page: PageNo(u32_at(bytes, PAGE)),
        length: u32_at(bytes, LENGTH),
        version: LobVersion(u32_at(bytes, VERSION)),
    }
}

/// Writes all fields of an entry, in one write of 60 bytes.
pub fn write_entry<P: Pages>(p: &mut P, at: Addr, entry: &Entry) -> Result<(), Fault>
    requires place { FitsPage (P.state p.old).count (address_of at) }
    requires fits { HasNarrowIds entry.now }
    requires may { MayUse (at.page.0 ∷ []) 0 (ENTRY + write_head) (P.state p.old) }
    ensures sets { OnOk result (Told (SetsEntry (address_of at) entry.now)
        (P.state p.old).told (P.state p.new).told) }

    ensures writes { OnOk result
        (AddsEntry (address_of at) entry.now (P.state p.old) (P.state p.new)) }
    ensures uses { Uses P.state P.stays (at.page.0 ∷ []) 0 (ENTRY + write_head) p.old p.new }

    ensures cause { HasCause (P.state p.old).faults (P.state p.new).faults result }
    ensures plain { FailsPlainly result }
{
    let mut bytes = [0u8; ENTRY as usize];
    put_links(&mut bytes, entry);
    put_fields(&mut bytes, *entry);
    p.write(at.page, at.at, &bytes)?;
    Ok(())
}

/// Writes the fields of an entry from its creator on, in one write of 32 bytes: what a push moves
/// to a node and a pop moves back. Its node and its version list stay.
pub fn write_fields<P: Pages>(p: &mut P, at: Addr, entry: &Entry) -> Result<(), Fault>
    requires place { FitsPage (P.state p.old).count (address_of at) }
    requires fits { HasNarrowIds entry.now }
    requires may { MayUse (at.page.0 ∷ []) 0 (32 + write_head) (P.state p.old) }
    ensures sets { OnOk result (Told (SetsEntryFields (address_of at) entry.now)
        (P.state p.old).told (P.state p.new).told) }

    ensures writes { OnOk result
        (AddsEntryFields (address_of at) entry.now (P.state p.old) (P.state p.new)) }
    ensures uses { Uses P.state P.stays (at.page.0 ∷ []) 0 (32 + write_head) p.old p.new }

    ensures cause { HasCause (P.state p.old).faults (P.state p.new).faults result }
    ensures plain { FailsPlainly result }
{
    let mut bytes = [0u8; ENTRY as usize];
    put_fields(&mut bytes, *entry);
    p.write(at.page, at.at + CREATOR, &bytes[usize::from(CREATOR)..])?;
    Ok(())
}

// Puts the node and the version list into an entry's bytes.
fn put_links(bytes: &mut [u8], entry: &Entry)
    requires { length bytes.old ≡ ENTRY }
    ensures { HasEntryLinks (bytes.new ∷ []) (at_place 0 0) entry.now }
{
    put_address(bytes, PREVIOUS, entry.previous);
    put_address(bytes, NEXT, entry.next);
    put_u32(bytes, VERSIONS, entry.versions.length);
    put_address(bytes, FIRST_VERSION, entry.versions.first);
    put_address(bytes, LAST_VERSION, entry.versions.last);
}

// Puts the fields behind the version list into an entry's bytes. What is before them stays.
fn put_fields(bytes: &mut [u8], entry: Entry)
    requires size { length bytes.old ≡ ENTRY }
    requires fits { HasNarrowIds entry }
    ensures fields { HasEntryFields (bytes.new ∷ []) (at_place 0 0) entry }
    ensures before { SameBefore CREATOR (bytes.old ∷ []) (bytes.new ∷ []) }
{
    put_number(bytes, CREATOR, 6, entry.creator.0);
    put_number(bytes, MODIFIER, 6, entry.modifier.0);
    put_u32(bytes, CREATOR_UNDO, entry.creator_undo.0);
    put_u32(bytes, MODIFIER_UNDO, entry.modifier_undo.0);
    put_u32(bytes, PAGE, entry.page.0);
    put_u32(bytes, LENGTH, entry.length);
    put_u32(bytes, VERSION, entry.version.0);
}
