// The fields of a LOB's first page (MySQL 8.0, lob0first.h, `first_page_t`).
ghost use Rattle.std.specs.Prelude.{◌≡◌, ◌+◌, ◌≤◌, ◌<◌, [], ◌∷◌, length, IfSome, IfOk, OnOk};
ghost use Rattle.byteorder.specs.Endian.{big_bytes};
ghost use Rattle.page_model.specs.Spans.{SetsField, SameOutside};
ghost use Rattle.page_model.specs.Steps.{MayUse, Uses, AddsNone, AddsWrite, Told, Becomes, write_head};
ghost use Rattle.engine_base.specs.Faults.{HasCause, FailsPlainly};
ghost use Rattle.lob_model.specs.Pieces.{AreFalling};
ghost use Rattle.lob_model.specs.Lobs.{IfLob};
ghost use Rattle.lob_model.specs.declared.layout.TheConstants.{HEADS, LOB_VERSION};
ghost use Rattle.lob_pages.specs.First.{IsFirstAt, HasVersion};

use crate::bytes::{number_at, u32_at};
use crate::{LobVersion, TrxId, UndoNo};
use engine_base::{Fault, PageNo, Pages, write_field};
use lob_model::layout::{FIRST_LENGTH, HEADS, LAST_CHANGER, LAST_UNDO, LOB_CREATOR, LOB_VERSION};

/// The fields of a first page before its lists.
#[derive(Clone, Copy, Debug, PartialEq, Eq)]
pub struct FirstFields {
    pub version: LobVersion,
    /// Who made the last change.
    pub changer: TrxId,
    /// Which of its changes that was.
    pub undo: UndoNo,
    /// How many bytes of data stand in the first page.
    pub length: u32,
    pub creator: TrxId,
}

/// Reads the fields of a first page, whatever they hold: they are not judged here.
pub fn read_first<P: Pages>(p: &mut P, page: PageNo) -> Result<FirstFields, Fault>
    requires page { page.0 < (P.state p.old).count }
    requires may { MayUse (page.0 ∷ []) 0 0 (P.state p.old) }
    ensures value { IfOk result (λ f. IfSome (P.state p.old).told
        (λ pages. IsFirstAt pages page.0 f)) }

    ensures told { (P.state p.new).told ≡ (P.state p.old).told }
    ensures writes { AddsNone (P.state p.old) (P.state p.new) }
    ensures uses { Uses P.state P.stays (page.0 ∷ []) 0 0 p.old p.new }

    ensures cause { HasCause (P.state p.old).faults (P.state p.new).faults result }
    ensures plain { FailsPlainly result }
{
    let mut bytes = [0u8; HEADS as usize];
    p.read(page, 0, &mut bytes)?;
    Ok(first_in(&bytes))
}

// The fields in the front of a first page.
fn first_in(bytes: &[u8]) -> FirstFields
    requires { length bytes.now ≡ HEADS }
    ensures { IsFirstAt (bytes.now ∷ []) 0 result }
{
    FirstFields {
        version: LobVersion(u32_at(bytes, LOB_VERSION)),
        changer: TrxId(number_at(bytes, LAST_CHANGER, 6)),
        undo: UndoNo(u32_at(bytes, LAST_UNDO)),
        length: u32_at(bytes, FIRST_LENGTH),
        creator: TrxId(number_at(bytes, LOB_CREATOR, 6)),
    }
}

/// Writes the version of a LOB, in one write of 4 bytes. A LOB stands then where none of its
/// entries has a higher one: a version is raised before entries of it are pushed, and lowered
/// behind their pop.
pub fn set_version<P: Pages>(p: &mut P, page: PageNo, v: LobVersion) -> Result<(), Fault>
    requires page { page.0 < (P.state p.old).count }
    requires may { MayUse (page.0 ∷ []) 0 (4 + write_head) (P.state p.old) }
    ensures sets { OnOk result (Told (SetsField page.0 LOB_VERSION 4 v.0)
        (P.state p.old).told (P.state p.new).told) }
    ensures lob { IfLob (P.state p.old).told page.0 (λ pages lob. AreFalling (v.0 + 1) lob.pieces
        → OnOk result (Becomes (P.state p.new).told (HasVersion v.0 lob pages))) }

    ensures writes { OnOk result
        (AddsWrite page.0 LOB_VERSION (big_bytes 4 v.0) (P.state p.old) (P.state p.new)) }
    ensures uses { Uses P.state P.stays (page.0 ∷ []) 0 (4 + write_head) p.old p.new }

    ensures cause { HasCause (P.state p.old).faults (P.state p.new).faults result }
    ensures plain { FailsPlainly result }
{
    write_field(p, page, LOB_VERSION, 4, u64::from(v.0))?;
    Ok(())
}
