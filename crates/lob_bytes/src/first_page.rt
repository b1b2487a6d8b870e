// The first page of a LOB as it begins (MySQL 8.0, lob0first.h, `first_page_t`).
ghost use Rattle.std.specs.Prelude.{◌≡◌, ◌+◌, ◌*◌, ◌<◌, ◌≤◌, ◌^◌, [], ◌∷◌, length, OnOk};
ghost use Rattle.page_model.specs.Pages.{page_bytes};
ghost use Rattle.page_model.specs.Spans.{span, SameOutside};
ghost use Rattle.page_model.specs.Tables.{HasFields, SetsFields};
ghost use Rattle.page_model.specs.Steps.{MayUse, Uses, Told, write_head};
ghost use Rattle.engine_base.specs.Faults.{HasCause, FailsPlainly};
ghost use Rattle.engine_base.specs.Addresses.{address_of};
ghost use Rattle.lob_model.specs.declared.layout.TheConstants.{FIRST_ENTRIES, FIRST_COUNT, ENTRY};
ghost use Rattle.lob_bytes.specs.Begin.{linked, node_fields, first_fields, AreLinked, MakesFirstPage};

use crate::layout::{FIRST, FIRST_AT, LAST, LAST_AT, LAST_ENTRY, NEXT, NEXT_AT};
use engine_base::FieldValue::{Four, Two};
use engine_base::{
    Addr, Fault, NULL_PAGE, PAGE_BYTES, PageHeader, PageNo, PageType, Pages, fill_fields,
};
use lob_index::put_number;
use lob_model::layout::{
    ENTRY, FIRST_COUNT, FIRST_ENTRIES, FIRST_LENGTH, FREE, HEADS, LAST_CHANGER, LAST_UNDO,
    LOB_CREATOR, LOB_VERSION,
};
use lob_pages::TrxId;

/// Makes the page the first of a LOB without pieces, whatever stands in it: its ten entries are
/// free. One write of the whole page.
pub fn write_first_page<P: Pages>(p: &mut P, page: PageNo, trx: TrxId) -> Result<(), Fault>
    requires page { page.0 < (P.state p.old).count }
    requires narrow { trx.0 < 2 ^ 48 }
    requires may { MayUse (page.0 ∷ []) 0 (page_bytes + write_head) (P.state p.old) }
    ensures makes { OnOk result (Told (MakesFirstPage page.0 trx.0)
        (P.state p.old).told (P.state p.new).told) }
    ensures uses { Uses P.state P.stays (page.0 ∷ []) 0 (page_bytes + write_head) p.old p.new }
    ensures cause { HasCause (P.state p.old).faults (P.state p.new).faults result }
    ensures plain { FailsPlainly result }
{
    let mut bytes = [0u8; PAGE_BYTES];
    fill_first_page(&mut bytes, page, trx);
    p.write(page, 0, &bytes)?;
    Ok(())
}

// Lays a first page out.
fn fill_first_page(bytes: &mut [u8], page: PageNo, trx: TrxId)
    requires len { length bytes.old ≡ page_bytes }
    requires narrow { trx.0 < 2 ^ 48 }
    ensures fields { HasFields (bytes.new ∷ []) 0 (first_fields page.0 trx.0) }
    ensures nodes { AreLinked (bytes.new ∷ []) 0 page.0 FIRST_COUNT }
{
    fill_front(bytes, page, trx);
    'nodes: for i in 0..FIRST_COUNT {
        fill_node(bytes, page, i);
    }
}

// Lays out what stands before the entries.
fn fill_front(bytes: &mut [u8], page: PageNo, trx: TrxId)
    requires len { length bytes.old ≡ page_bytes }
    requires narrow { trx.0 < 2 ^ 48 }
    ensures len { length bytes.new ≡ page_bytes }
    ensures sets { SetsFields 0 (first_fields page.0 trx.0) (bytes.old ∷ []) (bytes.new ∷ []) }
{
    PageHeader::alone(page, PageType::LobFirst).fill(bytes);
    fill_fields(bytes, &[Four(LOB_VERSION, 1)]);
    put_number(bytes, LAST_CHANGER, 6, trx.0);
    fill_fields(bytes, &[Four(LAST_UNDO, 0), Four(FIRST_LENGTH, 0)]);
    put_number(bytes, LOB_CREATOR, 6, trx.0);
    fill_fields(
        bytes,
        &[
            Four(HEADS, 0),
            Four(HEADS + FIRST, NULL_PAGE),
            Two(HEADS + FIRST_AT, 0),
            Four(HEADS + LAST, NULL_PAGE),
            Two(HEADS + LAST_AT, 0),
            Four(FREE, u32::from(FIRST_COUNT)),
            Four(FREE + FIRST, page.0),
            Two(FREE + FIRST_AT, FIRST_ENTRIES),
            Four(FREE + LAST, page.0),
            Two(FREE + LAST_AT, LAST_ENTRY),
        ],
    );
}

// Links entry i to its neighbours.
fn fill_node(bytes: &mut [u8], page: PageNo, i: u16)
    requires len { length bytes.old ≡ page_bytes }
    requires node { i < FIRST_COUNT }
    ensures len { length bytes.new ≡ page_bytes }
    ensures here { HasFields (bytes.new ∷ []) 0 (node_fields page.0 i) }
    ensures outside { SameOutside (span 0 (FIRST_ENTRIES + ENTRY * i) 12 ∷ [])
        (bytes.old ∷ []) (bytes.new ∷ []) }
{
    let at = FIRST_ENTRIES + ENTRY * i;
    let before = node(page, i);
    let behind = node(page, i + 2);
    fill_fields(
        bytes,
        &[
            Four(at, before.page.0),
            Two(at + 4, before.at),
            Four(at + NEXT, behind.page.0),
            Two(at + NEXT_AT, behind.at),
        ],
    );
}

// The entry before entry k, or null before the first one and behind the last.
fn node(page: PageNo, k: u16) -> Addr
    requires { k < 12 }
    ensures { address_of result ≡ linked page.0 k }
{
    if k == 0 || k == FIRST_COUNT + 1 {
        return Addr::NULL;
    }
    Addr {
        page,
        at: FIRST_ENTRIES - ENTRY + ENTRY * k,
    }
}
