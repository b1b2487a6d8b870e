// A page that becomes an index page (MySQL 8.0, lob0index.h and lob0impl.h, `node_page_t`).
ghost use Rattle.std.specs.Prelude.{◌≡◌, ◌+◌, ◌*◌, ◌<◌, ◌≤◌, [], ◌∷◌, length, map, OnOk};
ghost use Rattle.page_model.specs.Pages.{page_bytes, null_page};
ghost use Rattle.page_model.specs.Spans.{span, SameOutside};
ghost use Rattle.page_model.specs.Tables.{HasFields, header_fields};
ghost use Rattle.page_model.specs.Steps.{MayUse, Uses, Told, write_head};
ghost use Rattle.engine_base.specs.Faults.{HasCause, FailsPlainly};
ghost use Rattle.engine_base.specs.Addresses.{address_of};
ghost use Rattle.lob_model.specs.declared.layout.TheConstants.{INDEX_TYPE, INDEX_ENTRIES, ENTRY};
ghost use Rattle.lob_index.specs.IndexPages.{linked, node_fields, AreLinked, MakesIndexPage, SetsFreeBase};

use crate::layout::{BASE_SIZE, FIRST, FIRST_AT, LAST, LAST_AT, LAST_NODE, NEXT, NEXT_AT};
use engine_base::FieldValue::{Four, Two};
use engine_base::{
    Addr, Fault, NULL_PAGE, PAGE_BYTES, PageHeader, PageNo, PageType, Pages, fill_fields,
};
use lob_model::layout::{ENTRY, FREE, INDEX_COUNT, INDEX_ENTRIES};

/// Makes the page an index page, whatever stands in it: the next one of its chain is `behind`, its
/// first node is in no list, and the others follow one another. One write of the whole page.
pub fn write_index_page<P: Pages>(p: &mut P, page: PageNo, behind: PageNo) -> Result<(), Fault>
    requires page { page.0 < (P.state p.old).count }
    requires may { MayUse (page.0 ∷ []) 0 (page_bytes + write_head) (P.state p.old) }
    ensures makes { OnOk result (Told (MakesIndexPage page.0 behind.0)
        (P.state p.old).told (P.state p.new).told) }
    ensures uses { Uses P.state P.stays (page.0 ∷ []) 0 (page_bytes + write_head) p.old p.new }
    ensures cause { HasCause (P.state p.old).faults (P.state p.new).faults result }
    ensures plain { FailsPlainly result }
{
    let mut bytes = [0u8; PAGE_BYTES];
    fill_index_page(&mut bytes, page, behind);
    p.write(page, 0, &bytes)?;
    Ok(())
}

// Lays an index page out.
fn fill_index_page(bytes: &mut [u8], page: PageNo, behind: PageNo)
    requires len { length bytes.old ≡ page_bytes }
    ensures header { HasFields (bytes.new ∷ []) 0
        (header_fields page.0 null_page behind.0 INDEX_TYPE) }
    ensures nodes { AreLinked (bytes.new ∷ []) 0 page.0 271 }
{
    let header = PageHeader {
        number: page,
        before: PageNo(NULL_PAGE),
        behind,
        page_type: PageType::LobIndex as u16,
    };
    header.fill(bytes);
    'nodes: for i in 0..LAST_NODE {
        fill_node(bytes, page, i);
    }
}

// Links the node behind node i to its neighbours.
fn fill_node(bytes: &mut [u8], page: PageNo, i: u16)
    requires len { length bytes.old ≡ page_bytes }
    requires node { i < 271 }
    ensures len { length bytes.new ≡ page_bytes }
    ensures here { HasFields (bytes.new ∷ []) 0 (node_fields page.0 i) }
    ensures outside { SameOutside (span 0 (INDEX_ENTRIES + ENTRY * (i + 1)) 12 ∷ [])
        (bytes.old ∷ []) (bytes.new ∷ []) }
{
    let at = INDEX_ENTRIES + ENTRY * (i + 1);
    let before = node(page, i);
    let behind = node(page, i + 2);
    fill_fields(
        bytes,
        &[
            Four(at, before.page.0),
            Two(at + 4, before.at),
            Four(at + NEXT, behind.page.0),
            Two(at + NEXT_AT, behind.at),
        ],
    );
}

// A node of those that follow one another, or null past their ends.
fn node(page: PageNo, k: u16) -> Addr
    requires { k < 273 }
    ensures { address_of result ≡ linked page.0 k }
{
    if k == 0 || k == INDEX_COUNT {
        return Addr::NULL;
    }
    Addr {
        page,
        at: INDEX_ENTRIES + ENTRY * k,
    }
}

/// Makes the nodes of an index page but the first the free nodes of a LOB. One write of 16 bytes.
pub fn write_free_base<P: Pages>(p: &mut P, first: PageNo, page: PageNo) -> Result<(), Fault>
    requires first { first.0 < (P.state p.old).count }
    requires may { MayUse (first.0 ∷ []) 0 (16 + write_head) (P.state p.old) }
    ensures sets { OnOk result (Told (SetsFreeBase first.0 page.0)
        (P.state p.old).told (P.state p.new).told) }
    ensures uses { Uses P.state P.stays (first.0 ∷ []) 0 (16 + write_head) p.old p.new }
    ensures cause { HasCause (P.state p.old).faults (P.state p.new).faults result }
    ensures plain { FailsPlainly result }
{
    let mut bytes = [0u8; BASE_SIZE as usize];
    fill_fields(
        &mut bytes,
        &[
            Four(0, u32::from(LAST_NODE)),
            Four(FIRST, page.0),
            Two(FIRST_AT, INDEX_ENTRIES + ENTRY),
            Four(LAST, page.0),
            Two(LAST_AT, INDEX_ENTRIES + ENTRY * LAST_NODE),
        ],
    );
    p.write(first, FREE, &bytes)?;
    Ok(())
}
