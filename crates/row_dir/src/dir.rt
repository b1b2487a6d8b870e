// The directory, and what it says of a document.
ghost use Rattle.std.specs.Prelude.{◌≡◌, ◌≤◌, ◌<◌, ℕ, List, [], ◌∷◌, length, Some, None, IfOk, IfErr, OnOk, IfSome};
ghost use Rattle.std.specs.Option.{option_map};
ghost use Rattle.page_model.specs.Pages.{Pages};
ghost use Rattle.page_model.specs.Steps.{MayUse, Uses};
ghost use Rattle.engine_base.specs.Faults.{HasCause, FailsPlainly, IsHonest};
ghost use Rattle.undo_model.specs.Rows.{RowPage, IfRows, row_base, row_for, rows_of};
ghost use Rattle.std.specs.Prelude.{nat_eq, is_some};
ghost use Rattle.std.specs.List.{list_any, IsDistinct};
ghost use Rattle.indexmap.specs.IndexMap.{get};
ghost use Rattle.undo_records.specs.Records.{row_of};

use crate::slots::read_row;
use engine_base::{Addr, DocId, Fault, Pages};
use indexmap::IndexMap;
use std::alloc::{AllocError, Global};
use undo_records::Row;

/// Where each document's row stands, and which row pages have free slots. It is kept beside the
/// pages, from which `load_page` makes it anew.
#[derive(Drop)]
pub struct RowDir {
    // the place of each document's slot
    pub(crate) places: IndexMap<u32, Addr>,
    // the documents, in the order of `places`
    pub(crate) docs: Vec<DocId>,
    // the row pages in the order of their list, each with how many of its slots are free
    pub(crate) pages: IndexMap<u32, u16>,
    // of so many first pages no slot is free
    pub(crate) full: usize,
}

impl RowDir {
    ghost use Rattle.row_dir.specs.Directory.{IsDirectory, IsBelow, HasRoom, SameDirectory, numbers, IsNotIn};

    /// A directory of no rows. It takes no memory yet.
    pub fn new(alloc: Global) -> RowDir
        ensures empty { IsDirectory result [] }
        ensures below { (count : ℕ) → IsBelow count result }
    {
        RowDir {
            places: IndexMap::new(alloc),
            docs: Vec::new(alloc),
            pages: IndexMap::new(alloc),
            full: 0,
        }
    }

    /// Takes the memory that one `put` of a new document needs. Without it, the directory says
    /// what it said.
    pub fn reserve(&mut self) -> Result<(), AllocError>
        ensures ok { OnOk result (HasRoom self.new) }
        ensures same { SameDirectory self.old self.new }
        ensures directory { (rows : List RowPage) → IsDirectory self.old rows
            → IsDirectory self.new rows }
        ensures below { (count : ℕ) → IsBelow count self.old → IsBelow count self.new }
    {
        self.places.reserve(1)?;
        self.pages.reserve(1)?;
        self.docs.reserve(1)?;
        Ok(())
    }

    /// The place of the document's slot.
    pub(crate) fn place(&self, doc: DocId) -> Option<Addr>
        ensures { result ≡ get nat_eq self.now.places doc.0 }
    {
        self.places.get(&doc.0).copied()
    }

    /// The document's row, and none exactly where it has none. Touches the page of its slot.
    pub fn get<P: Pages>(&self, p: &mut P, doc: DocId) -> Result<Option<Row>, Fault>
        requires below { IsBelow (P.state p.old).count self.now }
        requires may { MayUse [] 1 0 (P.state p.old) }
        ensures value { IfRows (P.state p.old).told row_base
            (λ pages rows. IsDirectory self.now rows
            → IfOk result (λ row. option_map row_of row ≡ row_for doc.0 (rows_of rows))) }
        ensures doc { IfOk result (λ row. IfSome row (λ r. r.doc ≡ doc)) }
        ensures place { IfOk result
            (λ row. is_some row ≡ is_some (get nat_eq self.now.places doc.0)) }

        // Strange names the slot's state, or its document.
        ensures honest { IfErr result
            (IsHonest (IsNotIn self.now (P.state p.old).told doc.0)) }
        ensures never { IfRows (P.state p.old).told row_base
            (λ pages rows. IsDirectory self.now rows → FailsPlainly result) }
        ensures cause { HasCause (P.state p.old).faults (P.state p.new).faults result }

        ensures told { (P.state p.new).told ≡ (P.state p.old).told }
        ensures uses { Uses P.state P.stays [] 1 0 p.old p.new }
    {
        let Some(place) = self.place(doc) else {
            return Ok(None);
        };
        let row = read_row(p, place, doc)?;
        Ok(Some(row))
    }

    /// The documents that have a row, each once, in no order that a caller may rest on: that of
    /// `put`, but that a removed one's place goes to the last.
    pub fn docs(&self) -> &[DocId]
        ensures listed { (rows : List RowPage) (doc : ℕ) → IsDirectory self.now rows
            → list_any (nat_eq doc) (numbers result.now) ≡ is_some (row_for doc (rows_of rows)) }
        ensures once { (rows : List RowPage) → IsDirectory self.now rows
            → IsDistinct nat_eq (numbers result.now) }
    {
        self.docs.as_slice()
    }
}
