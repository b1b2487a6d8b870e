// A cache that keeps all its pages in memory.
ghost use Rattle.std.specs.Prelude.{◌≡◌, ◌≤◌, ◌<◌, ◌^◌, length, All, replicate, IsTrue, IfOk, vec_len, vec_capacity};
ghost use Rattle.std.specs.Option.{ForSome};
ghost use Rattle.page_model.specs.Pages.{page_bytes, all_written};
ghost use Rattle.page_model.specs.Steps.{max_pins};
ghost use Rattle.page_model.specs.Frames.{max_group};
ghost use Rattle.mini_trx.specs.Caches.{Begins};

use crate::{Cache, Group, Mtr};
use engine_base::{Fault, MAX_GROUP, MAX_PINS, PageBuf, PageNo, Pages};
use std::alloc::{AllocError, Global};

/// A cache whose own pages are all in memory. Its `lend` never fails.
#[derive(Drop)]
pub struct Resident {
    pages: Vec<PageBuf>,
    spare: Vec<PageBuf>,
    buffer: Option<Vec<u8>>,
    ghost few: { length pages.items < 2 ^ 32 },
    ghost sizes: { All (λ page. length page ≡ page_bytes) pages.items },
    ghost spares: { vec_len spare ≤ max_pins },
    ghost frames: { max_pins ≤ vec_capacity spare },
    ghost room: { ForSome buffer (λ bytes. max_group ≤ vec_capacity bytes) },
}

impl Resident {
    ghost use Rattle.mini_trx.specs.Residents.{resident_pages, cache_state, IsIdle};

    /// As many pages of zeros, 16 frames, and the buffer: all the memory that it ever takes.
    pub fn new(alloc: Global, pages: u32) -> Result<Resident, AllocError>
        ensures pages { IfOk result (λ r.
            resident_pages r ≡ replicate pages (replicate page_bytes 0)) }
        ensures idle { IfOk result IsIdle }
    {
        Ok(Resident {
            pages: blank_pages(alloc, pages as usize)?,
            spare: blank_pages(alloc, MAX_PINS)?,
            buffer: Some(Vec::with_capacity(alloc, MAX_GROUP)?),
        })
    }

    /// Begins a mini-transaction, which takes the buffer with it.
    pub fn begin(&mut self) -> Mtr<'_, Resident>
        requires { IsIdle self.old }
        ensures same_reference { result.cache.ghost_name ≡ self.entry.ghost_name }
        ensures pages { resident_pages result.cache.now ≡ resident_pages self.old }
        ensures out { IsTrue (cache_state result.cache.now).out }
        ensures begins { Begins (cache_state self.old)
            (⟦<Mtr<'static, Resident> as Pages>⟧.state result) }
    {
        let buffer = self.buffer.take().unwrap();
        Mtr::new(self, buffer)
    }

    /// Makes the group's writes in the pages, in their order, and takes its buffer back: the one
    /// copy of their bytes here. Takes no memory.
    pub fn put(&mut self, group: Group)
        requires none_lent { (cache_state self.old).lent ≡ 0 }
        requires pages { All (λ w. w.page < length (resident_pages self.old)) group.writes }
        requires room { max_group ≤ group.capacity }
        ensures pages { resident_pages self.new
            ≡ all_written group.writes (resident_pages self.old) }
        ensures count { length (resident_pages self.new) ≡ length (resident_pages self.old) }
        ensures idle { IsIdle self.new }
    {
        apply(&mut self.pages, &group);
        self.buffer = Some(group.into_buffer());
    }
}

impl Cache for Resident {
    ghost use Rattle.std.specs.Prelude.{length, refl};
    ghost use Rattle.std.proofs.Common.{◌∙◌};
    ghost use Rattle.mini_trx.specs.Residents.{cache_state, resident_pages, SamePages};
    ghost use Rattle.mini_trx.specs.ResidentLaws.{whole_resident, keeps_resident};

    ghost state = { cache_state };

    ghost whole = { λ r pages told. whole_resident r.pages.items pages told r.sizes };

    ghost few = { λ r. r.few };

    ghost stays = { SamePages };

    ghost stays_still = { λ _. refl };

    ghost stays_on = { λ _ _ _ first then. then ∙ first };

    ghost stays_pages = { λ a b same.
        keeps_resident (cache_state a) (cache_state b) (resident_pages a) (resident_pages b) same
        refl refl refl refl refl refl };

    fn count(&self) -> u32 {
        self.pages.len() as u32
    }

    fn lend(&mut self, page: PageNo) -> Result<PageBuf, Fault> {
        let mut frame = self.spare.pop().unwrap();
        frame.copy_from(&self.pages[page.0 as usize]);
        Ok(frame)
    }

    fn give_back(&mut self, frame: PageBuf) {
        if self.spare.len() < MAX_PINS {
            let _ = self.spare.push(frame);
        }
    }

    fn keep(&mut self, buffer: Vec<u8>) {
        self.buffer = Some(buffer);
    }
}

// So many pages of zeros.
fn blank_pages(alloc: Global, count: usize) -> Result<Vec<PageBuf>, AllocError>
    ensures pages { IfOk result (λ v. v.items ≡ replicate count (replicate page_bytes 0)) }
    ensures capacity { IfOk result (λ v. count ≤ vec_capacity v) }
{
    let mut pages = Vec::with_capacity(alloc, count)?;
    for _n in 0..count {
        pages.push(PageBuf::new(alloc)?)?;
    }
    Ok(pages)
}

// Makes the group's writes in the pages.
fn apply(pages: &mut [PageBuf], group: &Group)
    requires sizes { All (λ page. length page ≡ page_bytes) pages.old }
    requires pages { All (λ w. w.page < length pages.old) group.now.writes }
    ensures sizes { All (λ page. length page ≡ page_bytes) pages.new }
    ensures pages { pages.new ≡ all_written group.now.writes pages.old }
{
    let mut writes = group.writes();
    while let Some(write) = writes.next() {
        pages[write.page.0 as usize].patch(usize::from(write.at), write.bytes);
    }
}
