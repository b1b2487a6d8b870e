ghost use Rattle.std.specs.Prelude.{◌≡◌, ◌^◌, ◌<◌, length, All, replicate, IfOk};
ghost use Rattle.page_model.specs.Pages.{page_bytes};

use engine_base::{Fault, MAX_ROOM, PageBuf, PageNo, Pages};
use std::alloc::{AllocError, Global};

/// Pages in memory. No page counts as pinned, a write takes no room, and no call fails.
#[derive(Debug, Drop)]
pub struct MemPages {
    pages: Vec<PageBuf>,
    ghost few: { length pages.items < 2 ^ 32 },
    ghost sizes: { All (λ page. length page ≡ page_bytes) pages.items },
}

impl MemPages {
    ghost use Rattle.mem_disk.specs.MemPages.{pages_in};

    /// Pages of zeros. All the memory is taken here.
    pub fn new(alloc: Global, count: u32) -> Result<MemPages, AllocError>
        ensures { IfOk result (λ m. pages_in m ≡ replicate count (replicate page_bytes 0)) }
    {
        let mut pages = Vec::new(alloc);
        for _n in 0..count {
            pages.push(PageBuf::new(alloc)?)?;
        }
        Ok(MemPages { pages })
    }
}

impl Pages for MemPages {
    ghost use Rattle.std.specs.Prelude.{length, refl};
    ghost use Rattle.mem_disk.specs.Whole.{whole_pages};
    ghost use Rattle.mem_disk.specs.MemPages.{page_state};

    ghost state = { page_state };

    ghost whole = { λ m pages told. whole_pages m.pages.items pages (length m.pages.items) refl told
        m.sizes };

    ghost few = { λ m. m.few };

    ghost stays = { λ _ _. Unit {0} };

    ghost stays_still = { λ _. tt };

    ghost stays_on = { λ _ _ _ _ _. tt };

    fn count(&self) -> u32 {
        self.pages.len() as u32
    }

    fn pins(&self) -> usize {
        0
    }

    fn room(&self) -> u32 {
        MAX_ROOM
    }

    fn read(&mut self, page: PageNo, at: u16, into: &mut [u8]) -> Result<(), Fault> {
        let at = usize::from(at);
        let bytes = self.pages[page.0 as usize].bytes();
        into.copy_from_slice(&bytes[at..at + into.len()]);
        Ok(())
    }

    fn write(&mut self, page: PageNo, at: u16, bytes: &[u8]) -> Result<(), Fault> {
        self.pages[page.0 as usize].patch(usize::from(at), bytes);
        Ok(())
    }
}

#[cfg(test)]
mod tests;
