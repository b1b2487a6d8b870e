//! A store's pages in memory.
use anyhow::{Result, ensure};
use engine_base::Pages;
use mem_disk::MemPages;
use page_space::Space;

/// 128 MiB of pages.
pub const COUNT: u32 = 8_192;

/// Reserves so many pages in all.
#[tactic(auto, using(crate::proofs::Ample::ample))]
pub fn reserved(p: &mut MemPages, space: &mut Space, pages: u32) -> Result<()> {
    if space.reserved() < pages {
        let more = pages - space.reserved();
        ensure!(p.count() == COUNT, "the pages are gone");
        ensure!(space.reserve(p, more).is_ok(), "no page is free");
    }
    Ok(())
}
