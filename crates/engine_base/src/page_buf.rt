// The bytes of one page in memory.
ghost use Rattle.std.specs.Prelude.{◌≡◌, ◌+◌, ◌≤◌, ℕ, List, length, replicate, IfOk};
ghost use Rattle.std.specs.Borrow.{sem};
ghost use Rattle.page_model.specs.Pages.{page_bytes, patched};

use crate::PAGE_BYTES;
use std::alloc::{AllocError, Global};
use std::marker::Model;

/// The 16,384 bytes of one page.
#[derive(Debug, Drop)]
pub struct PageBuf {
    bytes: Vec<u8>,
}

impl Model for PageBuf {
    ghost use Rattle.std.specs.Prelude.{◌≡◌, ℕ, List, vec_len};
    ghost use Rattle.page_model.specs.Pages.{page_bytes};

    ghost Value = { List ℕ };

    ghost view = { λ page. page.bytes.items };

    ghost invariant = { λ page. vec_len page.bytes ≡ page_bytes };
}

impl PageBuf {
    ghost use Rattle.engine_base.specs.Lending.{LendsBytes};

    /// A page of zeros.
    pub fn new(alloc: Global) -> Result<PageBuf, AllocError>
        ensures { IfOk result (λ page. page ≡ replicate page_bytes 0) }
    {
        Ok(PageBuf {
            bytes: vec![in alloc; 0u8; PAGE_BYTES]?,
        })
    }

    pub fn bytes(&self) -> &[u8]
        ensures value { result.now ≡ self.now }
        ensures len { length result.now ≡ page_bytes }
    {
        &self.bytes
    }

    pub fn bytes_mut(&mut self) -> &mut [u8]
        ensures* writes_back { sem 𝓛 (LendsBytes self.entry result) }
        ensures value { result.now ≡ self.old }
        ensures len { length result.now ≡ page_bytes }
    {
        self.bytes.as_mut_slice()
    }

    /// Writes over a part of the page: the one copy of these bytes.
    pub fn patch(&mut self, at: usize, bytes: &[u8])
        requires { at + length bytes.now ≤ page_bytes }
        ensures { self.new ≡ patched self.old at bytes.now }
    {
        self.bytes[at..at + bytes.len()].copy_from_slice(bytes);
    }

    /// Takes over the bytes of another page: one copy of a page, and no memory.
    pub fn copy_from(&mut self, page: &PageBuf)
        ensures { self.new ≡ page.now }
    {
        self.bytes.as_mut_slice().copy_from_slice(page.bytes());
    }
}

#[cfg(test)]
mod tests;
