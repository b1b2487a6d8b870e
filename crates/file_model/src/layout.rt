// How large a store is, and where its regions and pages stand.
ghost use Rattle.std.specs.Prelude.{◌≡◌, ◌≤◌, ◌<◌, ◌^◌};

use crate::places::{LOGS, PAGE_BYTES};

/// How many pages a store has, and how large each of its two log regions is.
#[derive(Clone, Copy, Debug, PartialEq, Eq)]
pub struct Layout {
    /// From 16 to 32,768.
    pub pages: u32,
    /// In units of 1,024 bytes, from 1,024 to 65,536.
    pub log_kib: u32,
}

impl Layout {
    ghost use Rattle.file_model.specs.Sections.{IsInLimits, wanted, page_place, region_place};
    ghost use Rattle.file_model.specs.Blocks.{region_room, gate_place};

    /// How many bytes the file has at least.
    pub fn wanted(&self) -> u64
        requires limits { IsInLimits self.now }
        ensures size { result ≡ wanted self.now }
        ensures small { result < 2 ^ 40 }
    {
        LOGS + 2 * (1_024 * u64::from(self.log_kib)) + PAGE_BYTES * u64::from(self.pages)
    }

    /// The home of a page.
    pub fn page_place(&self, page: u32) -> u64
        requires limits { IsInLimits self.now }
        requires below { page < self.now.pages }
        ensures place { result ≡ page_place self.now page }
        ensures small { result < 2 ^ 40 }
    {
        LOGS + 2 * (1_024 * u64::from(self.log_kib)) + PAGE_BYTES * u64::from(page)
    }

    /// Where a log region begins.
    pub fn region_place(&self, region: u8) -> u64
        requires limits { IsInLimits self.now }
        requires region { region ≤ 1 }
        ensures place { result ≡ region_place self.now region }
        ensures fits { result < 2 ^ 63 }
    {
        LOGS + u64::from(region) * (1_024 * u64::from(self.log_kib))
    }

    /// How many bytes of a log region blocks may take, counted from its byte 8. One is left for the
    /// last closed gate.
    pub fn region_room(&self) -> u64
        requires { IsInLimits self.now }
        ensures { result ≡ region_room self.now }
    {
        1_024 * u64::from(self.log_kib) - 9
    }

    /// Where the gate behind the used bytes of a log region stands.
    pub fn gate_place(&self, region: u8, used: u64) -> u64
        requires limits { IsInLimits self.now }
        requires region { region ≤ 1 }
        requires used { used ≤ region_room self.now }
        ensures place { result ≡ gate_place self.now region used }
        ensures fits { result < 2 ^ 63 }
    {
        self.region_place(region) + 8 + used
    }
}
