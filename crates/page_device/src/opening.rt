// What a file is opened as, by its control block and its length.
ghost use Rattle.std.specs.Prelude.{◌≡◌, ◌≤◌, ◌<◌, ◌^◌, ◌+◌, List, ℕ, length, IfOk, OnOk, IfSome, IfErr};
ghost use Rattle.engine_base.specs.Disk.{Holds};
ghost use Rattle.file_model.specs.Sections.{IsInLimits, wanted};
ghost use Rattle.file_model.specs.Control.{opening, are_in_limits};
ghost use Rattle.page_device.specs.Opening.{answer_of, IsNoFault};

use byteorder::{BigEndian, ByteOrder};
use engine_base::Fault;
use file_model::Layout;

/// Why a file isn't opened.
#[derive(Clone, Copy, Debug, PartialEq, Eq)]
pub enum OpenError {
    /// The disk failed.
    Fault(Fault),
    /// The file is no store of ours, or its limits don't hold.
    NotStore,
    /// It is a store of another version.
    Version(u32),
    /// It is shorter than its pages want.
    Short { length: u64, wanted: u64 },
}

const MAGIC: [u8; 8] = [76, 79, 66, 83, 84, 79, 82, 69];

const VERSION: u32 = 1;

// Whether the layout is within the limits.
fn is_in_limits(layout: &Layout) -> bool
    ensures { result ≡ are_in_limits layout.now }
{
    16 <= layout.pages
        && layout.pages <= 32_768
        && 1_024 <= layout.log_kib
        && layout.log_kib <= 65_536
}

/// Judges a file by its first 20 bytes and its length.
pub(crate) fn judge(head: &[u8], size: u64) -> Result<Layout, OpenError>
    requires head { length head.now ≡ 20 }
    requires control { 4_096 ≤ size }
    ensures limits { IfOk result (λ l. IsInLimits l) }
    ensures no_fault { IfErr result IsNoFault }
    ensures answer { (file : List ℕ) → length file ≡ size → Holds file 0 head.now
        → result ≡ answer_of (opening file) }
{
    if !head.starts_with(&MAGIC) {
        return Err(OpenError::NotStore);
    }
    let version = BigEndian::read_u32(&head[8..]);
    if version != VERSION {
        return Err(OpenError::Version(version));
    }
    let layout = Layout {
        pages: BigEndian::read_u32(&head[12..]),
        log_kib: BigEndian::read_u32(&head[16..]),
    };
    if !is_in_limits(&layout) {
        return Err(OpenError::NotStore);
    }
    let wanted = layout.wanted();
    if size < wanted {
        return Err(OpenError::Short {
            length: size,
            wanted,
        });
    }
    Ok(layout)
}
