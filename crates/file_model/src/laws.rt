// Laws on what a file's bytes stand for. Each is a function with nothing to do, whose clause a
// proof may cite.
ghost use Rattle.std.specs.Prelude.{◌≡◌, ◌⊎◌, ℕ, ◌+◌, ◌≤◌, ◌<◌, ◌^◌, true, false, List, All, length, slice_index};
ghost use Rattle.engine_base.specs.Disk.{Holds};
ghost use Rattle.page_model.specs.Frames.{HoldsFrame};
ghost use Rattle.file_model.specs.declared.layout.Layout.{Layout};
ghost use Rattle.file_model.specs.Sections.{part, region_place, blocks_place, log_bytes, wanted, IsInLimits};
ghost use Rattle.file_model.specs.Changes.{SameElsewhere, Range};
ghost use Rattle.file_model.specs.Frames.{Group, applied, is_frame, frames_of, frames_bytes, IsLoggable};
ghost use Rattle.file_model.specs.Blocks.{log_of, block_bytes, EndsAt, gate_place, with_block};
ghost use Rattle.file_model.specs.Doublewrite.{Batch, is_odd, numbers, copied, armed, homes, repaired, InPages};
ghost use Rattle.file_model.specs.Recovered.{AreFinal};

/// Bytes count as a frame exactly where they are the whole frame of some writes within the pages.
pub fn frames_are_told()
    ensures holds { (pages : ℕ) (bytes : List ℕ) → is_frame pages bytes ≡ true
        → HoldsFrame pages bytes }
    ensures counts { (pages : ℕ) (bytes : List ℕ) → pages ≤ 2 ^ 32 → HoldsFrame pages bytes
        → is_frame pages bytes ≡ true }
{}

/// Groups that were written as frames, one behind another, are read back.
pub fn frames_read_back()
    ensures { (pages : ℕ) (groups : List Group) → pages ≤ 2 ^ 32 → All (IsLoggable pages) groups
        → frames_of pages (frames_bytes groups) ≡ record { groups = groups; whole = true } }
{}

/// Where the bytes before a log's last gate stay and that gate is closed, the log is as it was,
/// whatever stands behind.
pub fn log_ends_at_its_gate()
    ensures { (l : Layout) (region used : ℕ) (old new : List ℕ) → IsInLimits l
        → EndsAt l region used old → length old ≤ length new
        → part new (blocks_place l region) used ≡ part old (blocks_place l region) used
        → is_odd (slice_index new (gate_place l region used)) ≡ false
        → log_of l region new ≡ log_of l region old }
{}

/// A block stands behind a log's last gate, and then that gate is written. Whatever lands on the
/// gate, the log is as it
/// was, where the gate is closed, or has all groups of the block, where it is open.
pub fn gate_decides()
    ensures { (l : Layout) (region used n : ℕ) (old mid new : List ℕ) (groups : List Group)
        → IsInLimits l → EndsAt l region used old → All (IsLoggable l.pages) groups
        → gate_place l region used + 1 + length (block_bytes groups)
        ≤ region_place l region + log_bytes l
        → SameElsewhere (Range (gate_place l region used + 1) n) old mid
        → Holds mid (gate_place l region used + 1) (block_bytes groups)
        → SameElsewhere (Range (gate_place l region used) 1) mid new
        → ((is_odd (slice_index new (gate_place l region used)) ≡ false)
        × (log_of l region new ≡ log_of l region old))
        ⊎ ((is_odd (slice_index new (gate_place l region used)) ≡ true)
        × (log_of l region new ≡ with_block (log_of l region old) groups)) }
{}

/// While a batch is armed its pages may be in any state: what is repaired is the same.
pub fn armed_images_repair()
    ensures { (l : Layout) (batch : Batch) (old new : List ℕ) → wanted l ≤ length old
        → armed l old ≡ batch → SameElsewhere (InPages l (numbers batch)) old new
        → repaired l new ≡ copied batch (homes l old) }
{}

/// Pages may go home before the groups that changed them leave the log: where a batch has the pages
/// as the log's groups
/// end, applying the groups over its images ends the same.
pub fn redo_over_images()
    ensures { (l : Layout) (region : ℕ) (batch : Batch) (file : List ℕ) → wanted l ≤ length file
        → AreFinal batch (applied (log_of l region file).groups (homes l file))
        → applied (log_of l region file).groups (copied batch (homes l file))
        ≡ applied (log_of l region file).groups (homes l file) }
{}
