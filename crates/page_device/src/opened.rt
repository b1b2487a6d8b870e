// A store's file is opened.
ghost use Rattle.std.specs.Prelude.{◌≡◌, ◌≤◌, List, ℕ, length, IfOk, OnOk, IfSome, IfErr};
ghost use Rattle.engine_base.specs.Disk.{LeavesOnly};
ghost use Rattle.file_model.specs.Sections.{IsInLimits, wanted};
ghost use Rattle.engine_base.specs.Durable.{IsDurable};
ghost use Rattle.page_device.specs.Opening.{IsAnswerFor, IsCause};

use crate::opening::{OpenError, judge};
use engine_base::Disk;
use file_model::Layout;
use file_model::places::CONTROL_BYTES;

/// Opens a file by its control block and its length. It begins with a sync, so that nothing written
/// before is pending.
pub fn open<D: Disk>(disk: &mut D) -> Result<Layout, OpenError>
    ensures answer { IfSome (D.state disk.old).seen (IsAnswerFor result) }
    ensures limits { IfOk result (λ l. IsInLimits l) }
    ensures seen { (D.state disk.new).seen ≡ (D.state disk.old).seen }
    ensures images { (c : List ℕ) → (D.state disk.new).may_leave c
        → (D.state disk.old).may_leave c }
    ensures cause { IfErr result (λ e. IsCause (D.state disk.old).faults
        (D.state disk.new).faults e) }
    ensures any_moment { LeavesOnly (D.state disk.old) (D.state disk.new)
        (D.state disk.old).may_leave }
    ensures durable { OnOk result (IsDurable (D.state disk.new)) }
{
    if let Err(fault) = disk.sync() {
        return Err(OpenError::Fault(fault));
    }
    let size = match disk.size() {
        Ok(size) => size,
        Err(fault) => return Err(OpenError::Fault(fault)),
    };
    if size < CONTROL_BYTES {
        return Err(OpenError::NotStore);
    }
    let mut head = [0u8; 20];
    if let Err(fault) = disk.read_at(0, &mut head) {
        return Err(OpenError::Fault(fault));
    }
    judge(&head, size)
}
