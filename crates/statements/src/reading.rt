// The reading of a script.
ghost use Rattle.std.specs.Prelude.{ℕ, ◌≡◌, Ok, Err, IfOk, IsErrOf};
ghost use Rattle.journal_model.specs.ScriptText.{script_by};
ghost use Rattle.statements.specs.Causes.{cause_of};
ghost use Rattle.statements.specs.Forms.{mode_view, table_of};
ghost use Rattle.statements.specs.Scripts.{IsReadAs};
ghost use Rattle.statements.specs.declared.cause.Cause.{Cause};

use crate::draft::Draft;
use crate::error::LineError;
use crate::line::read_line;
use crate::lines::{is_skippable, next_line};
use crate::{Built, Cause, Mode, Script};
use std::alloc::Global;

/// Why bytes are no script.
#[derive(Debug, Drop)]
pub enum ScriptError {
    /// The first bad line, from 1, and the first reason why it is bad.
    Line { line: u64, cause: Cause },
    Memory,
}

/// The script that bytes are to a program that takes what the table says, or its first bad line.
/// Lines are counted with those that are skipped.
pub fn read_script(
    alloc: Global,
    built: Built,
    mode: Mode,
    bytes: &[u8],
) -> Result<Script, ScriptError>
    ensures ok { IfOk result (λ script. IsReadAs script
        (script_by (table_of built) (mode_view mode) bytes.now)) }
    ensures line { (line : ℕ) (cause : Cause) → IsErrOf result (ScriptError.Line line cause)
        → script_by (table_of built) (mode_view mode) bytes.now ≡ Err (line, cause_of cause) }
{
    let Ok(mut draft) = Draft::new(alloc) else {
        return Err(ScriptError::Memory);
    };
    let mut count = 0usize;
    let mut number = 0usize;
    let mut rest = bytes;
    while !rest.is_empty() {
        let (line, after) = next_line(rest);
        number += 1;
        rest = after;
        if is_skippable(line) {
            continue;
        }
        match read_line(alloc, built, mode, count, line) {
            Ok(read) => {
                count = read.counted(count);
                if draft.push(read).is_err() {
                    return Err(ScriptError::Memory);
                }
            }
            Err(LineError::Bad(cause)) => {
                return Err(ScriptError::Line {
                    line: number as u64,
                    cause,
                });
            }
            Err(LineError::Memory) => return Err(ScriptError::Memory),
        }
    }
    Ok(Script::new(draft.lines, draft.statements))
}
