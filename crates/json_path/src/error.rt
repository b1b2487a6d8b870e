// Why a text is refused.
ghost use Rattle.std.specs.Prelude.{◌≡◌};

use std::alloc::{AllocError, AllocFailed};
use thiserror::Error;

/// Why a text is no path. A place is that of the first byte that can't go on, counted from 0;
/// the place of the text's end is its length.
#[derive(Clone, Copy, Debug, PartialEq, Eq, Error)]
pub enum PathError {
    /// A `*` stands behind `.`, behind `[`, or where a leg would begin.
    #[error("a wildcard")]
    Wildcard(usize),
    /// ` to ` stands behind a position in brackets.
    #[error("a range")]
    Range(usize),
    /// Any other fault. For a number that is too wide the place is that of its first digit.
    #[error("no path")]
    Syntax(usize),
    /// A key has 65,536 bytes or more, and nothing else is wrong.
    #[error("a key is too long")]
    LongKey,
    #[error("out of memory")]
    Memory,
}

impl From<AllocError> for PathError {
    ghost use Rattle.json_path.specs.declared.error.PathError.TheVariants.{Memory};

    ghost from_gives = { λ _ e. e ≡ Memory };

    fn from(_: AllocError) -> Self {
        PathError::Memory
    }
}

impl<T: Drop> From<AllocFailed<T>> for PathError {
    ghost use Rattle.json_path.specs.declared.error.PathError.TheVariants.{Memory};

    ghost from_gives = { λ _ e. e ≡ Memory };

    fn from(_: AllocFailed<T>) -> Self {
        PathError::Memory
    }
}
