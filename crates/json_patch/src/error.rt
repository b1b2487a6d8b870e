//! Why an edit isn't made.
ghost use Rattle.std.specs.Prelude.{◌≡◌};
ghost use Rattle.json_patch.specs.declared.error.PlanError.TheVariants.{Memory};

use std::alloc::{AllocError, AllocFailed};
use thiserror::Error;

/// Why an edit of a stored document isn't made. The document stays as it is.
#[derive(Debug, Drop, PartialEq, Error)]
pub enum PlanError {
    /// The edited tree nests more than 100 containers.
    #[error("nested too deep")]
    Deep,
    /// The edit can't be made in place, and the new encoding has more than 16,777,216 bytes.
    #[error("document too large")]
    Large,
    #[error("out of memory")]
    Memory,
}

impl From<AllocError> for PlanError {
    ghost from_gives = { λ _ e. e ≡ Memory };

    fn from(_error: AllocError) -> PlanError {
        PlanError::Memory
    }
}

impl<T: Drop> From<AllocFailed<T>> for PlanError {
    ghost from_gives = { λ _ e. e ≡ Memory };

    fn from(_error: AllocFailed<T>) -> PlanError {
        PlanError::Memory
    }
}
