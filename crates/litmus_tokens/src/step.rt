//! Why a step failed.

ghost use Rattle.std.specs.Prelude.{◌≡◌};
ghost use Rattle.litmus_tokens.specs.declared.step.StepError.TheVariants.{OutOfMemory};

use std::alloc::{AllocError, AllocFailed};

/// Why a step over a token failed.
#[derive(Drop)]
pub enum StepError {
    /// Memory ran out.
    OutOfMemory,
    /// The token cannot stand here.
    Refused,
}

impl From<AllocError> for StepError {
    ghost from_gives = { λ _ e. e ≡ OutOfMemory };

    fn from(_e: AllocError) -> StepError {
        StepError::OutOfMemory
    }
}

impl<T: Drop> From<AllocFailed<T>> for StepError {
    ghost from_gives = { λ _ e. e ≡ OutOfMemory };

    fn from(_e: AllocFailed<T>) -> StepError {
        StepError::OutOfMemory
    }
}
