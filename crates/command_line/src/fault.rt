//! Why a run stopped.

use thiserror::Error;

/// Why a run stopped before its end.
#[derive(Clone, Copy, Debug, PartialEq, Eq, Error)]
pub enum SessionFault {
    /// A read failed, or the input did not end within 16,777,216 reads.
    #[error("read")]
    Read,
    /// A write failed.
    #[error("write")]
    Write,
    /// A growth was refused.
    #[error("memory")]
    Memory,
    /// A desk refuses what its session accepts, has no number left, or shows edits that are not the
    /// session's.
    #[error("shared")]
    Shared,
}
