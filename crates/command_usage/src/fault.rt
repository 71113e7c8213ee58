//! Why words have no form.

use std::alloc::AllocError;
use thiserror::Error;

/// Why words have no form.
#[derive(Debug, Drop, Error)]
pub enum UsageFault {
    /// Usage, help or version, as text for the user.
    #[error("{0}")]
    Words(String),
    /// A growth was refused.
    #[error(transparent)]
    Memory(#[from] AllocError),
}
