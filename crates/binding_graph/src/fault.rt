//! Why a model has no meaning.

use binding_kinds::ModelFault;
use std::alloc::AllocError;
use thiserror::Error;

/// Why a model was not resolved.
#[derive(Debug, Drop, Error)]
pub enum ResolveFault {
    /// The first fault, by item and then by index.
    #[error("the model has a fault")]
    Refused(ModelFault),
    /// A growth was refused.
    #[error("out of memory")]
    OutOfMemory(#[from(alloc)] AllocError),
}
