//! Why no log was made, or none was written.

use cat_syntax::CatFault;
use litmus_ppc::LitmusFault;
use std::alloc::AllocError;
use thiserror::Error;

/// Why no log was made of a model and a test.
#[derive(Debug, Drop, Error)]
pub enum EvalFault {
    /// The model's text is refused.
    #[error("the cat text: {0}")]
    Model(CatFault),
    /// The test's text is refused.
    #[error("the litmus text: {0}")]
    Test(LitmusFault),
    /// A growth was refused: want of memory is never a fault of a text.
    #[error("out of memory")]
    Memory(#[from(alloc)] AllocError),
}
