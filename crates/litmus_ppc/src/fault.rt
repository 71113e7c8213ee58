//! Why the text of a test is refused.

use litmus_tokens::LitmusRule;
use std::alloc::AllocError;
use thiserror::Error;

/// Why a text is not read.
#[derive(Debug, Drop, Error)]
pub enum LitmusFault {
    /// The rule that the text breaks, and the byte offset of the first token that cannot stand.
    #[error("the text is refused at byte {offset}")]
    Refused { rule: LitmusRule, offset: usize },
    /// Memory ran out.
    #[error("out of memory")]
    OutOfMemory(#[from(alloc)] AllocError),
}
