//! What is told of the fault of a model.

use command_answers::{TextFile, model_fault};
use std::alloc::{AllocError, Global};
use text_values::put_bytes;

/// Appends what is told of a model's file of this text.
pub fn put_told(alloc: Global, answer: &mut Vec<u8>, text: &[u8]) -> Result<(), AllocError> {
    let file = TextFile {
        path: "m.cat",
        text: Vec::from_slice(alloc, text)?,
    };
    put_bytes(answer, &model_fault(alloc, &file)?)
}
