//! What people are told of a model that has a fault.

ghost use Rattle.std.specs.Prelude.{IfOk};
ghost use Rattle.command_answers.specs.Told.{IsFaultTold};

use crate::file::TextFile;
use cat_syntax::{CatFault, read_model};
use fault_texts::model_fault_lines;
use std::alloc::{AllocError, Global};

/// What is told of the first fault of a model whose text reads: the item, the rule in words, the
/// name or operator at fault, and the item as it is printed. Nothing of a model without fault, and
/// of a text that is refused. Errors: want of memory.
pub fn model_fault(alloc: Global, file: &TextFile<'_>) -> Result<Vec<u8>, AllocError>
    ensures { IfOk result (λ v. IsFaultTold file.now v.items) }
{
    match read_model(alloc, &file.text) {
        Ok(model) => model_fault_lines(alloc, file.path.as_bytes(), &[], &model.items),
        Err(CatFault::OutOfMemory(e)) => Err(e),
        Err(CatFault::Refused { .. }) => Ok(Vec::new(alloc)),
    }
}
