//! What the items of a model are resolved to.

ghost use Rattle.std.specs.Prelude.{IfOk};
ghost use Rattle.bench_texts.specs.Readings.{IsModelReading};

use binding_graph::{ModelFault, ResolveFault, Resolved, resolve, used};
use std::alloc::{AllocError, Global};
use std::sync::Arc;
use text_values::ModelText;

/// What the items of a model are resolved to, or why they have no meaning.
#[derive(Drop)]
pub enum Reading {
    /// The items have no fault.
    Sound {
        /// Each item with what its names stand for.
        resolved: Arc<Resolved>,
        /// The indexes of the items that checks and flags reach, rising.
        used: Vec<usize>,
    },
    /// The first fault of the items.
    Faulty(ModelFault),
}

/// Resolves the items of a model. Errors: want of memory.
pub fn read_items(alloc: Global, text: &ModelText) -> Result<Reading, AllocError>
    ensures { IfOk result (IsModelReading text.now.items.items) }
{
    match resolve(alloc, text) {
        Ok(resolved) => {
            let used = used(alloc, &resolved)?;
            let resolved = Arc::new(alloc, resolved)?;
            Ok(Reading::Sound { resolved, used })
        }
        Err(ResolveFault::Refused(fault)) => Ok(Reading::Faulty(fault)),
        Err(ResolveFault::OutOfMemory(error)) => Err(error),
    }
}
