//! Runs of a thread, and the values that its loads may take.

use crate::instruction::{Event, RunStep};
use crate::value::Value;

/// The domain of values that loads can read: numbers first, rising, then addresses.
#[derive(Drop)]
pub struct Domain {
    /// At most 16 values, each once.
    pub values: Vec<Value>,
}

/// A run of a thread: its i-th executed load reads the i-th value.
pub struct Run {
    /// The values of the executed loads.
    pub values: Vec<Value>,
    /// The instructions in the order in which they were executed.
    pub steps: Vec<RunStep>,
    /// The first 128 accesses and fences, in program order.
    pub events: Vec<Event>,
    /// The final values of the registers.
    pub registers: [Value; 32],
    /// Whether the run stopped at a fault.
    pub faulted: bool,
}

impl Drop for Run {
    fn drop(self) {
        let Run {
            values: _,
            steps: _,
            events: _,
            registers: _,
            faulted: _,
        } = self;
    }
}
