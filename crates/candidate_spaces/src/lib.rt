//! The list of a test's candidate executions, as it is kept and shown, and whether two lists show
//! the same. Read `specs/Space` first. How the list is made stands in `candidates`.
#![tactic(auto)]

mod candidate;
mod ends;
mod execution;
mod fault;
mod same;

pub use candidate::Space;
pub use execution::Execution;
pub use fault::SpaceFault;
