//! What the nodes of the bench hold, and how a node is computed from the values of its inputs: the
//! space of a test, the columns of a group, the answers of a check, the outcome of a test under a
//! model. Read `specs/Values` first, what a value is, then `specs/Makes`, what a node gives.
#![tactic(auto)]

mod give;
mod given;
pub mod laws;
mod run;
mod same;
mod value;

pub use given::{FaultParts, Given, GivenParts, SpaceParts, VerdictParts};
pub use run::run_node;
pub use value::{NodeValue, ValueContent};
