//! A plain evaluator of the definitions of `meaning`: the machine of one thread, what its
//! instructions do, and where it starts. Read specs/Values first.
#![tactic(auto)]

pub mod instruction;
pub mod start;
pub mod state;
pub mod value;
