//! A plain evaluator of the definitions of `meaning`: where an execution ends, and whether it
//! satisfies a proposition there. Read specs/Ends first.
#![tactic(auto)]

pub mod ending;
pub mod observables;
pub mod satisfied;
