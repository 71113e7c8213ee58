//! A plain evaluator of the definitions of `meaning`: the values of the domain of a test, or why it
//! has none. Read specs/Domains first.
#![tactic(auto)]

pub mod domain;
pub mod store;
