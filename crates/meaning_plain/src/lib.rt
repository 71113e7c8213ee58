//! A plain evaluator of the definitions of `meaning`: a set is a list of events, a relation a list
//! of pairs, and each operator is written down as it is defined. Nothing of it is fast; it is what
//! one reads, and runs, where a definition is doubted. Read specs/Lists first.
#![tactic(auto)]

pub mod checks;
pub mod relations;
pub mod sets;
