//! A plain evaluator of the definitions of `meaning`: what a test says under a model, from whether
//! the model keeps an execution and which flags it raises there. Read in specs/: Answered, States,
//! Kept, then Outcomes.
#![tactic(auto)]

pub mod answer;
pub mod evaluation;
pub mod flags;
pub mod kept;
pub mod states;
