//! One test under one model, evaluated from nothing. Read `specs/FromScratch` first: `eval_cell` of
//! cut_spaces gives what it says, and `laws` says of what it is the only answer. `eval_suite` there
//! gives it for many tests under many models: specs/Suites.
#![tactic(auto)]

mod cell;
pub mod fixtures;
mod keeping;
pub mod laws;
mod suite;

pub use cell::{FlagAnswer, ItemAnswers, answers, evaluated, inputs, refused};
pub use suite::{each_model, resolved_models};
