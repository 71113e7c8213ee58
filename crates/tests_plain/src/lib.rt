//! Compares the plain evaluator with the program. For each line of `list.txt`, a model and a test,
//! it asks both what the test says under the model, from the two texts. Prints a line of each: the
//! fault, the refusal, or the final states, witnesses, words and flags, and whether both are alike.
#![tactic(auto)]

mod compare;
mod plain;
mod program;
mod told;

pub use compare::show_all;
