//! Tests of the running bench: a history of numbers that add up, and refusals in a row.
#![tactic(auto)]

#[cfg(test)]
mod press_tests;
#[cfg(test)]
mod refusal_tests;
pub mod sums;
