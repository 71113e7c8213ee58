//! When two parts of litmus tests are equal: initial values, threads, observed lists, conditions.
//! No call takes memory. Read specs/Shapes first: an instruction is known by its shape.
#![tactic(auto)]

mod conditions;
mod places;
mod shapes;
mod steps;

pub use conditions::is_same_condition;
pub use places::{are_same_entries, are_same_places};
pub use steps::are_same_steps;
