//! The groups and checks of a model, evaluated over all candidate executions of a test.
//!
//! The meaning of the operators and of `let rec` is that of Alglave, Maranget and Tautschnig,
//! Herding Cats, TOPLAS 36(2), 2014, and of the herd7 manual, chapter on cat. Read specs/Meaning of
//! `cat_machine` first, then its specs/Least.
#![tactic(auto)]

mod asked_run;
mod body_run;
mod check;
mod evaluator;
mod group;
mod keeper;
mod link;
mod needs;
mod runs;
mod shape;
mod spread;
mod steady;
mod table;
mod visit;
mod walk;

pub use cat_machine::{Column, rounds};
pub use check::eval_check;
pub use evaluator::Evaluator;
pub use group::eval_group;
