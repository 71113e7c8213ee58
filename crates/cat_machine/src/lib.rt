//! The machine that evaluates one expression in one candidate execution, the columns that hold what
//! it finds, and the least fixpoint of a recursive group in one candidate.
//!
//! The meaning of the operators and of `let rec` is that of Alglave, Maranget and Tautschnig,
//! Herding Cats, TOPLAS 36(2), 2014, and of the herd7 manual, chapter on cat. Read specs/Meaning
//! first, then specs/Least.
#![tactic(auto)]

mod column;
mod few;
mod machine;
mod names;
pub mod rounds;
mod seen;
mod solver;
mod stack;

pub use column::Column;
pub use few::Few;
pub use machine::{Machine, blend_sets};
pub use names::Names;
pub use seen::{NamedColumn, Seen, column_of};
pub use solver::Solver;
pub use stack::{blend_into, close_into, is_as_asked};
