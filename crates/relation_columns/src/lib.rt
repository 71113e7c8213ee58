//! Columns of values over the candidates of a space, as runs of equal neighbours. Read
//! `specs/Runs.antt`: contracts see one value a candidate.
#![tactic(auto)]

mod relations;
mod runs;
mod sets;
mod spans;

pub use relations::RunColumn;
pub use runs::Cursor;
pub use sets::SetRuns;
