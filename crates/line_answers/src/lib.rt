//! Tables, differences and evaluations of files as lines for programs. `outcome_lines` says what
//! each line is. Read specs/Results first, then specs/Reports and specs/Evaluations.
#![tactic(auto)]

mod evaluation;
pub mod laws;
mod refusal;
mod report;

pub use evaluation::eval_report;
pub use report::{Lines, line_report};
