//! What a session says to each command of a script, as definitions: read specs/Cells first, then
//! Rows, Questions and Sessions: `IsAnswered` is the answer to a command over the texts, `IsOutput`
//! the output of a script. And the outcomes of tests under models, with how far they are.
#![tactic(auto)]

mod outcomes;
mod progress;
mod rows;

pub use cut_spaces::eval_cell;
pub use outcomes::{outcomes_of, tell_rows, test_outcomes};
pub use progress::{NoProgress, Progress, ProgressListener};
pub use rows::{TestOutcomes, test_pairs, test_rows};
