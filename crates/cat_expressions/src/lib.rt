//! The reader of expressions in the cat language, token by token. Read
//! cat_grammar/specs/Machine.antt first: the reader does what that machine does; specs/Reading.antt
//! and specs/OpenReading.antt relate the two.
#![tactic(auto)]

mod frames;
mod terms;

pub use frames::{ExpressionStep, StepError};
pub use terms::OpenExpression;
