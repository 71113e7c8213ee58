//! The desk of litmus tests and models.

use crate::stamped_texts::StampedTexts;
use desk::Desk;

/// A desk of litmus tests and models.
pub type RunningDesk<J, R> = Desk<J, StampedTexts, R>;
