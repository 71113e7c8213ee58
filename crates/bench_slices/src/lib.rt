//! What the verdict of a cell depends on, and when it is the same for two cells. Read specs/Slices:
//! `slice` is the definition, which `is_same_slice` decides without memory. Then read specs/Reach:
//! which cells an edit reaches, by `reaches`.
#![tactic(auto)]

mod cells;
mod lists;
mod reach;
mod uses;

pub use cells::{is_same_slice, is_same_test};
pub use reach::reaches;
