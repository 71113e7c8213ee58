//! The running bench of litmus tests and models.
//!
//! - The texts of the bench with their stamps, as a bench of cells asks for them:
//!   `specs/StampedTexts`, then `specs/Edited` and `specs/StampedCells`.
//! - The same texts as a desk asks for them, and the desk of them: `specs/Cells`, then
//!   `specs/Texts`.
//! - What viewers are promised: each cell that a view shows is right for the texts after the
//!   operations of the view, which begin with all that its viewer saw or was told. Read
//!   `specs/Results` and `specs/Edits` of `board`, then `specs/Contents` and `specs/Posted`;
//!   `view_laws` has the laws of lists of operations, and `newest_view` says all of it of a view.
#![tactic(auto)]

mod board_texts;
mod cell_texts;
mod copies;
mod models_above;
mod outputs;
mod running;
pub mod stamped_laws;
mod stamped_texts;
mod touched;
mod view;
pub mod view_laws;

pub use running::RunningDesk;
pub use stamped_texts::{PreparedEdit, StampedTexts};
pub use view::{edit_count_in, newest_view, result_in};
