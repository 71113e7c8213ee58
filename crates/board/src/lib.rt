//! What readers see of the bench: for each test and each model what is known of the cell, and what
//! operations make of it. Read specs/Contents first, then Operations, then Legal and Right; `laws`
//! has the law that what a board shows is right. After a legal list of operations each cell that is
//! shown is right for the texts after them, and each edit is counted and stands once: read
//! specs/Results, then specs/Edits; `view_laws` has these laws.
#![tactic(auto)]

mod board;
mod changes;
mod column;
mod edit;
pub mod laws;
mod listing;
mod operation;
mod row;
pub mod view_laws;

pub use board::Board;
pub use listing::NamedCell;
pub use operation::{BoardEdit, BoardOp, CellIndex, NameChange};
