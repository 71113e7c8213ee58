//! The operations of a desk: how edits and outcomes become operations, and which are appended. Read
//! `specs/Boards` first, then `specs/Posts`.
#![tactic(auto)]

mod ledger;
mod posting;
mod texts;

pub use ledger::Ledger;
pub use texts::{BoardTexts, CellNames, CellRange};
