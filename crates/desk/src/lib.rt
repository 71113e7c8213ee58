//! A bench of cells under a lock, with a board that viewers read without it. Who opens a desk names
//! it, makes a seed of it, and of that a desk. Read `specs/Boards` of `desk_ledger` first, then
//! `specs/Held`.
#![tactic(auto)]

mod answer;
mod desk;
mod fault;
mod refusals;
mod seed;
mod state;
mod taking;

pub use answer::{Accepted, Posted, Settling};
pub use desk::Desk;
pub use desk_history::{Naming, SEATS, View, Viewer};
pub use desk_ledger::{BoardTexts, CellNames, CellRange};
pub use fault::DeskFault;
pub use refusals::{MOST_REFUSALS, Refusals};
pub use seed::{DeskSeed, OpenedDesk};
pub use state::DeskState;
