//! The nodes that a model gives each test: one for each group, check and flag that checks and flags
//! reach, and one for the verdict. Read `specs/Slots`, then `specs/Tables`: the nodes of several
//! models.
//!
//! The laws of the items of a model without fault that the bench asks for have `specs/Closed`, what
//! an item uses and what checks reach, and `specs/Roles`, what an item does after edits, by its
//! keys. `role_laws` has the statements.
#![tactic(auto)]

mod find;
mod histories;
mod items;
mod kinds;
pub mod laws;
mod model;
pub mod role_laws;

pub use histories::Histories;
pub use kinds::node_kind;
pub use model::{fault_slots, model_slots};
