//! Items of models that jobs share with the texts, and the names that they have had. Read
//! `specs/Naming` first, by which numbers the outputs of an item go, then `specs/Items`.
#![tactic(auto)]

mod items;
pub mod laws;
mod names;

pub use items::SharedItem;
pub use names::{number_in_history, only_zero, same_outputs};
