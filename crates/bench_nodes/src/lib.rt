//! The nodes of the bench by numbers alone: the stamps of the parts of its tests and models, the
//! nodes that each test has, and the keys of their inputs. Read `specs/Nodes` first: what a table
//! says; then `specs/Order`, what it owes.
#![tactic(auto)]

mod find;
mod guesses;
mod new_slots;
mod nodes;
mod places;
mod table;
mod touched;
mod users;

pub use find::are_rising;
pub use guesses::{item_guesses, item_index};
pub use new_slots::NewSlots;
pub use places::{SlotName, SlotPlaces};
pub use table::{
    CONDITION, FAULT, INIT, ITEM, ItemRow, LOCATIONS, ModelRow, NodeTable, OBSERVED, Slot, SlotKey,
    THREAD, TestRow,
};
pub use touched::{all_names, nodes_named, nodes_of_tests, test_slots, touched_slots};
