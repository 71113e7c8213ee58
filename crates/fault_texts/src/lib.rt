//! What people are told of a text that is refused, and of a model that has a fault: where it is,
//! the rule in words, what stands there, and the line or the item with it.
//!
//! - A refused text: read specs/Positions first, then specs/Lines.
//! - Where the first fault of a model stands, its item and the name, the sign or the operator at
//!   fault: read specs/Signs first, then specs/Found; specs/Search is how the fault is looked for.
//! - What is told of it: read specs/Told.
#![tactic(auto)]

mod application;
mod body;
mod declare;
mod expression;
mod found;
mod group;
mod items;
mod line;
mod lines;
mod place;
mod position;
mod signs;
mod words;

pub use found::{MOST_SHOWN, put_shown};
pub use items::first_fault;
pub use line::{put_fault_lines, put_rule};
pub use lines::model_fault_lines;
pub use place::{ItemFault, SignFault};
pub use position::{Position, count_behind, position_of, put_position};
pub use words::rule_words;
