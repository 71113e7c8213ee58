//! The parts of the bench's texts: what they hold, with their stamps, and what the nodes are given
//! of them; and their rows after an edit, in which an equal part keeps its stamp and one that
//! differs gets a new one. The part of an item is its text, whatever that is resolved to; what the
//! item does stands beside it, for its nodes. Read `specs/Contents` first: what a part holds, then
//! `specs/States`: what a job is given, and what the states owe, `specs/Built`: of what a state is
//! built, and `specs/Written`: what the stamps go by, and which states come of others; `laws` cites
//! these. Of the rows read `specs/Tests`, `specs/Models` and `specs/Items`; `table_laws` and
//! `item_laws` say what they are after an edit.
#![tactic(auto)]

mod content;
mod find;
mod flags;
mod give;
mod held;
pub mod item_laws;
mod items;
mod jobs;
pub mod laws;
mod model_rows;
mod nodes;
mod owners;
mod parts;
mod raised_items;
mod raised_rows;
mod stamps;
pub mod table_laws;
mod test_rows;

pub use items::{ItemLists, ModelItems};
pub use jobs::{is_same, run};
pub use model_rows::{HeldModel, model_row};
pub use owners::{keep_kinds, keep_models};
pub use parts::Parts;
pub use raised_items::raise_items;
pub use raised_rows::{raise_row, raised_model};
pub use stamps::raised;
pub use test_rows::{HeldTest, next_number, test_row};
