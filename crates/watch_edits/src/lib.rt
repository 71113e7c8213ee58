//! The edits that lead from one version of a model or of a test to the next: only the items and the
//! parts that differ are changed. Read specs/Changes first: `with_changes` and `with_parts` say
//! what changes make of a version.
#![tactic(auto)]

mod item_edits;
mod items;
mod part_edits;
mod part_texts;
mod parts;

pub use item_edits::item_edit;
pub use items::{ItemChange, item_changes};
pub use part_edits::part_edit;
pub use parts::{TestPart, changed_parts};
