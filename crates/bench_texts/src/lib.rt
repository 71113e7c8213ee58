//! The texts of the bench: tests and models in order, and the edits that change them, by `prepare`
//! and then `commit`. Read specs/BenchTexts first, then Limits and Edits: `Applies` says what an
//! edit makes, `Refuses` when it is refused.
#![tactic(auto)]

mod change;
mod changed_tests;
mod commit;
mod count;
mod edit;
mod fault;
mod find;
mod limits;
mod model;
mod prepare;
mod prepare_edit;
mod prepare_items;
mod prepare_models;
mod prepared;
mod print;
mod reading;
mod replace;
mod replace_items;
mod replace_parts;
mod replacement;
mod texts;

pub use edit::Edit;
pub use fault::EditFault;
pub use limits::{MAX_MODELS, MAX_OUTPUTS, MAX_TESTS};
pub use model::{MAX_ITEMS, NamedModel};
pub use prepared::Prepared;
pub use reading::{Reading, read_items};
pub use replacement::Replacement;
pub use texts::Texts;
