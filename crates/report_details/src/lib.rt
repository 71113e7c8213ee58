//! What the page of a report says of each test, and which models say the same of it. Read
//! specs/Reported first (what a page shows), then Groups, Marks, States, Names, Figures, StateTable
//! and Details (the bytes). Other crates call `put_tests`.
#![tactic(auto)]

mod around;
mod details;
mod figures;
mod groups;
mod marks;
mod names;
mod reported;
mod state_table;
mod states;

pub use around::{numbered, open_class, open_with, put_if};
pub use details::put_tests;
pub use groups::{
    groups_of, has_other, has_refusal, is_other, is_told_apart, keys_text, put_letter,
};
pub use marks::{put_result, result_class, test_class};
pub use reported::{Extras, ReportedModel, ReportedTest};
