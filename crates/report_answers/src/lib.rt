//! The page of the tests of some files under the models of others. `report_page` says what the page
//! is of what is known of each test; this crate reads the files, judges the tests and draws. Read
//! specs/Drawn first, then specs/Known and specs/Pages. What holds of each page has specs/Scripts
//! and specs/Whole; `laws` states it.
#![tactic(auto)]

mod drawings;
mod judged;
pub mod laws;
mod models;
mod report;

pub use report::{PageRequest, page_report};
