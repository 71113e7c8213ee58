//! The page of a report: tests under models, as one file of HTML. Read specs/Summary first, then
//! Table and Page: `report_page` are its bytes. Other crates call `put_page`.
#![tactic(auto)]

mod constants;
mod page;
mod summary;
mod table;

pub use page::put_page;
pub use report_details::{Extras, ReportedModel, ReportedTest, is_told_apart};
