//! Outcomes as lines that programs read: fields with tabs between them, or JSON. Read specs/Records
//! first (what the lines are of), then specs/Tab and specs/Json. `laws` says that the lines of two
//! lists of tests, one behind the other, are the lines of the whole list.
#![tactic(auto)]

mod json;
mod json_difference;
mod json_parts;
pub mod laws;
mod pair;
mod record;
mod tab;
mod tab_difference;

pub use json::{put_eval_json, put_test_json};
pub use json_difference::put_pair_json;
pub use json_parts::put_refused_line as put_refused_json;
pub use record::{ModelOutcome, Subject, TestResult, TextRefusal};
pub use tab::put_test_tab;
pub use tab_difference::put_pair_tab;
