//! The grammar of models in the cat language, with a reader that goes from token to token, on plain
//! data. Read specs/Grammar.antt first. `laws` says that the reader of specs/Running.antt reads
//! that grammar; cat_syntax cites it.
#![tactic(auto)]

mod form;
pub mod laws;

pub use form::{CheckHead, Form};
