//! Lists of paths: a text with one path a line. Read `list_entries` and `inner_files`, and
//! specs/Lists first.
#![tactic(auto)]

mod entry;
mod file;

pub use entry::{ListEntry, list_entries};
pub use file::{InnerListFault, WantedFile, file_of_entry, file_of_word, inner_files};
