//! The reader of the table of threads, token by token, and the checks of its labels. Read
//! specs/Grammar.antt first; `laws` says that the reader reads that grammar, and specs/Checks.antt
//! what the checks of labels are.
#![tactic(auto)]

mod late;
pub mod laws;
mod table;

pub use late::LateFault;
pub use litmus_words::{DataOpcode, Opcode, Want};
pub use table::Table;
