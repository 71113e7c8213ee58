//! Outcomes as people read them: logs, counts, tables, and where two models differ. Read
//! specs/Cells.antt first, then Log, Columns and Differences: each text is a function of what the
//! cells show.
#![tactic(auto)]

mod cell;
mod difference;
mod log;
mod table;

pub use cell::{Shown, counts_text, log_text, put_cell};
pub use difference::{
    SharedState, TestPair, cells_differ, difference_text, has_other_count, shared_states,
};
pub use log::{observation_word, outcome_log, put_refusal};
pub use table::{TestRow, table_text};
