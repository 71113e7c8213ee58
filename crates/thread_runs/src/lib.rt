//! One thread: its machine, its runs over a domain of values, and its free runs. Read
//! specs/Machine.antt first, then specs/Runs.antt (`AreThreadRuns`) and specs/LineByLine.antt (a
//! run, told line by line).
#![tactic(auto)]

mod enumerate;
mod free;
mod instruction;
pub mod laws;
mod location_values;
mod run;
mod state;
mod value;
mod value_set;
mod walk;

pub use enumerate::{run_count, runs_of, served_runs_of};
pub use free::{MANY, MAX_VALUES, add_stored, free_count};
pub use instruction::{Event, Instruction, Line, Program, RunStep};
pub use location_values::{are_same_values, held_values, is_same, thread_lines};
pub use run::{Domain, Run};
pub use state::{State, cancels, is_load};
pub use value::{Comparison, Value};
pub use value_set::add_value;
