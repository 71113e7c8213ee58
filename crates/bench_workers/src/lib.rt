//! Threads that work at a desk: each takes a job, runs it with no lock held, and returns it.
//! `with_workers` runs a body beside them and joins them all; a crew stays until it is dismissed or
//! left.
#![tactic(auto)]

mod crew;
mod gate;
mod tally;
mod worker;
mod workers;

pub use crew::{Crew, hire_crew};
pub use gate::{Gate, NoGate};
pub use tally::Tally;
pub use worker::work;
pub use workers::{MOST_WORKERS, WorkersFault, with_workers};
