//! The program of a litmus test of Power: its threads with registers, values and addresses in place
//! of names. Read specs/Lowering.antt first, then specs/Domain.antt, what a domain of values is.
#![tactic(auto)]

mod fault;
mod lowering;
mod test_runs;

pub use fault::{DomainFault, EvalRefusal};
pub use lowering::{locations_of, program};
pub use test_runs::runs;
