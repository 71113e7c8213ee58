//! The domain of a test's values, by rounds of runs. Read specs/Domain.antt of `ppc_lowering` first
//! (`IsDomain`). With it under one name stand the program of a test and the runs of its threads.
#![tactic(auto)]

mod rounds;

pub use bit_relations::MAX_EVENTS;
pub use ppc_lowering::{DomainFault, EvalRefusal, locations_of, program, runs};
pub use rounds::{MAX_COMBINATIONS, domain, domain_of};
pub use thread_runs::{
    Comparison, Domain, Event, Instruction, Line, Program, Run, RunStep, State, Value, cancels,
    is_load, runs_of,
};
