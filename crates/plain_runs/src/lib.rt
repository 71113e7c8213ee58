//! A plain evaluator of the definitions of `meaning`: all runs of a thread over a list of values,
//! and all its free runs. Read in specs/, after Values of `plain_machine`: Runs, then Frees. The
//! locations of a test, and how many events and loads it has, have Locations and Counts.
#![tactic(auto)]

pub mod count;
pub mod free;
pub mod locations;
pub mod run;
pub mod thread;
