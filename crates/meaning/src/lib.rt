//! What a test says under a model: definitions that know nothing of how the program finds it, and
//! laws of them. Read in specs/, in this order: Sets, Names, Machine, Runs, Domain, Dependencies,
//! Executions, Predefined, Cat, Faults, Refusals, Outcome, Evaluates. Laws stand in src/laws.rt,
//! and small closed examples in src/examples.rt.
#![tactic(auto)]

pub mod examples;
pub mod laws;
