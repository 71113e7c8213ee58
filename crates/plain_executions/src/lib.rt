//! A plain evaluator of the definitions of `meaning`: the executions of a test, by products of
//! runs, of stores to read from and of orders of stores. Read specs/Executions first.
#![tactic(auto)]

pub mod cycle;
pub mod dependent;
pub mod execution;
pub mod order;
pub mod picked;
pub mod picked_orders;
pub mod reading;
