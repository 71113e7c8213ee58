//! A plain evaluator of the definitions of `meaning`: the combinations of a run of each thread, the
//! events of runs, what each does, which stores a load may read, and how the values of loads reach
//! later instructions. Read in specs/: Choices and Combinations, Events, then Slots and Reaching.
#![tactic(auto)]

pub mod action;
pub mod chain;
pub mod choice;
pub mod combination;
pub mod dependency;
pub mod event;
pub mod node;
pub mod picked;
pub mod slot;
