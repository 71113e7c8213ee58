//! The predefined names of the cat language for Power, and the table of all of them. Read
//! specs/PredefinedNames.antt: how each is spelled, and which stand for sets.
#![tactic(auto)]

pub mod laws;
mod predefined;

pub use predefined::{PREDEFINED, PREDEFINED_COUNT, Predefined};
