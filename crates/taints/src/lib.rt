//! Which loads reach each register and each event of a run, found in one pass. Read specs/Chains
//! first, how a value goes from one instruction to another, then specs/Taints.
#![tactic(auto)]

mod lists;
mod taints;

pub use lists::{Dependencies, Links, add_pairs};
pub use taints::{
    Columns, Taints, clean, is_event, no_taints, note, operands, reach, registers_fit,
};
