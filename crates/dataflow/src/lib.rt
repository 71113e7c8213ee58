//! Dependencies between the events of a run. Read specs/Chains of `taints`
//! first, then specs/Dependencies.
#![tactic(auto)]

pub mod laws;
mod pass;

pub use pass::{Workspace, links};
pub use taints::{Dependencies, Links, add_pairs};
