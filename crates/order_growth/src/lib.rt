//! How the values of a model change from a candidate to one that has more pairs of reads-from and
//! of coherence: what a check refuses in the first it refuses in the second. It is told of
//! expressions, and those are the items of a model without fault.
//!
//! Read specs/Growth first, then specs/Within, specs/Laws and specs/Coded, the laws (`laws`). On
//! what columns and answers depend say specs/KeptLaws; what that means for the orders of stores,
//! specs/Growths and specs/CutLaws.
#![tactic(auto)]

mod cuts;
mod growth;
mod kept;
pub mod laws;

pub use cuts::refusals_are_kept;
pub use growth::{Growth, code_growth, group_growths};
pub use kept::{answers_are_kept, columns_are_kept};
