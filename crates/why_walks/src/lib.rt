//! Why a composition relates an event to itself: a walk through its factors. Read specs/Factors
//! first (which they are), then specs/Walks. Laws: `laws`, by specs/Found.
#![tactic(auto)]

mod factor;
pub mod laws;
mod run;
mod value;

pub use factor::{Factor, Repeats, factors};
pub use run::{Link, walk};
pub use value::{FactorValues, factor_values, links_at};
