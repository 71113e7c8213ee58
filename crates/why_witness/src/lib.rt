//! Why a check refuses a candidate: a shortest cycle, an event related to itself, a pair, a member.
//! Read specs/Witnesses first: `IsExplained` says what is found, over the meaning of the check's
//! expression. Law: `laws`.
#![tactic(auto)]

pub mod laws;
mod pair;
pub mod pending;
mod value;
mod witness;

pub use pair::has_pair;
pub use value::expression_column;
pub use witness::{Witness, refusal_of};
