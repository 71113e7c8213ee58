//! Sets of events and relations between them, on up to 128 events.
//!
//! The operations are those of relational algebra, as in Alglave, Maranget and Tautschnig, Herding
//! Cats, TOPLAS 36(2), 2014. Read specs/Relation of `bit_rows` first, then its specs/Pairs: the
//! pairs that each operation makes.
#![tactic(auto)]

mod rel;
mod rows;
mod set;

pub use bit_rows::{MAX_EVENTS, lanes};
pub use rel::Rel;
pub use set::EventSet;
