//! What carries a step of a cycle: the innermost name of the check's expression that relates the
//! two events. Read specs/Operands first (of which names an expression is a union), then
//! specs/Labels (`IsInnermost`) and specs/Inside.
#![tactic(auto)]

mod inside;
mod label;
mod unions;

pub use inside::{body_at, names_inside};
pub use label::{EventPair, NameValues, PredefinedValue, innermost};
pub use unions::{ModelName, operands, operands_of};
