//! The marks of a bench: which nodes are settled, and which stand on a node, by look-ups. Read
//! `specs/Marked` first: what marks show; then `specs/Users`: the users of a node. Others may cite
//! `settled` and `users`.
#![tactic(auto)]

mod marked;
mod table;

pub use marked::{Marks, settled, users};
