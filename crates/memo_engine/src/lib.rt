//! A bench of memos over any texts: edits, claims, returns, and which nodes are settled. Read
//! `memo_core/specs/Graph` and `Step` first (one relation a call), then `specs/Clauses`.
#![tactic(auto)]

mod events;
mod finds;
pub mod graph;
pub mod job;
pub mod marks;
mod matched;
mod needs;
mod returns;
mod stores;
mod waiting;
pub mod witness;
mod work;
