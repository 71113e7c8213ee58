//! Why a check refuses an execution, as text. Read specs/Events first (the line of an event), then
//! specs/Reasons and specs/Findings. `laws` says that no two events have one name.
//!
//! With it stand the instruction that each event comes from (specs/Origins, then specs/OfRuns, and
//! the law in `origin_laws`), and whether the state in which an execution ends satisfies a
//! proposition.
#![tactic(auto)]

mod event;
mod events;
mod finding;
pub mod laws;
pub mod origin_laws;
mod reason;
mod runs;
mod satisfied;

pub use event::{Telling, ToldEvent, put_action, put_event, put_events, put_instruction, put_name};
pub use events::instructions_of;
pub use finding::{Findings, put_findings};
pub use reason::{Reason, ToldStep, put_reason};
pub use runs::all_runs;
pub use satisfied::is_satisfied;
