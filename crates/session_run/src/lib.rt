//! Sessions over a running desk: each edit is made of the session's own texts first, which alone
//! answer it, and then at the desk; a question is answered from a board that shows these texts.
//! Read specs/Sessions first: `IsSession` says what is written.
#![tactic(auto)]

mod asking;
mod blamed;
mod commands;
mod editing;
mod fault;
mod jobs;
mod reply;
mod running;
mod state;

pub use bench_workers::{Gate, NoGate};
pub use running::{session, session_heard};
