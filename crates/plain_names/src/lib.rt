//! A plain evaluator of the definitions of `meaning`: what the predefined names stand for over an
//! execution. Here are the events of runs with what each does, and the sets of events and the
//! relations that have predefined names. Read in specs/: Seen, Members, Related, then Named.
#![tactic(auto)]

pub mod names;
pub mod pairs;
pub mod related;
pub mod seen;
pub mod sets;
