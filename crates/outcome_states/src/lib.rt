//! What an outcome holds, and the final states of the candidates that a model keeps: their values,
//! texts and counts. Read specs/Final.antt first, then specs/Meaning.antt (when a state satisfies a
//! proposition).
#![tactic(auto)]

mod answer;
pub mod final_states;
mod formula;
mod observable;
mod raised;
mod same;
pub mod state_text;

pub use answer::{
    CountedState, Evaluation, FinalValue, Observation, Outcome, OutcomeResult, Refusal,
};
pub use final_states::{StateCounts, value_shown, value_stored_at};
pub use formula::{Formula, formula_over, known_value, satisfies};
pub use observable::{Observable, location_of, shown_observables};
pub use raised::Raised;
pub use state_text::put_location;
