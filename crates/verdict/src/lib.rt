//! The outcome of a test: the final states of the candidates that a model keeps, their counts and
//! the observation. Read specs/Evaluated.antt first (`IsEvaluation`), then specs/Meaning.antt of
//! `outcome_states` (when a state satisfies a proposition).
#![tactic(auto)]

mod judgement;
pub mod laws;

pub use judgement::{outcome, outcome_kept};
pub use outcome_states::{
    CountedState, Evaluation, FinalValue, Observable, Observation, Outcome, OutcomeResult, Raised,
    Refusal, known_value, location_of, put_location, value_shown, value_stored_at,
};
