//! The tokens of litmus tests, which depend on the part of the text that they stand in, and the
//! reader of observables, values and propositions, token by token. Read specs/Texts.antt first (the
//! tokens of a text), then specs/Faults.antt (where a rejected text is blamed, and by which rule),
//! then specs/Conditions.antt (`IsProposition`); `condition_laws::takes_propositions` says that the
//! reader reads that grammar.
#![tactic(auto)]

mod condition;
pub mod condition_laws;
mod lexer;
mod place;
mod rule;
mod stage;
mod step;
mod token;
mod word;

pub use condition::{Expectation, Frame, PropositionStep, proposition_step};
pub use lexer::{NextLexeme, first_lexeme};
pub use place::{
    PlaceExpectation, PlaceStep, WrittenPlace, has_thread, place_step, register_of, value_read,
};
pub use rule::LitmusRule;
pub use stage::Stage;
pub use step::StepError;
pub use token::{Mark, Token};
pub use word::{
    decimal, ends_table, is_column, is_filter, is_test_name, register_number, signed_number,
};
