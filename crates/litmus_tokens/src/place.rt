//! Reads observables (registers and locations) and values.

ghost use Rattle.std.specs.Prelude.{◌≡◌};
ghost use Rattle.litmus_tokens.specs.Words.{register_of};
ghost use Rattle.litmus_tokens.specs.PlaceMachine.{place_start, place_step, place_of, value_read, has_thread, or_refused};
ghost use Rattle.litmus_tokens.specs.declared.place.PlaceExpectation.TheVariants.{WantsRegister};

use crate::step::StepError;
use crate::token::{Mark, Token};
use crate::word::{decimal, register_number, signed_number};
use text_values::{Name, Place, Register, Value};

/// What the reader of an observable expects next.
#[derive(Drop)]
pub enum PlaceExpectation {
    /// The first token.
    Begins,
    /// The name behind `[`.
    WantsName,
    /// The `]` behind this name.
    WantsBracket(Name),
    /// The colon behind these digits of a thread's number.
    WantsColon(Name),
    /// The register behind these digits and a colon.
    WantsRegister(Name),
}

/// An observable as the text writes it. A thread keeps its digits, since its number can have any
/// size.
#[derive(Drop)]
pub enum WrittenPlace {
    /// A location, with its brackets or without.
    Location(Name),
    /// The digits of a thread's number, and the register.
    Register(Name, Register),
}

/// The result of a step over a token.
#[derive(Drop)]
pub enum PlaceStep {
    /// The observable goes on.
    Goes(PlaceExpectation),
    /// The observable ends with this token.
    Ends(WrittenPlace),
}

impl WrittenPlace {
    /// The observable. The number of a thread that does not fit is the greatest `usize`.
    pub fn into_place(self) -> Place
        ensures { result ≡ place_of self }
    {
        match self {
            WrittenPlace::Location(name) => Place::Location(name),
            WrittenPlace::Register(thread, register) => {
                Place::Register(decimal(thread.as_bytes()), register)
            }
        }
    }
}

/// The step over a token of an observable. Errors: the token is refused, as no observable goes on
/// with it.
pub fn place_step(expected: PlaceExpectation, token: Token) -> Result<PlaceStep, StepError>
    ensures { result ≡ or_refused (place_step expected token) }
{
    match expected {
        PlaceExpectation::Begins => place_start(token),
        PlaceExpectation::WantsName => match token {
            Token::Word(name) => Ok(PlaceStep::Goes(PlaceExpectation::WantsBracket(name))),
            _ => Err(StepError::Refused),
        },
        PlaceExpectation::WantsBracket(name) => match token {
            Token::Mark(Mark::CloseBracket) => Ok(PlaceStep::Ends(WrittenPlace::Location(name))),
            _ => Err(StepError::Refused),
        },
        PlaceExpectation::WantsColon(thread) => match token {
            Token::Mark(Mark::Colon) => Ok(PlaceStep::Goes(PlaceExpectation::WantsRegister(
                thread,
            ))),
            _ => Err(StepError::Refused),
        },
        PlaceExpectation::WantsRegister(thread) => register_read(thread, token),
    }
}

// The first token of a place.
fn place_start(token: Token) -> Result<PlaceStep, StepError>
    ensures { result ≡ or_refused (place_start token) }
{
    match token {
        Token::Word(name) => Ok(PlaceStep::Ends(WrittenPlace::Location(name))),
        Token::Mark(Mark::OpenBracket) => Ok(PlaceStep::Goes(PlaceExpectation::WantsName)),
        Token::Number(false, thread) => Ok(PlaceStep::Goes(PlaceExpectation::WantsColon(thread))),
        _ => Err(StepError::Refused),
    }
}

// The register behind the digits of a thread's number and a colon.
fn register_read(thread: Name, token: Token) -> Result<PlaceStep, StepError>
    ensures { result ≡ or_refused (place_step (WantsRegister thread) token) }
{
    match token {
        Token::Word(word) => match register_of(word.as_bytes()) {
            Some(register) => Ok(PlaceStep::Ends(WrittenPlace::Register(thread, register))),
            None => Err(StepError::Refused),
        },
        _ => Err(StepError::Refused),
    }
}

/// The register that a word names, or `None`.
pub fn register_of(word: &[u8]) -> Option<Register>
    ensures { result ≡ register_of word.now }
{
    match register_number(word) {
        Some(number) => Some(Register::new(number)),
        None => None,
    }
}

/// The value that a token means: a number of 32 bits or the address of a location. Errors: another
/// token is refused.
pub fn value_read(token: Token) -> Result<Value, StepError>
    ensures { result ≡ or_refused (value_read token) }
{
    match token {
        Token::Word(name) => Ok(Value::Address(name)),
        Token::Number(is_negative, digits) => {
            match signed_number(is_negative, digits.as_bytes()) {
                Some(n) => Ok(Value::Number(n)),
                None => Err(StepError::Refused),
            }
        }
        _ => Err(StepError::Refused),
    }
}

/// Whether a token that is a number is below the number of threads; other tokens pass.
pub fn has_thread(threads: usize, token: &Token) -> bool
    ensures { result ≡ has_thread threads token.now }
{
    match token {
        Token::Number(_, digits) => decimal(digits.as_bytes()) < threads,
        _ => true,
    }
}
