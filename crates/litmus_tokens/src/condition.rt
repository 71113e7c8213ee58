//! Reads propositions, token by token.

ghost use Rattle.std.specs.Prelude.{◌≡◌, ◌∷◌, IfOk};
ghost use Rattle.text_values.specs.TestValue.{formula_of};
ghost use Rattle.litmus_tokens.specs.Conditions.{condition_limits, constant_word};
ghost use Rattle.litmus_tokens.specs.PlaceMachine.{place_step};
ghost use Rattle.litmus_tokens.specs.ConditionMachine.{Goes, Wants, open_count, condition_opened, fold_to, expected_after_word, expected_after_place, operand, joins, condition_closed, condition_ended, behind_operand, is_equals, after_constant, after_not, after_place, proposition_step};
ghost use Rattle.litmus_tokens.specs.ConditionReading.{frame_of, condition_stack_of, condition_expectation_of, StepsCondition, ReadsPlace};

use crate::place::{PlaceExpectation, PlaceStep, place_step, value_read};
use crate::step::StepError;
use crate::token::{Mark, Token};
use crate::word::decimal;
use std::alloc::{AllocError, Global};
use text_values::{Connective, Name, Place, Proposition};

// How many parentheses and prefixes may be open at once.
const MAX_NESTING: usize = 64;

// How many binary operators a proposition may have.
const MAX_OPERATORS: usize = 1024;

/// What is open to the left of a token.
#[derive(Drop)]
pub enum Frame {
    /// `(`
    Group,
    /// `not` or `~`
    Prefix,
    /// An operator with its left operand.
    Left(Connective, Proposition),
}

/// What the reader expects next, with what it read last. The words `true`, `false` and `not` are
/// decided at the token behind them: before an equals sign they are locations.
#[derive(Drop)]
pub enum Expectation {
    /// An operand.
    Wants,
    /// The token behind the word `true` or `false`.
    HasConstant(bool),
    /// The token behind the word `not`.
    HasNot,
    /// The next token of an observable.
    InPlace(PlaceExpectation),
    /// The equals sign behind an observable.
    WantsEquals(Place),
    /// The value behind an observable and its equals sign.
    WantsValue(Place),
    /// An operator, a `)` or the end, behind an operand.
    Has(Proposition),
}

/// The result of a step over a token.
#[derive(Drop)]
pub enum PropositionStep {
    /// The proposition goes on: the open frames, the number of operators so far, and what is
    /// expected.
    Goes(Vec<Frame>, usize, Expectation),
    /// The text has ended, and with it the proposition.
    Ends(Proposition),
}

impl Frame {
    ghost use Rattle.litmus_tokens.specs.ConditionReading.{is_open};

    // Whether it counts as open.
    fn is_open(&self) -> bool
        ensures { result ≡ is_open self.now }
    {
        match self {
            Frame::Group => true,
            Frame::Prefix => true,
            Frame::Left(_, _) => false,
        }
    }
}

// Joins the operand with what binds at least this tightly to its left.
fn joined(
    alloc: Global,
    level: usize,
    frames: &mut Vec<Frame>,
    operand: Proposition,
) -> Result<Proposition, AllocError>
    ensures { IfOk result (λ v. fold_to level (condition_stack_of frames.old.items)
        (formula_of operand)
        ≡ (condition_stack_of frames.new.items, formula_of v)) }
{
    let mut operand = operand;
    while let Some(frame) = frames.pop() {
        match frame {
            Frame::Prefix => operand = Proposition::Not(Box::new(alloc, operand)?),
            Frame::Left(connective, left) => {
                if level <= connective.level() {
                    let left = Box::new(alloc, left)?;
                    operand = Proposition::Joined(connective, left, Box::new(alloc, operand)?);
                } else {
                    frames.push(Frame::Left(connective, left))?;
                    return Ok(operand);
                }
            }
            Frame::Group => {
                frames.push(Frame::Group)?;
                return Ok(operand);
            }
        }
    }
    Ok(operand)
}

// How many parentheses and prefixes are open.
fn open_frames(frames: &[Frame]) -> usize
    ensures { result ≡ open_count (condition_stack_of frames.now) }
{
    frames.iter().filter(|f| f.is_open()).count()
}

// Opens a parenthesis or a prefix.
fn opened(frames: Vec<Frame>, operators: usize, frame: Frame) -> Result<PropositionStep, StepError>
    ensures { StepsCondition result (condition_opened condition_limits
        (condition_stack_of frames.items) (Goes
        (frame_of frame ∷ condition_stack_of frames.items) operators Wants)) }
{
    let mut frames = frames;
    if open_frames(&frames) >= MAX_NESTING {
        return Err(StepError::Refused);
    }
    frames.push(frame)?;
    Ok(PropositionStep::Goes(frames, operators, Expectation::Wants))
}

// A token where an operand is wanted.
fn operand(
    threads: usize,
    frames: Vec<Frame>,
    operators: usize,
    token: Token,
) -> Result<PropositionStep, StepError>
    ensures { StepsCondition result (operand condition_limits threads
        (condition_stack_of frames.items) operators token) }
{
    match token {
        Token::Word(name) => Ok(PropositionStep::Goes(
            frames,
            operators,
            expected_after_word(name),
        )),
        Token::Mark(Mark::Tilde) => opened(frames, operators, Frame::Prefix),
        Token::Mark(Mark::Open) => opened(frames, operators, Frame::Group),
        Token::Mark(Mark::OpenBracket) => {
            let expected = Expectation::InPlace(PlaceExpectation::WantsName);
            Ok(PropositionStep::Goes(frames, operators, expected))
        }
        Token::Number(false, thread) => {
            if decimal(thread.as_bytes()) >= threads {
                return Err(StepError::Refused);
            }
            let expected = Expectation::InPlace(PlaceExpectation::WantsColon(thread));
            Ok(PropositionStep::Goes(frames, operators, expected))
        }
        _ => Err(StepError::Refused),
    }
}

// What a word may begin.
fn expected_after_word(name: Name) -> Expectation
    ensures { condition_expectation_of result ≡ expected_after_word name }
{
    let word = name.as_bytes();
    if word == b"true".as_slice() {
        return Expectation::HasConstant(true);
    }
    if word == b"false".as_slice() {
        return Expectation::HasConstant(false);
    }
    if word == b"not".as_slice() {
        return Expectation::HasNot;
    }
    Expectation::WantsEquals(Place::Location(name))
}

// A token within a place.
fn place_read(within: PlaceExpectation, token: Token) -> Result<Expectation, StepError>
    ensures { ReadsPlace result (expected_after_place (place_step within token)) }
{
    match place_step(within, token) {
        Ok(PlaceStep::Goes(expected)) => Ok(Expectation::InPlace(expected)),
        Ok(PlaceStep::Ends(written)) => Ok(Expectation::WantsEquals(written.into_place())),
        Err(e) => Err(e),
    }
}

// A binary operator behind an operand.
fn joins(
    alloc: Global,
    frames: Vec<Frame>,
    operators: usize,
    left: Proposition,
    connective: Connective,
) -> Result<PropositionStep, StepError>
    ensures { StepsCondition result (joins condition_limits
        (condition_stack_of frames.items) operators (formula_of left)
        connective) }
{
    let mut frames = frames;
    if operators >= MAX_OPERATORS {
        return Err(StepError::Refused);
    }
    let left = joined(alloc, connective.level() + 1, &mut frames, left)?;
    frames.push(Frame::Left(connective, left))?;
    Ok(PropositionStep::Goes(frames, operators + 1, Expectation::Wants))
}

// A closing parenthesis behind an operand.
fn closed(
    alloc: Global,
    frames: Vec<Frame>,
    operators: usize,
    operand: Proposition,
) -> Result<PropositionStep, StepError>
    ensures { StepsCondition result (condition_closed operators
        (fold_to 0 (condition_stack_of frames.items) (formula_of operand))) }
{
    let mut frames = frames;
    let operand = joined(alloc, 0, &mut frames, operand)?;
    match frames.pop() {
        None => Err(StepError::Refused),
        Some(Frame::Group) => Ok(PropositionStep::Goes(
            frames,
            operators,
            Expectation::Has(operand),
        )),
        Some(Frame::Prefix) => Err(StepError::Refused),
        Some(Frame::Left(_, _)) => Err(StepError::Refused),
    }
}

// The end of the text behind an operand.
fn ended(
    alloc: Global,
    frames: Vec<Frame>,
    operand: Proposition,
) -> Result<PropositionStep, StepError>
    ensures { StepsCondition result (condition_ended (fold_to 0 (condition_stack_of frames.items)
        (formula_of operand))) }
{
    let mut frames = frames;
    let operand = joined(alloc, 0, &mut frames, operand)?;
    match frames.pop() {
        Some(_) => Err(StepError::Refused),
        None => Ok(PropositionStep::Ends(operand)),
    }
}

// A token behind an operand.
fn behind(
    alloc: Global,
    frames: Vec<Frame>,
    operators: usize,
    operand: Proposition,
    token: Token,
) -> Result<PropositionStep, StepError>
    ensures { StepsCondition result (behind_operand condition_limits
        (condition_stack_of frames.items) operators (formula_of operand)
        token) }
{
    match token {
        Token::Mark(Mark::And) => joins(alloc, frames, operators, operand, Connective::And),
        Token::Mark(Mark::Or) => joins(alloc, frames, operators, operand, Connective::Or),
        Token::Mark(Mark::Implies) => joins(alloc, frames, operators, operand, Connective::Implies),
        Token::Mark(Mark::Close) => closed(alloc, frames, operators, operand),
        Token::End => ended(alloc, frames, operand),
        _ => Err(StepError::Refused),
    }
}

fn is_equals(token: &Token) -> bool
    ensures { result ≡ is_equals token.now }
{
    match token {
        Token::Mark(Mark::Equals) => true,
        _ => false,
    }
}

fn constant_name(alloc: Global, value: bool) -> Result<Name, AllocError>
    ensures { IfOk result (λ n. n ≡ constant_word value) }
{
    Name::new(alloc, if value { b"true" } else { b"false" })
}

// A token behind the word `true` or `false`.
fn after_constant(
    alloc: Global,
    frames: Vec<Frame>,
    operators: usize,
    value: bool,
    token: Token,
) -> Result<PropositionStep, StepError>
    ensures { StepsCondition result (after_constant condition_limits
        (condition_stack_of frames.items) operators value token) }
{
    if is_equals(&token) {
        let place = Place::Location(constant_name(alloc, value)?);
        return Ok(PropositionStep::Goes(frames, operators, Expectation::WantsValue(place)));
    }
    behind(
        alloc,
        frames,
        operators,
        Proposition::Constant(value),
        token,
    )
}

// A token behind the word `not`.
fn after_not(
    alloc: Global,
    threads: usize,
    frames: Vec<Frame>,
    operators: usize,
    token: Token,
) -> Result<PropositionStep, StepError>
    ensures { StepsCondition result (after_not condition_limits threads
        (condition_stack_of frames.items) operators token) }
{
    if is_equals(&token) {
        let place = Place::Location(Name::new(alloc, b"not")?);
        return Ok(PropositionStep::Goes(frames, operators, Expectation::WantsValue(place)));
    }
    let mut frames = frames;
    if open_frames(&frames) >= MAX_NESTING {
        return Err(StepError::Refused);
    }
    frames.push(Frame::Prefix)?;
    operand(threads, frames, operators, token)
}

// A token behind a place.
fn after_place(
    frames: Vec<Frame>,
    operators: usize,
    place: Place,
    token: Token,
) -> Result<PropositionStep, StepError>
    ensures { StepsCondition result (after_place (condition_stack_of frames.items) operators place
        token) }
{
    if is_equals(&token) {
        Ok(PropositionStep::Goes(frames, operators, Expectation::WantsValue(place)))
    } else {
        Err(StepError::Refused)
    }
}

/// The step over a token of a proposition, in a test of so many threads: `frames` are open, the
/// innermost last, and `operators` counts the operators so far. Errors: out of memory, or the token
/// is refused, as no proposition within the limits goes on with it.
pub fn proposition_step(
    alloc: Global,
    threads: usize,
    frames: Vec<Frame>,
    operators: usize,
    expected: Expectation,
    token: Token,
) -> Result<PropositionStep, StepError>
    ensures { StepsCondition result (proposition_step condition_limits threads
        (condition_stack_of frames.items) operators
        (condition_expectation_of expected) token) }
{
    match expected {
        Expectation::Wants => operand(threads, frames, operators, token),
        Expectation::HasConstant(value) => after_constant(alloc, frames, operators, value, token),
        Expectation::HasNot => after_not(alloc, threads, frames, operators, token),
        Expectation::InPlace(within) => match place_read(within, token) {
            Ok(expected) => Ok(PropositionStep::Goes(frames, operators, expected)),
            Err(e) => Err(e),
        },
        Expectation::WantsEquals(place) => after_place(frames, operators, place, token),
        Expectation::WantsValue(place) => match value_read(token) {
            Ok(value) => {
                let atom = Proposition::Holds(place, value);
                Ok(PropositionStep::Goes(frames, operators, Expectation::Has(atom)))
            }
            Err(e) => Err(e),
        },
        Expectation::Has(operand) => behind(alloc, frames, operators, operand, token),
    }
}
