//! Propositions as `litmus_tokens` reads them, token by token, in a test of two threads.

use litmus_tokens::{
    Expectation, NextLexeme, PropositionStep, Stage, StepError, Token, first_lexeme,
    proposition_step,
};
use std::alloc::{AllocError, Global};
use text_values::{Connective, Place, Proposition, Value, put_bytes, put_decimal};

/// What became of a text.
#[derive(Drop)]
enum Outcome {
    Means(Proposition),
    RefusedAt(usize),
}

/// The token that stands at an offset, if no blanks do, and how many bytes it takes.
fn token_at(
    alloc: Global,
    text: &[u8],
    offset: usize,
) -> Result<(Option<Token>, usize), AllocError> {
    if offset >= text.len() {
        return Ok((Some(Token::End), 1));
    }
    match first_lexeme(alloc, Stage::Tail, false, &text[offset..])? {
        NextLexeme::Layout(n) => Ok((None, n)),
        NextLexeme::Lexeme(token, n) => Ok((Some(token), n)),
    }
}

/// Takes the tokens of a text one after another.
fn read(alloc: Global, text: &[u8]) -> Result<Outcome, AllocError> {
    let mut frames = Vec::new(alloc);
    let mut operators = 0;
    let mut expected = Expectation::Wants;
    let mut offset: usize = 0;
    for _turn in 0..text.len().saturating_add(1) {
        let (found, length) = token_at(alloc, text, offset)?;
        if let Some(token) = found {
            match proposition_step(alloc, 2, frames, operators, expected, token) {
                Ok(PropositionStep::Goes(now_open, used, was_read)) => {
                    frames = now_open;
                    operators = used;
                    expected = was_read;
                }
                Ok(PropositionStep::Ends(proposition)) => return Ok(Outcome::Means(proposition)),
                Err(StepError::Refused) => return Ok(Outcome::RefusedAt(offset)),
                Err(StepError::OutOfMemory) => return Err(AllocError),
            }
        }
        offset = offset.saturating_add(length);
    }
    Ok(Outcome::RefusedAt(offset))
}

fn put_place(text: &mut Vec<u8>, place: &Place) -> Result<(), AllocError> {
    match place {
        Place::Location(name) => put_bytes(text, name.as_bytes()),
        Place::Register(thread, register) => {
            put_decimal(text, *thread as u64)?;
            put_bytes(text, b":")?;
            put_decimal(text, register.number() as u64)
        }
    }
}

fn put_value(text: &mut Vec<u8>, value: &Value) -> Result<(), AllocError> {
    match value {
        Value::Address(name) => put_bytes(text, name.as_bytes()),
        Value::Number(n) => {
            if *n < 0 {
                put_bytes(text, b"-")?;
            }
            put_decimal(text, n.unsigned_abs() as u64)
        }
    }
}

/// Appends a proposition with each operator before its operands, in parentheses.
fn put(text: &mut Vec<u8>, proposition: &Proposition) -> Result<(), AllocError> {
    match proposition {
        Proposition::Constant(true) => put_bytes(text, b"T"),
        Proposition::Constant(false) => put_bytes(text, b"F"),
        Proposition::Holds(place, value) => {
            put_place(text, place)?;
            put_bytes(text, b"=")?;
            put_value(text, value)
        }
        Proposition::Not(operand) => {
            put_bytes(text, b"(- ")?;
            put(text, operand)?;
            put_bytes(text, b")")
        }
        Proposition::Joined(connective, left, right) => {
            let sign = match connective {
                Connective::And => b"(& ",
                Connective::Or => b"(| ",
                Connective::Implies => b"(> ",
            };
            put_bytes(text, sign)?;
            put(text, left)?;
            put_bytes(text, b" ")?;
            put(text, right)?;
            put_bytes(text, b")")
        }
    }
}

fn put_offset(answer: &mut Vec<u8>, offset: usize) -> Result<(), AllocError> {
    put_bytes(answer, b"refused at ")?;
    put_decimal(answer, offset as u64)
}

/// Appends what a text means, or where it is refused.
pub fn put_meaning(alloc: Global, answer: &mut Vec<u8>, text: &[u8]) -> Result<(), AllocError> {
    match read(alloc, text)? {
        Outcome::Means(proposition) => put(answer, &proposition),
        Outcome::RefusedAt(offset) => put_offset(answer, offset),
    }
}

/// Appends that a text is read, or where it is refused.
pub fn put_outcome(alloc: Global, answer: &mut Vec<u8>, text: &[u8]) -> Result<(), AllocError> {
    match read(alloc, text)? {
        Outcome::Means(_) => put_bytes(answer, b"read"),
        Outcome::RefusedAt(offset) => put_offset(answer, offset),
    }
}
