//! Outcomes as `verdict` finds them, under answers to checks and flags that the question gives.

use crate::cases::put_bool;
use candidates::space;
use litmus_ppc::{Name, Test, read_test};
use std::alloc::{AllocError, Global};
use text_values::{put_bytes, put_decimal};
use verdict::{CountedState, Evaluation, Observation, OutcomeResult, Raised, outcome};

/// A flag's name, and for each candidate whether it is raised.
#[derive(Drop)]
struct Flag {
    name: Name,
    holds: Vec<bool>,
}

/// The answers that a word of 0 and 1 spells.
fn answers_of(alloc: Global, word: &str) -> Result<Vec<bool>, AllocError> {
    let mut answers = Vec::new(alloc);
    for byte in word.bytes() {
        answers.push(byte == b'1')?;
    }
    Ok(answers)
}

/// The answers to the checks that words give.
fn checks_of(alloc: Global, words: &str) -> Result<Vec<Vec<bool>>, AllocError> {
    let mut checks = Vec::new(alloc);
    for word in words.split_whitespace() {
        if word.split_once('=').is_none() {
            checks.push(answers_of(alloc, word)?)?;
        }
    }
    Ok(checks)
}

/// The flags that words `NAME=ANSWERS` give.
fn flags_of(alloc: Global, words: &str) -> Result<Vec<Flag>, AllocError> {
    let mut flags = Vec::new(alloc);
    for word in words.split_whitespace() {
        if let Some((name, answers)) = word.split_once('=') {
            let name = Name::new(alloc, name.as_bytes())?;
            let holds = answers_of(alloc, answers)?;
            flags.push(Flag { name, holds })?;
        }
    }
    Ok(flags)
}

/// The answers, to look at.
fn lent(alloc: Global, checks: &[Vec<bool>]) -> Result<Vec<&[bool]>, AllocError> {
    let mut lent = Vec::new(alloc);
    for check in checks {
        lent.push(check.as_slice())?;
    }
    Ok(lent)
}

fn raised(alloc: Global, flags: &[Flag]) -> Result<Vec<Raised<'_>>, AllocError> {
    let mut list = Vec::new(alloc);
    for flag in flags {
        list.push(Raised {
            name: &flag.name,
            holds: &flag.holds,
        })?;
    }
    Ok(list)
}

fn observation_word(observation: Observation) -> &'static [u8] {
    match observation {
        Observation::Never => b", Never",
        Observation::Sometimes => b", Sometimes",
        Observation::Always => b", Always",
    }
}

fn put_state(answer: &mut Vec<u8>, state: &CountedState) -> Result<(), AllocError> {
    put_bytes(answer, &state.text)?;
    put_bytes(answer, b" ")?;
    put_decimal(answer, state.count)?;
    put_bytes(answer, b" ")?;
    put_bool(answer, state.holds)?;
    put_bytes(answer, b"\n")
}

/// Appends how many candidates satisfy the condition, what that means, and the flags.
pub fn put_counts(answer: &mut Vec<u8>, found: &Evaluation) -> Result<(), AllocError> {
    put_bytes(answer, b"positive ")?;
    put_decimal(answer, found.positive)?;
    put_bytes(answer, b", negative ")?;
    put_decimal(answer, found.negative)?;
    put_bytes(answer, observation_word(found.observation))?;
    put_bytes(answer, b", ok ")?;
    put_bool(answer, found.ok)?;
    for flag in &found.flags {
        put_bytes(answer, b", flag ")?;
        put_bytes(answer, flag.as_bytes())?;
    }
    Ok(())
}

fn put_evaluation(answer: &mut Vec<u8>, found: &Evaluation) -> Result<(), AllocError> {
    for state in &found.states {
        put_state(answer, state)?;
    }
    put_counts(answer, found)
}

fn put_outcome_of(
    alloc: Global,
    answer: &mut Vec<u8>,
    words: &str,
    test: &Test,
) -> Result<(), AllocError> {
    let checks = checks_of(alloc, words)?;
    let flags = flags_of(alloc, words)?;
    let list = raised(alloc, &flags)?;
    match space(alloc, test) {
        Ok(space) => {
            let condition = &test.condition;
            let lent = lent(alloc, &checks)?;
            let found = outcome(alloc, &space, condition, &test.observed, &lent, &list)?;
            match &found.result {
                OutcomeResult::Evaluated(evaluation) => put_evaluation(answer, evaluation),
                OutcomeResult::Refused(_) => put_bytes(answer, b"refused"),
            }
        }
        Err(_) => put_bytes(answer, b"no candidates"),
    }
}

/// Appends the outcome of a test: each state with its count and whether it satisfies the condition,
/// and what stands under them.
pub fn put_outcome(
    alloc: Global,
    answer: &mut Vec<u8>,
    words: &str,
    text: &[u8],
) -> Result<(), AllocError> {
    match read_test(alloc, text) {
        Ok(test) => put_outcome_of(alloc, answer, words, &test),
        Err(_) => put_bytes(answer, b"no test"),
    }
}
