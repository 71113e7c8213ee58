//! What the program says of a test under a model.

use crate::told::{put_count, put_flag, put_verdict, told_number};
use cut_spaces::eval_cell;
use std::alloc::{AllocError, Global};
use text_values::{ModelText, Test, put_bytes};
use verdict::{Evaluation, Observation, OutcomeResult, Refusal};

fn word_of(observation: Observation) -> &'static [u8] {
    match observation {
        Observation::Never => b"Never",
        Observation::Sometimes => b"Sometimes",
        Observation::Always => b"Always",
    }
}

fn told_evaluation(alloc: Global, evaluation: &Evaluation) -> Result<Vec<u8>, AllocError> {
    let mut text = Vec::new(alloc);
    for state in &evaluation.states {
        put_bytes(&mut text, &state.text)?;
        put_count(&mut text, state.count, state.holds)?;
    }
    put_verdict(
        &mut text,
        evaluation.positive,
        evaluation.negative,
        word_of(evaluation.observation),
        evaluation.ok,
    )?;
    for name in &evaluation.flags {
        put_flag(&mut text, name.as_bytes())?;
    }
    Ok(text)
}

/// What the program says, as a line.
pub fn told(alloc: Global, test: &Test, model: &ModelText) -> Result<Vec<u8>, AllocError> {
    let outcome = eval_cell(alloc, test, model)?;
    match &outcome.result {
        OutcomeResult::Refused(Refusal::Model(fault)) => told_number(alloc, b"M", fault.number()),
        OutcomeResult::Refused(Refusal::Space(refusal)) => {
            told_number(alloc, b"E", refusal.number())
        }
        OutcomeResult::Evaluated(evaluation) => told_evaluation(alloc, evaluation),
    }
}
