//! What the plain evaluator says of a test under a model.

use crate::told::{put_count, put_flag, put_verdict, told_number};
use litmus_ppc::put_place;
use plain_domains::domain::Refusal;
use plain_ends::observables::observables;
use plain_faults::fault::Fault;
use plain_machine::value::Value;
use plain_outcomes::evaluation::{Evaluation, Observation, Outcome, evaluated};
use std::alloc::{AllocError, Global};
use text_values::{Item, Place, Test, put_bytes};

fn number_of_fault(fault: Fault) -> u8 {
    match fault {
        Fault::Unbound => 1,
        Fault::Kind => 2,
        Fault::NotMonotone => 3,
        Fault::Duplicate => 4,
        Fault::SetInRec => 5,
        Fault::Arity => 6,
        Fault::TooLarge => 7,
    }
}

fn number_of_refusal(refusal: Refusal) -> u8 {
    match refusal {
        Refusal::TooManyEvents => 1,
        Refusal::TooManyValues => 2,
        Refusal::TooManyRuns => 3,
        Refusal::TooManyCandidates => 4,
        Refusal::AddressFault => 5,
        Refusal::TooManyCombinations => 6,
    }
}

fn word_of(observation: Observation) -> &'static [u8] {
    match observation {
        Observation::Never => b"Never",
        Observation::Sometimes => b"Sometimes",
        Observation::Always => b"Always",
    }
}

fn put_value(alloc: Global, text: &mut Vec<u8>, value: &Value) -> Result<(), AllocError> {
    match value {
        Value::Number(number) => {
            let signed = number.cast_signed();
            let digits = format!(in alloc; "{signed}")?;
            put_bytes(text, digits.as_bytes())
        }
        Value::Address(name) => put_bytes(text, name),
        Value::NoValue => Ok(()),
    }
}

// Puts what the observables hold, as `1:r1=0; [x]=1;`.
fn put_state(
    alloc: Global,
    text: &mut Vec<u8>,
    places: &[&Place],
    values: &[Value],
) -> Result<(), AllocError> {
    let mut is_first = true;
    for (place, value) in places.iter().zip(values) {
        if !is_first {
            put_bytes(text, b" ")?;
        }
        is_first = false;
        put_place(text, place)?;
        put_bytes(text, b"=")?;
        put_value(alloc, text, value)?;
        put_bytes(text, b";")?;
    }
    Ok(())
}

fn told_evaluation(
    alloc: Global,
    places: &[&Place],
    evaluation: &Evaluation,
) -> Result<Vec<u8>, AllocError> {
    let mut text = Vec::new(alloc);
    for state in &evaluation.states {
        put_state(alloc, &mut text, places, &state.values)?;
        put_count(&mut text, state.count as u64, state.holds)?;
    }
    put_verdict(
        &mut text,
        evaluation.positive as u64,
        evaluation.negative as u64,
        word_of(evaluation.observation),
        evaluation.ok,
    )?;
    for name in &evaluation.flags {
        put_flag(&mut text, name)?;
    }
    Ok(text)
}

/// What the plain evaluator says, as a line.
pub fn told(alloc: Global, test: &Test, items: &[Item]) -> Result<Vec<u8>, AllocError> {
    let outcome = evaluated(alloc, test, items)?;
    match &outcome {
        Outcome::Faulty(fault) => told_number(alloc, b"M", number_of_fault(*fault)),
        Outcome::Refused(refusal) => told_number(alloc, b"E", number_of_refusal(*refusal)),
        Outcome::Evaluated(evaluation) => {
            let places = observables(alloc, test)?;
            told_evaluation(alloc, &places, evaluation)
        }
    }
}
