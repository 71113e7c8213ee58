//! Logs of outcomes that are made up, and which of two texts is refused.

use binding_graph::ModelFault;
use candidates::EvalRefusal;
use cat_syntax::{CatFault, CatRule};
use command_answers::{EvalFault, eval};
use litmus_ppc::{Name, Quantifier};
use outcome_texts::outcome_log;
use std::alloc::{AllocError, Global};
use std::io;
use verdict::{CountedState, Evaluation, FinalValue, Observation, Outcome, OutcomeResult, Refusal};

fn state(alloc: Global, value: i32, text: &[u8]) -> Result<CountedState, AllocError> {
    Ok(CountedState {
        values: vec![in alloc; FinalValue::Number(value)]?,
        text: Vec::from_slice(alloc, text)?,
        count: 2,
        holds: value == 1,
    })
}

fn evaluation(alloc: Global) -> Result<Evaluation, AllocError> {
    Ok(Evaluation {
        states: vec![in alloc; state(alloc, 0, b"[x]=0;")?, state(alloc, 1, b"[x]=1;")?]?,
        positive: 2,
        negative: 2,
        observation: Observation::Sometimes,
        ok: false,
        flags: vec![in alloc; Name::new(alloc, b"first")?, Name::new(alloc, b"second")?]?,
    })
}

fn show_log<R: Print + AllocGlobal>(
    rt: &R,
    kind: Quantifier,
    found: OutcomeResult,
) -> io::Result<()> {
    let alloc = rt.alloc();
    let outcome = Outcome {
        kind,
        condition: Vec::from_slice(alloc, b"forall ([x]=1)")?,
        result: found,
    };
    match String::from_utf8(outcome_log(alloc, b"T", &outcome)?) {
        Ok(log) => rt.print(log),
        Err(_) => println!(rt; "no text"),
    }
}

fn show_refusal<R: Print + AllocGlobal>(rt: &R) -> io::Result<()> {
    match eval(rt.alloc(), b"acyclic po |", b"PPCT") {
        Err(
            EvalFault::Model(
                CatFault::Refused {
                    rule: CatRule::Syntax,
                    offset,
                },
            ),
        ) => println!(rt; "model refused first: syntax {offset}"),
        _ => println!(rt; "no refusal of the model"),
    }
}

/// Prints the logs of three outcomes, and the refusal of two texts that are both refused.
pub fn show<R: Print + AllocGlobal>(rt: &R) -> io::Result<()> {
    let found = OutcomeResult::Evaluated(evaluation(rt.alloc())?);
    show_log(rt, Quantifier::Forall, found)?;
    let found = OutcomeResult::Refused(Refusal::Model(ModelFault::NotMonotone));
    show_log(rt, Quantifier::NotExists, found)?;
    let found = OutcomeResult::Refused(Refusal::Space(EvalRefusal::TooManyCombinations));
    show_log(rt, Quantifier::Exists, found)?;
    show_refusal(rt)
}
