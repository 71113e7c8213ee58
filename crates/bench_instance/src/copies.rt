//! Copies of outcomes.

ghost use Rattle.std.specs.Prelude.{◌≡◌, IfOk};

use std::alloc::{AllocError, Global};
use text_copies::copied_names;
use verdict::{CountedState, Evaluation, Outcome, OutcomeResult};

fn copied_state(alloc: Global, state: &CountedState) -> Result<CountedState, AllocError>
    ensures { IfOk result (λ copy. copy ≡ state.now) }
{
    Ok(CountedState {
        values: Vec::from_slice(alloc, &state.values)?,
        text: Vec::from_slice(alloc, &state.text)?,
        count: state.count,
        holds: state.holds,
    })
}

fn copied_states(alloc: Global, states: &[CountedState]) -> Result<Vec<CountedState>, AllocError>
    ensures { IfOk result (λ copies. copies.items ≡ states.now) }
{
    let mut copies = Vec::new(alloc);
    for state in states {
        copies.push(copied_state(alloc, state)?)?;
    }
    Ok(copies)
}

fn copied_evaluation(alloc: Global, evaluation: &Evaluation) -> Result<Evaluation, AllocError>
    ensures { IfOk result (λ copy. copy ≡ evaluation.now) }
{
    Ok(Evaluation {
        states: copied_states(alloc, &evaluation.states)?,
        positive: evaluation.positive,
        negative: evaluation.negative,
        observation: evaluation.observation,
        ok: evaluation.ok,
        flags: copied_names(alloc, &evaluation.flags)?,
    })
}

fn copied_result(alloc: Global, made: &OutcomeResult) -> Result<OutcomeResult, AllocError>
    ensures { IfOk result (λ copy. copy ≡ made.now) }
{
    match made {
        OutcomeResult::Refused(refusal) => Ok(OutcomeResult::Refused(*refusal)),
        OutcomeResult::Evaluated(evaluation) => Ok(OutcomeResult::Evaluated(copied_evaluation(
            alloc, evaluation,
        )?)),
    }
}

/// The same outcome once more. Errors: want of memory.
pub(crate) fn copied(alloc: Global, outcome: &Outcome) -> Result<Outcome, AllocError>
    ensures { IfOk result (λ copy. copy ≡ outcome.now) }
{
    Ok(Outcome {
        kind: outcome.kind,
        condition: Vec::from_slice(alloc, &outcome.condition)?,
        result: copied_result(alloc, &outcome.result)?,
    })
}
