//! When states, evaluations and outcomes are the same.

ghost use Rattle.std.specs.Prelude.{◌≡◌, ◌↔◌, IsTrue};
ghost use Rattle.outcome_states.specs.declared.answer.OutcomeResult.TheVariants as results;

use crate::answer::{CountedState, Evaluation, FinalValue, Outcome, OutcomeResult, Refusal};
use text_values::are_same_names;

fn same_values(left: &[FinalValue], right: &[FinalValue]) -> bool
    ensures { IsTrue result ↔ (left.now ≡ right.now) }
{
    left == right
}

fn same_states(left: &[CountedState], right: &[CountedState]) -> bool
    ensures { IsTrue result ↔ (left.now ≡ right.now) }
{
    if left.len() != right.len() {
        return false;
    }
    for index in 0..left.len() {
        if !left[index].is_same(&right[index]) {
            return false;
        }
    }
    true
}

impl CountedState {
    /// Whether both states say the same.
    pub fn is_same(&self, other: &CountedState) -> bool
        ensures { IsTrue result ↔ (self.now ≡ other.now) }
    {
        self.count == other.count
            && self.holds == other.holds
            && same_values(&self.values, &other.values)
            && self.text.as_slice() == other.text.as_slice()
    }
}

impl Evaluation {
    /// Whether both evaluations say the same.
    pub fn is_same(&self, other: &Evaluation) -> bool
        ensures { IsTrue result ↔ (self.now ≡ other.now) }
    {
        self.positive == other.positive
            && self.negative == other.negative
            && self.observation == other.observation
            && self.ok == other.ok
            && are_same_names(&self.flags, &other.flags)
            && same_states(&self.states, &other.states)
    }
}

impl OutcomeResult {
    /// Whether both are the same refusal, or evaluations that say the same.
    pub fn is_same(&self, other: &OutcomeResult) -> bool
        ensures { IsTrue result ↔ (self.now ≡ other.now) }
    {
        match self {
            OutcomeResult::Refused(refusal) => other.is_refusal(*refusal),
            OutcomeResult::Evaluated(evaluation) => other.is_evaluation(evaluation),
        }
    }

    fn is_refusal(&self, refusal: Refusal) -> bool
        ensures { IsTrue result ↔ (results.Refused refusal ≡ self.now) }
    {
        match self {
            OutcomeResult::Refused(other) => refusal == *other,
            OutcomeResult::Evaluated(_) => false,
        }
    }

    fn is_evaluation(&self, evaluation: &Evaluation) -> bool
        ensures { IsTrue result ↔ (results.Evaluated evaluation.now ≡ self.now) }
    {
        match self {
            OutcomeResult::Refused(_) => false,
            OutcomeResult::Evaluated(other) => evaluation.is_same(other),
        }
    }
}

impl Outcome {
    /// Whether both outcomes say the same: exactly, and without memory.
    pub fn is_same(&self, other: &Outcome) -> bool
        ensures { IsTrue result ↔ (self.now ≡ other.now) }
    {
        self.kind == other.kind
            && self.condition.as_slice() == other.condition.as_slice()
            && self.result.is_same(&other.result)
    }
}
