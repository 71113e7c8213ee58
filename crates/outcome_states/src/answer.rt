//! The outcome of a test under a model.

use binding_graph::ModelFault;
use candidates::EvalRefusal;
use std::marker::Model;
use text_values::{Name, Quantifier};

/// The final value of a register or a location. Their order: numbers, rising; then addresses, by
/// the names of their locations; then no value.
#[derive(Clone, Copy, PartialEq, Eq, PartialOrd, Ord)]
pub enum FinalValue {
    /// A number of 32 bits.
    Number(i32),
    /// The address of a location, by its index among the locations of the test, sorted by name
    /// bytes.
    Address(usize),
    /// The result of an operation that has no value, such as the sum of two addresses.
    NoValue,
}

/// A final state of kept candidates. Contracts see it as plain data.
#[derive(Drop)]
pub struct CountedState {
    /// The values of the observables: registers by thread and number, then locations by name.
    pub values: Vec<FinalValue>,
    /// The printed state, as `1:r1=0; [x]=1;`.
    pub text: Vec<u8>,
    /// The number of kept candidates that end in the state, at least 1.
    pub count: u64,
    /// Whether the state satisfies the proposition of the condition.
    pub holds: bool,
}

impl Model for CountedState {
    ghost use Rattle.outcome_states.specs.EvaluationContent.{StateContent};

    ghost Value = { StateContent };

    ghost view = { λ s.
        record { values = s.values.items; text = s.text.items; count = s.count; holds = s.holds } };
}

/// In how many kept candidates the proposition holds.
#[derive(Clone, Copy, Debug, PartialEq, Eq)]
pub enum Observation {
    /// In none.
    Never,
    /// In some, but not in all.
    Sometimes,
    /// In all; there is at least one.
    Always,
}

/// The evaluation of a condition on the candidates that the checks keep. Contracts see it as plain
/// data.
#[derive(Drop)]
pub struct Evaluation {
    /// The final states, rising by their values.
    pub states: Vec<CountedState>,
    /// The number of kept candidates that satisfy the proposition.
    pub positive: u64,
    /// The number of kept candidates that do not.
    pub negative: u64,
    /// Never, sometimes or always, by the two numbers.
    pub observation: Observation,
    /// Whether the condition holds.
    pub ok: bool,
    /// The raised flags, in the order of the items that raise them first, each name once.
    pub flags: Vec<Name>,
}

impl Model for Evaluation {
    ghost use Rattle.outcome_states.specs.EvaluationContent.{EvaluationContent};

    ghost Value = { EvaluationContent };

    ghost view = { λ e. record {
      states = e.states.items;
      positive = e.positive;
      negative = e.negative;
      observation = e.observation;
      ok = e.ok;
      flags = e.flags.items;
    } };
}

/// Why a test has no evaluation under a model.
#[derive(Clone, Copy, PartialEq, Eq)]
pub enum Refusal {
    /// A fault of the model.
    Model(ModelFault),
    /// A limit that the test exceeds, or an access to an address that no location has.
    Space(EvalRefusal),
}

/// An evaluation, or the reason that there is none.
#[derive(Drop)]
pub enum OutcomeResult {
    /// The model has a fault, or the test is refused.
    Refused(Refusal),
    /// The evaluation.
    Evaluated(Evaluation),
}

/// The outcome of a test under a model, as herd7 reports it (the herd7 manual, chapter on litmus
/// tests). Contracts see it as plain data.
pub struct Outcome {
    /// The quantifier of the test's condition.
    pub kind: Quantifier,
    /// The printed condition.
    pub condition: Vec<u8>,
    /// The evaluation or the refusal.
    pub result: OutcomeResult,
}

impl Drop for Outcome {
    fn drop(self) {
        let Outcome {
            kind: _,
            condition: _,
            result: _,
        } = self;
    }
}

impl Model for Outcome {
    ghost use Rattle.outcome_states.specs.OutcomeContent.{OutcomeContent};

    ghost Value = { OutcomeContent };

    ghost view = { λ o.
        record { kind = o.kind; condition = o.condition.items; result = o.result } };
}
