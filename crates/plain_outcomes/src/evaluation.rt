//! What a test says under a model.

ghost use Rattle.std.specs.Prelude.{◌≡◌, [], map, IfOk};
ghost use Rattle.text_values.specs.ModelValues.{clauses_of};
ghost use Rattle.text_values.specs.TestValue.{content_of};
ghost use Rattle.meaning.specs.Sets.{IsListOf};
ghost use Rattle.meaning.specs.Executions.{IsExecution};
ghost use Rattle.meaning.specs.Faults as model_faults;
ghost use Rattle.meaning.specs.Outcome as outcome;
ghost use Rattle.meaning.specs.Outcome.{Says};
ghost use Rattle.meaning.specs.Evaluates.{IsKept, MeetsFlag, Evaluates};
ghost use Rattle.plain_executions.specs.Executions.{execution_as};
ghost use Rattle.plain_outcomes.specs.Outcomes.{observation_as, evaluation_as, outcome_as};

use crate::flags::flags_of;
use crate::kept::kept_of;
use crate::states::{CountedState, count_holding, counted_states, sorted_states};
use meaning_laws::test_is_of_words;
use plain_domains::domain::Refusal;
use plain_executions::execution::{Execution, executions};
use plain_faults::fault::Fault;
use plain_faults::model::faults;
use std::alloc::{AllocError, Global};
use text_values::{Item, Quantifier, Test};

/// In how many of the kept executions the proposition holds.
#[derive(Clone, Copy)]
pub enum Observation {
    /// In none.
    Never,
    /// In some, and not in all.
    Sometimes,
    /// In all, of which there are some.
    Always,
}

/// What the kept executions of a test say.
#[derive(Drop)]
pub struct Evaluation<'a> {
    /// The final states, in their order.
    pub states: Vec<CountedState<'a>>,
    /// In how many kept executions the proposition holds.
    pub positive: usize,
    /// In how many it does not.
    pub negative: usize,
    /// The Observation.
    pub observation: Observation,
    /// Whether the condition is met.
    pub ok: bool,
    /// The names of the flags that are raised, each once.
    pub flags: Vec<&'a [u8]>,
}

/// What a test says under a model.
#[derive(Drop)]
pub enum Outcome<'a> {
    /// The model has this fault.
    Faulty(Fault),
    /// The test is refused so.
    Refused(Refusal),
    /// The kept executions say this.
    Evaluated(Evaluation<'a>),
}

fn observation_of(positive: usize, negative: usize) -> Observation
    ensures { observation_as result ≡ outcome.observation_of positive negative }
{
    if positive == 0 {
        return Observation::Never;
    }
    if negative == 0 {
        return Observation::Always;
    }
    Observation::Sometimes
}

fn is_met(quantifier: Quantifier, positive: usize, negative: usize) -> bool
    ensures { result ≡ outcome.is_met quantifier positive negative }
{
    match quantifier {
        Quantifier::Exists => positive > 0,
        Quantifier::NotExists => positive == 0,
        Quantifier::Forall => negative == 0,
    }
}

// What the executions of a test say under a model without faults. Errors: want of memory, as in all
// that follows.
fn evaluation_of<'a>(
    alloc: Global,
    test: &'a Test,
    items: &'a [Item],
    executions: &[Execution<'a>],
) -> Result<Evaluation<'a>, AllocError>
    requires faultless { model_faults.faults (clauses_of items.now) ≡ [] }
    requires executions { IsListOf (IsExecution (content_of test.now))
        (map execution_as executions.now) }
    ensures { IfOk result (λ e. Says (content_of test.entry.now) (clauses_of items.entry.now)
        (IsKept (content_of test.entry.now) (clauses_of items.entry.now))
        (MeetsFlag (content_of test.entry.now) (clauses_of items.entry.now))
        (evaluation_as e)) }
{
    test_is_of_words(test);
    let kept = kept_of(alloc, test, items, executions)?;
    let sorted = sorted_states(alloc, &kept.ends)?;
    let states = counted_states(alloc, &kept.ends, &sorted)?;
    let flags = flags_of(alloc, items, &kept.raised)?;
    let positive = count_holding(&kept.ends, true);
    let negative = count_holding(&kept.ends, false);
    Ok(Evaluation {
        states,
        positive,
        negative,
        observation: observation_of(positive, negative),
        ok: is_met(test.condition.quantifier, positive, negative),
        flags,
    })
}

/// What a test says under a model: the first fault of the model, the refusal of the test, or what
/// its kept executions say. Errors: want of memory.
pub fn evaluated<'a>(
    alloc: Global,
    test: &'a Test,
    items: &'a [Item],
) -> Result<Outcome<'a>, AllocError>
    ensures { IfOk result (λ o. Evaluates (content_of test.entry.now)
        (clauses_of items.entry.now) (outcome_as o)) }
{
    let found = faults(alloc, items)?;
    if let Some(fault) = found.first() {
        return Ok(Outcome::Faulty(*fault));
    }
    match executions(alloc, test)? {
        Ok(all) => {
            let evaluation = evaluation_of(alloc, test, items, &all)?;
            Ok(Outcome::Evaluated(evaluation))
        }
        Err(refusal) => Ok(Outcome::Refused(refusal)),
    }
}
