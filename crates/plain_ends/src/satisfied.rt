//! Whether an execution satisfies a proposition where it ends.

ghost use Rattle.std.specs.Prelude.{◌≡◌, ◌↔◌, ◌⊎◌, IfOk, IsTrue};
ghost use Rattle.text_values.specs.TestValue.{content_of, formula_of};
ghost use Rattle.meaning.specs.Names as names;
ghost use Rattle.meaning.specs.Machine.{value_of};
ghost use Rattle.meaning.specs.Executions.{IsExecution};
ghost use Rattle.meaning.specs.Outcome as outcome;
ghost use Rattle.meaning.specs.Outcome.{EndsWith, Satisfies};
ghost use Rattle.plain_runs.specs.Locations.{names_as};
ghost use Rattle.plain_executions.specs.Executions.{execution_as};
ghost use Rattle.plain_ends.specs.Ends.{places_as, IsJoined, EndsSo};

use crate::ending::{End, ending, state};
use plain_executions::execution::Execution;
use plain_machine::start::written;
use plain_machine::value::is_same_value;
use std::alloc::{AllocError, Global};
use text_values::{Connective, Place, Proposition, Test, Value};

fn joined(connective: Connective, left: bool, right: bool) -> bool
    ensures { IsTrue result ↔ IsJoined connective (IsTrue left) (IsTrue right) }
{
    match connective {
        Connective::And => left && right,
        Connective::Or => left || right,
        Connective::Implies => !left || right,
    }
}

// Whether an observable holds the value at the end.
fn ends_with<'a>(
    test: &'a Test,
    locations: &[&'a [u8]],
    execution: &Execution<'a>,
    place: &'a Place,
    value: &'a Value,
) -> bool
    requires locations { names_as locations.now ≡ names.locations (content_of test.now) }
    ensures { IsTrue result ↔ EndsWith (content_of test.now) (execution_as execution.now)
        place.now (value_of value.now) }
{
    match ending(test, locations, execution, place) {
        Some(found) => is_same_value(&found, &written(value)),
        None => false,
    }
}

/// Whether a proposition holds where an execution ends.
pub fn satisfies<'a>(
    test: &'a Test,
    locations: &[&'a [u8]],
    execution: &Execution<'a>,
    proposition: &'a Proposition,
) -> bool
    requires locations { names_as locations.now ≡ names.locations (content_of test.now) }
    ensures { IsTrue result ↔ Satisfies (content_of test.now) (execution_as execution.now)
        (formula_of proposition.now) }
{
    match proposition {
        Proposition::Constant(is) => *is,
        Proposition::Holds(place, value) => ends_with(test, locations, execution, place, value),
        Proposition::Not(operand) => {
            let holds = satisfies(test, locations, execution, operand);
            !holds
        }
        Proposition::Joined(connective, left, right) => {
            let first = satisfies(test, locations, execution, left);
            let second = satisfies(test, locations, execution, right);
            joined(*connective, first, second)
        }
    }
}

/// Where an execution ends. Errors: want of memory.
pub fn end_of<'a>(
    alloc: Global,
    test: &'a Test,
    locations: &[&'a [u8]],
    observables: &[&Place],
    execution: &Execution<'a>,
) -> Result<End<'a>, AllocError>
    requires locations { names_as locations.now ≡ names.locations (content_of test.now) }
    requires observables { places_as observables.now
        ≡ outcome.observables (content_of test.now) }
    requires execution { IsExecution (content_of test.now) (execution_as execution.now) }
    ensures { IfOk result (EndsSo (content_of test.now) (execution_as execution.now)) }
{
    let values = state(alloc, test, locations, execution, observables)?;
    let holds = satisfies(test, locations, execution, &test.condition.proposition);
    Ok(End { values, holds })
}
