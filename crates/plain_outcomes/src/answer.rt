//! What a model says of an execution.

ghost use Rattle.std.specs.Prelude.{◌≡◌, [], IfOk};
ghost use Rattle.text_values.specs.ModelValues.{clauses_of};
ghost use Rattle.text_values.specs.TestValue.{content_of};
ghost use Rattle.meaning.specs.Names as names;
ghost use Rattle.meaning.specs.Executions.{IsExecution};
ghost use Rattle.meaning.specs.Faults.{faults};
ghost use Rattle.plain_runs.specs.Locations.{names_as};
ghost use Rattle.plain_executions.specs.Executions.{execution_as};
ghost use Rattle.plain_outcomes.specs.Answered.{AreAnswersOf};

use plain_executions::execution::Execution;
use plain_models::model::{Answers, answered};
use plain_names::names::{all_events, predefined_names};
use plain_names::seen::looked_at;
use std::alloc::{AllocError, Global};
use text_values::{Item, Test};

/// What a model without faults says of an execution. Errors: want of memory.
pub fn execution_answers<'a>(
    alloc: Global,
    test: &'a Test,
    locations: &[&'a [u8]],
    items: &[Item],
    execution: &Execution<'a>,
) -> Result<Answers, AllocError>
    requires locations { names_as locations.now ≡ names.locations (content_of test.now) }
    requires faultless { faults (clauses_of items.now) ≡ [] }
    requires execution { IsExecution (content_of test.now) (execution_as execution.now) }
    ensures { IfOk result (AreAnswersOf (content_of test.now) (clauses_of items.now)
        (execution_as execution.now)) }
{
    let shown = looked_at(alloc, test, locations, &execution.runs)?;
    let all = all_events(alloc, &shown)?;
    let predefined = predefined_names(alloc, &shown, execution)?;
    let answers = answered(alloc, &all, predefined, items)?;
    Ok(answers)
}
