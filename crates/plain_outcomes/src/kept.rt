//! The executions that a model keeps: where each ends, and which flags they meet.

ghost use Rattle.std.specs.Prelude.{◌≡◌, [], map, Contains, IfOk, OnOk};
ghost use Rattle.text_values.specs.ModelValues.{clauses_of};
ghost use Rattle.text_values.specs.TestValue.{content_of};
ghost use Rattle.meaning.specs.Sets.{IsListOf};
ghost use Rattle.meaning.specs.Names as names;
ghost use Rattle.meaning.specs.Executions.{IsExecution};
ghost use Rattle.meaning.specs.Faults.{faults};
ghost use Rattle.meaning.specs.Outcome as outcome;
ghost use Rattle.meaning.specs.Evaluates.{IsKept};
ghost use Rattle.plain_runs.specs.Locations.{names_as};
ghost use Rattle.plain_executions.specs.Executions.{execution_as};
ghost use Rattle.plain_ends.specs.Ends.{places_as};
ghost use Rattle.plain_outcomes.specs.Kept.{AreEndsOf, AddsIfKept};

use crate::answer::execution_answers;
use plain_ends::ending::End;
use plain_ends::observables::observables;
use plain_ends::satisfied::end_of;
use plain_executions::execution::Execution;
use plain_runs::locations::locations;
use std::alloc::{AllocError, Global};
use text_values::{Item, Place, Test};

/// What is kept of executions.
#[derive(Drop)]
pub struct Kept<'a> {
    /// Where each kept execution ends.
    pub ends: Vec<End<'a>>,
    /// The indexes of the flags that they meet, some more than once.
    pub raised: Vec<usize>,
}

// Puts an execution behind the others, if the model keeps it. Errors: want of memory, as in all
// that follows.
fn put_kept<'a>(
    alloc: Global,
    test: &'a Test,
    locations: &[&'a [u8]],
    observables: &[&Place],
    items: &[Item],
    execution: &Execution<'a>,
    kept: &mut Kept<'a>,
) -> Result<(), AllocError>
    requires locations { names_as locations.now ≡ names.locations (content_of test.now) }
    requires observables { places_as observables.now ≡ outcome.observables (content_of test.now) }
    requires faultless { faults (clauses_of items.now) ≡ [] }
    requires execution { IsExecution (content_of test.now) (execution_as execution.now) }
    ensures { OnOk result (AddsIfKept (content_of test.now) (clauses_of items.now)
        (execution_as execution.now) kept.old kept.new) }
{
    let answers = execution_answers(alloc, test, locations, items, execution)?;
    if !answers.is_kept {
        return Ok(());
    }
    let end = end_of(alloc, test, locations, observables, execution)?;
    kept.ends.push(end)?;
    kept.raised.extend_from_slice(&answers.flags)?;
    Ok(())
}

/// What is kept of the executions of a test under a model without faults.
pub fn kept_of<'a>(
    alloc: Global,
    test: &'a Test,
    items: &[Item],
    executions: &[Execution<'a>],
) -> Result<Kept<'a>, AllocError>
    requires faultless { faults (clauses_of items.now) ≡ [] }
    requires executions { IsListOf (IsExecution (content_of test.now))
        (map execution_as executions.now) }
    ensures { IfOk result (AreEndsOf (content_of test.entry.now) (clauses_of items.now)
        (IsKept (content_of test.entry.now) (clauses_of items.now))) }
{
    let locations = locations(alloc, test)?;
    let observables = observables(alloc, test)?;
    let mut kept = Kept {
        ends: Vec::new(alloc),
        raised: Vec::new(alloc),
    };
    for execution in executions {
        put_kept(
            alloc,
            test,
            &locations,
            &observables,
            items,
            execution,
            &mut kept,
        )?;
    }
    Ok(kept)
}
