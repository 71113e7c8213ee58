//! Laws of the executions of a test: what `space` lists, and that its outcome is one. Read
//! `specs/Executions` and `specs/Listed` first, then `specs/Laws`.

ghost use Rattle.std.specs.Prelude.{List};
ghost use Rattle.thread_runs.specs.declared.value.Value.{Value};
ghost use Rattle.thread_runs.specs.Runs.{Thread, Run};
ghost use Rattle.candidates.specs.Listed.{ChoosesApart};
ghost use Rattle.candidates.specs.Laws.{HasAllExecutions, CoversEachStore, LosesNoValue, HasOneDomainOrRefusal, HasOneSpaceOrRefusal, HasOneList, ShowOneTest, LosesNoExecution, DropsNoEvent, NumbersItsSteps};

use crate::{Execution, Space};
use text_values::Test;

/// The domain of a test loses none of its executions: one whose loads take any values whatever is
/// one over the domain.
pub fn domain_loses_nothing(test: &Test, execution: &Execution)
    ensures { LosesNoValue test.now execution.now }
{
    let _test = test;
    let _execution = execution;
}

/// The executions of a test, its loads taking any values whatever, are just those of its list.
pub fn executions_are_all(test: &Test)
    ensures { HasAllExecutions test.now }
{
    let _test = test;
}

/// A test has one list of executions.
pub fn executions_are_one()
    ensures { (initial : List Value) (threads : List Thread) (V : List Value)
        → HasOneList initial threads V }
{}

/// Runs with a load that no store serves are in no execution.
pub fn pruned_runs_lose_nothing()
    ensures { (initial : List Value) (threads : List Thread) (V : List Value) (runs : List Run)
        → LosesNoExecution initial threads V runs }
{}

/// Of some runs, each reads-from with each coherence is an execution.
pub fn executions_are_a_product()
    ensures { (initial : List Value) (threads : List Thread) (V : List Value) (runs : List Run)
        → ChoosesApart initial threads V runs }
{}

/// No event of a run is left out.
pub fn events_are_whole()
    ensures { (t : Thread) (r : Run) → DropsNoEvent t r }
{}

/// A dependency names the events of its steps: at the number that it gives a step that is an event
/// stands an event of that thread and of the kind of the step's instruction.
pub fn dependencies_name_events_of_their_steps()
    ensures { (initial : List Value) (threads : List Thread) (runs : List Run)
        → NumbersItsSteps initial threads runs }
{}

/// Each store of an execution stands in the coherence of its location.
pub fn coherence_covers_each_store(test: &Test)
    ensures { CoversEachStore test.now }
{
    let _test = test;
}

/// The domain of a test is one list of values, or it is refused for one reason.
pub fn domains_are_one(test: &Test)
    ensures { HasOneDomainOrRefusal test.now }
{
    let _test = test;
}

/// A test has one outcome: where it has a space it has no refusal, and it has no two refusals.
pub fn outcomes_exclude_one_another(test: &Test)
    ensures { HasOneSpaceOrRefusal test.now }
{
    let _test = test;
}

/// Two spaces of one test show the same: `Space::is_same` holds of them.
pub fn spaces_show_the_same(test: &Test, first: &Space, second: &Space)
    ensures { ShowOneTest test.now first.now second.now }
{
    let _test = test;
    let _first = first;
    let _second = second;
}
