//! The lines of a thread, and its runs.

ghost use Rattle.std.specs.Prelude.{◌≡◌, map, IfOk};
ghost use Rattle.text_values.specs.TestValue.{content_of};
ghost use Rattle.meaning.specs.Sets.{IsOnce, IsListOf};
ghost use Rattle.meaning.specs.Runs as runs;
ghost use Rattle.plain_machine.specs.Values.{value_as};
ghost use Rattle.plain_runs.specs.Runs.{run_as, ValuesOf};

use crate::run::{Run, runs_from};
use plain_machine::start::initial_state;
use plain_machine::value::Value;
use std::alloc::{AllocError, Global};
use text_values::{Step, Test};

/// The lines of a thread.
pub fn lines_of(test: &Test, thread: usize) -> &[Step]
    ensures { result.now ≡ runs.lines_of_thread (content_of test.now) thread }
{
    if thread >= test.threads.len() {
        return &[];
    }
    &test.threads[thread].steps
}

/// The runs of a thread: one for each choice of the values that its loads take from the list.
/// Errors: want of memory.
pub fn thread_runs<'a>(
    alloc: Global,
    test: &'a Test,
    thread: usize,
    values: &[Value<'a>],
) -> Result<Vec<Run<'a>>, AllocError>
    requires { IsOnce (map value_as values.now) }
    ensures { IfOk result (λ v. IsListOf (runs.IsRun (content_of test.now)
        (ValuesOf values.now) thread) (map run_as v.items)) }
{
    let state = initial_state(test, thread);
    let lines = lines_of(test, thread);
    let runs = runs_from(alloc, lines, None, &state, values)?;
    Ok(runs)
}
