//! A law of the instructions of events.

ghost use Rattle.why_text.specs.OfRuns.{ShowRuns};

use candidates::Space;
use text_values::Test;

/// The instructions of the events of an execution of a test are those that runs of its threads
/// execute, and the events of these runs are those of the execution.
pub fn instructions_are_of_runs(test: &Test, space: &Space)
    ensures { ShowRuns test.now space.now }
{
    let _test = test;
    let _space = space;
}
