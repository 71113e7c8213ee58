//! The runs of a thread of a test.
ghost use Rattle.std.specs.Prelude.{◌≡◌, ◌<◌, ◌≤◌, IfOk, [], vec_len};
ghost use Rattle.std.specs.List.{AllPairs};
ghost use Rattle.thread_runs.specs.Runs.{IsLess};
ghost use Rattle.ppc_lowering.specs.Lowering as low;

use crate::lowering::program;
use std::alloc::{AllocError, Global};
use text_values::Test;
use thread_runs::{Domain, Run, runs_of};

/// The runs of a thread of the test over the domain, in lexicographic order of their lists of
/// loaded values. A thread that the test does not have has no runs. Errors: out of memory.
pub fn runs(
    alloc: Global,
    test: &Test,
    thread: usize,
    domain: &Domain,
) -> Result<Vec<Run>, AllocError>
    ensures runs { IfOk result (λ v. AllPairs IsLess domain.now.values.items
        → thread < vec_len test.now.threads
        → low.ShowsTestRuns test.now thread domain.now.values.items v.items) }
    ensures no_thread { IfOk result (λ v. vec_len test.now.threads ≤ thread → v.items ≡ []) }
{
    let program = program(alloc, test)?;
    runs_of(alloc, &program, thread, domain)
}
