//! The runs of the threads of a test.

ghost use Rattle.std.specs.Prelude.{◌≡◌, ◌↔◌, IfOk, IsTrue, vec_len};
ghost use Rattle.std.specs.Option.{option_map};
ghost use Rattle.thread_runs.specs.ValueSet.{IsValueSet};
ghost use Rattle.why_text.specs.Origins.{AreAllRuns, AreRunsOver, IsReader, RunReads};

use ppc_semantics::{Domain, DomainFault, Run, Value, domain, runs};
use std::alloc::{AllocError, Global};
use text_values::Test;
use thread_runs::are_same_values;

// The runs of each thread over a domain.
fn runs_over(alloc: Global, test: &Test, domain: &Domain) -> Result<Vec<Vec<Run>>, AllocError>
    requires { IsValueSet domain.now.values.items }
    ensures { IfOk result (λ v.
        AreRunsOver test.now domain.now.values.items (vec_len test.now.threads) v.items) }
{
    let mut threads = Vec::new(alloc);
    for thread in 0..test.threads.len() {
        threads.push(runs(alloc, test, thread, domain)?)?;
    }
    Ok(threads)
}

/// The runs of each thread of a test; none where its domain is refused. Errors: want of memory.
pub fn all_runs(alloc: Global, test: &Test) -> Result<Vec<Vec<Run>>, AllocError>
    ensures { IfOk result (λ v. AreAllRuns test.now v.items) }
{
    match domain(alloc, test) {
        Ok(domain) => runs_over(alloc, test, &domain),
        Err(DomainFault::OutOfMemory(e)) => Err(e),
        Err(DomainFault::Refused(_)) => Ok(Vec::new(alloc)),
    }
}

fn reads(run: &Run, values: &[Value]) -> bool
    ensures { IsTrue result ↔ RunReads values.now run.now }
{
    are_same_values(&run.values, values)
}

/// The run whose loads read these values, if one of them does.
pub fn run_reading<'r>(runs: &'r [Run], values: &[Value]) -> Option<&'r Run>
    ensures { IsReader runs.now values.now (option_map (λ r. r.now) result) }
{
    for index in 0..runs.len() {
        if reads(&runs[index], values) {
            return Some(&runs[index]);
        }
    }
    None
}
