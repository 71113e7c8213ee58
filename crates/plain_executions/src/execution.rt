//! The executions of a test.

ghost use Rattle.std.specs.Prelude.{◌≡◌, ◌↔◌, ◌<◌, length, map, IfOk, IsTrue};
ghost use Rattle.text_values.specs.TestValue.{content_of};
ghost use Rattle.meaning.specs.Sets.{IsOnce, IsListOf};
ghost use Rattle.meaning.specs.Names as names;
ghost use Rattle.meaning.specs.Executions.{AreRuns, IsExecution};
ghost use Rattle.plain_runs.specs.Runs.{run_as};
ghost use Rattle.plain_runs.specs.Locations.{names_as};
ghost use Rattle.plain_events.specs.Combinations.{run_lists_as};
ghost use Rattle.plain_events.specs.Events.{event_as};
ghost use Rattle.plain_executions.specs.Executions.{event_lists_as, order_lists_as, execution_as, execution_of, IsExecutionFrom, IsExecutionOf, HasFaultedRun, HasFaultAmong, AreAllExecutions};

use crate::order::coherences;
use crate::reading::all_reads_from;
use plain_domains::domain::{Refusal, domain};
use plain_events::combination::combinations;
use plain_events::event::Event;
use plain_events::picked::copied_run;
use plain_runs::locations::locations;
use plain_runs::run::Run;
use std::alloc::{AllocError, Global};
use text_values::Test;

/// An execution.
#[derive(Drop)]
pub struct Execution<'a> {
    /// A run of each thread.
    pub runs: Vec<Run<'a>>,
    /// The store that each load reads.
    pub reads_from: Vec<Event<'a>>,
    /// For each location the order of its stores.
    pub coherence: Vec<Vec<Event<'a>>>,
}

fn copied_runs<'a>(alloc: Global, runs: &[Run<'a>]) -> Result<Vec<Run<'a>>, AllocError>
    ensures { IfOk result (λ v. map run_as v.items ≡ map run_as runs.now) }
{
    let mut copies = Vec::new(alloc);
    for run in runs {
        let copy = copied_run(alloc, run)?;
        copies.push(copy)?;
    }
    Ok(copies)
}

fn copied_lists<'a>(
    alloc: Global,
    lists: &[Vec<Event<'a>>],
) -> Result<Vec<Vec<Event<'a>>>, AllocError>
    ensures { IfOk result (λ v. event_lists_as v.items ≡ event_lists_as lists.now) }
{
    let mut copies = Vec::new(alloc);
    for list in lists {
        let copy = Vec::from_slice(alloc, list)?;
        copies.push(copy)?;
    }
    Ok(copies)
}

// The execution of runs with this reads-from and this coherence.
fn one_execution<'a>(
    alloc: Global,
    runs: &[Run<'a>],
    reads_from: &[Event<'a>],
    coherence: &[Vec<Event<'a>>],
) -> Result<Execution<'a>, AllocError>
    ensures { IfOk result (λ x. execution_as x ≡ execution_of (map run_as runs.now)
        (map event_as reads_from.now) (event_lists_as coherence.now)) }
{
    let runs = copied_runs(alloc, runs)?;
    let reads_from = Vec::from_slice(alloc, reads_from)?;
    let coherence = copied_lists(alloc, coherence)?;
    Ok(Execution {
        runs,
        reads_from,
        coherence,
    })
}

// The executions of runs with this reads-from and these coherences.
fn executions_with<'a>(
    alloc: Global,
    runs: &[Run<'a>],
    reads_from: &[Event<'a>],
    coherences: &[Vec<Vec<Event<'a>>>],
) -> Result<Vec<Execution<'a>>, AllocError>
    ensures { IfOk result (λ v. map execution_as v.items
        ≡ map (execution_of (map run_as runs.now) (map event_as reads_from.now))
        (order_lists_as coherences.now)) }
{
    let mut executions = Vec::new(alloc);
    for coherence in coherences {
        let one = one_execution(alloc, runs, reads_from, coherence)?;
        executions.push(one)?;
    }
    Ok(executions)
}

// The executions of runs, from lists of their reads-from and of their coherences.
fn executions_from<'a>(
    alloc: Global,
    runs: &[Run<'a>],
    all: &[Vec<Event<'a>>],
    orders: &[Vec<Vec<Event<'a>>>],
) -> Result<Vec<Execution<'a>>, AllocError>
    requires once { IsOnce (event_lists_as all.now) }
    requires orders { IsOnce (order_lists_as orders.now) }
    ensures { IfOk result (λ v. IsListOf (IsExecutionFrom (map run_as runs.now)
        (event_lists_as all.now) (order_lists_as orders.now)) (map execution_as v.items)) }
{
    let mut executions = Vec::new(alloc);
    for reads_from in all {
        let mut more = executions_with(alloc, runs, reads_from, orders)?;
        executions.append(&mut more)?;
    }
    Ok(executions)
}

// The executions of runs.
fn executions_of<'a>(
    alloc: Global,
    test: &'a Test,
    locations: &[&'a [u8]],
    runs: &[Run<'a>],
) -> Result<Vec<Execution<'a>>, AllocError>
    requires once { IsOnce (names_as locations.now) }
    requires locations { names_as locations.now ≡ names.locations (content_of test.now) }
    ensures { IfOk result (λ v. IsListOf (IsExecutionOf (content_of test.now)
        (map run_as runs.now)) (map execution_as v.items)) }
{
    let all = all_reads_from(alloc, test, locations, runs)?;
    let orders = coherences(alloc, test, locations, runs)?;
    let executions = executions_from(alloc, runs, &all, &orders)?;
    Ok(executions)
}

// The executions of all combinations of runs.
fn all_executions<'a>(
    alloc: Global,
    test: &'a Test,
    locations: &[&'a [u8]],
    combinations: &[Vec<Run<'a>>],
) -> Result<Vec<Execution<'a>>, AllocError>
    requires once { IsOnce (names_as locations.now) }
    requires locations { names_as locations.now ≡ names.locations (content_of test.now) }
    requires runs { IsListOf (AreRuns (content_of test.now)) (run_lists_as combinations.now) }
    ensures { IfOk result (λ v. IsListOf (IsExecution (content_of test.now))
        (map execution_as v.items)) }
{
    let mut executions = Vec::new(alloc);
    for runs in combinations {
        let mut more = executions_of(alloc, test, locations, runs)?;
        executions.append(&mut more)?;
    }
    Ok(executions)
}

fn has_many(executions: &[Execution]) -> bool
    ensures { IsTrue result ↔ (16384 < length executions.now) }
{
    executions.len() > 16384
}

// Whether one of the runs stopped at a fault.
fn has_faulted(runs: &[Run]) -> bool
    ensures { IsTrue result ↔ HasFaultedRun (map run_as runs.now) }
{
    for run in runs {
        if run.faulted {
            return true;
        }
    }
    false
}

// Whether one of the runs of one of the executions stopped at a fault.
fn has_fault(executions: &[Execution]) -> bool
    ensures { IsTrue result ↔ HasFaultAmong (map execution_as executions.now) }
{
    for execution in executions {
        if has_faulted(&execution.runs) {
            return true;
        }
    }
    false
}

/// The executions of a test, or why it is refused. Errors: want of memory.
pub fn executions<'a>(
    alloc: Global,
    test: &'a Test,
) -> Result<Result<Vec<Execution<'a>>, Refusal>, AllocError>
    ensures { IfOk result (AreAllExecutions (content_of test.entry.now)) }
{
    let values = match domain(alloc, test)? {
        Ok(values) => values,
        Err(refusal) => return Ok(Err(refusal)),
    };
    let Some(combinations) = combinations(alloc, test, &values)? else {
        return Ok(Err(Refusal::TooManyCombinations));
    };
    let locations = locations(alloc, test)?;
    let executions = all_executions(alloc, test, &locations, &combinations)?;
    if has_many(&executions) {
        return Ok(Err(Refusal::TooManyCandidates));
    }
    if has_fault(&executions) {
        return Ok(Err(Refusal::AddressFault));
    }
    Ok(Ok(executions))
}
