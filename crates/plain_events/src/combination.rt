//! The combinations of runs.

ghost use Rattle.std.specs.Prelude.{◌≡◌, ◌↔◌, ◌<◌, length, map, IfOk, IsTrue};
ghost use Rattle.text_values.specs.TestValue.{content_of};
ghost use Rattle.meaning.specs.Sets.{IsListOf};
ghost use Rattle.meaning.specs.Runs.{IsRun};
ghost use Rattle.meaning.specs.Domain.{InDomain};
ghost use Rattle.plain_machine.specs.Values.{value_as};
ghost use Rattle.plain_runs.specs.Runs.{run_as};
ghost use Rattle.plain_events.specs.Combinations.{run_lists_as, AreRunLists, AreAllCombinations};

use crate::choice::choices;
use crate::picked::all_picked;
use plain_machine::value::Value;
use plain_runs::run::Run;
use plain_runs::thread::thread_runs;
use std::alloc::{AllocError, Global};
use text_values::Test;

fn thread_count(test: &Test) -> usize
    ensures { result ≡ length (content_of test.now).threads }
{
    let threads = test.threads.as_slice();
    threads.len()
}

// The runs of a thread over the domain.
fn domain_runs<'a>(
    alloc: Global,
    test: &'a Test,
    thread: usize,
    values: &[Value<'a>],
) -> Result<Vec<Run<'a>>, AllocError>
    requires { IsListOf (InDomain (content_of test.now)) (map value_as values.now) }
    ensures { IfOk result (λ v. IsListOf (IsRun (content_of test.now)
        (InDomain (content_of test.now)) thread) (map run_as v.items)) }
{
    let runs = thread_runs(alloc, test, thread, values)?;
    Ok(runs)
}

// The runs of each thread over the domain.
fn runs_by_thread<'a>(
    alloc: Global,
    test: &'a Test,
    values: &[Value<'a>],
) -> Result<Vec<Vec<Run<'a>>>, AllocError>
    requires { IsListOf (InDomain (content_of test.now)) (map value_as values.now) }
    ensures { IfOk result (λ v. AreRunLists (content_of test.now)
        (length (content_of test.now).threads) (run_lists_as v.items)) }
{
    let mut lists = Vec::new(alloc);
    for thread in 0..thread_count(test) {
        let runs = domain_runs(alloc, test, thread, values)?;
        lists.push(runs)?;
    }
    Ok(lists)
}

fn run_count(runs: &Vec<Run>) -> usize
    ensures { result ≡ length (map run_as runs.now.items) }
{
    let slice = runs.as_slice();
    slice.len()
}

// How many runs each list has.
fn counts_of(alloc: Global, lists: &[Vec<Run>]) -> Result<Vec<usize>, AllocError>
    ensures { IfOk result (λ v. v.items ≡ map (λ l. length l) (run_lists_as lists.now)) }
{
    let mut counts = Vec::new(alloc);
    for list in lists {
        counts.push(run_count(list))?;
    }
    Ok(counts)
}

fn has_many(all: &[Vec<usize>]) -> bool
    ensures { IsTrue result ↔ (1048576 < length all.now) }
{
    all.len() > 1_048_576
}

/// The combinations of a run of each thread over the values of the domain; nothing if there are
/// over 1,048,576. Errors: want of memory.
pub fn combinations<'a>(
    alloc: Global,
    test: &'a Test,
    values: &[Value<'a>],
) -> Result<Option<Vec<Vec<Run<'a>>>>, AllocError>
    requires { IsListOf (InDomain (content_of test.now)) (map value_as values.now) }
    ensures { IfOk result (AreAllCombinations (content_of test.now)) }
{
    let lists = runs_by_thread(alloc, test, values)?;
    let counts = counts_of(alloc, &lists)?;
    let all = choices(alloc, &counts)?;
    if has_many(&all) {
        return Ok(None);
    }
    let combinations = all_picked(alloc, &lists, &all)?;
    Ok(Some(combinations))
}
