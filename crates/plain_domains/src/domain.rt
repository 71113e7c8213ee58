//! The values of the domain of a test.

ghost use Rattle.std.specs.Prelude.{◌≡◌, ◌↔◌, ◌<◌, ◌+◌, length, map, IfOk, IsTrue, OnOk};
ghost use Rattle.text_values.specs.TestValue.{content_of};
ghost use Rattle.meaning.specs.Sets.{IsOnce, IsListOf};
ghost use Rattle.meaning.specs.Machine as machine;
ghost use Rattle.meaning.specs.Domain.{InRound};
ghost use Rattle.meaning_plain.specs.Lists.{Given};
ghost use Rattle.plain_machine.specs.Values.{value_as};
ghost use Rattle.plain_runs.specs.Runs.{instance_as, run_as, ValuesOf};
ghost use Rattle.plain_runs.specs.Locations.{names_as};
ghost use Rattle.plain_runs.specs.Frees.{free_run_as};
ghost use Rattle.plain_domains.specs.Domains.{Adds, IsReal, IsStartOf, IsStoredBy, IsStoredIn, IsNextRound, IsRoundFound, AreRounds, IsDomainFound};

use crate::store::put_value;
use plain_machine::instruction::stored;
use plain_machine::start::{Observable, initial_value};
use plain_machine::value::Value;
use plain_runs::count::{Counted, count};
use plain_runs::free::{FreeRun, thread_free_runs};
use plain_runs::locations::locations;
use plain_runs::run::{Instance, Run};
use std::alloc::{AllocError, Global};
use text_values::Test;

/// Why a test is refused.
#[derive(Clone, Copy)]
pub enum Refusal {
    /// It has over 128 events.
    TooManyEvents,
    /// Its domain has over 16 values.
    TooManyValues,
    /// A thread has over 4,096 free runs.
    TooManyRuns,
    /// It has over 16,384 executions.
    TooManyCandidates,
    /// A run of an execution stops at a fault.
    AddressFault,
    /// It has over 1,048,576 combinations of runs.
    TooManyCombinations,
}

// Adds the value that a location holds at the start.
fn put_start<'a>(
    values: &mut Vec<Value<'a>>,
    test: &'a Test,
    location: &'a [u8],
) -> Result<(), AllocError>
    ensures { OnOk result (Adds (IsStartOf (content_of test.entry.now) location.entry.now)
        values.old.items values.new.items) }
{
    let value = initial_value(&test.init, &Observable::Location(location));
    put_value(values, &value)?;
    Ok(())
}

// The values that the locations hold at the start.
fn start_values<'a>(
    alloc: Global,
    test: &'a Test,
    locations: &[&'a [u8]],
) -> Result<Vec<Value<'a>>, AllocError>
    ensures { IfOk result (λ v. IsListOf (Given (IsStartOf (content_of test.entry.now))
        (names_as locations.now)) (map value_as v.items)) }
{
    let mut values = Vec::new(alloc);
    for location in locations {
        put_start(&mut values, test, *location)?;
    }
    Ok(values)
}

fn is_none(value: &Value) -> bool
    ensures { IsTrue result ↔ (value_as value.now ≡ machine.NoValue) }
{
    matches!(value, Value::NoValue)
}

// Adds a value, unless it is none.
fn put_real<'a>(values: &mut Vec<Value<'a>>, value: &Value<'a>) -> Result<(), AllocError>
    ensures { OnOk result (Adds (IsReal (value_as value.entry.now)) values.old.items
        values.new.items) }
{
    if is_none(value) {
        return Ok(());
    }
    put_value(values, value)?;
    Ok(())
}

// Adds the value that an instance stores, unless it is none.
fn put_stored<'a>(values: &mut Vec<Value<'a>>, instance: &Instance<'a>) -> Result<(), AllocError>
    ensures { OnOk result (Adds (IsStoredBy (instance_as instance.entry.now)) values.old.items
        values.new.items) }
{
    match stored(instance.instruction, &instance.before) {
        Some(value) => {
            put_real(values, &value)?;
            Ok(())
        }
        None => Ok(()),
    }
}

fn put_instances<'a>(
    values: &mut Vec<Value<'a>>,
    instances: &[Instance<'a>],
) -> Result<(), AllocError>
    ensures { OnOk result (Adds (Given IsStoredBy (map instance_as instances.entry.now))
        values.old.items values.new.items) }
{
    for instance in instances {
        put_stored(values, instance)?;
    }
    Ok(())
}

// Adds what a run stores.
fn put_all_stored<'a>(values: &mut Vec<Value<'a>>, run: &Run<'a>) -> Result<(), AllocError>
    ensures { OnOk result (Adds (IsStoredIn (run_as run.entry.now)) values.old.items
        values.new.items) }
{
    put_instances(values, &run.instances)?;
    Ok(())
}

// Adds what free runs store.
fn put_runs<'a>(values: &mut Vec<Value<'a>>, runs: &[FreeRun<'a>]) -> Result<(), AllocError>
    ensures { OnOk result (Adds (Given (λ f. IsStoredIn f.run) (map free_run_as runs.entry.now))
        values.old.items values.new.items) }
{
    for free in runs {
        put_all_stored(values, &free.run)?;
    }
    Ok(())
}

fn thread_count(test: &Test) -> usize
    ensures { result ≡ length (content_of test.now).threads }
{
    let threads = test.threads.as_slice();
    threads.len()
}

fn has_many(runs: &[FreeRun]) -> bool
    ensures { IsTrue result ↔ (4096 < length runs.now) }
{
    runs.len() > 4096
}

// The values after one round more; nothing if a thread has over 4,096 free runs over the values.
fn next_values<'a>(
    alloc: Global,
    test: &'a Test,
    values: &[Value<'a>],
) -> Result<Option<Vec<Value<'a>>>, AllocError>
    requires { IsOnce (map value_as values.now) }
    ensures { IfOk result (IsNextRound (content_of test.entry.now) (ValuesOf values.now)) }
{
    let mut next = Vec::from_slice(alloc, values)?;
    for thread in 0..thread_count(test) {
        let runs = thread_free_runs(alloc, test, thread, values)?;
        if has_many(&runs) {
            return Ok(None);
        }
        put_runs(&mut next, &runs)?;
    }
    Ok(Some(next))
}

// The values after one round more, or why these are refused.
fn checked<'a>(
    alloc: Global,
    test: &'a Test,
    values: &[Value<'a>],
) -> Result<Result<Vec<Value<'a>>, Refusal>, AllocError>
    requires { IsOnce (map value_as values.now) }
    ensures { IfOk result (IsRoundFound (content_of test.entry.now) (ValuesOf values.now)) }
{
    if values.len() > 16 {
        return Ok(Err(Refusal::TooManyValues));
    }
    match next_values(alloc, test, values)? {
        Some(next) => Ok(Ok(next)),
        None => Ok(Err(Refusal::TooManyRuns)),
    }
}

// The values after so many rounds, or why earlier ones or these are refused.
fn rounds<'a>(
    alloc: Global,
    test: &'a Test,
    first: Vec<Value<'a>>,
    count: usize,
) -> Result<Result<Vec<Value<'a>>, Refusal>, AllocError>
    requires { IsListOf (InRound (content_of test.now) 0) (map value_as first.items) }
    ensures { IfOk result (AreRounds (content_of test.entry.now) count) }
{
    let mut values = first;
    for round in 0..count {
        let _done = round;
        match checked(alloc, test, &values)? {
            Ok(next) => values = next,
            Err(refusal) => return Ok(Err(refusal)),
        }
    }
    match checked(alloc, test, &values)? {
        Ok(_) => Ok(Ok(values)),
        Err(refusal) => Ok(Err(refusal)),
    }
}

fn has_many_events(locations: &[&[u8]], events: usize) -> bool
    ensures { IsTrue result ↔ (128 < length locations.now + events) }
{
    events > 128 || locations.len() > 128 - events
}

/// The values of the domain of a test, or why it has none. Errors: want of memory.
pub fn domain<'a>(
    alloc: Global,
    test: &'a Test,
) -> Result<Result<Vec<Value<'a>>, Refusal>, AllocError>
    ensures { IfOk result (IsDomainFound (content_of test.entry.now)) }
{
    let locations = locations(alloc, test)?;
    let Some(events) = count(Counted::Events, &test.threads) else {
        return Err(AllocError);
    };
    let Some(loads) = count(Counted::Loads, &test.threads) else {
        return Err(AllocError);
    };
    if has_many_events(&locations, events) {
        return Ok(Err(Refusal::TooManyEvents));
    }
    let first = start_values(alloc, test, &locations)?;
    let answer = rounds(alloc, test, first, loads)?;
    Ok(answer)
}
