//! Where an execution ends.

ghost use Rattle.std.specs.Prelude.{◌≡◌, ◌↔◌, Some, IfOk, slice_get, unwrap_or};
ghost use Rattle.text_values.specs.TestValue.{content_of};
ghost use Rattle.meaning.specs.Names as names;
ghost use Rattle.meaning.specs.Machine as machine;
ghost use Rattle.meaning.specs.Executions as executions;
ghost use Rattle.meaning.specs.Executions.{IsExecution};
ghost use Rattle.meaning.specs.Outcome as outcome;
ghost use Rattle.meaning.specs.Outcome.{EndsIn, IsFinalValue};
ghost use Rattle.plain_machine.specs.Values.{value_as};
ghost use Rattle.plain_runs.specs.Locations.{names_as};
ghost use Rattle.plain_events.specs.Events.{IsFound};
ghost use Rattle.plain_executions.specs.Executions.{event_lists_as, execution_as};
ghost use Rattle.plain_ends.specs.Ends.{places_as, values_as, IsIndexOf, IsLastAt, IsEventFound, IsValueFound, IsEnding};

use plain_events::action::action;
use plain_events::event::{Action, Event};
use plain_executions::execution::Execution;
use plain_machine::value::Value;
use std::alloc::{AllocError, Global};
use text_values::{Place, Register, Test};

/// Where an execution ends.
#[derive(Drop)]
pub struct End<'a> {
    /// What the observables of the test hold, in their order.
    pub values: Vec<Value<'a>>,
    /// Whether it satisfies the proposition of the test.
    pub holds: bool,
}

// What the register of this number holds.
fn register_at<'a>(registers: &[Value<'a>], number: usize) -> Value<'a>
    ensures { value_as result
        ≡ unwrap_or (slice_get (values_as registers.now) number) machine.NoValue }
{
    if number >= registers.len() {
        return Value::NoValue;
    }
    registers[number]
}

// What a register of a thread holds at the end.
fn final_register<'a>(execution: &Execution<'a>, thread: usize, register: Register) -> Value<'a>
    ensures { value_as result
        ≡ outcome.final_register (execution_as execution.now) thread register }
{
    if thread >= execution.runs.len() {
        return Value::NoValue;
    }
    let registers = &execution.runs[thread].end.registers;
    register_at(registers, usize::from(register.number()))
}

fn index_of(locations: &[&[u8]], location: &[u8]) -> Option<usize>
    ensures { IsIndexOf location.now (names_as locations.now) result }
{
    for (index, other) in locations.iter().enumerate() {
        if *other == location {
            return Some(index);
        }
    }
    None
}

// The last event of the order at the index, if there is one.
fn last_at<'a>(orders: &[Vec<Event<'a>>], index: usize) -> Option<Event<'a>>
    ensures { (e : executions.Event) → IsEventFound result e
        ↔ IsLastAt (event_lists_as orders.now) index e }
{
    if index >= orders.len() {
        return None;
    }
    let order = &orders[index];
    match order.split_last() {
        Some((last, _)) => Some(*last),
        None => None,
    }
}

// The value that is stored to the location, if the action is a store to it.
fn stored_to<'a>(action: Option<Action<'a>>, location: &[u8]) -> Option<Value<'a>>
    ensures { (v : machine.Value) → IsValueFound result v
        ↔ IsFound action.entry (executions.Stores location.now v) }
{
    match action {
        Some(Action::Stores(other, value)) => { if other == location { Some(value) } else { None } }
        Some(Action::Loads(_, _)) => None,
        Some(Action::Fences(_)) => None,
        None => None,
    }
}

// What the last store of the order at the index stores to the location.
fn final_value_at<'a>(
    test: &'a Test,
    locations: &[&'a [u8]],
    execution: &Execution<'a>,
    location: &[u8],
    index: usize,
) -> Option<Value<'a>>
    requires locations { names_as locations.now ≡ names.locations (content_of test.now) }
    requires index { IsIndexOf location.now (names_as locations.now) (Some index) }
    ensures { (v : machine.Value) → IsValueFound result v
        ↔ IsFinalValue (content_of test.now) (execution_as execution.now) location.now v }
{
    match last_at(&execution.coherence, index) {
        Some(last) => {
            let found = action(test, locations, &execution.runs, &last);
            stored_to(found, location)
        }
        None => None,
    }
}

// What a location holds at the end, if it is one of the test.
fn final_value<'a>(
    test: &'a Test,
    locations: &[&'a [u8]],
    execution: &Execution<'a>,
    location: &[u8],
) -> Option<Value<'a>>
    requires locations { names_as locations.now ≡ names.locations (content_of test.now) }
    ensures { (v : machine.Value) → IsValueFound result v
        ↔ IsFinalValue (content_of test.now) (execution_as execution.now) location.now v }
{
    match index_of(locations, location) {
        Some(index) => final_value_at(test, locations, execution, location, index),
        None => None,
    }
}

/// What an observable holds at the end of an execution.
pub fn ending<'a>(
    test: &'a Test,
    locations: &[&'a [u8]],
    execution: &Execution<'a>,
    observable: &Place,
) -> Option<Value<'a>>
    requires locations { names_as locations.now ≡ names.locations (content_of test.now) }
    ensures { IsEnding (content_of test.now) (execution_as execution.now) observable.now
        result }
{
    match observable {
        Place::Register(thread, register) => { Some(final_register(execution, *thread, *register)) }
        Place::Location(location) => {
            final_value(test, locations, execution, location.as_bytes())
        }
    }
}

/// The state in which an execution ends. Errors: want of memory.
pub fn state<'a>(
    alloc: Global,
    test: &'a Test,
    locations: &[&'a [u8]],
    execution: &Execution<'a>,
    observables: &[&Place],
) -> Result<Vec<Value<'a>>, AllocError>
    requires locations { names_as locations.now ≡ names.locations (content_of test.now) }
    requires observables { places_as observables.now
        ≡ outcome.observables (content_of test.now) }
    requires execution { IsExecution (content_of test.now) (execution_as execution.now) }
    ensures { IfOk result (λ v. EndsIn (content_of test.now) (execution_as execution.now)
        (values_as v.items)) }
{
    let mut values = Vec::new(alloc);
    for observable in observables {
        match ending(test, locations, execution, observable) {
            Some(value) => {
                values.push(value)?;
            }
            None => {}
        }
    }
    Ok(values)
}
