//! What events do.

ghost use Rattle.std.specs.Prelude.{◌≡◌, ◌↔◌, ◌∷◌, [], true, false, map, Contains, IsTrue};
ghost use Rattle.text_values.specs.TestValue.{Content, content_of};
ghost use Rattle.meaning.specs.Names as names;
ghost use Rattle.meaning.specs.Machine as machine;
ghost use Rattle.meaning.specs.Executions as executions;
ghost use Rattle.plain_machine.specs.Values.{value_as};
ghost use Rattle.plain_runs.specs.Runs.{instance_as, run_as};
ghost use Rattle.plain_runs.specs.Locations.{names_as};
ghost use Rattle.plain_events.specs.Events.{event_as, IsActionOfInstance, IsActionAt, IsActionOfEvent};

use crate::event::{Action, Event};
use plain_machine::instruction::{address, is_load, stored};
use plain_machine::start::{Observable, initial_value};
use plain_machine::value::Value;
use plain_runs::run::{Instance, Run};
use text_values::{Instruction, Test};

// What a load does.
fn load_action<'a>(instance: &Instance<'a>) -> Option<Action<'a>>
    requires { machine.is_load (instance_as instance.now).instruction ≡ true }
    ensures { IsActionOfInstance (instance_as instance.entry.now) result }
{
    match address(instance.instruction, &instance.before) {
        Value::Address(location) => Some(Action::Loads(location, instance.loaded)),
        Value::Number(_) => None,
        Value::NoValue => None,
    }
}

// What a store of the value does.
fn store_action<'a>(instance: &Instance<'a>, value: &Value<'a>) -> Option<Action<'a>>
    requires load { machine.is_load (instance_as instance.now).instruction ≡ false }
    requires stores { machine.stored_values (instance_as instance.now).instruction
        (instance_as instance.now).before ≡ value_as value.now ∷ [] }
    ensures { IsActionOfInstance (instance_as instance.entry.now) result }
{
    match address(instance.instruction, &instance.before) {
        Value::Address(location) => Some(Action::Stores(location, *value)),
        Value::Number(_) => None,
        Value::NoValue => None,
    }
}

// What an instance does that is no load and no store.
fn fence_action<'a>(instance: &Instance<'a>) -> Option<Action<'a>>
    requires load { machine.is_load (instance_as instance.now).instruction ≡ false }
    requires stores { machine.stored_values (instance_as instance.now).instruction
        (instance_as instance.now).before ≡ [] }
    ensures { IsActionOfInstance (instance_as instance.entry.now) result }
{
    match instance.instruction {
        Instruction::Fence(kind) => Some(Action::Fences(*kind)),
        _ => None,
    }
}

/// What an instance does, if it is an event.
pub fn action_of<'a>(instance: &Instance<'a>) -> Option<Action<'a>>
    ensures { IsActionOfInstance (instance_as instance.entry.now) result }
{
    if is_load(instance.instruction) {
        return load_action(instance);
    }
    match stored(instance.instruction, &instance.before) {
        Some(value) => store_action(instance, &value),
        None => fence_action(instance),
    }
}

fn has_name(names: &[&[u8]], name: &[u8]) -> bool
    ensures { IsTrue result ↔ Contains (names_as names.now) name.now }
{
    for one in names {
        if *one == name {
            return true;
        }
    }
    false
}

// What the initial store of a location does.
fn initial_action<'a>(
    test: &'a Test,
    locations: &[&'a [u8]],
    location: &'a [u8],
) -> Option<Action<'a>>
    requires { names_as locations.now ≡ names.locations (content_of test.now) }
    ensures { IsActionOfEvent (content_of test.now) [] (executions.Initial location.entry.now)
        result }
{
    if has_name(locations, location) {
        let value = initial_value(&test.init, &Observable::Location(location));
        return Some(Action::Stores(location, value));
    }
    None
}

// What a run does at an index.
fn run_action<'a>(instances: &[Instance<'a>], index: usize) -> Option<Action<'a>>
    ensures { IsActionAt (map instance_as instances.now) index result }
{
    if index >= instances.len() {
        return None;
    }
    action_of(&instances[index])
}

// What a thread does at an index of its run.
fn does_action<'a>(runs: &[Run<'a>], thread: usize, index: usize) -> Option<Action<'a>>
    ensures { (t : Content) → IsActionOfEvent t (map run_as runs.now)
        (executions.Does thread index) result }
{
    if thread >= runs.len() {
        return None;
    }
    run_action(&runs[thread].instances, index)
}

/// What an event of runs does, if it does something.
pub fn action<'a>(
    test: &'a Test,
    locations: &[&'a [u8]],
    runs: &[Run<'a>],
    event: &Event<'a>,
) -> Option<Action<'a>>
    requires { names_as locations.now ≡ names.locations (content_of test.now) }
    ensures { IsActionOfEvent (content_of test.now) (map run_as runs.now) (event_as event.now)
        result }
{
    match event {
        Event::Initial(location) => initial_action(test, locations, location),
        Event::Does(thread, index) => does_action(runs, *thread, *index),
    }
}
