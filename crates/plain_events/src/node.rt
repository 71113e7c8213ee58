//! The events of runs.

ghost use Rattle.std.specs.Prelude.{◌≡◌, ◌↔◌, [], ◌∷◌, ◌++◌, if◌then◌else◌, length, map, Contains, IfOk, OnOk, IsTrue};
ghost use Rattle.text_values.specs.TestValue.{content_of};
ghost use Rattle.meaning.specs.Sets.{IsOnce, IsListOf};
ghost use Rattle.meaning.specs.Names as names;
ghost use Rattle.meaning.specs.Machine as machine;
ghost use Rattle.meaning.specs.Executions as executions;
ghost use Rattle.meaning.specs.Executions.{IsStoreOf, MayRead, loads_from, loads_in};
ghost use Rattle.plain_machine.specs.Values.{value_as};
ghost use Rattle.plain_runs.specs.Keeping.{PutsIf};
ghost use Rattle.plain_runs.specs.Runs.{instance_as, run_as};
ghost use Rattle.plain_runs.specs.Locations.{names_as};
ghost use Rattle.plain_events.specs.Events.{event_as, action_as, of_runs, IsNode, DoesBelow, IsStoreAction, IsStoreFound, IsReadAction, IsReadFound};

use crate::action::action;
use crate::event::{Action, Event};
use plain_machine::instruction::is_load;
use plain_machine::value::{Value, is_same_value};
use plain_runs::run::{Instance, Run};
use std::alloc::{AllocError, Global};
use text_values::Test;

// The initial stores.
fn initial_nodes<'a>(alloc: Global, locations: &[&'a [u8]]) -> Result<Vec<Event<'a>>, AllocError>
    ensures { IfOk result (λ v. map event_as v.items
        ≡ map executions.Initial (names_as locations.now)) }
{
    let mut nodes = Vec::new(alloc);
    for location in locations {
        nodes.push(Event::Initial(*location))?;
    }
    Ok(nodes)
}

// What a thread executes.
fn run_nodes<'a>(alloc: Global, thread: usize, count: usize) -> Result<Vec<Event<'a>>, AllocError>
    ensures { IfOk result (λ v. IsListOf (DoesBelow thread count) (map event_as v.items)) }
{
    let mut nodes = Vec::new(alloc);
    for index in 0..count {
        nodes.push(Event::Does(thread, index))?;
    }
    Ok(nodes)
}

fn instance_count(run: &Run) -> usize
    ensures { result ≡ length (run_as run.now).instances }
{
    let instances = run.instances.as_slice();
    instances.len()
}

/// All that may be an event of runs: the initial stores, and what the threads execute. Errors: want
/// of memory, as in all that follows.
pub fn nodes<'a>(
    alloc: Global,
    locations: &[&'a [u8]],
    runs: &[Run<'a>],
) -> Result<Vec<Event<'a>>, AllocError>
    requires { IsOnce (names_as locations.now) }
    ensures { IfOk result (λ v. IsListOf (IsNode (names_as locations.now) (map run_as runs.now))
        (map event_as v.items)) }
{
    let mut nodes = initial_nodes(alloc, locations)?;
    for (thread, run) in runs.iter().enumerate() {
        let mut more = run_nodes(alloc, thread, instance_count(run))?;
        nodes.append(&mut more)?;
    }
    Ok(nodes)
}

// Puts what a thread executes at an index, if it is a load.
fn put_if_load<'a>(
    loads: &mut Vec<Event<'a>>,
    thread: usize,
    index: usize,
    instance: &Instance,
) -> Result<(), AllocError>
    ensures { OnOk result (map event_as loads.new.items ≡ map event_as loads.old.items
        ++ (if machine.is_load (instance_as instance.now).instruction
        then executions.Does thread index ∷ [] else [])) }
{
    if is_load(instance.instruction) {
        loads.push(Event::Does(thread, index))?;
        return Ok(());
    }
    Ok(())
}

// Puts the loads among what a thread executes.
fn put_loads<'a>(
    loads: &mut Vec<Event<'a>>,
    thread: usize,
    instances: &[Instance],
) -> Result<(), AllocError>
    ensures { OnOk result (map event_as loads.new.items ≡ map event_as loads.old.items
        ++ loads_from thread 0 (map instance_as instances.now)) }
{
    for (index, instance) in instances.iter().enumerate() {
        put_if_load(loads, thread, index, instance)?;
    }
    Ok(())
}

// Puts the loads of a run of a thread.
fn put_run_loads<'a>(loads: &mut Vec<Event<'a>>, thread: usize, run: &Run) -> Result<(), AllocError>
    ensures { OnOk result (map event_as loads.new.items
        ≡ map event_as loads.old.items ++ loads_from thread 0 (run_as run.now).instances) }
{
    put_loads(loads, thread, &run.instances)?;
    Ok(())
}

/// The loads of runs, in the order of the threads and of their runs.
pub fn loads<'a>(alloc: Global, runs: &[Run]) -> Result<Vec<Event<'a>>, AllocError>
    ensures { IfOk result (λ v. map event_as v.items ≡ loads_in 0 (map run_as runs.now)) }
{
    let mut loads = Vec::new(alloc);
    for (thread, run) in runs.iter().enumerate() {
        put_run_loads(&mut loads, thread, run)?;
    }
    Ok(loads)
}

fn is_store_action(action: &Action, location: &[u8]) -> bool
    ensures { IsTrue result ↔ IsStoreAction location.now (action_as action.now) }
{
    match action {
        Action::Stores(other, _) => *other == location,
        Action::Loads(_, _) => false,
        Action::Fences(_) => false,
    }
}

fn is_store_found(found: &Option<Action>, location: &[u8]) -> bool
    ensures { IsTrue result ↔ IsStoreFound location.now found.now }
{
    match found {
        Some(action) => is_store_action(action, location),
        None => false,
    }
}

// Puts an event, if it is a store of the location.
fn put_if_store<'a>(
    stores: &mut Vec<Event<'a>>,
    test: &'a Test,
    locations: &[&'a [u8]],
    runs: &[Run<'a>],
    event: &Event<'a>,
    location: &[u8],
) -> Result<(), AllocError>
    requires { names_as locations.now ≡ names.locations (content_of test.now) }
    ensures { OnOk result (PutsIf (IsStoreOf (content_of test.now)
        (of_runs (map run_as runs.now)) location.now (event_as event.now)) (event_as event.now)
        (map event_as stores.old.items) (map event_as stores.new.items)) }
{
    let found = action(test, locations, runs, event);
    if is_store_found(&found, location) {
        stores.push(*event)?;
        return Ok(());
    }
    Ok(())
}

// The stores of a location among events.
fn stores_among<'a>(
    alloc: Global,
    test: &'a Test,
    locations: &[&'a [u8]],
    runs: &[Run<'a>],
    location: &[u8],
    all: &[Event<'a>],
) -> Result<Vec<Event<'a>>, AllocError>
    requires once { IsOnce (map event_as all.now) }
    requires locations { names_as locations.now ≡ names.locations (content_of test.now) }
    ensures { IfOk result (λ v. IsListOf (λ e. Contains (map event_as all.now) e
        × IsStoreOf (content_of test.now) (of_runs (map run_as runs.now)) location.now e)
        (map event_as v.items)) }
{
    let mut stores = Vec::new(alloc);
    for event in all {
        put_if_store(&mut stores, test, locations, runs, event, location)?;
    }
    Ok(stores)
}

/// The stores of a location.
pub fn stores_of<'a>(
    alloc: Global,
    test: &'a Test,
    locations: &[&'a [u8]],
    runs: &[Run<'a>],
    location: &[u8],
) -> Result<Vec<Event<'a>>, AllocError>
    requires locations { names_as locations.now ≡ names.locations (content_of test.now) }
    ensures { IfOk result (λ v. IsListOf (IsStoreOf (content_of test.now)
        (of_runs (map run_as runs.now)) location.now) (map event_as v.items)) }
{
    let all = nodes(alloc, locations, runs)?;
    let stores = stores_among(alloc, test, locations, runs, location, &all)?;
    Ok(stores)
}

// Whether the action is a store of the value to the location.
fn is_store_of_value(action: &Action, location: &[u8], value: &Value) -> bool
    ensures { IsTrue result
        ↔ (action_as action.now ≡ executions.Stores location.now (value_as value.now)) }
{
    match action {
        Action::Stores(other, stored) => both(*other == location, is_same_value(stored, value)),
        Action::Loads(_, _) => false,
        Action::Fences(_) => false,
    }
}

fn both(first: bool, second: bool) -> bool
    ensures { IsTrue result ↔ (IsTrue first × IsTrue second) }
{
    first && second
}

// Whether the actions are a load and a store of one location and one value.
fn is_read_action(load: &Action, store: &Action) -> bool
    ensures { IsTrue result ↔ IsReadAction (action_as load.now) (action_as store.now) }
{
    match load {
        Action::Loads(location, value) => is_store_of_value(store, location, value),
        Action::Stores(_, _) => false,
        Action::Fences(_) => false,
    }
}

fn is_read_found(load: &Option<Action>, store: &Option<Action>) -> bool
    ensures { IsTrue result ↔ IsReadFound load.now store.now }
{
    match load {
        Some(loading) => match store {
            Some(storing) => is_read_action(loading, storing),
            None => false,
        },
        None => false,
    }
}

// Puts an event, if the load may read it.
fn put_if_source<'a>(
    stores: &mut Vec<Event<'a>>,
    test: &'a Test,
    locations: &[&'a [u8]],
    runs: &[Run<'a>],
    load: &Event<'a>,
    event: &Event<'a>,
) -> Result<(), AllocError>
    requires { names_as locations.now ≡ names.locations (content_of test.now) }
    ensures { OnOk result (PutsIf (MayRead (content_of test.now)
        (of_runs (map run_as runs.now)) (event_as load.now) (event_as event.now))
        (event_as event.now) (map event_as stores.old.items) (map event_as stores.new.items)) }
{
    let loads = action(test, locations, runs, load);
    let found = action(test, locations, runs, event);
    if is_read_found(&loads, &found) {
        stores.push(*event)?;
        return Ok(());
    }
    Ok(())
}

// The stores among events that a load may read.
fn sources_among<'a>(
    alloc: Global,
    test: &'a Test,
    locations: &[&'a [u8]],
    runs: &[Run<'a>],
    load: &Event<'a>,
    all: &[Event<'a>],
) -> Result<Vec<Event<'a>>, AllocError>
    requires once { IsOnce (map event_as all.now) }
    requires locations { names_as locations.now ≡ names.locations (content_of test.now) }
    ensures { IfOk result (λ v. IsListOf (λ e. Contains (map event_as all.now) e
        × MayRead (content_of test.now) (of_runs (map run_as runs.now)) (event_as load.now) e)
        (map event_as v.items)) }
{
    let mut stores = Vec::new(alloc);
    for event in all {
        put_if_source(&mut stores, test, locations, runs, load, event)?;
    }
    Ok(stores)
}

/// The stores that a load may read.
pub fn sources<'a>(
    alloc: Global,
    test: &'a Test,
    locations: &[&'a [u8]],
    runs: &[Run<'a>],
    load: &Event<'a>,
) -> Result<Vec<Event<'a>>, AllocError>
    requires locations { names_as locations.now ≡ names.locations (content_of test.now) }
    ensures { IfOk result (λ v. IsListOf (MayRead (content_of test.now)
        (of_runs (map run_as runs.now)) (event_as load.now)) (map event_as v.items)) }
{
    let all = nodes(alloc, locations, runs)?;
    let stores = sources_among(alloc, test, locations, runs, load, &all)?;
    Ok(stores)
}
