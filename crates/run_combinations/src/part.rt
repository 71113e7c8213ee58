//! Runs of one thread, as parts of candidates.

ghost use Rattle.std.specs.Prelude.{ℕ, ◌≡◌, ◌<◌, ◌++◌, List, [], ◌∷◌, Option, length, IfOk};
ghost use Rattle.store_orders.specs.declared.combination.Event.{Event};
ghost use Rattle.run_combinations.specs.Keys.{AreKeysIn, AreKeys, bit_of};
ghost use Rattle.store_orders.specs.Events.{action_in, thread_events};
ghost use Rattle.run_combinations.specs.Parts.{AreSketches, AreSketchesKept, HasStoresOf, HasStoresOfAll, AreBelow, IsSifted, IsPartOf, IsMade};
ghost use Rattle.std.specs.List.{AllZip};

use crate::keys::KeySet;
use dataflow::{Links, Workspace};
use std::alloc::{AllocError, Global};
use store_orders::{Action, Event};
use thread_runs::{Run, Value};

/// A run of a thread that may be part of a candidate.
#[derive(Drop)]
pub struct Part {
    /// The index of the run among the runs of its thread.
    pub run: usize,
    /// Its events, in program order.
    pub events: Vec<Event>,
    /// Its dependencies.
    pub links: Links,
    /// The locations and values that its loads read.
    pub loads: KeySet,
    /// The locations and values that its stores store.
    pub stores: KeySet,
    /// What the registers hold at its end.
    pub registers: [Value; 32],
    /// Whether it stopped at a fault.
    pub is_faulted: bool,
}

/// A run by its index among the runs of its thread, with what its loads read and its stores store.
#[derive(Clone, Copy)]
pub struct Sketch {
    /// Its index.
    pub run: usize,
    /// What its loads read.
    pub loads: KeySet,
    /// What its stores store.
    pub stores: KeySet,
}

/// What an event of a run does, where its address is a location.
fn action_of(event: thread_runs::Event) -> Option<Action>
    ensures { result ≡ action_in event }
{
    match event {
        thread_runs::Event::Load(Value::Address(location), value) => {
            Some(Action::Load { location, value })
        }
        thread_runs::Event::Store(Value::Address(location), value) => {
            Some(Action::Store { location, value })
        }
        thread_runs::Event::Fence(fence) => Some(Action::Fence(fence)),
        _ => None,
    }
}

/// Adds what an action reads or stores.
pub fn add_keys(values: &[Value], action: Action, loads: &mut KeySet, stores: &mut KeySet)
    ensures { (es : List Event) (thread : Option ℕ)
        → AreKeys (bit_of values.now) es loads.old stores.old
        → AreKeys (bit_of values.now) (es ++ record { thread = thread; action = action } ∷ [])
        loads.new stores.new }
{
    match action {
        Action::Load { location, value } => loads.insert_pair(values, location, value),
        Action::Store { location, value } => stores.insert_pair(values, location, value),
        Action::Fence(_) => {}
    }
}

/// The accesses and fences of a run.
fn events_in(run: &Run) -> &[thread_runs::Event]
    ensures { result.now ≡ run.now.events.items }
{
    &run.events
}

/// What the events of the run at this index read and store.
fn sketch_of(values: &[Value], index: usize, run: &Run) -> Sketch
    ensures index { result.run ≡ index }
    ensures keys { (thread : ℕ)
        → AreKeys (bit_of values.now) (thread_events thread run.now.events.items) result.loads
        result.stores }
{
    let mut loads = KeySet::empty();
    let mut stores = KeySet::empty();
    for event in events_in(run) {
        match action_of(*event) {
            Some(action) => add_keys(values, action, &mut loads, &mut stores),
            None => {}
        }
    }
    Sketch {
        run: index,
        loads,
        stores,
    }
}

/// The runs of a thread, in their order.
pub fn sketches(alloc: Global, values: &[Value], runs: &[Run]) -> Result<Vec<Sketch>, AllocError>
    ensures { IfOk result (λ v. AreSketches values.now runs.now v.items) }
{
    let mut made = Vec::with_capacity(alloc, runs.len())?;
    for index in 0..runs.len() {
        made.reserve(1)?;
        made.push_reserved(sketch_of(values, index, &runs[index]));
    }
    Ok(made)
}

/// How many runs there are in all.
fn total(threads: &[Vec<Sketch>]) -> usize {
    let mut total = 0usize;
    for runs in threads {
        total = total.saturating_add(runs.len());
    }
    total
}

/// Adds what the stores of these runs store.
pub fn join_stores(set: &mut KeySet, runs: &[Sketch])
    ensures { AreKeysIn set.old set.new × HasStoresOf set.new runs.now }
{
    for run in runs {
        set.join(&run.stores);
    }
}

/// What the initial stores and the stores of these runs store.
fn stored_by(initial: &KeySet, threads: &[Vec<Sketch>]) -> KeySet
    ensures { AreKeysIn initial.now result × HasStoresOfAll result threads.now }
{
    let mut stored = *initial;
    for runs in threads {
        join_stores(&mut stored, runs);
    }
    stored
}

/// Leaves out the runs with a load that reads what is not stored.
fn keep_stored(stored: &KeySet, runs: &mut Vec<Sketch>)
    ensures { AreSketchesKept stored.now runs.old.items runs.new.items }
{
    runs.retain(|run| run.loads.is_within(stored));
}

/// Leaves out the runs with a load that reads what no initial store and no store of any run
/// stores.
fn keep_readable(initial: &KeySet, threads: &mut [Vec<Sketch>])
    ensures { IsSifted initial.now threads.old threads.new }
{
    let stored = stored_by(initial, threads);
    for runs in threads.iter_mut() {
        keep_stored(&stored, runs);
    }
}

/// Leaves out runs, until each load of those that stay reads what an initial store or a store of
/// one that stays stores.
pub fn sift(initial: &KeySet, threads: &mut [Vec<Sketch>])
    ensures { IsSifted initial.now threads.old threads.new }
{
    let mut count = total(threads);
    for _ in 0..count {
        keep_readable(initial, threads);
        let left = total(threads);
        if left == count {
            break;
        }
        count = left;
    }
}

/// The events of a run of a thread.
fn events_of(alloc: Global, thread: usize, run: &Run) -> Result<Vec<Event>, AllocError>
    ensures { IfOk result (λ v. v.items ≡ thread_events thread run.now.events.items) }
{
    let mut events = Vec::with_capacity(alloc, run.events.len())?;
    for event in events_in(run) {
        match action_of(*event) {
            Some(action) => events.push(Event {
                thread: Some(thread),
                action,
            })?,
            None => {}
        }
    }
    Ok(events)
}

/// A run as a part of candidates.
fn part_of(
    alloc: Global,
    workspace: &mut Workspace,
    thread: usize,
    run: &Run,
    sketch: &Sketch,
) -> Result<Part, AllocError>
    ensures part { IfOk result (λ p. IsPartOf thread run.now p) }
    ensures sketch { IfOk result (λ p. (p.run ≡ sketch.now.run) × (p.loads ≡ sketch.now.loads)
        × (p.stores ≡ sketch.now.stores)) }
{
    Ok(Part {
        run: sketch.run,
        events: events_of(alloc, thread, run)?,
        links: workspace.links(alloc, run)?,
        loads: sketch.loads,
        stores: sketch.stores,
        registers: run.registers,
        is_faulted: run.faulted,
    })
}

/// The runs that the sketches name.
pub fn parts(
    alloc: Global,
    workspace: &mut Workspace,
    thread: usize,
    runs: &[Run],
    sketches: &[Sketch],
) -> Result<Vec<Part>, AllocError>
    requires { AreBelow (length runs.now) sketches.now }
    ensures { IfOk result (λ v. AllZip (IsMade thread runs.now) sketches.now v.items) }
{
    let mut parts = Vec::with_capacity(alloc, sketches.len())?;
    for sketch in sketches {
        parts.reserve(1)?;
        let part = part_of(alloc, workspace, thread, &runs[sketch.run], sketch)?;
        parts.push_reserved(part);
    }
    Ok(parts)
}
