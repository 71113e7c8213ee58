//! What a test's candidates are made of: initial stores, and runs of each thread.

ghost use Rattle.std.specs.Prelude.{Vec, ℕ, ◌≡◌, ◌<◌, List, Some, length, map, IfOk};
ghost use Rattle.std.specs.declared.alloc.Global.{Global};
ghost use Rattle.thread_runs.specs.declared.value.Value.{Value};
ghost use Rattle.thread_runs.specs.declared.run.Run.{Run};
ghost use Rattle.thread_runs.specs.LocationValues.{AreLocationValues};
ghost use Rattle.thread_runs.specs.ValueSet.{IsValueSet};
ghost use Rattle.run_combinations.specs.Keys.{HasKey, IsKeyed, bit_of};
ghost use Rattle.store_orders.specs.Events.{initial_stores, HasStore};
ghost use Rattle.run_combinations.specs.Parts.{AreSketches, HasStoresOf, AreBelow, IsMade, NamesRuns, AreThreadParts, AreSiftedParts};
ghost use Rattle.std.specs.List.{AllZip};
ghost use Rattle.run_combinations.specs.Layouts.{AreServedRuns, IsLaidOut};

use crate::keys::KeySet;
use crate::part::{Part, Sketch, add_keys, join_stores, parts, sift, sketches};
use dataflow::Workspace;
use std::alloc::{AllocError, Global};
use store_orders::{Action, Event};
use text_values::Name;
use thread_runs::{Domain, Program, Run, Value, held_values, served_runs_of};

/// The runs of a thread that may be part of a candidate.
#[derive(Drop)]
pub struct ThreadParts {
    /// The runs.
    pub parts: Vec<Part>,
    /// The locations and values that some of them stores.
    pub stores: KeySet,
}

/// What the candidates of a test are made of.
#[derive(Drop)]
pub struct Layout {
    /// The test's locations, sorted by name bytes.
    pub locations: Vec<Name>,
    /// The initial stores, by location.
    pub initial: Vec<Event>,
    /// The locations and values that the initial stores store.
    pub initial_store_keys: KeySet,
    /// The runs of each thread.
    pub threads: Vec<ThreadParts>,
}

/// The initial stores, by location.
fn initial_events(alloc: Global, initial: &[Value]) -> Result<Vec<Event>, AllocError>
    ensures { IfOk result (λ v. v.items ≡ initial_stores 0 initial.now) }
{
    let mut events = Vec::with_capacity(alloc, initial.len())?;
    for location in 0..initial.len() {
        events.push(Event {
            thread: None,
            action: Action::Store {
                location,
                value: initial[location],
            },
        })?;
    }
    Ok(events)
}

/// What the initial stores store.
fn initial_keys(values: &[Value], initial: &[Event]) -> KeySet
    ensures { (location : ℕ) (value : Value) (a b : ℕ) → HasStore location value initial.now
        → bit_of values.now location value ≡ Some (a, b) → HasKey result a b }
{
    let mut loads = KeySet::empty();
    let mut stores = KeySet::empty();
    for event in initial {
        add_keys(values, event.action, &mut loads, &mut stores);
    }
    stores
}

/// The runs of each thread, where `held` says what locations may hold: but for some with a load of
/// what its location never holds.
fn served_runs(
    alloc: Global,
    program: &Program,
    domain: &Domain,
    held: &[Vec<Value>],
) -> Result<Vec<Vec<Run>>, AllocError>
    requires set { IsValueSet domain.now.values.items }
    requires held { AreLocationValues program.now domain.now.values.items held.now }
    ensures { IfOk result (λ v. AreServedRuns program.now domain.now.values.items v.items) }
{
    let mut threads = Vec::with_capacity(alloc, program.threads.len())?;
    for thread in 0..program.threads.len() {
        threads.push(served_runs_of(alloc, program, thread, domain, held)?)?;
    }
    Ok(threads)
}

/// The runs of each thread, but for some with a load of what its location never holds.
#[inline(never)]
fn all_runs(alloc: Global, program: &Program, domain: &Domain) -> Result<Vec<Vec<Run>>, AllocError>
    requires { IsValueSet domain.now.values.items }
    ensures { IfOk result (λ v. AreServedRuns program.now domain.now.values.items v.items) }
{
    let held = held_values(alloc, program, &domain.values)?;
    served_runs(alloc, program, domain, &held)
}

/// The runs of each thread in short.
fn all_sketches(
    alloc: Global,
    domain: &Domain,
    runs: &[Vec<Run>],
) -> Result<Vec<Vec<Sketch>>, AllocError>
    ensures { IfOk result (λ v.
        AllZip (λ r s. AreSketches domain.now.values.items r.items s.items) runs.now v.items) }
{
    let mut threads = Vec::with_capacity(alloc, runs.len())?;
    for thread in runs {
        threads.push(sketches(alloc, &domain.values, thread)?)?;
    }
    Ok(threads)
}

/// The runs of a thread that may be part of a candidate.
fn thread_parts(
    alloc: Global,
    workspace: &mut Workspace,
    thread: usize,
    runs: &[Run],
    sketches: &[Sketch],
) -> Result<ThreadParts, AllocError>
    requires { AreBelow (length runs.now) sketches.now }
    ensures stores { IfOk result (λ t. HasStoresOf t.stores sketches.now) }
    ensures parts { IfOk result (λ t. AllZip (IsMade thread runs.now) sketches.now t.parts.items) }
{
    let mut stores = KeySet::empty();
    join_stores(&mut stores, sketches);
    Ok(ThreadParts {
        parts: parts(alloc, workspace, thread, runs, sketches)?,
        stores,
    })
}

/// The runs of each thread that may be part of a candidate.
#[inline(never)]
fn all_parts(
    alloc: Global,
    runs: &[Vec<Run>],
    sketches: &[Vec<Sketch>],
) -> Result<Vec<ThreadParts>, AllocError>
    requires { AllZip NamesRuns runs.now sketches.now }
    ensures { IfOk result (λ v. AreThreadParts 0 runs.now sketches.now v.items) }
{
    let mut workspace = Workspace::new();
    let mut threads = Vec::with_capacity(alloc, runs.len())?;
    for thread in 0..runs.len() {
        threads.push(thread_parts(
            alloc,
            &mut workspace,
            thread,
            &runs[thread],
            &sketches[thread],
        )?)?;
    }
    Ok(threads)
}

/// The runs of each thread that may be part of a candidate, where the initial stores store this.
fn sifted_parts(
    alloc: Global,
    program: &Program,
    domain: &Domain,
    initial: &KeySet,
) -> Result<Vec<ThreadParts>, AllocError>
    requires { IsValueSet domain.now.values.items }
    ensures { IfOk result (λ v. (runs : List (Vec Run Global))
        × AreServedRuns program.now domain.now.values.items runs
        × AreSiftedParts domain.now.values.items initial.now runs v.items) }
{
    let runs = all_runs(alloc, program, domain)?;
    let mut sketches = all_sketches(alloc, domain, &runs)?;
    sift(initial, &mut sketches);
    let threads = all_parts(alloc, &runs, &sketches)?;
    Ok(threads)
}

impl Layout {
    /// What the candidates of a program over a domain are made of.
    pub fn new(alloc: Global, program: Program, domain: &Domain) -> Result<Layout, AllocError>
        requires { IsValueSet domain.now.values.items }
        ensures { IfOk result (λ l. (runs : List (Vec Run Global))
            × AreServedRuns program domain.now.values.items runs × IsLaidOut program runs l
            × IsKeyed (bit_of domain.now.values.items) l) }
    {
        let initial = initial_events(alloc, &program.initial)?;
        let initial_store_keys = initial_keys(&domain.values, &initial);
        let threads = sifted_parts(alloc, &program, domain, &initial_store_keys)?;
        Ok(Layout {
            locations: program.locations,
            initial,
            initial_store_keys,
            threads,
        })
    }
}

/// What the registers hold at the end of each run.
fn ends_of(alloc: Global, parts: &[Part]) -> Result<Vec<[Value; 32]>, AllocError>
    ensures { IfOk result (λ v. v.items ≡ map (λ p. p.registers) parts.now) }
{
    let mut ends = Vec::with_capacity(alloc, parts.len())?;
    for part in parts {
        ends.push(part.registers)?;
    }
    Ok(ends)
}

/// For each thread and each of its runs, what the registers hold at the end.
pub fn registers(
    alloc: Global,
    threads: &[ThreadParts],
) -> Result<Vec<Vec<[Value; 32]>>, AllocError>
    ensures { IfOk result (λ v. map (λ w. w.items) v.items
        ≡ map (λ t. map (λ p. p.registers) t.parts.items) threads.now) }
{
    let mut all = Vec::with_capacity(alloc, threads.len())?;
    for thread in threads {
        all.push(ends_of(alloc, &thread.parts)?)?;
    }
    Ok(all)
}
