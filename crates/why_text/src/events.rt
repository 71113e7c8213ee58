//! The instructions of the events of an execution.

ghost use Rattle.std.specs.Prelude.{◌≡◌, IfOk};
ghost use Rattle.std.specs.Option.{option_map};
ghost use Rattle.std.specs.List.{filter_map};
ghost use Rattle.text_values.specs.declared.test.Test as tests;
ghost use Rattle.why_text.specs.Origins.{AreAllRuns, AreInstructions, AreMadeIn, AreMadeOf, is_initial, is_of, made_by, made_by_run, made_in, makes_event, not_made, read_by, event_value_read, values_read};

use crate::runs::run_reading;
use candidates::{Action, Event, Execution};
use ppc_semantics::{Instruction, Run, RunStep, Value};
use std::alloc::{AllocError, Global};

fn makes_event(instruction: Instruction) -> bool
    ensures { result ≡ makes_event instruction }
{
    match instruction {
        Instruction::Load(_, _) => true,
        Instruction::LoadIndexed(_, _, _) => true,
        Instruction::Store(_, _) => true,
        Instruction::StoreIndexed(_, _, _) => true,
        Instruction::Fence(_) => true,
        _ => false,
    }
}

fn made_by(step: &RunStep) -> Option<Option<Instruction>>
    ensures { result ≡ made_by step.now }
{
    if makes_event(step.instruction) {
        Some(Some(step.instruction))
    } else {
        None
    }
}

// The instructions of the events of a run.
fn made_in(alloc: Global, steps: &[RunStep]) -> Result<Vec<Option<Instruction>>, AllocError>
    ensures { IfOk result (λ v. v.items ≡ made_in steps.now) }
{
    steps.iter().filter_map(|step| made_by(step)).collect(alloc)
}

fn read_by(action: Action) -> Option<Value>
    ensures { result ≡ read_by action }
{
    match action {
        Action::Load { value, .. } => Some(value),
        Action::Store { .. } => None,
        Action::Fence(_) => None,
    }
}

fn is_of(thread: Option<usize>, number: usize) -> bool
    ensures { result ≡ is_of thread number }
{
    match thread {
        Some(thread) => thread == number,
        None => false,
    }
}

fn value_read(thread: usize, event: &Event) -> Option<Value>
    ensures { result ≡ event_value_read thread event.now }
{
    if is_of(event.thread, thread) {
        read_by(event.action)
    } else {
        None
    }
}

// The values that the loads of a thread read, in program order.
fn values_read(alloc: Global, thread: usize, events: &[Event]) -> Result<Vec<Value>, AllocError>
    ensures { IfOk result (λ v. v.items ≡ values_read thread events.now) }
{
    events
        .iter()
        .filter_map(|event| value_read(thread, event))
        .collect(alloc)
}

fn is_initial(thread: Option<usize>) -> bool
    ensures { result ≡ is_initial thread }
{
    match thread {
        Some(_) => false,
        None => true,
    }
}

fn not_made(event: &Event) -> Option<Option<Instruction>>
    ensures { result ≡ not_made event.now }
{
    if is_initial(event.thread) {
        Some(None)
    } else {
        None
    }
}

// The initial stores, which come from no instruction.
fn all_not_made(alloc: Global, events: &[Event]) -> Result<Vec<Option<Instruction>>, AllocError>
    ensures { IfOk result (λ v. v.items ≡ filter_map not_made events.now) }
{
    events
        .iter()
        .filter_map(|event| not_made(event))
        .collect(alloc)
}

fn made_by_run(alloc: Global, found: Option<&Run>) -> Result<Vec<Option<Instruction>>, AllocError>
    ensures { IfOk result (λ v. v.items ≡ made_by_run (option_map (λ r. r.now) found.entry)) }
{
    match found {
        Some(run) => made_in(alloc, &run.steps),
        None => Ok(Vec::new(alloc)),
    }
}

// The instructions of the events of a thread.
fn made_on(
    alloc: Global,
    runs: &[Run],
    thread: usize,
    events: &[Event],
) -> Result<Vec<Option<Instruction>>, AllocError>
    ensures { IfOk result (λ v. AreMadeOf runs.now (values_read thread events.now) v.items) }
{
    let values = values_read(alloc, thread, events)?;
    made_by_run(alloc, run_reading(runs, &values))
}

// Those of all threads, of which these are the runs.
fn all_made(
    alloc: Global,
    threads: &[Vec<Run>],
    events: &[Event],
) -> Result<Vec<Option<Instruction>>, AllocError>
    ensures { (test : tests.Test) → AreAllRuns test threads.now
        → IfOk result (λ v. AreMadeIn test events.now v.items) }
{
    let mut found = Vec::new(alloc);
    for thread in 0..threads.len() {
        let mut made = made_on(alloc, &threads[thread], thread, events)?;
        found.append(&mut made)?;
    }
    Ok(found)
}

/// For each event of an execution the instruction that it comes from, where `threads` are the runs
/// of each thread of its test. Errors: want of memory.
pub fn instructions_of(
    alloc: Global,
    threads: &[Vec<Run>],
    execution: &Execution,
) -> Result<Vec<Option<Instruction>>, AllocError>
    ensures { (test : tests.Test) → AreAllRuns test threads.now
        → IfOk result (λ v. AreInstructions test execution.now.events.items v.items) }
{
    let mut found = all_not_made(alloc, &execution.events)?;
    let mut made = all_made(alloc, threads, &execution.events)?;
    found.append(&mut made)?;
    Ok(found)
}
