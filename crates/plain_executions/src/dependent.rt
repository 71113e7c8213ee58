//! Dependencies between the events of runs.

ghost use Rattle.std.specs.Prelude.{◌↔◌, ◌<◌, length, map, IfOk, IsTrue};
ghost use Rattle.meaning.specs.Executions.{Does, Dependency, instructions_of};
ghost use Rattle.plain_runs.specs.Runs.{run_as};
ghost use Rattle.plain_events.specs.Slots.{instructions_as};
ghost use Rattle.plain_events.specs.Events.{event_as, of_runs};
ghost use Rattle.plain_executions.specs.Kinds.{dependency_of};

use plain_events::dependency::{is_addr, is_ctrl, is_ctrlisync, is_data, is_need};
use plain_events::event::Event;
use plain_runs::run::{Instance, Run};
use std::alloc::{AllocError, Global};

/// The kinds of dependencies.
#[derive(Clone, Copy)]
pub enum Kind {
    /// `addr`
    Address,
    /// `data`
    Data,
    /// Need.
    Need,
    /// `ctrl`
    Control,
    /// `ctrlisync`
    ControlIsync,
}

// Whether the instructions at these indexes of a run are related so.
fn is_related(
    alloc: Global,
    kind: Kind,
    instances: &[Instance],
    from: usize,
    to: usize,
) -> Result<bool, AllocError>
    requires from { from < length instances.now }
    requires to { to < length instances.now }
    ensures { IfOk result (λ b. IsTrue b
        ↔ dependency_of kind (instructions_as instances.now) from to) }
{
    match kind {
        Kind::Address => is_addr(alloc, instances, from, to),
        Kind::Data => is_data(alloc, instances, from, to),
        Kind::Need => is_need(alloc, instances, from, to),
        Kind::Control => is_ctrl(alloc, instances, from, to),
        Kind::ControlIsync => is_ctrlisync(alloc, instances, from, to),
    }
}

// The same, if there are such instructions.
fn is_related_in(
    alloc: Global,
    kind: Kind,
    instances: &[Instance],
    from: usize,
    to: usize,
) -> Result<bool, AllocError>
    ensures { IfOk result (λ b. IsTrue b
        ↔ dependency_of kind (instructions_as instances.now) from to) }
{
    if from >= instances.len() {
        return Ok(false);
    }
    if to >= instances.len() {
        return Ok(false);
    }
    is_related(alloc, kind, instances, from, to)
}

// Whether the instructions at these indexes of the run of a thread are related so.
fn is_related_at(
    alloc: Global,
    kind: Kind,
    runs: &[Run],
    thread: usize,
    from: usize,
    to: usize,
) -> Result<bool, AllocError>
    ensures { IfOk result (λ b. IsTrue b
        ↔ dependency_of kind (instructions_of (of_runs (map run_as runs.now)) thread) from to) }
{
    if thread >= runs.len() {
        return Ok(false);
    }
    let found = is_related_in(alloc, kind, &runs[thread].instances, from, to)?;
    Ok(found)
}

// Whether an event of a thread depends so on another of one.
fn is_dependent_at(
    alloc: Global,
    kind: Kind,
    runs: &[Run],
    first: (usize, usize),
    second: (usize, usize),
) -> Result<bool, AllocError>
    ensures { IfOk result (λ b. IsTrue b
        ↔ Dependency (dependency_of kind) (of_runs (map run_as runs.now))
        (Does first.0 first.1) (Does second.0 second.1)) }
{
    let thread = first.0;
    let other = second.0;
    if thread != other {
        return Ok(false);
    }
    let found = is_related_at(alloc, kind, runs, thread, first.1, second.1)?;
    Ok(found)
}

/// Whether an event of runs depends so on another. Errors: want of memory.
pub fn is_dependent(
    alloc: Global,
    kind: Kind,
    runs: &[Run],
    first: &Event,
    second: &Event,
) -> Result<bool, AllocError>
    ensures { IfOk result (λ b. IsTrue b
        ↔ Dependency (dependency_of kind) (of_runs (map run_as runs.now)) (event_as first.now)
        (event_as second.now)) }
{
    match first {
        Event::Initial(_) => Ok(false),
        Event::Does(u, i) => match second {
            Event::Initial(_) => Ok(false),
            Event::Does(v, j) => {
                let found = is_dependent_at(alloc, kind, runs, (*u, *i), (*v, *j))?;
                Ok(found)
            }
        },
    }
}
