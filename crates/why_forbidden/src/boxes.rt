//! The boxes of a drawing: its events.

ghost use Rattle.std.specs.Prelude.{◌≡◌, ◌<◌, ◌↔◌, IfOk, IsTrue, None, Some, length, slice_get, slice_index_or};
ghost use Rattle.bit_rows.specs.Relation.{IsMember};
ghost use Rattle.why_forbidden.specs.Drawings.{AreBoxesOf, AreClusters, HasThread, IsBoxed, IsCluster};
ghost use Rattle.why_forbidden.specs.Views.{scene_of};

use crate::telling::{Told, instruction_at};
use bit_relations::EventSet;
use candidates::Event;
use draw_graph::Cluster;
use std::alloc::{AllocError, Global};
use why_text::ToldEvent;

fn is_thread(left: Option<usize>, right: Option<usize>) -> bool
    ensures { IsTrue result ↔ (left ≡ right) }
{
    match left {
        None => right.is_none(),
        Some(thread) => match right {
            None => false,
            Some(other) => thread == other,
        },
    }
}

#[tactic(auto, using(crate::proofs::Boxing::thread_is))]
fn has_thread(events: &[Event], thread: Option<usize>, number: usize) -> bool
    ensures { IsTrue result ↔ HasThread events.now thread number }
{
    match events.get(number) {
        Some(event) => is_thread(event.thread, thread),
        None => false,
    }
}

// Whether the event is a drawn one of the thread, or a drawn initial store.
fn is_boxed(told: Told<'_>, drawn: &EventSet, thread: Option<usize>, number: usize) -> bool
    requires within { number < length told.events.now }
    requires count { drawn.now.count ≡ length told.events.now }
    ensures { IsTrue result ↔ IsBoxed told.entry.events.now (IsMember drawn.now) thread number }
{
    if has_thread(told.events, thread, number) {
        return drawn.contains(number);
    }
    false
}

fn boxed(told: Told<'_>, number: usize) -> ToldEvent
    requires { number < length told.events.now }
    ensures number { result.number ≡ number }
    ensures event { slice_get told.entry.events.now number ≡ Some result.event }
    ensures instruction { result.instruction
        ≡ slice_index_or told.entry.instructions.now number None }
{
    let event = told.events[number];
    let instruction = instruction_at(told.instructions, number);
    ToldEvent {
        number,
        event,
        instruction,
    }
}

/// The drawn events of a thread, or the drawn initial stores. Errors: want of memory.
pub fn boxes(
    alloc: Global,
    told: Told<'_>,
    drawn: &EventSet,
    thread: Option<usize>,
) -> Result<Vec<ToldEvent>, AllocError>
    requires { drawn.now.count ≡ length told.events.now }
    ensures { IfOk result (λ v.
        AreBoxesOf (scene_of told.entry) (IsMember drawn.now) thread v.items) }
{
    let mut boxes = Vec::new(alloc);
    for number in 0..told.events.len() {
        if is_boxed(told, drawn, thread, number) {
            boxes.push(boxed(told, number))?;
        }
    }
    Ok(boxes)
}

fn cluster(
    alloc: Global,
    told: Told<'_>,
    drawn: &EventSet,
    thread: usize,
) -> Result<Cluster, AllocError>
    requires { drawn.now.count ≡ length told.events.now }
    ensures { IfOk result (IsCluster (scene_of told.entry) (IsMember drawn.now) thread) }
{
    let events = boxes(alloc, told, drawn, Some(thread))?;
    Ok(Cluster { thread, events })
}

/// The drawn events of each thread. Errors: want of memory.
pub fn clusters(
    alloc: Global,
    told: Told<'_>,
    drawn: &EventSet,
    threads: usize,
) -> Result<Vec<Cluster>, AllocError>
    requires { drawn.now.count ≡ length told.events.now }
    ensures { IfOk result (λ v.
        AreClusters (scene_of told.entry) (IsMember drawn.now) threads v.items) }
{
    let mut clusters = Vec::new(alloc);
    for thread in 0..threads {
        clusters.push(cluster(alloc, told, drawn, thread)?)?;
    }
    Ok(clusters)
}
