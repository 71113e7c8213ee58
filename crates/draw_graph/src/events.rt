//! The events that are drawn.

ghost use Rattle.std.specs.Prelude.{◌≤◌, ◌↔◌, ◌++◌, IsTrue, length};
ghost use Rattle.std.specs.List.{Contains};
ghost use Rattle.bit_rows.specs.Relation.{IsEvents};
ghost use Rattle.draw_graph.specs.Drawn.{IsDrawnEvent, IsAmongIfInitial};

use bit_relations::EventSet;
use candidates::Event;

// Whether a load reads the store of this number.
fn is_read(reads_from: &[u8], number: usize) -> bool
    ensures { IsTrue result ↔ Contains reads_from.now number }
{
    for index in 0..reads_from.len() {
        if usize::from(reads_from[index]) == number {
            return true;
        }
    }
    false
}

// Whether the event of this number is an end of a step.
fn is_end(ends: &[usize], number: usize) -> bool
    ensures { IsTrue result ↔ Contains ends.now number }
{
    for index in 0..ends.len() {
        if ends[index] == number {
            return true;
        }
    }
    false
}

fn is_named(reads_from: &[u8], ends: &[usize], number: usize) -> bool
    ensures { IsTrue result ↔ Contains (reads_from.now ++ ends.now) number }
{
    if is_read(reads_from, number) {
        return true;
    }
    is_end(ends, number)
}

fn is_named_if_initial(
    thread: Option<usize>,
    reads_from: &[u8],
    ends: &[usize],
    number: usize,
) -> bool
    ensures { IsTrue result ↔ IsAmongIfInitial thread (reads_from.now ++ ends.now) number }
{
    match thread {
        Some(_) => true,
        None => is_named(reads_from, ends, number),
    }
}

#[tactic(auto, using(crate::proofs::Growing::drawn_is))]
fn is_drawn(events: &[Event], reads_from: &[u8], ends: &[usize], number: usize) -> bool
    ensures { IsTrue result ↔ IsDrawnEvent events.now (reads_from.now ++ ends.now) number }
{
    match events.get(number) {
        Some(event) => is_named_if_initial(event.thread, reads_from, ends, number),
        None => false,
    }
}

/// The events that are drawn: those of the threads, and the initial stores that loads read or at
/// which a step of a reason ends. `reads_from` has the store that each load reads, and `ends` the
/// events at which the steps begin and end.
pub fn drawn_events(events: &[Event], reads_from: &[u8], ends: &[usize]) -> EventSet
    requires { length events.now ≤ 128 }
    ensures { IsEvents result (length events.now)
        (IsDrawnEvent events.now (reads_from.now ++ ends.now)) }
{
    let mut drawn = EventSet::empty(events.len());
    for number in 0..events.len() {
        if is_drawn(events, reads_from, ends, number) {
            drawn.insert(number);
        }
    }
    drawn
}
