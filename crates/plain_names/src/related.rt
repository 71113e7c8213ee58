//! Which events are related by the relations that have predefined names.

ghost use Rattle.std.specs.Prelude.{◌≡◌, ◌↔◌, ◌⊎◌, ◌<◌, map, IsTrue};
ghost use Rattle.meaning.specs.Executions.{Coherence, ReadsFrom, loads_in};
ghost use Rattle.meaning.specs.Predefined.{HaveOneThread, FromReads};
ghost use Rattle.plain_events.specs.Events.{event_as, action_as};
ghost use Rattle.plain_executions.specs.Executions.{event_lists_as, execution_as};
ghost use Rattle.plain_names.specs.Related.{AreAccessing, IsAccessing, IsBefore, StandsBefore, AreOrdered, IsFromReadsAmong};

use plain_events::event::{Action, Event, is_same_event};
use plain_executions::cycle::is_read_from;
use plain_executions::execution::Execution;
use plain_executions::order::has_event;

/// Whether both are true.
pub fn both(first: bool, second: bool) -> bool
    ensures { IsTrue result ↔ (IsTrue first × IsTrue second) }
{
    first && second
}

/// Whether one of the two is true.
pub fn either(first: bool, second: bool) -> bool
    ensures { IsTrue result ↔ (IsTrue first ⊎ IsTrue second) }
{
    first || second
}

fn is_same_name(first: &[u8], second: &[u8]) -> bool
    ensures { IsTrue result ↔ (first.now ≡ second.now) }
{
    first == second
}

fn is_access_of(action: &Action, location: &[u8]) -> bool
    ensures { IsTrue result ↔ IsAccessing location.now (action_as action.now) }
{
    match action {
        Action::Loads(other, _) => is_same_name(other, location),
        Action::Stores(other, _) => is_same_name(other, location),
        Action::Fences(_) => false,
    }
}

/// Whether both are loads or stores of one location.
pub fn are_accesses_of_one(first: &Action, second: &Action) -> bool
    ensures { IsTrue result ↔ AreAccessing (action_as first.now) (action_as second.now) }
{
    match first {
        Action::Loads(location, _) => is_access_of(second, location),
        Action::Stores(location, _) => is_access_of(second, location),
        Action::Fences(_) => false,
    }
}

// Whether the first index of one thread comes before that of the other, and both are the same.
fn is_earlier(first: (usize, usize), second: (usize, usize)) -> bool
    ensures { IsTrue result ↔ ((first.0 ≡ second.0) × (first.1 < second.1)) }
{
    let thread = first.0;
    let other = second.0;
    if thread != other {
        return false;
    }
    let index = first.1;
    let end = second.1;
    index < end
}

/// Whether the events are of one thread, the first before the second.
pub fn is_before(first: &Event, second: &Event) -> bool
    ensures { IsTrue result ↔ IsBefore (event_as first.now) (event_as second.now) }
{
    match first {
        Event::Initial(_) => false,
        Event::Does(u, i) => match second {
            Event::Initial(_) => false,
            Event::Does(v, j) => is_earlier((*u, *i), (*v, *j)),
        },
    }
}

/// Whether the events are of one thread.
pub fn have_one_thread(first: &Event, second: &Event) -> bool
    ensures { IsTrue result ↔ HaveOneThread (event_as first.now) (event_as second.now) }
{
    match first {
        Event::Initial(_) => false,
        Event::Does(u, _) => match second {
            Event::Initial(_) => false,
            Event::Does(v, _) => *u == *v,
        },
    }
}

// Whether the first stands before the second in the list.
fn stands_before(order: &[Event], first: &Event, second: &Event) -> bool
    ensures { IsTrue result ↔ StandsBefore (map event_as order.now) (event_as first.now)
        (event_as second.now) }
{
    match order.split_first() {
        Some((event, rest)) => {
            let same = is_same_event(event, first);
            let has = has_event(rest, second);
            let begins = both(same, has);
            let later = stands_before(rest, first, second);
            either(begins, later)
        }
        None => false,
    }
}

// Whether it does so in one of the lists.
fn is_coherent(orders: &[Vec<Event>], first: &Event, second: &Event) -> bool
    ensures { IsTrue result ↔ AreOrdered (event_lists_as orders.now) (event_as first.now)
        (event_as second.now) }
{
    for order in orders {
        let stands = stands_before(order, first, second);
        if stands {
            return true;
        }
    }
    false
}

/// `co`
pub fn is_co(execution: &Execution, first: &Event, second: &Event) -> bool
    ensures { IsTrue result ↔ Coherence (execution_as execution.now) (event_as first.now)
        (event_as second.now) }
{
    is_coherent(&execution.coherence, first, second)
}

/// `rf`
pub fn is_rf(execution: &Execution, loads: &[Event], first: &Event, second: &Event) -> bool
    requires { map event_as loads.now ≡ loads_in 0 (execution_as execution.now).runs }
    ensures { IsTrue result ↔ ReadsFrom (execution_as execution.now) (event_as first.now)
        (event_as second.now) }
{
    is_read_from(&execution.reads_from, loads, first, second)
}

// Whether the load reads a store of the list before which the other stands in coherence.
fn is_fr_among(
    execution: &Execution,
    loads: &[Event],
    stores: &[Event],
    first: &Event,
    second: &Event,
) -> bool
    requires { map event_as loads.now ≡ loads_in 0 (execution_as execution.now).runs }
    ensures { IsTrue result ↔ IsFromReadsAmong (map event_as stores.now)
        (execution_as execution.now) (event_as first.now) (event_as second.now) }
{
    for store in stores {
        let reads = is_rf(execution, loads, store, first);
        let later = is_co(execution, store, second);
        let is = both(reads, later);
        if is {
            return true;
        }
    }
    false
}

/// `fr`
pub fn is_fr(execution: &Execution, loads: &[Event], first: &Event, second: &Event) -> bool
    requires { map event_as loads.now ≡ loads_in 0 (execution_as execution.now).runs }
    ensures { IsTrue result ↔ FromReads (execution_as execution.now) (event_as first.now)
        (event_as second.now) }
{
    is_fr_among(execution, loads, &execution.reads_from, first, second)
}
