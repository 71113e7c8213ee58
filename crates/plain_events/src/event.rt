//! Events, and what they do.

ghost use Rattle.std.specs.Prelude.{◌≡◌, ◌↔◌, IsTrue};
ghost use Rattle.plain_events.specs.Events.{event_as};

use plain_machine::value::Value;
use text_values::Fence;

/// An event, if it does something.
#[derive(Clone, Copy)]
pub enum Event<'a> {
    /// The initial store of a location.
    Initial(&'a [u8]),
    /// What a thread, by its number, executes at an index of its run.
    Does(usize, usize),
}

/// What an event does.
#[derive(Clone, Copy)]
pub enum Action<'a> {
    /// It loads the value from the location.
    Loads(&'a [u8], Value<'a>),
    /// It stores the value there.
    Stores(&'a [u8], Value<'a>),
    /// It is a fence.
    Fences(Fence),
}

/// Whether both are the same.
pub fn is_same_event(first: &Event, second: &Event) -> bool
    ensures { IsTrue result ↔ (event_as first.now ≡ event_as second.now) }
{
    match (first, second) {
        (Event::Initial(k), Event::Initial(l)) => *k == *l,
        (Event::Does(u, i), Event::Does(v, j)) => *u == *v && *i == *j,
        (Event::Initial(_), Event::Does(_, _)) => false,
        (Event::Does(_, _), Event::Initial(_)) => false,
    }
}
