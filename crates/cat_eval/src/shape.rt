//! Combinations of runs that differ in values alone.

ghost use Rattle.std.specs.Prelude.{IsTrue};
ghost use Rattle.cat_eval.specs.Alike.{IsActionLike, IsLike, AreEventsLike, AreAlike};

use candidates::{Action, Combination, Event};

/// Whether two actions are of one kind and one location.
fn is_action_like(first: Action, second: Action) -> bool
    ensures { IsTrue result → IsActionLike first second }
{
    match (first, second) {
        (
            Action::Load { location: one, .. },
            Action::Load {
                location: other,
                ..
            },
        ) => one == other,
        (
            Action::Store { location: one, .. },
            Action::Store {
                location: other,
                ..
            },
        ) => one == other,
        (Action::Fence(one), Action::Fence(other)) => one == other,
        _ => false,
    }
}

/// Whether two events are of one thread, one kind and one location.
fn is_like(first: &Event, second: &Event) -> bool
    ensures { IsTrue result → IsLike first.now second.now }
{
    first.thread == second.thread && is_action_like(first.action, second.action)
}

/// Whether the events of two combinations are alike one by one.
fn are_events_like(first: &[Event], second: &[Event]) -> bool
    ensures { IsTrue result → AreEventsLike first.now second.now }
{
    if first.len() != second.len() {
        return false;
    }
    for index in 0..first.len() {
        if !is_like(&first[index], &second[index]) {
            return false;
        }
    }
    true
}

/// Whether two combinations differ at most in the values that are read and written. Then all the
/// predefined names are the same that do not change with the stores that the loads read nor with
/// the order of the stores.
pub(crate) fn is_same_shape(first: &Combination, second: &Combination) -> bool
    ensures { IsTrue result → AreAlike first.now second.now }
{
    if !are_events_like(&first.events, &second.events) {
        return false;
    }
    first.dependencies.is_same(&second.dependencies)
}
