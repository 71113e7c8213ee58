//! The predefined sets.
ghost use Rattle.std.specs.Prelude.{◌<◌, ◌≤◌, ◌↔◌, IsTrue, length};
ghost use Rattle.bit_rows.specs.Relation.{IsEvents};
ghost use Rattle.base_names.specs.Events.{At};
ghost use Rattle.base_names.specs.Names.{IsIn};

use crate::fixed::is_access;
use bit_relations::EventSet;
use run_combinations::{Action, Event};
use text_values::{Fence, Predefined};

/// Whether an event is in a predefined set; no event is in a name that is no set.
fn is_member(name: Predefined, event: &Event) -> bool
    ensures { IsTrue result ↔ IsIn name event.now }
{
    match name {
        Predefined::Loads => matches!(event.action, Action::Load { .. }),
        Predefined::Stores => matches!(event.action, Action::Store { .. }),
        Predefined::Accesses => is_access(event),
        Predefined::Fences => matches!(event.action, Action::Fence(_)),
        Predefined::InitialStores => event.thread.is_none(),
        Predefined::SyncFences => matches!(event.action, Action::Fence(Fence::Sync)),
        Predefined::LwsyncFences => matches!(event.action, Action::Fence(Fence::LightweightSync)),
        Predefined::EieioFences => matches!(event.action, Action::Fence(Fence::Eieio)),
        Predefined::IsyncFences => matches!(event.action, Action::Fence(Fence::Isync)),
        _ => false,
    }
}

/// The predefined set over the events, of which there are at most 128.
pub fn set_of(name: Predefined, count: usize, events: &[Event]) -> EventSet
    requires few { count ≤ 128 }
    requires all { count ≤ length events.now }
    ensures { IsEvents result count (λ a. (a < count) × At events.now (IsIn name) a) }
{
    let mut set = EventSet::empty(count);
    for number in 0..count {
        if is_member(name, &events[number]) {
            set.insert(number);
        }
    }
    set
}
