//! The predefined relations that all candidates of a combination of runs share.
ghost use Rattle.std.specs.Prelude.{◌≡◌, ◌<◌, ◌≤◌, ◌↔◌, ◌⊎◌, IsTrue, length};
ghost use Rattle.bit_rows.specs.Relation.{Has, IsRelation};
ghost use Rattle.bit_rows.specs.Pairs.{Union};
ghost use Rattle.base_names.specs.Events.{location_of, IsSameLocation, IsSameThread, IsLoad, IsAccess, IsFence, Linked, Links, ListedPairs, Fenced, Below, RowTo};
ghost use Rattle.base_names.specs.Names.{Fixed};

use bit_relations::Rel;
use run_combinations::{Action, Combination, Event};
use text_values::{Fence, Predefined};

/// Adds a pair of events, if the relation can have it.
pub fn put(target: &mut Rel, from: usize, to: usize)
    ensures { IsRelation target.new target.old.count (Union (Has target.old)
        (Below target.old.count (λ a b. (a ≡ from) × (b ≡ to)))) }
{
    let count = target.count();
    if from < count && to < count {
        target.insert(from, to);
    }
}

/// Adds pairs of events, as far as the relation can have them.
fn put_pairs(target: &mut Rel, pairs: &[(usize, usize)])
    ensures { IsRelation target.new target.old.count (Union (Has target.old)
        (Below target.old.count (ListedPairs pairs.now))) }
{
    let count = target.count();
    for (from, to) in pairs {
        if *from < count && *to < count {
            target.insert(*from, *to);
        }
    }
}

/// The location of an access.
pub fn location_of(event: &Event) -> Option<usize>
    ensures { result ≡ location_of event.now.action }
{
    match event.action {
        Action::Load { location, .. } => Some(location),
        Action::Store { location, .. } => Some(location),
        Action::Fence(_) => None,
    }
}

/// Whether the event is a load or a store.
pub fn is_access(event: &Event) -> bool
    ensures { IsTrue result ↔ IsAccess event.now }
{
    location_of(event).is_some()
}

/// Whether both are accesses of one location.
fn is_same_location(first: &Event, second: &Event) -> bool
    ensures { IsTrue result ↔ IsSameLocation first.now second.now }
{
    match (location_of(first), location_of(second)) {
        (Some(one), Some(other)) => one == other,
        _ => false,
    }
}

/// Whether both are events of one thread. Initial stores have no thread.
fn is_same_thread(first: &Event, second: &Event) -> bool
    ensures { IsTrue result ↔ IsSameThread first.now second.now }
{
    match (first.thread, second.thread) {
        (Some(one), Some(other)) => one == other,
        _ => false,
    }
}

/// Whether two events are linked as a name says that looks at the two alone.
fn is_linked(name: Predefined, from: usize, first: &Event, to: usize, second: &Event) -> bool
    ensures { IsTrue result ↔ Linked name from first.now to second.now }
{
    match name {
        Predefined::ProgramOrder => from < to && is_same_thread(first, second),
        Predefined::SameLocation => is_same_location(first, second),
        Predefined::ProgramOrderSameLocation => {
            from < to && is_same_thread(first, second) && is_same_location(first, second)
        }
        Predefined::Internal => is_same_thread(first, second),
        _ => false,
    }
}

/// Adds the pairs of one event and each that it is linked to.
fn put_linked_from(target: &mut Rel, name: Predefined, events: &[Event], from: usize)
    requires all { target.old.count ≤ length events.now }
    requires inside { from < target.old.count }
    ensures { IsRelation target.new target.old.count (Union (Has target.old)
        (RowTo (Links events.now name) from target.old.count)) }
{
    let first = events[from];
    for to in 0..target.count() {
        if is_linked(name, from, &first, to, &events[to]) {
            target.insert(from, to);
        }
    }
}

/// Adds the pairs of events that are linked.
fn put_linked(target: &mut Rel, name: Predefined, events: &[Event])
    requires all { target.old.count ≤ length events.now }
    ensures { IsRelation target.new target.old.count (Union (Has target.old)
        (Below target.old.count (Links events.now name))) }
{
    for from in 0..target.count() {
        put_linked_from(target, name, events, from);
    }
}

/// Whether the event is a load.
pub fn is_read(event: &Event) -> bool
    ensures { IsTrue result ↔ IsLoad event.now }
{
    matches!(event.action, Action::Load { .. })
}

/// Whether the event is a fence of this kind.
fn is_fence(event: &Event, kind: Fence) -> bool
    ensures { IsTrue result ↔ IsFence kind event.now }
{
    match event.action {
        Action::Fence(fence) => fence == kind,
        _ => false,
    }
}

/// Whether a fenced pair ends at an event that follows in program order, with a fence before it.
fn is_fenced_end(is_fenced: bool, follows: bool, event: &Event) -> bool
    ensures { IsTrue result ↔ (IsTrue is_fenced × IsTrue follows × IsAccess event.now) }
{
    is_fenced && follows && is_access(event)
}

/// Whether a fence has been met, now that of this event.
fn meets_fence(is_fenced: bool, follows: bool, event: &Event, kind: Fence) -> bool
    ensures { IsTrue result ↔ (IsTrue is_fenced ⊎ (IsTrue follows × IsFence kind event.now)) }
{
    is_fenced || (follows && is_fence(event, kind))
}

/// Adds the pairs of an event, if it is an access, and a later access of its thread, where a fence
/// of this kind stands between them.
fn put_fenced_from(target: &mut Rel, events: &[Event], kind: Fence, from: usize)
    requires all { target.old.count ≤ length events.now }
    requires inside { from < target.old.count }
    ensures { IsRelation target.new target.old.count (Union (Has target.old)
        (RowTo (Fenced events.now kind) from target.old.count)) }
{
    let count = target.count();
    let first = events[from];
    if location_of(&first).is_none() {
        return;
    }
    let mut is_fenced = false;
    for to in 0..count {
        let second = events[to];
        let follows = is_linked(Predefined::ProgramOrder, from, &first, to, &second);
        if is_fenced_end(is_fenced, follows, &second) {
            target.insert(from, to);
        }
        is_fenced = meets_fence(is_fenced, follows, &second, kind);
    }
}

/// Adds the pairs of accesses with a fence of this kind between them in program order.
fn put_fenced(target: &mut Rel, events: &[Event], kind: Fence)
    requires all { target.old.count ≤ length events.now }
    ensures { IsRelation target.new target.old.count (Union (Has target.old)
        (Below target.old.count (Fenced events.now kind))) }
{
    for from in 0..target.count() {
        put_fenced_from(target, events, kind, from);
    }
}

/// Makes `target` the relation of this name over the events of the combination, of this count. It
/// is empty where candidates of the combination differ in it.
pub fn write_fixed(target: &mut Rel, name: Predefined, count: usize, combination: &Combination)
    requires few { count ≤ 128 }
    requires all { count ≤ length combination.now.events.items }
    ensures { IsRelation target.new count (Below count (Fixed name count combination.now)) }
{
    target.clear(count);
    let events = combination.events.as_slice();
    match name {
        Predefined::Identity => target.add_identity(),
        Predefined::ProgramOrder => put_linked(target, name, events),
        Predefined::SameLocation => put_linked(target, name, events),
        Predefined::ProgramOrderSameLocation => put_linked(target, name, events),
        Predefined::Internal => put_linked(target, name, events),
        Predefined::External => {
            put_linked(target, Predefined::Internal, events);
            target.turn();
        }
        Predefined::AddressDependency => put_pairs(target, &combination.dependencies.addr_pairs),
        Predefined::DataDependency => put_pairs(target, &combination.dependencies.data_pairs),
        Predefined::ControlDependency => put_pairs(target, &combination.dependencies.ctrl_pairs),
        Predefined::ControlIsyncDependency => put_pairs(
            target,
            &combination.dependencies.ctrlisync_pairs,
        ),
        Predefined::SyncOrder => put_fenced(target, events, Fence::Sync),
        Predefined::LwsyncOrder => put_fenced(target, events, Fence::LightweightSync),
        Predefined::EieioOrder => put_fenced(target, events, Fence::Eieio),
        Predefined::IsyncOrder => put_fenced(target, events, Fence::Isync),
        _ => {}
    }
}
