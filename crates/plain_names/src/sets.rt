//! Which events belong to the sets that have predefined names.

ghost use Rattle.std.specs.Prelude.{◌≡◌, ◌↔◌, ◌⊎◌, IfOk, IsTrue, OnOk};
ghost use Rattle.text_values.specs.TestValue.{Content};
ghost use Rattle.meaning.specs.Executions as executions;
ghost use Rattle.meaning.specs.Executions.{Execution};
ghost use Rattle.meaning.specs.Predefined.{IsInitial};
ghost use Rattle.meaning_plain.specs.Lists.{Grows, HasMembers};
ghost use Rattle.plain_events.specs.Events.{event_as, action_as};
ghost use Rattle.plain_names.specs.Seen.{seen_events, AreSeen};
ghost use Rattle.plain_names.specs.Members.{IsLoading, IsStoring, IsFencing, IsMemberBy, IsMemberSeen, IsMemberAt};

use crate::seen::Seen;
use plain_events::event::{Action, Event};
use std::alloc::{AllocError, Global};
use text_values::{Fence, Predefined};

fn either(first: bool, second: bool) -> bool
    ensures { IsTrue result ↔ (IsTrue first ⊎ IsTrue second) }
{
    first || second
}

fn is_load(action: &Action) -> bool
    ensures { IsTrue result ↔ IsLoading (action_as action.now) }
{
    match action {
        Action::Loads(_, _) => true,
        Action::Stores(_, _) => false,
        Action::Fences(_) => false,
    }
}

fn is_store(action: &Action) -> bool
    ensures { IsTrue result ↔ IsStoring (action_as action.now) }
{
    match action {
        Action::Loads(_, _) => false,
        Action::Stores(_, _) => true,
        Action::Fences(_) => false,
    }
}

fn is_fence(action: &Action) -> bool
    ensures { IsTrue result ↔ IsFencing (action_as action.now) }
{
    match action {
        Action::Loads(_, _) => false,
        Action::Stores(_, _) => false,
        Action::Fences(_) => true,
    }
}

fn is_same_fence(first: Fence, second: Fence) -> bool
    ensures { IsTrue result ↔ (first ≡ second) }
{
    match first {
        Fence::Sync => matches!(second, Fence::Sync),
        Fence::LightweightSync => matches!(second, Fence::LightweightSync),
        Fence::Eieio => matches!(second, Fence::Eieio),
        Fence::Isync => matches!(second, Fence::Isync),
    }
}

/// Whether it is a fence of the kind.
pub fn is_fence_of(action: &Action, kind: Fence) -> bool
    ensures { IsTrue result ↔ (action_as action.now ≡ executions.Fences kind) }
{
    match action {
        Action::Loads(_, _) => false,
        Action::Stores(_, _) => false,
        Action::Fences(other) => is_same_fence(*other, kind),
    }
}

fn is_initial(event: &Event) -> bool
    ensures { IsTrue result ↔ IsInitial (event_as event.now) }
{
    match event {
        Event::Initial(_) => true,
        Event::Does(_, _) => false,
    }
}

/// Whether it is a load or a store.
pub fn is_access(action: &Action) -> bool
    ensures { IsTrue result
        ↔ (IsLoading (action_as action.now) ⊎ IsStoring (action_as action.now)) }
{
    either(is_load(action), is_store(action))
}

// Whether the event belongs to the set of this name.
fn is_member(name: Predefined, seen: &Seen) -> bool
    ensures { IsTrue result
        ↔ IsMemberBy name (event_as seen.now.event) (action_as seen.now.action) }
{
    match name {
        Predefined::Loads => is_load(&seen.action),
        Predefined::Stores => is_store(&seen.action),
        Predefined::Accesses => is_access(&seen.action),
        Predefined::Fences => is_fence(&seen.action),
        Predefined::InitialStores => is_initial(&seen.event),
        Predefined::SyncFences => is_fence_of(&seen.action, Fence::Sync),
        Predefined::LwsyncFences => is_fence_of(&seen.action, Fence::LightweightSync),
        Predefined::EieioFences => is_fence_of(&seen.action, Fence::Eieio),
        Predefined::IsyncFences => is_fence_of(&seen.action, Fence::Isync),
        _ => false,
    }
}

// Puts an index, if the event that stands there belongs to the set of this name.
fn put_member(
    members: &mut Vec<usize>,
    name: Predefined,
    index: usize,
    seen: &Seen,
) -> Result<(), AllocError>
    ensures { OnOk result (Grows (λ n. (n ≡ index)
        × IsMemberBy name (event_as seen.now.event) (action_as seen.now.action)) members.old.items
        members.new.items) }
{
    let is = is_member(name, seen);
    if !is {
        return Ok(());
    }
    members.push(index)?;
    Ok(())
}

// The indexes of the events that belong to the set of this name by what they do.
fn members_by(alloc: Global, seen: &[Seen], name: Predefined) -> Result<Vec<usize>, AllocError>
    ensures { IfOk result (λ v. HasMembers (IsMemberSeen name seen.now) v.items) }
{
    let mut members = Vec::new(alloc);
    for (index, one) in seen.iter().enumerate() {
        put_member(&mut members, name, index, one)?;
    }
    Ok(members)
}

/// The indexes of the events of an execution that belong to the set of this name. Errors: want of
/// memory.
pub fn members_of(alloc: Global, seen: &[Seen], name: Predefined) -> Result<Vec<usize>, AllocError>
    ensures { IfOk result (λ v. (t : Content) (x : Execution) → AreSeen t x seen.now
        → HasMembers (IsMemberAt t x name (seen_events seen.now)) v.items) }
{
    let members = members_by(alloc, seen, name)?;
    Ok(members)
}
