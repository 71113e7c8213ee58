//! The relations that have predefined names, as lists of pairs of the indexes of events.

ghost use Rattle.std.specs.Prelude.{◌≡◌, ◌↔◌, ◌⊎◌, ◌<◌, length, map, IfOk, IsTrue, OnOk};
ghost use Rattle.meaning.specs.Executions.{ReadsFrom, Coherence, Dependency, loads_in};
ghost use Rattle.text_values.specs.TestValue.{Content};
ghost use Rattle.meaning.specs.Predefined.{FromReads, PairsOf};
ghost use Rattle.meaning_plain.specs.Lists.{Grows, HasPairs};
ghost use Rattle.plain_names.specs.Seen.{seen_events, AreSeen};
ghost use Rattle.plain_events.specs.Events.{event_as};
ghost use Rattle.plain_executions.specs.Kinds.{dependency_of};
ghost use Rattle.plain_executions.specs.Executions.{AreRelated, execution_as};
ghost use Rattle.plain_names.specs.Related.{IsFenceBetween, HasFenceBetween, IsFencedBy, IsCommunicatedBy, IsCommunicatedWithin, IsRelatedBy};

use crate::related::{
    are_accesses_of_one, both, either, have_one_thread, is_before, is_co, is_fr, is_rf,
};
use crate::seen::{Seen, Shown};
use crate::sets::{is_access, is_fence_of};
use meaning_plain::relations::add_pair;
use plain_events::event::is_same_event;
use plain_executions::dependent::{Kind, is_dependent};
use plain_executions::execution::Execution;
use std::alloc::{AllocError, Global};
use text_values::{Fence, Predefined};

// Whether it is a fence of the kind and stands between the events in program order.
fn is_fence_between(one: &Seen, kind: Fence, first: &Seen, second: &Seen) -> bool
    ensures { IsTrue result ↔ IsFenceBetween kind (event_as first.now.event)
        (event_as second.now.event) one.now }
{
    let behind = is_before(&first.event, &one.event);
    let fences = is_fence_of(&one.action, kind);
    let ahead = is_before(&one.event, &second.event);
    behind && fences && ahead
}

// Whether a fence of the kind stands between the events in program order.
fn has_fence_between(seen: &[Seen], kind: Fence, first: &Seen, second: &Seen) -> bool
    ensures { IsTrue result
        ↔ HasFenceBetween seen.now kind (event_as first.now.event) (event_as second.now.event) }
{
    for one in seen {
        let is = is_fence_between(one, kind, first, second);
        if is {
            return true;
        }
    }
    false
}

// Whether the events are accesses with a fence of the kind between them in program order.
fn is_fenced(shown: &Shown, kind: Fence, first: &Seen, second: &Seen) -> bool
    ensures { IsTrue result ↔ IsFencedBy shown.now.seen.items kind first.now second.now }
{
    let begins = is_access(&first.action);
    let ends = is_access(&second.action);
    let fenced = has_fence_between(&shown.seen, kind, first, second);
    begins && ends && fenced
}

// Whether the relation of communication that has this name relates the events.
fn is_communicated(
    name: Predefined,
    shown: &Shown,
    execution: &Execution,
    first: &Seen,
    second: &Seen,
) -> bool
    requires { map event_as shown.now.loads.items ≡ loads_in 0 (execution_as execution.now).runs }
    ensures { IsTrue result ↔ IsCommunicatedBy name (execution_as execution.now)
        (event_as first.now.event) (event_as second.now.event) }
{
    match name {
        Predefined::ReadsFrom => is_rf(execution, &shown.loads, &first.event, &second.event),
        Predefined::Coherence => is_co(execution, &first.event, &second.event),
        Predefined::FromReads => is_fr(execution, &shown.loads, &first.event, &second.event),
        _ => false,
    }
}

fn is_within(
    name: Predefined,
    is_internal: bool,
    shown: &Shown,
    execution: &Execution,
    first: &Seen,
    second: &Seen,
) -> bool
    requires { map event_as shown.now.loads.items ≡ loads_in 0 (execution_as execution.now).runs }
    ensures { IsTrue result ↔ IsCommunicatedWithin name is_internal (execution_as execution.now)
        (event_as first.now.event) (event_as second.now.event) }
{
    let is = is_communicated(name, shown, execution, first, second);
    let same = have_one_thread(&first.event, &second.event);
    if is_internal {
        return both(is, same);
    }
    both(is, !same)
}

// Whether one of the three relates them.
fn is_communication(shown: &Shown, execution: &Execution, first: &Seen, second: &Seen) -> bool
    requires { map event_as shown.now.loads.items ≡ loads_in 0 (execution_as execution.now).runs }
    ensures { IsTrue result ↔ ((ReadsFrom (execution_as execution.now)
        (event_as first.now.event) (event_as second.now.event)
        ⊎ Coherence (execution_as execution.now)
        (event_as first.now.event) (event_as second.now.event))
        ⊎ FromReads (execution_as execution.now)
        (event_as first.now.event) (event_as second.now.event)) }
{
    let reads = is_communicated(Predefined::ReadsFrom, shown, execution, first, second);
    let orders = is_communicated(Predefined::Coherence, shown, execution, first, second);
    let comes = is_communicated(Predefined::FromReads, shown, execution, first, second);
    either(either(reads, orders), comes)
}

fn depends(
    alloc: Global,
    kind: Kind,
    execution: &Execution,
    first: &Seen,
    second: &Seen,
) -> Result<bool, AllocError>
    ensures { IfOk result (λ b. IsTrue b
        ↔ Dependency (dependency_of kind) (execution_as execution.now)
        (event_as first.now.event) (event_as second.now.event)) }
{
    is_dependent(alloc, kind, &execution.runs, &first.event, &second.event)
}

// Whether the relation of this name relates the events.
fn is_related(
    alloc: Global,
    name: Predefined,
    shown: &Shown,
    execution: &Execution,
    first: &Seen,
    second: &Seen,
) -> Result<bool, AllocError>
    requires { map event_as shown.now.loads.items ≡ loads_in 0 (execution_as execution.now).runs }
    ensures { IfOk result (λ b. IsTrue b ↔ IsRelatedBy name shown.now.seen.items
        (execution_as execution.now) first.now second.now) }
{
    let (rf, co, fr) = (
        Predefined::ReadsFrom,
        Predefined::Coherence,
        Predefined::FromReads,
    );
    match name {
        Predefined::Identity => Ok(is_same_event(&first.event, &second.event)),
        Predefined::ProgramOrder => Ok(is_before(&first.event, &second.event)),
        Predefined::SameLocation => Ok(are_accesses_of_one(&first.action, &second.action)),
        Predefined::ProgramOrderSameLocation => {
            let before = is_before(&first.event, &second.event);
            Ok(both(before, are_accesses_of_one(&first.action, &second.action)))
        }
        Predefined::Internal => Ok(have_one_thread(&first.event, &second.event)),
        Predefined::External => Ok(!have_one_thread(&first.event, &second.event)),
        Predefined::ReadsFrom => Ok(is_communicated(rf, shown, execution, first, second)),
        Predefined::Coherence => Ok(is_communicated(co, shown, execution, first, second)),
        Predefined::FromReads => Ok(is_communicated(fr, shown, execution, first, second)),
        Predefined::ReadsFromExternal => Ok(is_within(rf, false, shown, execution, first, second)),
        Predefined::ReadsFromInternal => Ok(is_within(rf, true, shown, execution, first, second)),
        Predefined::CoherenceExternal => Ok(is_within(co, false, shown, execution, first, second)),
        Predefined::CoherenceInternal => Ok(is_within(co, true, shown, execution, first, second)),
        Predefined::FromReadsExternal => Ok(is_within(fr, false, shown, execution, first, second)),
        Predefined::FromReadsInternal => Ok(is_within(fr, true, shown, execution, first, second)),
        Predefined::Communication => Ok(is_communication(shown, execution, first, second)),
        Predefined::AddressDependency => depends(alloc, Kind::Address, execution, first, second),
        Predefined::DataDependency => depends(alloc, Kind::Data, execution, first, second),
        Predefined::ControlDependency => depends(alloc, Kind::Control, execution, first, second),
        Predefined::ControlIsyncDependency => {
            depends(alloc, Kind::ControlIsync, execution, first, second)
        }
        Predefined::SyncOrder => Ok(is_fenced(shown, Fence::Sync, first, second)),
        Predefined::LwsyncOrder => Ok(is_fenced(shown, Fence::LightweightSync, first, second)),
        Predefined::EieioOrder => Ok(is_fenced(shown, Fence::Eieio, first, second)),
        Predefined::IsyncOrder => Ok(is_fenced(shown, Fence::Isync, first, second)),
        _ => Ok(false),
    }
}

/// How many events are shown.
pub fn seen_count(shown: &Shown) -> usize
    ensures { result ≡ length shown.now.seen.items }
{
    let seen = shown.seen.as_slice();
    seen.len()
}

// Adds the pair of these indexes, if the relation of this name relates what stands there.
fn put_pair(
    alloc: Global,
    name: Predefined,
    shown: &Shown,
    execution: &Execution,
    pair: (usize, usize),
    pairs: &mut Vec<(usize, usize)>,
) -> Result<(), AllocError>
    requires loads { map event_as shown.now.loads.items
        ≡ loads_in 0 (execution_as execution.now).runs }
    requires from { pair.0 < length shown.now.seen.items }
    requires to { pair.1 < length shown.now.seen.items }
    ensures { OnOk result (Grows (λ p. (p ≡ pair)
        × AreRelated (IsRelatedBy name shown.now.seen.items (execution_as execution.now))
        shown.now.seen.items pair.0 pair.1) pairs.old.items pairs.new.items) }
{
    let from = pair.0;
    let to = pair.1;
    let is = is_related(
        alloc,
        name,
        shown,
        execution,
        &shown.seen[from],
        &shown.seen[to],
    )?;
    if !is {
        return Ok(());
    }
    add_pair(pairs, pair)?;
    Ok(())
}

// Adds the pairs from an index.
fn put_pairs(
    alloc: Global,
    name: Predefined,
    shown: &Shown,
    execution: &Execution,
    from: usize,
    pairs: &mut Vec<(usize, usize)>,
) -> Result<(), AllocError>
    requires loads { map event_as shown.now.loads.items
        ≡ loads_in 0 (execution_as execution.now).runs }
    requires from { from < length shown.now.seen.items }
    ensures { OnOk result (Grows (λ p. (p.0 ≡ from)
        × AreRelated (IsRelatedBy name shown.now.seen.items (execution_as execution.now))
        shown.now.seen.items from p.1) pairs.old.items pairs.new.items) }
{
    for to in 0..seen_count(shown) {
        put_pair(alloc, name, shown, execution, (from, to), pairs)?;
    }
    Ok(())
}

// The pairs of the indexes of events that the relation of this name relates by what they do.
fn pairs_by(
    alloc: Global,
    shown: &Shown,
    execution: &Execution,
    name: Predefined,
) -> Result<Vec<(usize, usize)>, AllocError>
    requires { map event_as shown.now.loads.items ≡ loads_in 0 (execution_as execution.now).runs }
    ensures { IfOk result (λ v. HasPairs
        (AreRelated (IsRelatedBy name shown.now.seen.items (execution_as execution.now))
        shown.now.seen.items) v.items) }
{
    let mut pairs = Vec::new(alloc);
    for from in 0..seen_count(shown) {
        put_pairs(alloc, name, shown, execution, from, &mut pairs)?;
    }
    Ok(pairs)
}

/// The pairs of the indexes of events that the relation of this name relates. Errors: want of
/// memory.
pub fn pairs_of(
    alloc: Global,
    shown: &Shown,
    execution: &Execution,
    name: Predefined,
) -> Result<Vec<(usize, usize)>, AllocError>
    requires { map event_as shown.now.loads.items ≡ loads_in 0 (execution_as execution.now).runs }
    ensures { IfOk result (λ v. (t : Content)
        → AreSeen t (execution_as execution.now) shown.now.seen.items
        → HasPairs (AreRelated (PairsOf t (execution_as execution.now) name)
        (seen_events shown.now.seen.items)) v.items) }
{
    let pairs = pairs_by(alloc, shown, execution, name)?;
    Ok(pairs)
}
