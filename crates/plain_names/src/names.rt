//! The events of an execution, and what the predefined names stand for, as lists.

ghost use Rattle.std.specs.Prelude.{◌≡◌, ◌<◌, length, map, IfOk};
ghost use Rattle.predefined_names.specs.PredefinedNames.{spelling};
ghost use Rattle.text_values.specs.TestValue.{Content};
ghost use Rattle.meaning.specs.Executions.{loads_in};
ghost use Rattle.meaning_plain.specs.Lists.{HasMembers};
ghost use Rattle.plain_events.specs.Events.{event_as};
ghost use Rattle.plain_executions.specs.Executions.{execution_as};
ghost use Rattle.plain_names.specs.Seen.{seen_events, AreSeen};
ghost use Rattle.plain_names.specs.Named.{IsValueOf, IsBoundTo, ArePredefinedNames};

use crate::pairs::{pairs_of, seen_count};
use crate::seen::Shown;
use crate::sets::members_of;
use plain_executions::execution::Execution;
use plain_models::scope::{Bound, Named};
use plain_models::value::Value;
use std::alloc::{AllocError, Global};
use text_values::{Name, PREDEFINED, Predefined};

/// The indexes of all events. Errors: want of memory, as in all that follows.
pub fn all_events(alloc: Global, shown: &Shown) -> Result<Vec<usize>, AllocError>
    ensures { IfOk result (λ v. HasMembers (λ n. n < length shown.now.seen.items) v.items) }
{
    let mut all = Vec::new(alloc);
    for index in 0..seen_count(shown) {
        all.push(index)?;
    }
    Ok(all)
}

fn value_of(
    alloc: Global,
    shown: &Shown,
    execution: &Execution,
    name: Predefined,
) -> Result<Value, AllocError>
    requires { map event_as shown.now.loads.items ≡ loads_in 0 (execution_as execution.now).runs }
    ensures { IfOk result (λ v. (t : Content)
        → AreSeen t (execution_as execution.now) shown.now.seen.items
        → IsValueOf t (execution_as execution.now) (seen_events shown.now.seen.items) name v) }
{
    if name.is_set() {
        let events = members_of(alloc, &shown.seen, name)?;
        return Ok(Value::Set(events));
    }
    let pairs = pairs_of(alloc, shown, execution, name)?;
    Ok(Value::Relation(pairs))
}

fn named(
    alloc: Global,
    shown: &Shown,
    execution: &Execution,
    name: Predefined,
) -> Result<Named, AllocError>
    requires { map event_as shown.now.loads.items ≡ loads_in 0 (execution_as execution.now).runs }
    ensures { IfOk result (λ b. (t : Content)
        → AreSeen t (execution_as execution.now) shown.now.seen.items
        → (b.name ≡ spelling name) × IsBoundTo t (execution_as execution.now)
        (seen_events shown.now.seen.items) name b.bound) }
{
    let spelling = Name::new(alloc, name.spelling())?;
    let value = value_of(alloc, shown, execution, name)?;
    Ok(Named {
        name: spelling,
        bound: Bound::Value(value),
    })
}

/// The predefined names, each with what it stands for.
pub fn predefined_names(
    alloc: Global,
    shown: &Shown,
    execution: &Execution,
) -> Result<Vec<Named>, AllocError>
    requires { map event_as shown.now.loads.items ≡ loads_in 0 (execution_as execution.now).runs }
    ensures { IfOk result (λ v. (t : Content)
        → AreSeen t (execution_as execution.now) shown.now.seen.items
        → ArePredefinedNames t (execution_as execution.now) (seen_events shown.now.seen.items)
        v.items) }
{
    let mut names = Vec::new(alloc);
    for name in &PREDEFINED {
        let one = named(alloc, shown, execution, *name)?;
        names.push(one)?;
    }
    Ok(names)
}
