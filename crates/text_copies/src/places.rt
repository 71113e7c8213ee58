//! Copies of observables, values and initial values.

ghost use Rattle.std.specs.Prelude.{◌≡◌, IfOk};

use std::alloc::{AllocError, Global};
use text_values::{InitEntry, Place, Value};

pub(crate) fn copied_place(alloc: Global, place: &Place) -> Result<Place, AllocError>
    ensures { IfOk result (λ p. p ≡ place.now) }
{
    match place {
        Place::Location(name) => Ok(Place::Location(name.copied(alloc)?)),
        Place::Register(thread, register) => Ok(Place::Register(*thread, *register)),
    }
}

pub(crate) fn copied_value(alloc: Global, value: &Value) -> Result<Value, AllocError>
    ensures { IfOk result (λ v. v ≡ value.now) }
{
    match value {
        Value::Number(number) => Ok(Value::Number(*number)),
        Value::Address(name) => Ok(Value::Address(name.copied(alloc)?)),
    }
}

fn copied_entry(alloc: Global, entry: &InitEntry) -> Result<InitEntry, AllocError>
    ensures { IfOk result (λ e. e ≡ entry.now) }
{
    Ok(InitEntry {
        place: copied_place(alloc, &entry.place)?,
        value: copied_value(alloc, &entry.value)?,
    })
}

/// A copy of initial values. Errors: out of memory.
pub fn copied_entries(alloc: Global, entries: &[InitEntry]) -> Result<Vec<InitEntry>, AllocError>
    ensures { IfOk result (λ v. v.items ≡ entries.now) }
{
    let mut copies = Vec::with_capacity(alloc, entries.len())?;
    for entry in entries {
        copies.push(copied_entry(alloc, entry)?)?;
    }
    Ok(copies)
}

/// A copy of a list of observables. Errors: out of memory.
pub fn copied_places(alloc: Global, places: &[Place]) -> Result<Vec<Place>, AllocError>
    ensures { IfOk result (λ v. v.items ≡ places.now) }
{
    let mut copies = Vec::with_capacity(alloc, places.len())?;
    for place in places {
        copies.push(copied_place(alloc, place)?)?;
    }
    Ok(copies)
}
