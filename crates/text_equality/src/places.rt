//! Observables, values and initial values.

ghost use Rattle.std.specs.Prelude.{◌≡◌, ◌↔◌, IsTrue};

use text_values::{InitEntry, Place, Value};

pub(crate) fn is_same_place(first: &Place, second: &Place) -> bool
    ensures { IsTrue result ↔ (first.now ≡ second.now) }
{
    match (first, second) {
        (Place::Location(a), Place::Location(b)) => a.is_same(b),
        (Place::Register(t, a), Place::Register(u, b)) => *t == *u && a.number() == b.number(),
        (Place::Location(_), Place::Register(_, _)) => false,
        (Place::Register(_, _), Place::Location(_)) => false,
    }
}

pub(crate) fn is_same_value(first: &Value, second: &Value) -> bool
    ensures { IsTrue result ↔ (first.now ≡ second.now) }
{
    match (first, second) {
        (Value::Number(a), Value::Number(b)) => *a == *b,
        (Value::Address(a), Value::Address(b)) => a.is_same(b),
        (Value::Number(_), Value::Address(_)) => false,
        (Value::Address(_), Value::Number(_)) => false,
    }
}

fn is_same_entry(first: &InitEntry, second: &InitEntry) -> bool
    ensures { IsTrue result ↔ (first.now ≡ second.now) }
{
    is_same_place(&first.place, &second.place) && is_same_value(&first.value, &second.value)
}

/// Whether two lists of initial values are equal.
pub fn are_same_entries(first: &[InitEntry], second: &[InitEntry]) -> bool
    ensures { IsTrue result ↔ (first.now ≡ second.now) }
{
    if first.len() != second.len() {
        return false;
    }
    for (this, that) in first.iter().zip(second.iter()) {
        if !is_same_entry(this, that) {
            return false;
        }
    }
    true
}

/// Whether two lists of observables are equal.
pub fn are_same_places(first: &[Place], second: &[Place]) -> bool
    ensures { IsTrue result ↔ (first.now ≡ second.now) }
{
    if first.len() != second.len() {
        return false;
    }
    for (this, that) in first.iter().zip(second.iter()) {
        if !is_same_place(this, that) {
            return false;
        }
    }
    true
}
