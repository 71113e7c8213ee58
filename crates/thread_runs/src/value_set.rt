//! Sets of values in their order.
ghost use Rattle.std.specs.Prelude.{◌≡◌, ◌≤◌, ◌↔◌, OnOk, length, IfSome, IsTrue, None, Contains, All};
ghost use Rattle.std.specs.declared.cmp.Ordering.TheVariants.{Less, Equal, Greater};
ghost use Rattle.thread_runs.specs.Machine as machine;
ghost use Rattle.thread_runs.specs.Runs.{IsLess};
ghost use Rattle.thread_runs.specs.ValueSet.{IsProperValue, IsValueSet, IsValueAdded, IsInsertionIndex};

use crate::value::{Value, is_value};
use std::alloc::AllocError;
use std::cmp::Ordering;

/// The index of a number among the signed numbers.
fn offset(n: u32) -> u32
    ensures { result ≡ machine.offset n }
{
    n.wrapping_add(0x8000_0000)
}

/// Whether the first value comes before the second: numbers first, rising as signed numbers, then
/// addresses.
fn is_less(v: Value, w: Value) -> bool
    ensures { IsTrue result ↔ IsLess v w }
{
    match (v, w) {
        (Value::Number(m), Value::Number(n)) => offset(m) < offset(n),
        (Value::Number(_), Value::Address(_)) => true,
        (Value::Address(k), Value::Address(l)) => k < l,
        _ => false,
    }
}

/// Which of the two values comes first.
fn order(v: Value, w: Value) -> Ordering
    ensures less { result ≡ Less ↔ IsLess v w }
    ensures equal { IsProperValue v → IsProperValue w → result ≡ Equal ↔ v ≡ w }
    ensures greater { result ≡ Greater ↔ IsLess w v }
{
    if is_less(v, w) {
        Ordering::Less
    } else if is_less(w, v) {
        Ordering::Greater
    } else {
        Ordering::Equal
    }
}

/// The index at which a missing value belongs in sorted values, or `None` if it is among them.
fn missing_index(values: &[Value], value: Value) -> Option<usize>
    requires one { IsProperValue value }
    requires proper { All IsProperValue values.now }
    ensures there { result ≡ None → Contains values.now value }
    ensures missing { IfSome result (λ index. IsInsertionIndex value values.now index) }
{
    for index in 0..values.len() {
        match order(values[index], value) {
            Ordering::Less => {}
            Ordering::Equal => return None,
            Ordering::Greater => return Some(index),
        }
    }
    Some(values.len())
}

/// Adds a value to sorted values, which stay sorted. No value, or one that is there, adds nothing.
pub fn add_value(values: &mut Vec<Value>, value: Value) -> Result<(), AllocError>
    requires { IsValueSet values.old.items }
    ensures set { IsValueSet values.new.items }
    ensures longer { length values.old.items ≤ length values.new.items }
    ensures unchanged { length values.old.items ≡ length values.new.items
        → values.old.items ≡ values.new.items }
    ensures added { OnOk result (IsValueAdded value values.old.items values.new.items) }
{
    if !is_value(value) {
        return Ok(());
    }
    if let Some(index) = missing_index(values, value) {
        values.insert(index, value)?;
    }
    Ok(())
}
