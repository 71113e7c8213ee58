//! Lists of values in which none stands twice.

ghost use Rattle.std.specs.Prelude.{◌≡◌, ◌↔◌, IsTrue, OnOk};
ghost use Rattle.plain_machine.specs.Values.{value_as};
ghost use Rattle.plain_runs.specs.Runs.{ValuesOf};
ghost use Rattle.plain_domains.specs.Domains.{Adds};

use plain_machine::value::{Value, is_same_value};
use std::alloc::AllocError;

/// Whether the list has the value.
pub fn has_value(values: &[Value], value: &Value) -> bool
    ensures { IsTrue result ↔ ValuesOf values.now (value_as value.now) }
{
    for one in values {
        if is_same_value(one, value) {
            return true;
        }
    }
    false
}

/// Adds a value, unless it is there. Errors: want of memory.
pub fn put_value<'a>(values: &mut Vec<Value<'a>>, value: &Value<'a>) -> Result<(), AllocError>
    ensures { OnOk result (Adds (λ v. value_as value.entry.now ≡ v) values.old.items
        values.new.items) }
{
    if has_value(values, value) {
        return Ok(());
    }
    values.push(*value)?;
    Ok(())
}
