//! The printed states.

ghost use Rattle.std.specs.Prelude.{◌≡◌, ◌++◌, IfOk, OnOk, codes};
ghost use Rattle.litmus_printing.specs.Printing.{place_text};
ghost use Rattle.text_values.specs.Joined.{separation};
ghost use Rattle.outcome_states.specs.Text.{name_at, place_of, value_text, held_text, state_text};

use crate::answer::FinalValue;
use crate::observable::Observable;
use litmus_printing::put_value;
use std::alloc::{AllocError, Global};
use text_values::{Name, Value, put_bytes, put_decimal};

/// Appends the name of a location, by its index, and nothing where there is none. Errors: out of
/// memory.
pub fn put_location(
    text: &mut Vec<u8>,
    locations: &[Name],
    location: usize,
) -> Result<(), AllocError>
    ensures { OnOk result (text.new.items ≡ text.old.items ++ name_at locations.now location) }
{
    match locations.get(location) {
        Some(name) => put_bytes(text, name.as_bytes()),
        None => Ok(()),
    }
}

fn put_shown(
    text: &mut Vec<u8>,
    locations: &[Name],
    observable: Observable,
) -> Result<(), AllocError>
    ensures { OnOk result (text.new.items
        ≡ text.old.items ++ place_text (place_of locations.now observable)) }
{
    match observable {
        Observable::Register(thread, register) => {
            put_decimal(text, thread as u64)?;
            put_bytes(text, b":r")?;
            put_decimal(text, u64::from(register))
        }
        Observable::Location(location) => {
            put_bytes(text, b"[")?;
            put_location(text, locations, location)?;
            put_bytes(text, b"]")
        }
    }
}

fn put_final(text: &mut Vec<u8>, locations: &[Name], value: FinalValue) -> Result<(), AllocError>
    ensures { OnOk result (text.new.items ≡ text.old.items ++ value_text locations.now value) }
{
    match value {
        FinalValue::Number(number) => put_value(text, &Value::Number(number)),
        FinalValue::Address(location) => put_location(text, locations, location),
        FinalValue::NoValue => Ok(()),
    }
}

// Appends what an observable holds, behind a space unless it is the first.
fn put_held(
    text: &mut Vec<u8>,
    locations: &[Name],
    number: usize,
    observable: Observable,
    value: FinalValue,
) -> Result<(), AllocError>
    ensures { OnOk result (text.new.items
        ≡ text.old.items
        ++ (separation (codes " ") number ++ held_text locations.now observable value)) }
{
    if number > 0 {
        put_bytes(text, b" ")?;
    }
    put_shown(text, locations, observable)?;
    put_bytes(text, b"=")?;
    put_final(text, locations, value)?;
    put_bytes(text, b";")
}

/// The printed state, as `1:r1=0; [x]=1;`. Errors: out of memory.
pub fn state_text(
    alloc: Global,
    locations: &[Name],
    observables: &[Observable],
    values: &[FinalValue],
) -> Result<Vec<u8>, AllocError>
    ensures { IfOk result (λ v. v.items ≡ state_text locations.now observables.now values.now) }
{
    let mut text = Vec::new(alloc);
    for (i, observable) in observables.iter().enumerate() {
        if let Some(value) = values.get(i) {
            put_held(&mut text, locations, i, *observable, *value)?;
        }
    }
    Ok(text)
}
