//! The start of a test.

ghost use Rattle.std.specs.Prelude.{◌≡◌, map, if◌then◌else◌};
ghost use Rattle.text_values.specs.TestValue.{content_of};
ghost use Rattle.meaning.specs.Names.{is_same_observable};
ghost use Rattle.meaning.specs.Machine as machine;
ghost use Rattle.meaning.specs.Runs as runs;
ghost use Rattle.plain_machine.specs.Values.{value_as, state_as, observable_as};

use crate::state::State;
use crate::value::{Comparison, Value, word};
use text_values::{InitEntry, Place, Register, Test};

/// A location, or a register of a thread.
#[derive(Clone, Copy)]
pub enum Observable<'a> {
    /// A location, by its name.
    Location(&'a [u8]),
    /// The register of the thread of this number.
    Register(usize, Register),
}

/// Whether both are the same location, or the same register of the same thread.
pub fn is_place(place: &Place, observable: &Observable) -> bool
    ensures { result ≡ is_same_observable place.now (observable_as observable.now) }
{
    match (place, observable) {
        (Place::Location(k), Observable::Location(l)) => k.as_bytes() == *l,
        (Place::Register(t, r), Observable::Register(u, q)) => {
            *t == *u && r.number() == q.number()
        }
        _ => false,
    }
}

/// A value of the test.
pub fn written(value: &text_values::Value) -> Value<'_>
    ensures { value_as result ≡ machine.value_of value.now }
{
    match value {
        text_values::Value::Number(n) => word(*n),
        text_values::Value::Address(l) => Value::Address(l.as_bytes()),
    }
}

// What an entry gives an observable, or this value if it gives another something.
fn given<'a>(entry: &'a InitEntry, observable: &Observable, value: &Value<'a>) -> Value<'a>
    ensures { value_as result
        ≡ (if is_same_observable entry.now.place (observable_as observable.now)
        then machine.value_of entry.now.value else value_as value.now) }
{
    if is_place(&entry.place, observable) {
        written(&entry.value)
    } else {
        *value
    }
}

/// What an observable holds at the start.
pub fn initial_value<'a>(entries: &'a [InitEntry], observable: &Observable) -> Value<'a>
    ensures { value_as result
        ≡ runs.value_given entries.now (machine.Number 0) (observable_as observable.now) }
{
    let mut value = Value::Number(0);
    for entry in entries {
        value = given(entry, observable, &value);
    }
    value
}

// What the registers of a thread hold at the start.
fn initial_registers(test: &Test, thread: usize) -> [Value<'_>; 32]
    ensures { map value_as result ≡ runs.initial_registers (content_of test.now) thread }
{
    let mut registers = [Value::Number(0); 32];
    for number in 0..32u8 {
        let observable = Observable::Register(thread, Register::new(number));
        registers[usize::from(number)] = initial_value(&test.init, &observable);
    }
    registers
}

/// The state in which a thread starts.
pub fn initial_state(test: &Test, thread: usize) -> State<'_>
    ensures { state_as result ≡ runs.initial_state (content_of test.now) thread }
{
    State {
        registers: initial_registers(test, thread),
        compared: Comparison::Equal,
    }
}
