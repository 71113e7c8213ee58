//! The state of a thread.

ghost use Rattle.std.specs.Prelude.{◌≡◌, ◌<◌};
ghost use Rattle.meaning.specs.Machine as machine;
ghost use Rattle.plain_machine.specs.Values.{value_as, comparison_as, state_as};

use crate::value::{Comparison, Value};
use text_values::Register;

/// What the registers hold, and what the last comparison found.
#[derive(Clone, Copy)]
pub struct State<'a> {
    /// `r0` to `r31`.
    pub registers: [Value<'a>; 32],
    /// CR0.
    pub compared: Comparison,
}

/// What a register holds.
pub fn register<'a>(state: &State<'a>, register: Register) -> Value<'a>
    ensures { value_as result ≡ machine.register (state_as state.now) register }
{
    state.registers[usize::from(register.number())]
}

/// The state in which a register holds another value.
pub fn with_register<'a>(state: &State<'a>, register: Register, value: &Value<'a>) -> State<'a>
    ensures { state_as result
        ≡ machine.with_register (state_as state.now) register (value_as value.now) }
{
    let mut next = *state;
    next.registers[usize::from(register.number())] = *value;
    next
}

/// The state after a comparison.
pub fn with_comparison<'a>(state: &State<'a>, compared: Comparison) -> State<'a>
    ensures { state_as result ≡ record (state_as state.now) {
      compared = comparison_as compared;
    } }
{
    let mut next = *state;
    next.compared = compared;
    next
}
