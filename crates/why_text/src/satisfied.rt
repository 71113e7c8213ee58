//! Whether the state in which one execution ends satisfies a proposition. Read `Final` and
//! `Meaning` of outcome_states/specs first. The call gives their `is_satisfied`
//! (verdict/specs/Evaluated).

ghost use Rattle.std.specs.Prelude.{◌≡◌, option_map};
ghost use Rattle.candidate_spaces.specs.Space.{shown_by};
ghost use Rattle.text_values.specs.TestValue.{formula_of};
ghost use Rattle.verdict.specs.Evaluated.{is_satisfied};
ghost use Rattle.outcome_states.specs.Final as ends;
ghost use Rattle.outcome_states.specs.Meaning.{is_held, joined_by, known_observable, known_value};

use candidates::Execution;
use ppc_semantics::Value as RunValue;
use text_values::{Connective, Name, Place, Proposition, Value};
use verdict::{FinalValue, known_value, location_of, value_shown, value_stored_at};

fn final_register(execution: &Execution, thread: usize, register: u8) -> RunValue
    ensures { result ≡ ends.final_register (shown_by execution.now) thread register }
{
    match execution.registers.get(thread) {
        Some(registers) => match registers.get(usize::from(register)) {
            Some(value) => *value,
            None => RunValue::NoValue,
        },
        None => RunValue::NoValue,
    }
}

fn final_word(execution: &Execution, location: usize) -> RunValue
    ensures { result ≡ ends.final_word (shown_by execution.now) location }
{
    let mut word = RunValue::NoValue;
    for event in &execution.coherence {
        if let Some(value) = value_stored_at(&execution.events, location, *event) {
            word = value;
        }
    }
    word
}

// What an observable holds at the end, where it is one of the test.
fn final_value(locations: &[Name], observable: &Place, execution: &Execution) -> Option<FinalValue>
    ensures { result
        ≡ option_map (ends.final_value (shown_by execution.now))
        (known_observable locations.now observable.now) }
{
    match observable {
        Place::Register(thread, register) => {
            let value = final_register(execution, *thread, register.number());
            Some(value_shown(value))
        }
        Place::Location(name) => match location_of(locations, name) {
            Some(location) => Some(value_shown(final_word(execution, location))),
            None => None,
        },
    }
}

fn is_held(locations: &[Name], observable: &Place, value: &Value, execution: &Execution) -> bool
    ensures { result
        ≡ is_held (ends.final_value (shown_by execution.now))
        (known_observable locations.now observable.now) (known_value locations.now value.now) }
{
    let Some(held) = final_value(locations, observable, execution) else {
        return false;
    };
    match known_value(locations, value) {
        Some(value) => held == value,
        None => false,
    }
}

fn joined_by(connective: Connective, left: bool, right: bool) -> bool
    ensures { result ≡ joined_by connective left right }
{
    match connective {
        Connective::And => left && right,
        Connective::Or => left || right,
        Connective::Implies => !left || right,
    }
}

/// Whether the state in which the execution ends satisfies the proposition. `locations` are the
/// names of the test's locations, in their order.
pub fn is_satisfied(locations: &[Name], proposition: &Proposition, execution: &Execution) -> bool
    ensures { result
        ≡ is_satisfied locations.now (formula_of proposition.now) (shown_by execution.now) }
{
    match proposition {
        Proposition::Constant(value) => *value,
        Proposition::Holds(observable, value) => is_held(locations, observable, value, execution),
        Proposition::Not(negated) => !is_satisfied(locations, negated, execution),
        Proposition::Joined(connective, left, right) => {
            let first = is_satisfied(locations, left, execution);
            let second = is_satisfied(locations, right, execution);
            joined_by(*connective, first, second)
        }
    }
}
