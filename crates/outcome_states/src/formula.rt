//! Propositions over final states.

ghost use Rattle.std.specs.Prelude.{◌≡◌, IfOk, position};
ghost use Rattle.text_values.specs.TestValue as text;
ghost use Rattle.text_values.specs.TestValue.{formula_of};
ghost use Rattle.outcome_states.specs.Compiled.{value_of, Compiles};
ghost use Rattle.outcome_states.specs.Meaning.{known_value};
ghost use Rattle.outcome_states.specs.Order.{is_observable};

use crate::answer::FinalValue;
use crate::observable::{Observable, known_observable, location_of};
use std::alloc::{AllocError, Global};
use text_values::{Connective, Name, Place, Proposition, Value};

/// A proposition whose observables are indices of a state.
#[derive(Drop)]
pub enum Formula {
    /// `true` or `false`.
    Constant(bool),
    /// The state has this value at this index.
    Holds(usize, FinalValue),
    /// The negation.
    Not(Box<Formula>),
    /// Two formulas, joined by an operator.
    Joined(Connective, Box<Formula>, Box<Formula>),
}

/// The value of a state for one of the text, or `None` if it names a location that is not one of
/// the test.
pub fn known_value(locations: &[Name], value: &Value) -> Option<FinalValue>
    ensures { result ≡ known_value locations.now value.now }
{
    match value {
        Value::Number(number) => Some(FinalValue::Number(*number)),
        Value::Address(name) => match location_of(locations, name) {
            Some(location) => Some(FinalValue::Address(location)),
            None => None,
        },
    }
}

// The number of an observable among those that are shown.
fn observable_number(observables: &[Observable], observable: Observable) -> Option<usize>
    ensures { result ≡ position (is_observable observable) observables.now }
{
    for (i, shown) in observables.iter().enumerate() {
        if observable == *shown {
            return Some(i);
        }
    }
    None
}

fn atom(
    observables: &[Observable],
    locations: &[Name],
    observable: &Place,
    value: &Value,
) -> Formula
    ensures { Compiles locations.now observables.now (text.Holds observable.now value.now) result }
{
    let Some(shown) = known_observable(locations, observable) else {
        return Formula::Constant(false);
    };
    let Some(value) = known_value(locations, value) else {
        return Formula::Constant(false);
    };
    match observable_number(observables, shown) {
        Some(number) => Formula::Holds(number, value),
        None => Formula::Constant(false),
    }
}

/// The proposition over states of these observables. Errors: out of memory.
pub fn formula_over(
    alloc: Global,
    observables: &[Observable],
    locations: &[Name],
    proposition: &Proposition,
) -> Result<Formula, AllocError>
    ensures { IfOk result (λ f.
        Compiles locations.now observables.now (formula_of proposition.now) f) }
{
    match proposition {
        Proposition::Constant(value) => Ok(Formula::Constant(*value)),
        Proposition::Holds(observable, value) => Ok(atom(
            observables,
            locations,
            observable,
            value,
        )),
        Proposition::Not(negated) => {
            let negated = formula_over(alloc, observables, locations, negated)?;
            Ok(Formula::Not(Box::new(alloc, negated)?))
        }
        Proposition::Joined(connective, left, right) => {
            let left = Box::new(alloc, formula_over(alloc, observables, locations, left)?)?;
            let right = Box::new(alloc, formula_over(alloc, observables, locations, right)?)?;
            Ok(Formula::Joined(*connective, left, right))
        }
    }
}

/// Whether the state satisfies the formula.
pub fn satisfies(formula: &Formula, state: &[FinalValue]) -> bool
    ensures { result ≡ value_of state.now formula.now }
{
    match formula {
        Formula::Constant(value) => *value,
        Formula::Holds(at, value) => match state.get(*at) {
            Some(held) => *held == *value,
            None => false,
        },
        Formula::Not(negated) => !satisfies(negated, state),
        Formula::Joined(connective, left, right) => {
            let holds = satisfies(left, state);
            match connective {
                Connective::And => holds && satisfies(right, state),
                Connective::Or => holds || satisfies(right, state),
                Connective::Implies => !holds || satisfies(right, state),
            }
        }
    }
}
