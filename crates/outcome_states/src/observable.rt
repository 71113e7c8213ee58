//! The observables of a state.

ghost use Rattle.std.specs.Prelude.{◌≡◌, ◌++◌, [], ◌∷◌, IfOk, OnOk};
ghost use Rattle.text_values.specs.TestValue.{formula_of};
ghost use Rattle.outcome_states.specs.Meaning.{location_of, known_observable, observables_of};
ghost use Rattle.outcome_states.specs.Shown.{known_observables, AddsObservables, AreShown};

use std::alloc::{AllocError, Global};
use std::collections::BTreeSet;
use text_values::{Name, Place, Proposition};

/// An observable of a state: a register by its thread and number, or a location by its index among
/// those of the test.
#[derive(Clone, Copy, PartialEq, Eq, PartialOrd, Ord)]
pub enum Observable {
    /// A register, by its thread and its number.
    Register(usize, u8),
    /// A location, by its index.
    Location(usize),
}

/// The index of a name among the locations, or `None`.
pub fn location_of(locations: &[Name], name: &Name) -> Option<usize>
    ensures { result ≡ location_of locations.now name.now }
{
    for (i, location) in locations.iter().enumerate() {
        if location.is_same(name) {
            return Some(i);
        }
    }
    None
}

/// The observable of a state for one of the text, or `None` if its location is not one of the test.
pub fn known_observable(locations: &[Name], observable: &Place) -> Option<Observable>
    ensures { result ≡ known_observable locations.now observable.now }
{
    match observable {
        Place::Register(thread, register) => {
            Some(Observable::Register(*thread, register.number()))
        }
        Place::Location(name) => match location_of(locations, name) {
            Some(location) => Some(Observable::Location(location)),
            None => None,
        },
    }
}

fn add_observable(
    shown: &mut BTreeSet<Observable>,
    locations: &[Name],
    observable: &Place,
) -> Result<(), AllocError>
    ensures { OnOk result (AddsObservables shown.old.keys shown.new.keys
        (known_observables locations.now (observable.now ∷ []))) }
{
    if let Some(observable) = known_observable(locations, observable) {
        shown.insert(observable)?;
    }
    Ok(())
}

fn add_proposition(
    shown: &mut BTreeSet<Observable>,
    locations: &[Name],
    proposition: &Proposition,
) -> Result<(), AllocError>
    ensures { OnOk result (AddsObservables shown.old.keys shown.new.keys
        (known_observables locations.now (observables_of (formula_of proposition.now)))) }
{
    match proposition {
        Proposition::Constant(_) => Ok(()),
        Proposition::Holds(observable, _) => add_observable(shown, locations, observable),
        Proposition::Not(negated) => add_proposition(shown, locations, negated),
        Proposition::Joined(_, left, right) => {
            add_proposition(shown, locations, left)?;
            add_proposition(shown, locations, right)
        }
    }
}

/// The observables of the proposition and of `locations`, each once: registers by thread and
/// number, then locations by name. Errors: out of memory.
pub fn shown_observables(
    alloc: Global,
    locations: &[Name],
    proposition: &Proposition,
    observed: &[Place],
) -> Result<Vec<Observable>, AllocError>
    ensures { IfOk result (λ v. AreShown locations.now
        (observables_of (formula_of proposition.now) ++ observed.now) v.items) }
{
    let mut shown = BTreeSet::new(alloc);
    add_proposition(&mut shown, locations, proposition)?;
    for observable in observed {
        add_observable(&mut shown, locations, observable)?;
    }
    shown.iter().copied().collect(alloc)
}
