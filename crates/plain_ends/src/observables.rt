//! The registers and locations that a final state shows, in their order.

ghost use Rattle.std.specs.Prelude.{◌≡◌, ◌≤◌, length, IfOk, IfSome, OnOk};
ghost use Rattle.text_values.specs.TestValue.{content_of, formula_of};
ghost use Rattle.meaning.specs.Names.{is_same_observable, with_one};
ghost use Rattle.meaning.specs.Outcome as outcome;
ghost use Rattle.meaning.specs.Outcome.{is_observable_before, observables_of};
ghost use Rattle.plain_runs.specs.Locations.{IsPlace};
ghost use Rattle.plain_ends.specs.Ends.{places_as, with_places};

use plain_runs::locations::is_before;
use std::alloc::{AllocError, Global};
use text_values::{Place, Proposition, Test};

fn is_same(first: &Place, second: &Place) -> bool
    ensures { result ≡ is_same_observable first.now second.now }
{
    match (first, second) {
        (Place::Location(k), Place::Location(l)) => k.as_bytes() == l.as_bytes(),
        (Place::Register(t, r), Place::Register(u, q)) => *t == *u && r.number() == q.number(),
        _ => false,
    }
}

fn is_earlier(first: &Place, second: &Place) -> bool
    ensures { result ≡ is_observable_before first.now second.now }
{
    match (first, second) {
        (Place::Register(t, r), Place::Register(u, q)) => {
            *t < *u || *t == *u && r.number() < q.number()
        }
        (Place::Register(_, _), Place::Location(_)) => true,
        (Place::Location(_), Place::Register(_, _)) => false,
        (Place::Location(k), Place::Location(l)) => is_before(k.as_bytes(), l.as_bytes()),
    }
}

// Where an observable is to be put among observables in order; nowhere if it is there.
fn position(observables: &[&Place], observable: &Place) -> Option<usize>
    ensures bound { IfSome result (λ k. k ≤ length observables.now) }
    ensures position { IsPlace is_same_observable is_observable_before observable.now
        (places_as observables.now) result }
{
    for (index, other) in observables.iter().enumerate() {
        if is_same(observable, other) {
            return None;
        }
        if is_earlier(observable, other) {
            return Some(index);
        }
    }
    Some(observables.len())
}

// Puts an observable among observables in order, unless it is there. Errors: want of memory, as in
// all that follows.
fn put_observable<'a>(
    observables: &mut Vec<&'a Place>,
    observable: &'a Place,
) -> Result<(), AllocError>
    ensures { OnOk result (places_as observables.new.items
        ≡ with_one is_same_observable is_observable_before observable.entry.now
        (places_as observables.old.items)) }
{
    match position(observables, observable) {
        Some(index) => {
            observables.insert(index, observable)?;
            Ok(())
        }
        None => Ok(()),
    }
}

fn put_places<'a>(observables: &mut Vec<&'a Place>, places: &'a [Place]) -> Result<(), AllocError>
    ensures { OnOk result (places_as observables.new.items
        ≡ with_places places.entry.now (places_as observables.old.items)) }
{
    match places.split_first() {
        Some((place, rest)) => {
            put_places(observables, rest)?;
            put_observable(observables, place)?;
            Ok(())
        }
        None => Ok(()),
    }
}

// Puts the observables that a proposition names.
fn put_proposition<'a>(
    observables: &mut Vec<&'a Place>,
    proposition: &'a Proposition,
) -> Result<(), AllocError>
    ensures { OnOk result (places_as observables.new.items
        ≡ with_places (observables_of (formula_of proposition.entry.now))
        (places_as observables.old.items)) }
{
    match proposition {
        Proposition::Constant(_) => Ok(()),
        Proposition::Holds(place, _) => {
            put_observable(observables, place)?;
            Ok(())
        }
        Proposition::Not(operand) => put_proposition(observables, operand),
        Proposition::Joined(_, left, right) => {
            put_proposition(observables, right)?;
            put_proposition(observables, left)?;
            Ok(())
        }
    }
}

/// The registers and locations that a final state shows, in their order.
pub fn observables<'a>(alloc: Global, test: &'a Test) -> Result<Vec<&'a Place>, AllocError>
    ensures { IfOk result (λ v. places_as v.items
        ≡ outcome.observables (content_of test.entry.now)) }
{
    let mut observables = Vec::new(alloc);
    put_places(&mut observables, &test.observed)?;
    put_proposition(&mut observables, &test.condition.proposition)?;
    Ok(observables)
}
