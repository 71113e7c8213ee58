//! All candidates of a space, one after another, with what the predefined names of an item stand
//! for.

ghost use Rattle.std.specs.Prelude.{◌≡◌, ◌≤◌, ◌*◌, ◌++◌, List, [], ◌∷◌, length, Some, IsTrue, OnOk};
ghost use Rattle.candidate_spaces.specs.Space.{candidates_in};
ghost use Rattle.cat_eval.specs.Places.{IsAt};
ghost use Rattle.cat_machine.specs.Seen.{NamedValues, values_seen, seen_run, seen_in};
ghost use Rattle.cat_machine.specs.Steady.{HasAsLast};

use crate::steady::{is_as_before, named_after};
use candidates::{Combination, Space};
use cat_machine::{Machine, NamedColumn, Seen};
use std::alloc::AllocError;

/// What is done with each candidate.
pub(crate) trait Visit {
    /// From the first state on it has taken candidates of these predefined names, one after
    /// another.
    ghost has_taken: { Self → List NamedValues → Self → Type 0 };

    /// Takes the next candidate, of which the predefined names are given, its number, and whether
    /// the names are those of the one before.
    fn visit(
        &mut self,
        machine: &mut Machine,
        base: &Seen,
        candidate: usize,
        again: bool,
    ) -> Result<(), AllocError>
        ensures { (first : _) (bases : List NamedValues) → candidate ≡ length bases
            → (IsTrue again → HasAsLast bases base.now) → has_taken first bases self.old
            → OnOk result (has_taken first (bases ++ base.now ∷ []) self.new) };
}

/// How far the candidates were visited.
#[derive(Clone, Copy)]
pub(crate) struct Place {
    /// How many were.
    candidate: usize,
    /// Up to where the names stand for what they stood for in the last one.
    steady: usize,
    /// How many events the last one has.
    before: Option<usize>,
}

/// Whether it is this number.
fn is_number(before: Option<usize>, count: usize) -> bool
    ensures { IsTrue result → before ≡ Some count }
{
    match before {
        Some(number) => number == count,
        None => false,
    }
}

/// Visits the next candidate, of so many events.
fn visit_next<V: Visit>(
    named: &[NamedColumn],
    count: usize,
    machine: &mut Machine,
    place: &mut Place,
    visitor: &mut V,
) -> Result<(), AllocError>
    requires { count ≤ 128 }
    ensures { (first : _) (bases : List NamedValues) → IsAt named.now place.old bases
        → V.has_taken first bases visitor.old
        → OnOk result (let next = values_seen named.now (length bases) count in
        IsAt named.now place.new (bases ++ next ∷ [])
        × V.has_taken first (bases ++ next ∷ []) visitor.new) }
{
    let candidate = place.candidate;
    let Some(next) = candidate.checked_add(1) else {
        return Err(AllocError);
    };
    let same = is_number(place.before, count);
    let again = is_as_before(same, candidate, place.steady);
    let steady = named_after(named, place.steady, candidate);
    let seen = Seen::new(named, candidate, count);
    visitor.visit(machine, &seen, candidate, again)?;
    *place = Place {
        candidate: next,
        steady,
        before: Some(count),
    };
    Ok(())
}

/// Visits so many candidates, each of so many events.
fn visit_run<V: Visit>(
    named: &[NamedColumn],
    count: usize,
    many: usize,
    machine: &mut Machine,
    place: &mut Place,
    visitor: &mut V,
) -> Result<(), AllocError>
    requires { count ≤ 128 }
    ensures { (first : _) (bases : List NamedValues) → IsAt named.now place.old bases
        → V.has_taken first bases visitor.old
        → OnOk result (let run = seen_run named.now (length bases) count many in
        IsAt named.now place.new (bases ++ run)
        × V.has_taken first (bases ++ run) visitor.new) }
{
    for _at in 0..many {
        visit_next(named, count, machine, place, visitor)?;
    }
    Ok(())
}

/// Visits the candidates of a combination.
fn visit_combination<V: Visit>(
    named: &[NamedColumn],
    combination: &Combination,
    machine: &mut Machine,
    place: &mut Place,
    visitor: &mut V,
) -> Result<(), AllocError>
    ensures { (first : _) (bases : List NamedValues) → IsAt named.now place.old bases
        → V.has_taken first bases visitor.old
        → OnOk result (
        let run = seen_run named.now (length bases) (length combination.now.events.items)
        (length combination.now.reads_from.items * length combination.now.orders) in
        IsAt named.now place.new (bases ++ run)
        × V.has_taken first (bases ++ run) visitor.new) }
{
    let count = combination.events.len();
    let many = combination.orders.len();
    for _at in 0..combination.reads_from.len() {
        visit_run(named, count, many, machine, place, visitor)?;
    }
    Ok(())
}

/// Visits all candidates of a space, in order, with some names.
pub(crate) fn visit_all<V: Visit>(
    named: &[NamedColumn],
    space: &Space,
    machine: &mut Machine,
    visitor: &mut V,
) -> Result<(), AllocError>
    ensures { V.has_taken visitor.old [] visitor.old
        → OnOk result (V.has_taken visitor.old
        (seen_in named.now 0 (candidates_in space.now.combinations.items)) visitor.new) }
{
    let mut place = Place {
        candidate: 0,
        steady: 0,
        before: None,
    };
    for combination in &space.combinations {
        visit_combination(named, combination, machine, &mut place, visitor)?;
    }
    Ok(())
}
