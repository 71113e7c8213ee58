//! Candidates in which the inputs of an item have the values that they had in the one before.

ghost use Rattle.std.specs.Prelude.{◌+◌, ◌<◌, IsTrue};
ghost use Rattle.cat_machine.specs.Seen.{columns_of};
ghost use Rattle.cat_machine.specs.Steady.{AreSteady, IsSteady};

use cat_machine::{Column, NamedColumn};

/// Up to where the candidates from one on have its inputs.
fn same_until(inputs: &[&Column], candidate: usize) -> usize
    ensures { AreSteady inputs.now candidate result }
{
    let mut until = usize::MAX;
    for column in inputs {
        until = until.min(column.same_until(candidate));
    }
    until
}

/// Up to where the candidates behind one have its inputs, where up to `steady` those from it on
/// have the inputs of the one before it.
pub(crate) fn steady_after(inputs: &[&Column], steady: usize, candidate: usize) -> usize
    ensures { IsSteady inputs.now candidate steady → IsSteady inputs.now (candidate + 1) result }
{
    if candidate < steady {
        steady
    } else {
        same_until(inputs, candidate)
    }
}

/// Whether the next candidate is as the one before it: it has its predefined names, and up to
/// `steady` its inputs.
pub(crate) fn is_as_before(again: bool, candidate: usize, steady: usize) -> bool
    ensures { IsTrue result → IsTrue again × (candidate < steady) }
{
    again && candidate < steady
}

/// Up to where the names stand for the same in the candidates from one on.
fn named_until(named: &[NamedColumn], candidate: usize) -> usize
    ensures { AreSteady (columns_of named.now) candidate result }
{
    let mut until = usize::MAX;
    for one in named {
        until = until.min(one.column.same_until(candidate));
    }
    until
}

/// As `steady_after`, of names.
pub(crate) fn named_after(named: &[NamedColumn], steady: usize, candidate: usize) -> usize
    ensures { IsSteady (columns_of named.now) candidate steady
        → IsSteady (columns_of named.now) (candidate + 1) result }
{
    if candidate < steady {
        steady
    } else {
        named_until(named, candidate)
    }
}
