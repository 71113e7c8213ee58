//! What a model says of an execution.

ghost use Rattle.std.specs.Prelude.{◌≡◌, ◌↔◌, [], IfOk, OnOk, IsTrue};
ghost use Rattle.text_values.specs.ModelValues.{clause_of, clauses_of};
ghost use Rattle.meaning.specs.Faults.{faults};
ghost use Rattle.meaning_plain.specs.Lists.{SetOf, Grows};
ghost use Rattle.plain_models.specs.Scopes.{with_named};
ghost use Rattle.plain_models.specs.Groups.{IsSolvable};
ghost use Rattle.plain_models.specs.Answers.{AreModelAnswers, ArePredefined, IsReading};

use crate::item::{bind, bound_values, is_item_met, is_raised};
use crate::scope::{Named, Scope};
use crate::value::Value;
use std::alloc::{AllocError, Global};
use text_values::Item;

/// What a model says of an execution.
#[derive(Drop)]
pub struct Answers {
    /// Whether all checks are met.
    pub is_kept: bool,
    /// The indexes of the flags whose checks are met, among the items.
    pub flags: Vec<usize>,
}

// What an item says behind the earlier names of a scope.
#[derive(Drop)]
struct Reading {
    // Whether it asks nothing that is not met.
    is_met: bool,
    // Whether it is a flag whose check is met.
    is_raised: bool,
    // What the names of a group stand for.
    values: Vec<Value>,
}

fn read_item(scope: &Scope, item: &Item) -> Result<Reading, AllocError>
    requires names { scope.now.names.now ≡ [] }
    requires values { scope.now.values.now ≡ [] }
    requires solvable { IsSolvable (SetOf scope.now.all.now)
        (with_named (SetOf scope.now.all.now) scope.now.items.now scope.now.outer.now [])
        (clause_of item.now) }
    ensures { IfOk result (IsReading (SetOf scope.now.all.now)
        (with_named (SetOf scope.now.all.now) scope.now.items.now scope.now.outer.now [])
        item.now) }
{
    let is_met = is_item_met(scope, item)?;
    let is_raised = is_raised(scope, item)?;
    let values = bound_values(scope, item)?;
    Ok(Reading {
        is_met,
        is_raised,
        values,
    })
}

// Puts the index behind the others, if the test holds.
fn put_if(flags: &mut Vec<usize>, is: bool, index: usize) -> Result<(), AllocError>
    ensures { OnOk result (Grows (λ i. (i ≡ index) × IsTrue is) flags.old.items flags.new.items) }
{
    if !is {
        return Ok(());
    }
    flags.push(index)?;
    Ok(())
}

fn both(first: bool, second: bool) -> bool
    ensures { IsTrue result ↔ (IsTrue first × IsTrue second) }
{
    first && second
}

/// What a model without faults says of an execution, from the list of its events and the
/// predefined names, the latest last. Errors: want of memory.
pub fn answered(
    alloc: Global,
    all: &[usize],
    predefined: Vec<Named>,
    items: &[Item],
) -> Result<Answers, AllocError>
    requires predefined { ArePredefined predefined.items }
    requires faultless { faults (clauses_of items.now) ≡ [] }
    ensures { IfOk result (AreModelAnswers (SetOf all.now)
        (with_named (SetOf all.now) items.now predefined.items []) (clauses_of items.now)) }
{
    let mut outer = predefined;
    let mut is_kept = true;
    let mut flags = Vec::new(alloc);
    for (index, item) in items.iter().enumerate() {
        let scope = Scope {
            alloc,
            all,
            items,
            outer: &outer,
            names: &[],
            values: &[],
        };
        let one = read_item(&scope, item)?;
        bind(alloc, index, item, &one.values, &mut outer)?;
        put_if(&mut flags, one.is_raised, index)?;
        is_kept = both(is_kept, one.is_met);
    }
    Ok(Answers { is_kept, flags })
}
