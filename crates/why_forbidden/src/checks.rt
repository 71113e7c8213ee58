//! The checks of a model over the candidates of a test.

ghost use Rattle.std.specs.Prelude.{◌≡◌, IfOk, IfSome, MatchOption, None, Some, length, option_to_list, slice_get};
ghost use Rattle.std.specs.List.{All};
ghost use Rattle.why_witness.specs.Refusals.{IsWitness};
ghost use Rattle.why_walks.specs.Values.{AreFactorValues};
ghost use Rattle.why_forbidden.specs.Checked.{AcceptBelow, IsChecked, IsFirstRefusal, check_indexes, index_if, is_unnamed_check, checked_items};

use binding_graph::{CheckCode, ResolvedItem, Role};
use candidates::Space;
use cat_eval::Column;
use from_scratch::inputs;
use std::alloc::{AllocError, Global};
use text_values::CheckWord;
use why_walks::{FactorValues, factor_values};
use why_witness::{Witness, expression_column, refusal_of};

/// A check of a model, which is no flag.
pub struct CheckValues<'a> {
    /// The index of its item.
    pub item: usize,
    /// What is asked.
    pub check: &'a CheckCode,
    /// The values of its expression in all candidates.
    pub values: Column,
    /// Where `irreflexive` is asked, the factors of its expression, with their values.
    pub factors: Vec<FactorValues>,
}

impl<'a> Drop for CheckValues<'a> {
    fn drop(self) {
        let CheckValues {
            item: _,
            check: _,
            values: _,
            factors: _,
        } = self;
    }
}

/// The first check that refuses a candidate.
#[derive(Drop)]
pub struct FirstRefusal {
    /// The index of the check among the checks.
    pub index: usize,
    /// Why it does.
    pub witness: Witness,
}

// The factors of an expression of which `irreflexive` is asked.
fn factors_of(
    alloc: Global,
    check: &CheckCode,
    space: &Space,
    inputs: &[&Column],
) -> Result<Vec<FactorValues>, AllocError>
    ensures { IfOk result (λ v. check.now.word ≡ CheckWord.Irreflexive
        → AreFactorValues check.now.code inputs.now space.now v.items) }
{
    match check.word {
        CheckWord::Irreflexive => factor_values(alloc, &check.code, space, inputs),
        CheckWord::Acyclic => Ok(Vec::new(alloc)),
        CheckWord::Empty => Ok(Vec::new(alloc)),
    }
}

// The check that an item is, with the values of its expression.
fn checked<'a>(
    alloc: Global,
    space: &Space,
    columns: &[Vec<Column>],
    index: usize,
    item: &ResolvedItem,
    check: &'a CheckCode,
) -> Result<CheckValues<'a>, AllocError>
    ensures checked { IfOk result (λ c. (items : _) → slice_get items index ≡ Some item.now
        → item.now.role ≡ Role.Check check.now → check.now.flag ≡ None
        → IsChecked space.now columns.now items c) }
    ensures item { IfOk result (λ c. c.item ≡ index) }
{
    let found = inputs(alloc, columns, item)?;
    let inputs = found.as_slice();
    let values = expression_column(alloc, &check.code, space, inputs)?;
    let factors = factors_of(alloc, check, space, inputs)?;
    Ok(CheckValues {
        item: index,
        check,
        values,
        factors,
    })
}

// The check that an item is, if it is one and no flag.
fn check_of<'a>(
    alloc: Global,
    space: &Space,
    columns: &[Vec<Column>],
    index: usize,
    item: &'a ResolvedItem,
) -> Result<Option<CheckValues<'a>>, AllocError>
    ensures checked { IfOk result (λ found. IfSome found (λ c. (items : _)
        → slice_get items index ≡ Some item.now
        → IsChecked space.now columns.now items c)) }
    ensures all { IfOk result (λ found. checked_items (option_to_list found)
        ≡ index_if (is_unnamed_check item.now.role) index) }
{
    match &item.role {
        Role::Check(check) => match &check.flag {
            Some(_) => Ok(None),
            None => Ok(Some(checked(alloc, space, columns, index, item, check)?)),
        },
        Role::Group { .. } | Role::Silent => Ok(None),
    }
}

/// The checks among the items that are no flags, in order, where `columns` are the values of the
/// names of each item. Errors: want of memory.
pub fn all_checks<'a>(
    alloc: Global,
    space: &Space,
    columns: &[Vec<Column>],
    items: &'a [ResolvedItem],
) -> Result<Vec<CheckValues<'a>>, AllocError>
    ensures each { IfOk result (λ v. All (IsChecked space.now columns.now items.now) v.items) }
    ensures all { IfOk result (λ v. checked_items v.items ≡ check_indexes 0 items.now) }
{
    let mut checks = Vec::new(alloc);
    for index in 0..items.len() {
        if let Some(check) = check_of(alloc, space, columns, index, &items[index])? {
            checks.push(check)?;
        }
    }
    Ok(checks)
}

// Why a check refuses a candidate, if it does.
fn refusal_by(
    alloc: Global,
    check: &CheckValues<'_>,
    candidate: usize,
) -> Result<Option<Witness>, AllocError>
    ensures { IfOk result (IsWitness check.now.check.now check.now.values candidate) }
{
    if candidate >= check.values.len() {
        return Ok(None);
    }
    refusal_of(alloc, check.check, &check.values, candidate)
}

/// The first of the checks that refuses the candidate of this number, and why; none where all
/// accept it. Errors: want of memory.
pub fn first_refusal(
    alloc: Global,
    checks: &[CheckValues<'_>],
    candidate: usize,
) -> Result<Option<FirstRefusal>, AllocError>
    ensures { IfOk result (λ found. MatchOption found
        (AcceptBelow checks.now candidate (length checks.now))
        (IsFirstRefusal checks.now candidate)) }
{
    for index in 0..checks.len() {
        if let Some(witness) = refusal_by(alloc, &checks[index], candidate)? {
            return Ok(Some(FirstRefusal { index, witness }));
        }
    }
    Ok(None)
}
