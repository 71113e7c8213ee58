//! The values of the relations that a model shows.

ghost use Rattle.std.specs.Prelude.{◌≡◌, ◌++◌, IfOk, MatchOption, None, OnOk, Some, length, option_to_list};
ghost use Rattle.std.specs.List.{All};
ghost use Rattle.text_values.specs.ModelValues.{clauses_of};
ghost use Rattle.from_scratch.specs.FromScratch.{AreItemsOf, IsFaultless};
ghost use Rattle.draw_relations.specs.Values.{AreAllShown, AreValuesBefore, HasNoLastCheck, HasNoValue, IsCheckValue, IsLastValue, IsNoCheck, IsShownValue, IsSized};
ghost use Rattle.draw_relations.specs.Shown.{IsTextFor};

use crate::names::{ShownName, shown_names};
use crate::texts::text_of;
use binding_graph::{ResolveFault, Resolved, ResolvedItem, Role, resolve};
use candidates::Space;
use cat_eval::Column;
use from_scratch::{answers, inputs};
use std::alloc::{AllocError, Global};
use text_values::{Item, ModelText, Name};
use why_witness::expression_column;

/// A relation that a model shows, with its values.
#[derive(Drop)]
pub struct ShownValues {
    /// Its name.
    pub name: Name,
    /// Its values in all candidates.
    pub values: Column,
}

// The values of the expression of an item that is a check.
fn check_values(
    alloc: Global,
    space: &Space,
    columns: &[Vec<Column>],
    item: &ResolvedItem,
) -> Result<Option<Column>, AllocError>
    ensures { IfOk result (λ found. MatchOption found (IsNoCheck item.now.role)
        (IsCheckValue space.now columns.now item.now)) }
{
    match &item.role {
        Role::Check(check) => {
            let found = inputs(alloc, columns, item)?;
            let inputs = found.as_slice();
            Ok(Some(expression_column(alloc, &check.code, space, inputs)?))
        }
        Role::Group { .. } => Ok(None),
        Role::Silent => Ok(None),
    }
}

// Those of the last item of a text.
fn last_values(
    alloc: Global,
    space: &Space,
    text: &ModelText,
    resolved: &Resolved,
) -> Result<Option<Column>, AllocError>
    requires faultless { IsFaultless text.now }
    requires items { AreItemsOf text.now resolved.now.items.items }
    ensures { IfOk result (λ found. MatchOption found (HasNoLastCheck resolved.now.items.items)
        (IsLastValue space.now text.now)) }
{
    let _text = text;
    let found = answers(alloc, space, resolved)?;
    match resolved.items.last() {
        Some(item) => check_values(alloc, space, &found.columns, item),
        None => Ok(None),
    }
}

// A name with these values.
fn named(
    alloc: Global,
    shown: &ShownName,
    values: Option<Column>,
) -> Result<Option<ShownValues>, AllocError>
    ensures { IfOk result (λ found. MatchOption found (values ≡ None)
        (λ v. (values ≡ Some v.values) × (v.name ≡ shown.now.name))) }
{
    match values {
        Some(values) => {
            let name = shown.name.copied(alloc)?;
            Ok(Some(ShownValues { name, values }))
        }
        None => Ok(None),
    }
}

// The values of a shown relation over the items that it stands for.
fn text_values(
    alloc: Global,
    space: &Space,
    items: &[Item],
    shown: &ShownName,
    text: &ModelText,
) -> Result<Option<ShownValues>, AllocError>
    requires { IsTextFor (clauses_of items.now) shown.now text.now.items.items }
    ensures { IfOk result (λ found. MatchOption found (HasNoValue (clauses_of items.now) shown.now)
        (IsShownValue (clauses_of items.now) space.now shown.now)) }
{
    let _items = items;
    match resolve(alloc, text) {
        Ok(resolved) => named(alloc, shown, last_values(alloc, space, text, &resolved)?),
        Err(ResolveFault::Refused(fault)) => {
            let _fault = fault;
            Ok(None)
        }
        Err(ResolveFault::OutOfMemory(e)) => Err(e),
    }
}

// The values of a shown relation, if it stands for a relation.
fn values_of(
    alloc: Global,
    space: &Space,
    items: &[Item],
    shown: &ShownName,
) -> Result<Option<ShownValues>, AllocError>
    ensures { IfOk result (λ found. MatchOption found (HasNoValue (clauses_of items.now) shown.now)
        (IsShownValue (clauses_of items.now) space.now shown.now)) }
{
    match text_of(alloc, items, shown)? {
        Some(text) => text_values(alloc, space, items, shown, &text),
        None => Ok(None),
    }
}

fn push_found(values: &mut Vec<ShownValues>, found: Option<ShownValues>) -> Result<(), AllocError>
    ensures { OnOk result (values.new.items ≡ values.old.items ++ option_to_list found) }
{
    if let Some(found) = found {
        values.push(found)?;
    }
    Ok(())
}

// Those of these names that stand for relations, with their values.
fn found_values(
    alloc: Global,
    space: &Space,
    items: &[Item],
    names: &[ShownName],
) -> Result<Vec<ShownValues>, AllocError>
    ensures all { IfOk result (λ v.
        AreValuesBefore space.now (clauses_of items.now) names.now (length names.now) v.items) }
    ensures sized { IfOk result (λ v. All (λ s. IsSized space.now s.values) v.items) }
{
    let mut values = Vec::new(alloc);
    for index in 0..names.len() {
        let found = values_of(alloc, space, items, &names[index])?;
        push_found(&mut values, found)?;
    }
    Ok(values)
}

/// The relations that a model shows, in order, with their values in the candidates of a space.
/// Errors: want of memory.
pub fn shown_values(
    alloc: Global,
    space: &Space,
    model: &ModelText,
) -> Result<Vec<ShownValues>, AllocError>
    ensures all { IfOk result (λ v. AreAllShown space.now model.now v.items) }
    ensures sized { IfOk result (λ v. All (λ s. IsSized space.now s.values) v.items) }
{
    let names = shown_names(alloc, &model.items)?;
    found_values(alloc, space, &model.items, &names)
}
