//! Copies of items.

ghost use Rattle.std.specs.Prelude.{◌≡◌, ◌≤◌, ◌+◌, IfOk, length, map, vec_capacity};
ghost use Rattle.text_values.specs.ModelValues.{binding_of, shown_term, check_of, clause_of, clauses_of};

use crate::expressions::copied_expression;
use std::alloc::{AllocError, Global};
use text_values::{Binding, Check, Item, Name, ShownExpression};

fn copied_label(alloc: Global, label: &Option<Name>) -> Result<Option<Name>, AllocError>
    ensures { IfOk result (λ l. l ≡ label.now) }
{
    match label {
        Some(name) => Ok(Some(name.copied(alloc)?)),
        None => Ok(None),
    }
}

/// Copies of names, in order. Errors: out of memory.
pub fn copied_names(alloc: Global, names: &[Name]) -> Result<Vec<Name>, AllocError>
    ensures { IfOk result (λ v. v.items ≡ names.now) }
{
    let mut copies = Vec::with_capacity(alloc, names.len())?;
    for name in names {
        copies.push(name.copied(alloc)?)?;
    }
    Ok(copies)
}

fn copied_check(alloc: Global, check: &Check) -> Result<Check, AllocError>
    ensures { IfOk result (λ c. check_of c ≡ check_of check.now) }
{
    Ok(Check {
        negated: check.negated,
        word: check.word,
        body: copied_expression(alloc, &check.body)?,
    })
}

fn copied_binding(alloc: Global, binding: &Binding) -> Result<Binding, AllocError>
    ensures { IfOk result (λ b. binding_of b ≡ binding_of binding.now) }
{
    Ok(Binding {
        name: binding.name.copied(alloc)?,
        body: copied_expression(alloc, &binding.body)?,
    })
}

fn copied_group(alloc: Global, group: &[Binding]) -> Result<Vec<Binding>, AllocError>
    ensures { IfOk result (λ v. map binding_of v.items ≡ map binding_of group.now) }
{
    let mut copies = Vec::with_capacity(alloc, group.len())?;
    for binding in group {
        copies.push(copied_binding(alloc, binding)?)?;
    }
    Ok(copies)
}

fn copied_shown(alloc: Global, shown: &ShownExpression) -> Result<ShownExpression, AllocError>
    ensures { IfOk result (λ s. shown_term s ≡ shown_term shown.now) }
{
    Ok(ShownExpression {
        body: copied_expression(alloc, &shown.body)?,
        label: copied_label(alloc, &shown.label)?,
    })
}

fn copied_all_shown(
    alloc: Global,
    shown: &[ShownExpression],
) -> Result<Vec<ShownExpression>, AllocError>
    ensures { IfOk result (λ v. map shown_term v.items ≡ map shown_term shown.now) }
{
    let mut copies = Vec::with_capacity(alloc, shown.len())?;
    for one in shown {
        copies.push(copied_shown(alloc, one)?)?;
    }
    Ok(copies)
}

/// A copy of an item. Errors: out of memory.
pub fn copied_item(alloc: Global, item: &Item) -> Result<Item, AllocError>
    ensures { IfOk result (λ i. clause_of i ≡ clause_of item.now) }
{
    match item {
        Item::Let { recursive, group } => Ok(Item::Let {
            recursive: *recursive,
            group: copied_group(alloc, group)?,
        }),
        Item::Function {
            name,
            parameters,
            body,
        } => Ok(Item::Function {
            name: name.copied(alloc)?,
            parameters: copied_names(alloc, parameters)?,
            body: copied_expression(alloc, body)?,
        }),
        Item::Check { check, label } => Ok(Item::Check {
            check: copied_check(alloc, check)?,
            label: copied_label(alloc, label)?,
        }),
        Item::Flag { check, label } => Ok(Item::Flag {
            check: copied_check(alloc, check)?,
            label: label.copied(alloc)?,
        }),
        Item::Show { hidden, shown } => Ok(Item::Show {
            hidden: *hidden,
            shown: copied_all_shown(alloc, shown)?,
        }),
        Item::Include(path) => Ok(Item::Include(path.copied(alloc)?)),
    }
}

/// Copies of items, in their order, with room for so many more. Errors: out of memory.
pub fn copied_items(alloc: Global, items: &[Item], room: usize) -> Result<Vec<Item>, AllocError>
    ensures clauses { IfOk result (λ v. clauses_of v.items ≡ clauses_of items.now) }
    ensures room { IfOk result (λ v. length items.now + room ≤ vec_capacity v) }
{
    let Some(capacity) = items.len().checked_add(room) else {
        return Err(AllocError);
    };
    let mut copies = Vec::with_capacity(alloc, capacity)?;
    for item in items {
        copies.push(copied_item(alloc, item)?)?;
    }
    Ok(copies)
}
