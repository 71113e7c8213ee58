//! The names of relations that a model shows.

ghost use Rattle.std.specs.Prelude.{◌≡◌, IfOk, filter, map};
ghost use Rattle.std.specs.Option.{option_map};
ghost use Rattle.text_values.specs.ModelValues.{clause_of, clauses_of, shown_term};
ghost use Rattle.draw_relations.specs.Shown.{after_clause, after_name, after_named, after_show, is_other, name_of, names_shown};

use std::alloc::{AllocError, Global};
use text_values::{Expression, Item, Name, ShownExpression};

/// A relation that a model shows.
#[derive(Drop)]
pub struct ShownName {
    /// Its name.
    pub name: Name,
    /// The index of the item that shows it.
    pub item: usize,
    /// The position of its expression in that item.
    pub position: usize,
}

// The name of a shown expression.
fn name_of(shown: &ShownExpression) -> Option<&Name>
    ensures { option_map (λ n. n.now) result ≡ name_of (shown_term shown.now) }
{
    match &shown.label {
        Some(label) => Some(label),
        None => match &shown.body {
            Expression::Named(name) => Some(name),
            Expression::Everything => None,
            Expression::NoPairs => None,
            Expression::NoEvents => None,
            Expression::Joined(_, _, _) => None,
            Expression::Marked(_, _) => None,
            Expression::Complement(_) => None,
            Expression::Identity(_) => None,
            Expression::Applied(_, _) => None,
        },
    }
}

fn is_other(one: &ShownName, name: &Name) -> bool
    ensures { result ≡ is_other name.now one.now }
{
    one.name.as_bytes() != name.as_bytes()
}

fn copied(alloc: Global, one: &ShownName) -> Result<ShownName, AllocError>
    ensures { IfOk result (λ s. s ≡ one.now) }
{
    Ok(ShownName {
        name: one.name.copied(alloc)?,
        item: one.item,
        position: one.position,
    })
}

// Those of another name.
fn others(alloc: Global, shown: &[ShownName], name: &Name) -> Result<Vec<ShownName>, AllocError>
    ensures { IfOk result (λ v. v.items ≡ filter (is_other name.now) shown.now) }
{
    let mut kept = Vec::new(alloc);
    for one in shown {
        if is_other(one, name) {
            kept.push(copied(alloc, one)?)?;
        }
    }
    Ok(kept)
}

// What is shown after a name that is shown or hidden.
fn after_name(
    alloc: Global,
    shown: &[ShownName],
    hidden: bool,
    item: usize,
    position: usize,
    name: &Name,
) -> Result<Vec<ShownName>, AllocError>
    ensures { IfOk result (λ v. v.items ≡ after_name hidden item position name.now shown.now) }
{
    let mut kept = others(alloc, shown, name)?;
    if !hidden {
        let name = name.copied(alloc)?;
        kept.push(ShownName {
            name,
            item,
            position,
        })?;
    }
    Ok(kept)
}

fn after_expression(
    alloc: Global,
    shown: Vec<ShownName>,
    hidden: bool,
    item: usize,
    position: usize,
    expression: &ShownExpression,
) -> Result<Vec<ShownName>, AllocError>
    ensures { IfOk result (λ v. v.items
        ≡ after_named hidden item position (name_of (shown_term expression.now)) shown.items) }
{
    match name_of(expression) {
        Some(name) => after_name(alloc, &shown, hidden, item, position, name),
        None => Ok(shown),
    }
}

// What is shown after an item.
fn after_show(
    alloc: Global,
    shown: Vec<ShownName>,
    hidden: bool,
    item: usize,
    expressions: &[ShownExpression],
) -> Result<Vec<ShownName>, AllocError>
    ensures { IfOk result (λ v. v.items
        ≡ after_show hidden item 0 (map shown_term expressions.now) shown.items) }
{
    let mut shown = shown;
    for position in 0..expressions.len() {
        shown = after_expression(alloc, shown, hidden, item, position, &expressions[position])?;
    }
    Ok(shown)
}

fn after_item(
    alloc: Global,
    shown: Vec<ShownName>,
    index: usize,
    item: &Item,
) -> Result<Vec<ShownName>, AllocError>
    ensures { IfOk result (λ v. v.items ≡ after_clause index (clause_of item.now) shown.items) }
{
    match item {
        Item::Show {
            hidden,
            shown: expressions,
        } => after_show(alloc, shown, *hidden, index, expressions),
        Item::Let { .. } => Ok(shown),
        Item::Function { .. } => Ok(shown),
        Item::Check { .. } => Ok(shown),
        Item::Flag { .. } => Ok(shown),
        Item::Include(_) => Ok(shown),
    }
}

/// The relations that these items show, in order. Errors: want of memory.
pub fn shown_names(alloc: Global, items: &[Item]) -> Result<Vec<ShownName>, AllocError>
    ensures { IfOk result (λ v. v.items ≡ names_shown (clauses_of items.now)) }
{
    let mut shown = Vec::new(alloc);
    for index in 0..items.len() {
        shown = after_item(alloc, shown, index, &items[index])?;
    }
    Ok(shown)
}
