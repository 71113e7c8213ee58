//! The items over which a shown relation has its value.

ghost use Rattle.std.specs.Prelude.{◌≡◌, IfOk, MatchOption, None, filter, map, slice_get};
ghost use Rattle.std.specs.Option.{option_map};
ghost use Rattle.text_values.specs.ModelValues.{clause_of, clauses_of, shown_term, term_of};
ghost use Rattle.draw_relations.specs.Shown.{IsTextFor, body_at, body_of, check_on, is_binding};

use crate::names::ShownName;
use std::alloc::{AllocError, Global};
use text_copies::copied_item;
use text_values::{Check, CheckWord, Expression, Item, ModelText, ShownExpression};

fn is_binding(item: &Item) -> bool
    ensures { result ≡ is_binding (clause_of item.now) }
{
    match item {
        Item::Let { .. } => true,
        Item::Function { .. } => true,
        Item::Check { .. } => false,
        Item::Flag { .. } => false,
        Item::Show { .. } => false,
        Item::Include(_) => false,
    }
}

// The definitions among the items.
fn bindings(alloc: Global, items: &[Item]) -> Result<Vec<Item>, AllocError>
    ensures { IfOk result (λ v. clauses_of v.items ≡ filter is_binding (clauses_of items.now)) }
{
    let mut found = Vec::new(alloc);
    for item in items {
        if is_binding(item) {
            found.push(copied_item(alloc, item)?)?;
        }
    }
    Ok(found)
}

fn body_in(shown: Vec<ShownExpression>, position: usize) -> Option<Expression>
    ensures { option_map term_of result
        ≡ option_map (λ e. e.0) (slice_get (map shown_term shown.items) position) }
{
    let mut shown = shown;
    if position < shown.len() {
        Some(shown.swap_remove(position).body)
    } else {
        None
    }
}

// A copy of the expression that an item shows at a position.
fn body_at(alloc: Global, item: &Item, position: usize) -> Result<Option<Expression>, AllocError>
    ensures { IfOk result (λ found. option_map term_of found
        ≡ body_at position (clause_of item.now)) }
{
    match copied_item(alloc, item)? {
        Item::Show { shown, .. } => Ok(body_in(shown, position)),
        Item::Let { .. } => Ok(None),
        Item::Function { .. } => Ok(None),
        Item::Check { .. } => Ok(None),
        Item::Flag { .. } => Ok(None),
        Item::Include(_) => Ok(None),
    }
}

fn body_of(
    alloc: Global,
    items: &[Item],
    shown: &ShownName,
) -> Result<Option<Expression>, AllocError>
    ensures { IfOk result (λ found. option_map term_of found
        ≡ body_of (clauses_of items.now) shown.now) }
{
    match items.get(shown.item) {
        Some(item) => body_at(alloc, item, shown.position),
        None => Ok(None),
    }
}

fn check_on(body: Expression) -> Item
    ensures { clause_of result ≡ check_on (term_of body) }
{
    Item::Check {
        check: Check {
            negated: false,
            word: CheckWord::Acyclic,
            body,
        },
        label: None,
    }
}

/// The items over which a shown relation has its value: its expression as the body of a check,
/// behind the definitions before it; none where no expression stands there. Errors: want of memory.
pub fn text_of(
    alloc: Global,
    items: &[Item],
    shown: &ShownName,
) -> Result<Option<ModelText>, AllocError>
    ensures { let clauses = clauses_of items.now in
        IfOk result (λ found. MatchOption found (body_of clauses shown.now ≡ None)
        (λ text. IsTextFor clauses shown.now text.items.items)) }
{
    let Some(body) = body_of(alloc, items, shown)? else {
        return Ok(None);
    };
    if shown.item > items.len() {
        return Ok(None);
    }
    let mut items = bindings(alloc, &items[..shown.item])?;
    items.push(check_on(body))?;
    Ok(Some(ModelText { items }))
}
