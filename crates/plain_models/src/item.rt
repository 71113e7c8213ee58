//! What the items of a model ask and bind.

ghost use Rattle.std.specs.Prelude.{◌≡◌, ◌↔◌, [], ◌∷◌, length, map, IfOk, OnOk, IsTrue};
ghost use Rattle.text_values.specs.ModelValues.{check_of, clause_of};
ghost use Rattle.meaning.specs.Cat.{HasProperty, NegatedIf, ASet, ARelation, IsMet, IsItemMet, IsFlagMet};
ghost use Rattle.meaning_plain.specs.Lists.{SetOf, RelationOf};
ghost use Rattle.plain_models.specs.Values.{meaning_as};
ghost use Rattle.plain_models.specs.Scopes.{with_named};
ghost use Rattle.plain_models.specs.Groups.{name_of, IsSolvable};
ghost use Rattle.plain_models.specs.Items.{AreBound, AreAsMany, GrowsBy, GrowsByFunction, Binds};

use crate::expression::meant;
use crate::group::{meant_bodies, solved};
use crate::scope::{Bound, Named, Scope};
use crate::value::{Value, copied};
use meaning_plain::checks;
use std::alloc::{AllocError, Global};
use text_values::{Binding, Check, CheckWord, Item, Name};

// Whether a set has the property that a check asks for: it can be empty.
fn set_has_property(word: CheckWord, events: &[usize]) -> bool
    ensures { IsTrue result ↔ HasProperty word (ASet (SetOf events.now)) }
{
    match word {
        CheckWord::Acyclic => false,
        CheckWord::Irreflexive => false,
        CheckWord::Empty => events.is_empty(),
    }
}

fn relation_has_property(
    alloc: Global,
    word: CheckWord,
    pairs: &[(usize, usize)],
) -> Result<bool, AllocError>
    ensures { IfOk result (λ b. IsTrue b ↔ HasProperty word (ARelation (RelationOf pairs.now))) }
{
    match word {
        CheckWord::Acyclic => checks::is_acyclic(alloc, pairs),
        CheckWord::Irreflexive => Ok(checks::is_irreflexive(pairs)),
        CheckWord::Empty => Ok(pairs.is_empty()),
    }
}

// Whether a value has the property that a check asks for.
fn has_property(alloc: Global, word: CheckWord, value: &Value) -> Result<bool, AllocError>
    ensures { IfOk result (λ b. IsTrue b ↔ HasProperty word (meaning_as value.now)) }
{
    match value {
        Value::Set(events) => Ok(set_has_property(word, events)),
        Value::Relation(pairs) => relation_has_property(alloc, word, pairs),
        Value::Nothing => Ok(false),
    }
}

fn negated_if(negated: bool, holds: bool) -> bool
    ensures { IsTrue result ↔ NegatedIf negated (IsTrue holds) }
{
    if negated { !holds } else { holds }
}

/// Whether a check is met, behind the earlier names of a scope. Errors: want of memory, as in all
/// that follows.
pub fn is_met(scope: &Scope, check: &Check) -> Result<bool, AllocError>
    requires names { scope.now.names.now ≡ [] }
    requires values { scope.now.values.now ≡ [] }
    ensures { IfOk result (λ b. IsTrue b ↔ IsMet (SetOf scope.now.all.now)
        (with_named (SetOf scope.now.all.now) scope.now.items.now scope.now.outer.now [])
        (check_of check.now)) }
{
    let value = meant(scope, &check.body)?;
    let holds = has_property(scope.alloc, check.word, &value)?;
    let met = negated_if(check.negated, holds);
    Ok(met)
}

/// Whether an item asks nothing that is not met.
pub fn is_item_met(scope: &Scope, item: &Item) -> Result<bool, AllocError>
    requires names { scope.now.names.now ≡ [] }
    requires values { scope.now.values.now ≡ [] }
    ensures { IfOk result (λ b. IsTrue b ↔ IsItemMet (SetOf scope.now.all.now)
        (with_named (SetOf scope.now.all.now) scope.now.items.now scope.now.outer.now [])
        (clause_of item.now)) }
{
    match item {
        Item::Check { check, label: _ } => is_met(scope, check),
        Item::Let { .. } => Ok(true),
        Item::Function { .. } => Ok(true),
        Item::Flag { .. } => Ok(true),
        Item::Show { .. } => Ok(true),
        Item::Include(_) => Ok(true),
    }
}

/// Whether an item is a flag whose check is met.
pub fn is_raised(scope: &Scope, item: &Item) -> Result<bool, AllocError>
    requires names { scope.now.names.now ≡ [] }
    requires values { scope.now.values.now ≡ [] }
    ensures { IfOk result (λ b. IsTrue b ↔ IsFlagMet (SetOf scope.now.all.now)
        (with_named (SetOf scope.now.all.now) scope.now.items.now scope.now.outer.now [])
        (clause_of item.now ∷ []) 0) }
{
    match item {
        Item::Flag { check, label: _ } => is_met(scope, check),
        Item::Let { .. } => Ok(false),
        Item::Function { .. } => Ok(false),
        Item::Check { .. } => Ok(false),
        Item::Show { .. } => Ok(false),
        Item::Include(_) => Ok(false),
    }
}

/// What the names of a group stand for behind the earlier names of a scope, in the order of the
/// group; nothing for another item.
pub fn bound_values(scope: &Scope, item: &Item) -> Result<Vec<Value>, AllocError>
    requires names { scope.now.names.now ≡ [] }
    requires values { scope.now.values.now ≡ [] }
    requires solvable { IsSolvable (SetOf scope.now.all.now)
        (with_named (SetOf scope.now.all.now) scope.now.items.now scope.now.outer.now [])
        (clause_of item.now) }
    ensures { IfOk result (λ v. AreBound (SetOf scope.now.all.now)
        (with_named (SetOf scope.now.all.now) scope.now.items.now scope.now.outer.now [])
        item.now v.items) }
{
    match item {
        Item::Let {
            recursive: true,
            group,
        } => solved(scope, group),
        Item::Let {
            recursive: false,
            group,
        } => meant_bodies(scope, group),
        Item::Function { .. } => Ok(Vec::new(scope.alloc)),
        Item::Check { .. } => Ok(Vec::new(scope.alloc)),
        Item::Flag { .. } => Ok(Vec::new(scope.alloc)),
        Item::Show { .. } => Ok(Vec::new(scope.alloc)),
        Item::Include(_) => Ok(Vec::new(scope.alloc)),
    }
}

// Binds the names of a group to the values.
fn bind_values(
    alloc: Global,
    group: &[Binding],
    values: &[Value],
    outer: &mut Vec<Named>,
) -> Result<(), AllocError>
    requires { length group.now ≡ length values.now }
    ensures { OnOk result (GrowsBy (map name_of group.now) values.now outer.old.items
        outer.new.items) }
{
    for (index, binding) in group.iter().enumerate() {
        let value = copied(alloc, &values[index])?;
        let name = binding.name.copied(alloc)?;
        outer.push(Named {
            name,
            bound: Bound::Value(value),
        })?;
    }
    Ok(())
}

// Binds the name to the function of the item at the index.
fn bind_function(
    alloc: Global,
    name: &Name,
    index: usize,
    outer: &mut Vec<Named>,
) -> Result<(), AllocError>
    ensures { OnOk result (GrowsByFunction name.now index outer.old.items outer.new.items) }
{
    let name = name.copied(alloc)?;
    outer.push(Named {
        name,
        bound: Bound::Function(index),
    })?;
    Ok(())
}

/// Puts the names that an item binds behind the earlier ones: those of a group are bound to the
/// values, and a function to the index of its item.
pub fn bind(
    alloc: Global,
    index: usize,
    item: &Item,
    values: &[Value],
    outer: &mut Vec<Named>,
) -> Result<(), AllocError>
    requires { AreAsMany item.now values.now }
    ensures { OnOk result (Binds item.now index values.now outer.old.items outer.new.items) }
{
    match item {
        Item::Let {
            recursive: _,
            group,
        } => bind_values(alloc, group, values, outer),
        Item::Function {
            name,
            parameters: _,
            body: _,
        } => bind_function(alloc, name, index, outer),
        Item::Check { .. } => Ok(()),
        Item::Flag { .. } => Ok(()),
        Item::Show { .. } => Ok(()),
        Item::Include(_) => Ok(()),
    }
}
