//! What the names of a group stand for.

ghost use Rattle.std.specs.Prelude.{◌≡◌, ◌↔◌, ◌⊎◌, ℕ, [], ◌∷◌, length, map, Contains, IfOk, OnOk, IsTrue};
ghost use Rattle.text_values.specs.ModelValues.{binding_of};
ghost use Rattle.meaning.specs.Cat.{Least};
ghost use Rattle.meaning_plain.specs.Lists.{SetOf};
ghost use Rattle.plain_models.specs.Values.{HaveValues};
ghost use Rattle.plain_models.specs.Scopes.{with_named, names_in};
ghost use Rattle.plain_models.specs.Groups.{name_of, body_of, AreRelations, AreApart, DoesGrow, pairs_of, IsOfPairs, Extends, DoExtend, HasGrown, IsRound};

use crate::expression::meant;
use crate::scope::Scope;
use crate::value::Value;
use meaning_plain::relations::has_pair;
use std::alloc::{AllocError, Global};
use text_values::{Binding, Name};

/// What the bodies of a group mean, one by one. Errors: want of memory, as in all that follows.
pub fn meant_bodies(scope: &Scope, group: &[Binding]) -> Result<Vec<Value>, AllocError>
    requires { length scope.now.names.now ≡ length scope.now.values.now }
    ensures { IfOk result (λ v. HaveValues (SetOf scope.now.all.now)
        (names_in (SetOf scope.now.all.now) scope.now.items.now scope.now.outer.now
        scope.now.names.now scope.now.values.now) (map body_of group.now) v.items) }
{
    let mut values = Vec::new(scope.alloc);
    for binding in group {
        let value = meant(scope, &binding.body)?;
        values.push(value)?;
    }
    Ok(values)
}

// The names of a group.
fn group_names(alloc: Global, group: &[Binding]) -> Result<Vec<Name>, AllocError>
    ensures { IfOk result (λ v. v.items ≡ map name_of group.now) }
{
    let mut names = Vec::new(alloc);
    for binding in group {
        let name = binding.name.copied(alloc)?;
        names.push(name)?;
    }
    Ok(names)
}

// The empty relation for each name.
fn no_pairs(alloc: Global, names: &[Name]) -> Result<Vec<Value>, AllocError>
    ensures { IfOk result (λ v. AreRelations (λ n a b. ⊥) names.now v.items) }
{
    let mut values = Vec::new(alloc);
    for _name in names {
        let pairs = Vec::new(alloc);
        values.push(Value::Relation(pairs))?;
    }
    Ok(values)
}

// The pairs of a value: a set has none.
fn pairs(value: &Value) -> &[(usize, usize)]
    ensures { result.now ≡ pairs_of value.now }
{
    match value {
        Value::Set(_) => &[],
        Value::Relation(pairs) => pairs,
        Value::Nothing => &[],
    }
}

// Puts a pair behind the others, unless it is there.
fn put_pair(pairs: &mut Vec<(usize, usize)>, pair: (usize, usize)) -> Result<(), AllocError>
    ensures { OnOk result (Extends pairs.old.items (pair ∷ []) pairs.new.items) }
{
    if has_pair(pairs, pair) {
        return Ok(());
    }
    pairs.push(pair)?;
    Ok(())
}

fn put_pairs(pairs: &mut Vec<(usize, usize)>, more: &[(usize, usize)]) -> Result<(), AllocError>
    ensures { OnOk result (Extends pairs.old.items more.now pairs.new.items) }
{
    for pair in more {
        put_pair(pairs, *pair)?;
    }
    Ok(())
}

// The relation with the pairs of both values.
fn extended(alloc: Global, value: &Value, more: &Value) -> Result<Value, AllocError>
    ensures { IfOk result (λ v. IsOfPairs v
        × Extends (pairs_of value.now) (pairs_of more.now) (pairs_of v)) }
{
    let old = pairs(value);
    let others = pairs(more);
    let mut whole = Vec::from_slice(alloc, old)?;
    put_pairs(&mut whole, others)?;
    Ok(Value::Relation(whole))
}

fn all_extended(alloc: Global, values: &[Value], more: &[Value]) -> Result<Vec<Value>, AllocError>
    requires { length values.now ≡ length more.now }
    ensures { IfOk result (λ v. DoExtend values.now more.now v.items) }
{
    let mut whole = Vec::new(alloc);
    for (index, value) in values.iter().enumerate() {
        let one = extended(alloc, value, &more[index])?;
        whole.push(one)?;
    }
    Ok(whole)
}

// Whether some value has more pairs in the second list.
fn has_grown(values: &[Value], next: &[Value]) -> bool
    requires { length values.now ≡ length next.now }
    ensures { IsTrue result ↔ HasGrown values.now next.now }
{
    for (index, value) in values.iter().enumerate() {
        let old = pairs(value);
        let new = pairs(&next[index]);
        if old.len() < new.len() {
            return true;
        }
    }
    false
}

// What the bodies mean where the names of the group stand for the values, put behind these.
fn next_round(
    scope: &Scope,
    names: &[Name],
    values: &[Value],
    group: &[Binding],
) -> Result<Vec<Value>, AllocError>
    requires names { length names.now ≡ length values.now }
    requires group { length group.now ≡ length values.now }
    ensures { IfOk result (λ v. IsRound (SetOf scope.now.all.now)
        (names_in (SetOf scope.now.all.now) scope.now.items.now scope.now.outer.now names.now
        values.now) (map body_of group.now) values.now v.items) }
{
    let inside = Scope {
        alloc: scope.alloc,
        all: scope.all,
        items: scope.items,
        outer: scope.outer,
        names,
        values,
    };
    let bodies = meant_bodies(&inside, group)?;
    all_extended(scope.alloc, values, &bodies)
}

// Rounds from nothing, until one gives nothing more.
fn rounds(scope: &Scope, names: &[Name], group: &[Binding]) -> Result<Vec<Value>, AllocError>
    requires names { names.now ≡ map name_of group.now }
    requires apart { AreApart names.now }
    requires grow { DoesGrow (SetOf scope.now.all.now) (with_named (SetOf scope.now.all.now)
        scope.now.items.now scope.now.outer.now []) (map binding_of group.now) }
    ensures { IfOk result (λ v. AreRelations (Least (SetOf scope.now.all.now)
        (with_named (SetOf scope.now.all.now) scope.now.items.now scope.now.outer.now [])
        (map binding_of group.now)) (map name_of group.now) v.items) }
{
    let mut values = no_pairs(scope.alloc, names)?;
    'rounds: loop {
        let next = next_round(scope, names, &values, group)?;
        if !has_grown(&values, &next) {
            return Ok(values);
        }
        values = next;
    }
}

/// The least solution of a recursive group, behind the earlier names of the scope.
pub fn solved(scope: &Scope, group: &[Binding]) -> Result<Vec<Value>, AllocError>
    requires apart { AreApart (map (λ b. b.0) (map binding_of group.now)) }
    requires grow { DoesGrow (SetOf scope.now.all.now) (with_named (SetOf scope.now.all.now)
        scope.now.items.now scope.now.outer.now []) (map binding_of group.now) }
    ensures { IfOk result (λ v. AreRelations (Least (SetOf scope.now.all.now)
        (with_named (SetOf scope.now.all.now) scope.now.items.now scope.now.outer.now [])
        (map binding_of group.now)) (map name_of group.now) v.items) }
{
    let names = group_names(scope.alloc, group)?;
    rounds(scope, &names, group)
}
