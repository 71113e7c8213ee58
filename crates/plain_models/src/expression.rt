//! What an expression means.

ghost use Rattle.std.specs.Prelude.{◌≡◌, ◌<◌, ◌≤◌, [], length, take, map, slice_get, IfOk};
ghost use Rattle.text_values.specs.ModelValues.{term_of};
ghost use Rattle.meaning.specs.Cat.{meaning_of, of_application};
ghost use Rattle.meaning_plain.specs.Lists.{SetOf};
ghost use Rattle.plain_models.specs.Values.{IsEvaluatedTo, HaveValues};
ghost use Rattle.plain_models.specs.Scopes.{meanings_as, function_with, function_of, with_named, bound_at, names_in};

use crate::scope::{Bound, Scope, applied_index, value_of};
use crate::value::{Value, complement, identity, joined, marked};
use std::alloc::AllocError;
use text_values::{Expression, Item, Name};

// What the arguments of a function mean.
#[cycle(meanings)]
fn meant_all(scope: &Scope, arguments: &[Expression]) -> Result<Vec<Value>, AllocError>
    requires { length scope.now.names.now ≡ length scope.now.values.now }
    ensures { IfOk result (λ v. HaveValues (SetOf scope.now.all.now)
        (names_in (SetOf scope.now.all.now) scope.now.items.now scope.now.outer.now
        scope.now.names.now scope.now.values.now) (map term_of arguments.now) v.items) }
{
    let mut values = Vec::new(scope.alloc);
    for argument in arguments {
        let value = meant(scope, argument)?;
        values.push(value)?;
    }
    Ok(values)
}

// What the body of a function means with these arguments, behind the names up to the index.
#[cycle(meanings)]
fn applied_body(
    scope: &Scope,
    index: usize,
    parameters: &[Name],
    body: &Expression,
    values: &[Value],
) -> Result<Value, AllocError>
    requires { index ≤ length scope.now.outer.now }
    ensures { IfOk result (IsEvaluatedTo (of_application (function_with (SetOf scope.now.all.now)
        (with_named (SetOf scope.now.all.now) scope.now.items.now
        (take index scope.now.outer.now) []) parameters.now (term_of body.now))
        (meanings_as values.now))) }
{
    if parameters.len() != values.len() {
        return Ok(Value::Nothing);
    }
    let inside = Scope {
        alloc: scope.alloc,
        all: scope.all,
        items: scope.items,
        outer: &scope.outer[..index],
        names: parameters,
        values,
    };
    meant(&inside, body)
}

// What the function of an item means with these arguments, likewise.
#[cycle(meanings)]
fn applied_item(
    scope: &Scope,
    index: usize,
    item: usize,
    values: &[Value],
) -> Result<Value, AllocError>
    requires { index ≤ length scope.now.outer.now }
    ensures { IfOk result (IsEvaluatedTo (of_application (function_of (SetOf scope.now.all.now)
        (with_named (SetOf scope.now.all.now) scope.now.items.now
        (take index scope.now.outer.now) []) (slice_get scope.now.items.now item))
        (meanings_as values.now))) }
{
    if item >= scope.items.len() {
        return Ok(Value::Nothing);
    }
    match &scope.items[item] {
        Item::Function {
            name: _,
            parameters,
            body,
        } => applied_body(scope, index, parameters, body, values),
        _ => Ok(Value::Nothing),
    }
}

// What the name at the index means with these arguments.
#[cycle(meanings)]
fn applied(scope: &Scope, index: usize, values: &[Value]) -> Result<Value, AllocError>
    requires { index < length scope.now.outer.now }
    ensures { IfOk result (IsEvaluatedTo (of_application (bound_at (SetOf scope.now.all.now)
        scope.now.items.now [] scope.now.outer.now index) (meanings_as values.now))) }
{
    match &scope.outer[index].bound {
        Bound::Value(_) => Ok(Value::Nothing),
        Bound::Function(item) => applied_item(scope, index, *item, values),
    }
}

/// What an expression means. Errors: want of memory.
#[cycle(meanings)]
pub fn meant(scope: &Scope, expression: &Expression) -> Result<Value, AllocError>
    requires { length scope.now.names.now ≡ length scope.now.values.now }
    ensures { IfOk result (IsEvaluatedTo (meaning_of (SetOf scope.now.all.now)
        (names_in (SetOf scope.now.all.now) scope.now.items.now scope.now.outer.now
        scope.now.names.now scope.now.values.now) (term_of expression.now))) }
{
    match expression {
        Expression::Named(name) => value_of(scope, name),
        Expression::Everything => {
            let all = Vec::from_slice(scope.alloc, scope.all)?;
            Ok(Value::Set(all))
        }
        Expression::NoPairs => {
            let pairs = Vec::new(scope.alloc);
            Ok(Value::Relation(pairs))
        }
        Expression::NoEvents => {
            let events = Vec::new(scope.alloc);
            Ok(Value::Set(events))
        }
        Expression::Joined(op, left, right) => {
            let first = meant(scope, left)?;
            let second = meant(scope, right)?;
            joined(scope.alloc, *op, &first, &second)
        }
        Expression::Marked(op, operand) => {
            let value = meant(scope, operand)?;
            marked(scope.alloc, scope.all, *op, &value)
        }
        Expression::Complement(operand) => {
            let value = meant(scope, operand)?;
            complement(scope.alloc, scope.all, &value)
        }
        Expression::Identity(operand) => {
            let value = meant(scope, operand)?;
            identity(scope.alloc, &value)
        }
        Expression::Applied(name, arguments) => {
            let values = meant_all(scope, arguments)?;
            match applied_index(scope, name) {
                Some(index) => applied(scope, index, &values),
                None => Ok(Value::Nothing),
            }
        }
    }
}
