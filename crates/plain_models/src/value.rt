//! Sets and relations, and the operators of cat on them.

ghost use Rattle.std.specs.Prelude.{IfOk};
ghost use Rattle.meaning.specs.Cat.{ASet, ARelation, of_infix, of_postfix, of_complement, of_identity};
ghost use Rattle.meaning_plain.specs.Lists.{SetOf, RelationOf};
ghost use Rattle.plain_models.specs.Values.{meaning_as, IsEvaluatedTo};

use meaning_plain::{relations, sets};
use std::alloc::{AllocError, Global};
use text_values::{Infix, Postfix};

/// What an expression means.
#[derive(Drop)]
pub enum Value {
    /// A set, as a list of its events.
    Set(Vec<usize>),
    /// A relation, as a list of its pairs.
    Relation(Vec<(usize, usize)>),
    /// Nothing: an operator did not take its operands.
    Nothing,
}

/// The value once more. Errors: want of memory, as in all that follows.
pub fn copied(alloc: Global, value: &Value) -> Result<Value, AllocError>
    ensures { IfOk result (IsEvaluatedTo (meaning_as value.now)) }
{
    match value {
        Value::Set(events) => Ok(Value::Set(Vec::from_slice(alloc, events)?)),
        Value::Relation(pairs) => Ok(Value::Relation(Vec::from_slice(alloc, pairs)?)),
        Value::Nothing => Ok(Value::Nothing),
    }
}

fn joined_sets(
    alloc: Global,
    op: Infix,
    first: &[usize],
    second: &[usize],
) -> Result<Value, AllocError>
    ensures { IfOk result
        (IsEvaluatedTo (of_infix op (ASet (SetOf first.now)) (ASet (SetOf second.now)))) }
{
    match op {
        Infix::Union => Ok(Value::Set(sets::union(alloc, first, second)?)),
        Infix::Intersection => Ok(Value::Set(sets::intersection(alloc, first, second)?)),
        Infix::Difference => Ok(Value::Set(sets::difference(alloc, first, second)?)),
        Infix::Product => Ok(Value::Relation(relations::product(alloc, first, second)?)),
        Infix::Sequence => Ok(Value::Nothing),
    }
}

fn joined_relations(
    alloc: Global,
    op: Infix,
    first: &[(usize, usize)],
    second: &[(usize, usize)],
) -> Result<Value, AllocError>
    ensures { IfOk result (IsEvaluatedTo
        (of_infix op (ARelation (RelationOf first.now)) (ARelation (RelationOf second.now)))) }
{
    match op {
        Infix::Union => Ok(Value::Relation(relations::union(alloc, first, second)?)),
        Infix::Intersection => Ok(Value::Relation(relations::intersection(alloc, first, second)?)),
        Infix::Difference => Ok(Value::Relation(relations::difference(alloc, first, second)?)),
        Infix::Product => Ok(Value::Nothing),
        Infix::Sequence => Ok(Value::Relation(relations::sequence(alloc, first, second)?)),
    }
}

/// What `|`, `&`, `\`, `*` or `;` between two values means.
pub fn joined(alloc: Global, op: Infix, first: &Value, second: &Value) -> Result<Value, AllocError>
    ensures { IfOk result
        (IsEvaluatedTo (of_infix op (meaning_as first.now) (meaning_as second.now))) }
{
    match (first, second) {
        (Value::Set(set), Value::Set(other)) => joined_sets(alloc, op, set, other),
        (Value::Relation(pairs), Value::Relation(others)) => {
            joined_relations(alloc, op, pairs, others)
        }
        _ => Ok(Value::Nothing),
    }
}

fn marked_pairs(
    alloc: Global,
    all: &[usize],
    op: Postfix,
    pairs: &[(usize, usize)],
) -> Result<Value, AllocError>
    ensures { IfOk result (IsEvaluatedTo
        (of_postfix (SetOf all.now) op (ARelation (RelationOf pairs.now)))) }
{
    match op {
        Postfix::Transitive => Ok(Value::Relation(relations::transitive(alloc, pairs)?)),
        Postfix::Reflexive => Ok(Value::Relation(relations::reflexive(alloc, all, pairs)?)),
        Postfix::Inverse => Ok(Value::Relation(relations::inverse(alloc, pairs)?)),
        Postfix::Closure => Ok(Value::Relation(relations::closure(alloc, all, pairs)?)),
    }
}

/// What `+`, `?`, `*` or `^-1` behind a value means, where `all` is the set of all events.
pub fn marked(
    alloc: Global,
    all: &[usize],
    op: Postfix,
    operand: &Value,
) -> Result<Value, AllocError>
    ensures { IfOk result (IsEvaluatedTo (of_postfix (SetOf all.now) op (meaning_as operand.now))) }
{
    match operand {
        Value::Set(_) => Ok(Value::Nothing),
        Value::Relation(pairs) => marked_pairs(alloc, all, op, pairs),
        Value::Nothing => Ok(Value::Nothing),
    }
}

/// What `~` before a value means.
pub fn complement(alloc: Global, all: &[usize], operand: &Value) -> Result<Value, AllocError>
    ensures { IfOk result (IsEvaluatedTo (of_complement (SetOf all.now) (meaning_as operand.now))) }
{
    match operand {
        Value::Set(events) => Ok(Value::Set(sets::difference(alloc, all, events)?)),
        Value::Relation(pairs) => Ok(Value::Relation(relations::complement(alloc, all, pairs)?)),
        Value::Nothing => Ok(Value::Nothing),
    }
}

/// What `[` and `]` round a value mean.
pub fn identity(alloc: Global, operand: &Value) -> Result<Value, AllocError>
    ensures { IfOk result (IsEvaluatedTo (of_identity (meaning_as operand.now))) }
{
    match operand {
        Value::Set(events) => Ok(Value::Relation(relations::identity(alloc, events)?)),
        Value::Relation(_) => Ok(Value::Nothing),
        Value::Nothing => Ok(Value::Nothing),
    }
}
