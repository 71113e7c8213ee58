//! What a body makes where the parameters have the kinds of each combination, a part at a time: a
//! column has an entry for each of the first combinations.

ghost use Rattle.std.specs.Prelude.{◌≡◌, ℕ, ◌<◌, ◌≤◌, ◌^◌, List, length, IfOk, get_or};
ghost use Rattle.binding_kinds.specs.declared.kinds.Kind.{Kind};
ghost use Rattle.binding_kinds.specs.declared.signature.Signature.{Signature};
ghost use Rattle.binding_kinds.specs.Combinations.{kinds_number, unknown};
ghost use Rattle.binding_kinds.specs.Columns.{IsFilled, plain, infix_signature, postfix_signature, identity_signature, none_gathered, with_one, of_applied, of_function};

use crate::function::Function;
use crate::judged::either;
use crate::kinds::{Kind, joined, takes};
use crate::signature::{Signature, has_any, kind_at, weighed};
use std::alloc::{AllocError, Global};
use text_values::Infix;

/// What is known of the arguments of an application, for one combination.
#[derive(Clone, Copy)]
pub struct Gathered {
    /// Their kinds, weighed by index.
    pub combination: usize,
    /// Whether an operator in one of them does not take its operands.
    pub clashes: bool,
}

/// What makes an expression of that kind.
fn plain(kind: Kind) -> Signature
    ensures { result ≡ plain kind }
{
    Signature {
        kind,
        clashes: false,
    }
}

/// The entry of a column.
fn at(column: &[Signature], combination: usize) -> Signature
    ensures { result ≡ get_or column.now combination unknown }
{
    match column.get(combination) {
        Some(one) => *one,
        None => plain(Kind::OfAny),
    }
}

/// A column of so many rows of what has that kind for each combination. Errors: want of memory.
pub fn constant_column(alloc: Global, rows: usize, kind: Kind) -> Result<Vec<Signature>, AllocError>
    ensures { (arity : ℕ)
        → IfOk result (λ v. IsFilled unknown arity rows (λ kinds. plain kind) v.items) }
{
    vec![in alloc; plain(kind); rows]
}

/// A column of so many rows of the kinds of a parameter. Errors: want of memory.
pub fn parameter_column(
    alloc: Global,
    rows: usize,
    index: usize,
) -> Result<Vec<Signature>, AllocError>
    ensures { (arity : ℕ) (other : Kind) → arity ≤ 8 → index < arity
        → IfOk result (λ v.
        IsFilled unknown arity rows (λ kinds. plain (get_or kinds index other)) v.items) }
{
    let mut column = Vec::new(alloc);
    for combination in 0..rows {
        column.push(plain(kind_at(combination, index)))?;
    }
    Ok(column)
}

/// What an infix operator makes.
fn sign_infix(op: Infix, left: Signature, right: Signature) -> Signature
    ensures { result ≡ infix_signature op left right }
{
    Signature {
        kind: joined(op, left.kind, right.kind),
        clashes: either(
            either(left.clashes, right.clashes),
            !takes(op, left.kind, right.kind),
        ),
    }
}

/// The column of an infix operator. Errors: want of memory.
pub fn infix_column(
    alloc: Global,
    op: Infix,
    left: &[Signature],
    right: &[Signature],
) -> Result<Vec<Signature>, AllocError>
    ensures { (arity rows : ℕ) (first second : List Kind → Signature)
        → IsFilled unknown arity rows first left.now → IsFilled unknown arity rows second right.now
        → IfOk result (λ v. IsFilled unknown arity rows
        (λ kinds. infix_signature op (first kinds) (second kinds)) v.items) }
{
    let mut column = Vec::new(alloc);
    for (combination, one) in left.iter().enumerate() {
        column.push(sign_infix(op, *one, at(right, combination)))?;
    }
    Ok(column)
}

/// What a postfix operator makes.
fn sign_postfix(inner: Signature) -> Signature
    ensures { result ≡ postfix_signature inner }
{
    Signature {
        kind: inner.kind.marked(),
        clashes: either(inner.clashes, !inner.kind.is_relation()),
    }
}

/// The column of a postfix operator. Errors: want of memory.
pub fn postfix_column(alloc: Global, inner: &[Signature]) -> Result<Vec<Signature>, AllocError>
    ensures { (arity rows : ℕ) (operand : List Kind → Signature)
        → IsFilled unknown arity rows operand inner.now
        → IfOk result (λ v.
        IsFilled unknown arity rows (λ kinds. postfix_signature (operand kinds)) v.items) }
{
    let mut column = Vec::new(alloc);
    for one in inner {
        column.push(sign_postfix(*one))?;
    }
    Ok(column)
}

/// What an identity makes.
fn sign_identity(inner: Signature) -> Signature
    ensures { result ≡ identity_signature inner }
{
    Signature {
        kind: inner.kind.narrowed(),
        clashes: either(inner.clashes, !inner.kind.is_set()),
    }
}

/// The column of an identity. Errors: want of memory.
pub fn identity_column(alloc: Global, inner: &[Signature]) -> Result<Vec<Signature>, AllocError>
    ensures { (arity rows : ℕ) (operand : List Kind → Signature)
        → IsFilled unknown arity rows operand inner.now
        → IfOk result (λ v.
        IsFilled unknown arity rows (λ kinds. identity_signature (operand kinds)) v.items) }
{
    let mut column = Vec::new(alloc);
    for one in inner {
        column.push(sign_identity(*one))?;
    }
    Ok(column)
}

/// Nothing is known of no arguments, in each of so many rows. Errors: want of memory.
pub fn no_arguments(alloc: Global, rows: usize) -> Result<Vec<Gathered>, AllocError>
    ensures { (arity : ℕ)
        → IfOk result (λ v. IsFilled none_gathered arity rows (λ kinds. none_gathered) v.items) }
{
    let none = Gathered {
        combination: 0,
        clashes: false,
    };
    vec![in alloc; none; rows]
}

/// With one more argument, which stands at that index.
fn with_one(known: Gathered, index: usize, more: Signature) -> Gathered
    ensures { index < 8 → known.combination < 6561 → result ≡ with_one index known more }
{
    Gathered {
        combination: known.combination.saturating_add(weighed(more.kind, index)),
        clashes: either(known.clashes, more.clashes),
    }
}

/// With the column of the argument at that index. Errors: want of memory.
pub fn with_argument(
    alloc: Global,
    all: &[Gathered],
    index: usize,
    one: &[Signature],
) -> Result<Vec<Gathered>, AllocError>
    ensures { (arity rows : ℕ) (before : List Kind → Gathered) (more : List Kind → Signature)
        → index < 8 → ((kinds : List Kind) → (before kinds).combination < 6561)
        → IsFilled none_gathered arity rows before all.now
        → IsFilled unknown arity rows more one.now
        → IfOk result (λ v. IsFilled none_gathered arity rows
        (λ kinds. with_one index (before kinds) (more kinds)) v.items) }
{
    let mut column = Vec::new(alloc);
    for (combination, known) in all.iter().enumerate() {
        column.push(with_one(*known, index, at(one, combination)))?;
    }
    Ok(column)
}

/// What an application of the function makes.
fn sign_applied(function: &Function, known: Gathered) -> Signature
    ensures { result ≡ of_applied function.now known }
{
    let made = function.signature(known.combination);
    Signature {
        kind: made.kind,
        clashes: either(known.clashes, made.clashes),
    }
}

/// The column of an application. Errors: want of memory.
pub fn applied_column(
    alloc: Global,
    function: &Function,
    all: &[Gathered],
) -> Result<Vec<Signature>, AllocError>
    ensures { (arity rows : ℕ) (known : List Kind → Gathered)
        → IsFilled none_gathered arity rows known all.now
        → IfOk result (λ v. IsFilled unknown arity rows
        (λ kinds. of_applied function.now (known kinds)) v.items) }
{
    let mut column = Vec::new(alloc);
    for known in all {
        column.push(sign_applied(function, *known))?;
    }
    Ok(column)
}

/// What a function makes of arguments of one combination of kinds, of which its body makes that.
fn sign_function(arity: usize, combination: usize, body: Signature) -> Signature
    ensures { (kinds : List Kind) → combination ≡ kinds_number kinds → arity ≡ length kinds
        → length kinds ≤ 8 → result ≡ of_function kinds body }
{
    if has_any(combination, arity) {
        Signature {
            kind: Kind::OfAny,
            clashes: body.clashes,
        }
    } else {
        body
    }
}

/// What a function of so many parameters makes of arguments of all kinds, of which its body makes
/// that column: the entry at the number of a combination of kinds is for arguments of these kinds,
/// where there are at most eight. Errors: want of memory.
pub fn signatures(
    alloc: Global,
    arity: usize,
    column: &[Signature],
) -> Result<Vec<Signature>, AllocError>
    ensures { (made : List Kind → Signature) (kinds : List Kind)
        → IsFilled unknown arity (3 ^ arity) made column.now → length kinds ≡ arity → arity ≤ 8
        → IfOk result (λ v. get_or v.items (kinds_number kinds) unknown
        ≡ of_function kinds (made kinds)) }
{
    let mut table = Vec::new(alloc);
    for (combination, one) in column.iter().enumerate() {
        table.push(sign_function(arity, combination, *one))?;
    }
    Ok(table)
}
