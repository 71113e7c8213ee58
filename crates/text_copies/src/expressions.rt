//! Copies of expressions.

ghost use Rattle.std.specs.Prelude.{◌≡◌, IfOk, map};
ghost use Rattle.text_values.specs.ModelValues.{term_of};

use std::alloc::{AllocError, Global};
use text_values::Expression;

#[cycle(copies)]
fn copied_expressions(
    alloc: Global,
    expressions: &[Expression],
) -> Result<Vec<Expression>, AllocError>
    ensures { IfOk result (λ v. map term_of v.items ≡ map term_of expressions.now) }
{
    let mut copies = Vec::with_capacity(alloc, expressions.len())?;
    for expression in expressions {
        copies.push(copied_expression(alloc, expression)?)?;
    }
    Ok(copies)
}

/// A copy of an expression. Errors: out of memory.
#[cycle(copies)]
pub(crate) fn copied_expression(
    alloc: Global,
    expression: &Expression,
) -> Result<Expression, AllocError>
    ensures { IfOk result (λ e. term_of e ≡ term_of expression.now) }
{
    match expression {
        Expression::Named(name) => Ok(Expression::Named(name.copied(alloc)?)),
        Expression::Everything => Ok(Expression::Everything),
        Expression::NoPairs => Ok(Expression::NoPairs),
        Expression::NoEvents => Ok(Expression::NoEvents),
        Expression::Joined(op, left, right) => {
            let left = copied_expression(alloc, left)?;
            let right = copied_expression(alloc, right)?;
            let left = Box::new(alloc, left)?;
            Ok(Expression::Joined(*op, left, Box::new(alloc, right)?))
        }
        Expression::Marked(op, operand) => {
            let operand = copied_expression(alloc, operand)?;
            Ok(Expression::Marked(*op, Box::new(alloc, operand)?))
        }
        Expression::Complement(operand) => {
            let operand = copied_expression(alloc, operand)?;
            Ok(Expression::Complement(Box::new(alloc, operand)?))
        }
        Expression::Identity(set) => {
            let set = copied_expression(alloc, set)?;
            Ok(Expression::Identity(Box::new(alloc, set)?))
        }
        Expression::Applied(name, arguments) => {
            let arguments = copied_expressions(alloc, arguments)?;
            Ok(Expression::Applied(name.copied(alloc)?, arguments))
        }
    }
}
