//! What is found in an expression.

ghost use Rattle.std.specs.Prelude.{◌≡◌, ◌+◌, ◌≤◌, suc, length, IfOk};
ghost use Rattle.text_values.specs.ModelValues.{term_of};
ghost use Rattle.plain_faults.specs.Found.{IsFoundIn, AreFoundIn, IsFoundInBody, IsFoundInName, IsFallingIn, AreFallingIn, ArePlainIn, IsFoundInFunction, IsFoundInUse, term_weight, names_weight};

use crate::application::{arguments_of, in_application, in_wrong_application, trial_arguments};
use crate::fault::{Fault, has_monotone_fault};
use crate::finding::{
    Finding, KnownName, in_complement, in_identity, in_infix, in_postfix, in_value, plain, wrong,
};
use crate::kind::{Kind, either, is_falling_right};
use crate::scope::{Known, Named, from_name, put_parameters};
use std::alloc::{AllocError, Global};
use text_values::{Expression, Name};

// What is found in a name without arguments.
fn in_name<'a>(
    alloc: Global,
    names: &[Named<'a>],
    falling: bool,
    name: &Name,
) -> Result<Finding, AllocError>
    ensures { IfOk result (IsFoundInName names.now falling name.now) }
{
    match from_name(names, name.as_bytes()).split_first() {
        Some((first, _)) => match &first.known {
            Known::Value(value) => in_value(alloc, falling, value),
            Known::Function(_, _) => wrong(alloc, Fault::Arity),
        },
        None => wrong(alloc, Fault::Unbound),
    }
}

/// What is found in the body of a function with these arguments, where the function sees the names.
/// Errors: want of memory, as in all that follows.
#[cycle(findings)]
pub fn in_body<'a>(
    alloc: Global,
    names: &[Named<'a>],
    parameters: &'a [Name],
    body: &'a Expression,
    values: &[KnownName],
) -> Result<Finding, AllocError>
    ensures { IfOk result (IsFoundInBody names.now parameters.now body.now values.now) }
{
    let mut all = Vec::from_slice(alloc, names)?;
    put_parameters(&mut all, parameters, values)?;
    in_term(alloc, true, &all, false, body)
}

// Whether the parameter at the index stands in the body where it must not grow.
#[cycle(findings)]
fn is_falling_parameter<'a>(
    alloc: Global,
    names: &[Named<'a>],
    parameters: &'a [Name],
    body: &'a Expression,
    index: usize,
) -> Result<bool, AllocError>
    ensures { IfOk result (IsFallingIn names.now parameters.now body.now index) }
{
    let values = trial_arguments(alloc, index)?;
    let found = in_body(alloc, names, parameters, body, &values)?;
    Ok(has_monotone_fault(&found.faults))
}

// Which of the first parameters must not grow, where all must not or may.
#[cycle(findings)]
fn falling_parameters<'a>(
    alloc: Global,
    names: &[Named<'a>],
    parameters: &'a [Name],
    body: &'a Expression,
    falling: bool,
    count: usize,
) -> Result<Vec<bool>, AllocError>
    ensures length { IfOk result (λ v. length v.items ≡ count) }
    ensures are { IfOk result (λ v. AreFallingIn names.now parameters.now body.now falling
        v.items) }
{
    let mut all = Vec::new(alloc);
    for index in 0..count {
        let here = is_falling_parameter(alloc, names, parameters, body, index)?;
        let is = either(falling, here);
        all.push(is)?;
    }
    Ok(all)
}

// What is found in the arguments, which must not grow where the list says so.
#[cycle(findings)]
fn in_terms<'a>(
    alloc: Global,
    inside: bool,
    names: &[Named<'a>],
    falling: &[bool],
    arguments: &[Expression],
) -> Result<Vec<Finding>, AllocError>
    requires { length falling.now ≡ length arguments.now }
    ensures { IfOk result (λ v. AreFoundIn inside names.now falling.now arguments.now v.items) }
{
    match arguments.split_first() {
        Some((first, others)) => {
            let mut all = in_terms(alloc, inside, names, &falling[1..], others)?;
            let found = in_term(alloc, inside, names, falling[0], first)?;
            all.insert(0, found)?;
            Ok(all)
        }
        None => Ok(Vec::new(alloc)),
    }
}

// What is found in an application of a function that sees the outer names.
#[cycle(findings)]
fn in_function<'a>(
    alloc: Global,
    inside: bool,
    names: &[Named<'a>],
    falling: bool,
    outer: &[Named<'a>],
    parameters: &'a [Name],
    body: &'a Expression,
    arguments: &[Expression],
    found: &[Finding],
) -> Result<Finding, AllocError>
    requires { suc (term_weight (term_of body.now) + names_weight outer.now)
        ≤ names_weight names.now }
    ensures { IfOk result (IsFoundInFunction inside names.now falling outer.now parameters.now
        body.now arguments.now found.now) }
{
    let values = arguments_of(alloc, found)?;
    let inner = in_body(alloc, outer, parameters, body, &values)?;
    let flags = falling_parameters(alloc, outer, parameters, body, falling, arguments.len())?;
    let all = in_terms(alloc, inside, names, &flags, arguments)?;
    in_application(alloc, inside, &inner, &all)
}

// What is found in the arguments where all must not grow, or may.
#[cycle(findings)]
fn in_plain_terms<'a>(
    alloc: Global,
    inside: bool,
    names: &[Named<'a>],
    falling: bool,
    arguments: &[Expression],
) -> Result<Vec<Finding>, AllocError>
    ensures { IfOk result (λ v. ArePlainIn inside names.now falling
        arguments.now v.items) }
{
    let mut flags = Vec::new(alloc);
    flags.resize(arguments.len(), falling)?;
    in_terms(alloc, inside, names, &flags, arguments)
}

// What is found in a name with arguments.
#[cycle(findings)]
fn in_use<'a>(
    alloc: Global,
    inside: bool,
    names: &[Named<'a>],
    falling: bool,
    name: &Name,
    arguments: &[Expression],
) -> Result<Finding, AllocError>
    ensures { IfOk result (IsFoundInUse inside names.now falling name.now arguments.now) }
{
    let found = in_plain_terms(alloc, inside, names, falling, arguments)?;
    match from_name(names, name.as_bytes()).split_first() {
        Some((first, outer)) => match &first.known {
            Known::Value(_) => in_wrong_application(alloc, Fault::Arity, &found),
            Known::Function(parameters, body) => {
                if parameters.len() == arguments.len() {
                    in_function(
                        alloc, inside, names, falling, outer, parameters, body, arguments, &found,
                    )
                } else {
                    in_wrong_application(alloc, Fault::Arity, &found)
                }
            }
        },
        None => in_wrong_application(alloc, Fault::Unbound, &found),
    }
}

/// What is found in an expression, which stands inside of the body of a function or not, and which
/// must not grow or may. Of the names, the latest stands first.
#[cycle(findings)]
pub fn in_term<'a>(
    alloc: Global,
    inside: bool,
    names: &[Named<'a>],
    falling: bool,
    expression: &Expression,
) -> Result<Finding, AllocError>
    ensures { IfOk result (IsFoundIn inside names.now falling expression.now) }
{
    match expression {
        Expression::Named(name) => in_name(alloc, names, falling, name),
        Expression::Everything => Ok(plain(alloc, Kind::Set)),
        Expression::NoPairs => Ok(plain(alloc, Kind::Relation)),
        Expression::NoEvents => Ok(plain(alloc, Kind::Set)),
        Expression::Joined(op, left, right) => {
            let first = in_term(alloc, inside, names, falling, left)?;
            let second = in_term(alloc, inside, names, is_falling_right(*op, falling), right)?;
            in_infix(alloc, *op, &first, &second)
        }
        Expression::Marked(_, operand) => {
            let found = in_term(alloc, inside, names, falling, operand)?;
            in_postfix(alloc, &found)
        }
        Expression::Complement(operand) => {
            let found = in_term(alloc, inside, names, true, operand)?;
            in_complement(alloc, &found)
        }
        Expression::Identity(operand) => {
            let found = in_term(alloc, inside, names, falling, operand)?;
            in_identity(alloc, &found)
        }
        Expression::Applied(name, arguments) => {
            in_use(alloc, inside, names, falling, name, arguments)
        }
    }
}
