//! What is found in an expression, from what is found in its parts.

ghost use Rattle.std.specs.Prelude.{◌≡◌, ◌+◌, [], ◌∷◌, min, IfOk, Some};
ghost use Rattle.meaning.specs.Faults as definition;
ghost use Rattle.meaning.specs.Faults.{OfAny, AsValue};
ghost use Rattle.plain_faults.specs.Found.{kind_as, fault_as, IsSameKnown, IsSameFinding};

use crate::fault::{Fault, add_all, add_if};
use crate::kind::{
    Kind, is_relation, is_set, kind_of_identity, kind_of_infix, kind_of_postfix, takes,
};
use std::alloc::{AllocError, Global};
use text_values::Infix;

/// Sizes are counted up to this one: what is as large is too large.
pub const LARGE: usize = 4097;

/// A set or a relation that has a name.
#[derive(Clone, Copy)]
pub struct KnownName {
    /// Its kind.
    pub kind: Kind,
    /// Its size, up to `LARGE`.
    pub size: usize,
    /// Whether the name is one of a recursive group in that group.
    pub recursive: bool,
}

/// What is found in an expression.
#[derive(Drop)]
pub struct Finding {
    /// Its kind.
    pub kind: Kind,
    /// Its size, up to `LARGE`.
    pub size: usize,
    /// Its faults in the order of the text.
    pub faults: Vec<Fault>,
}

fn size_of_two(first: usize, second: usize) -> usize
    ensures { result ≡ min (first + second + 1) 4097 }
{
    first.saturating_add(second).saturating_add(1).min(LARGE)
}

/// A finding of size 1 without faults.
pub fn plain(alloc: Global, kind: Kind) -> Finding
    ensures { IsSameFinding result (definition.finding_of (kind_as kind) 1 []) }
{
    Finding {
        kind,
        size: 1,
        faults: Vec::new(alloc),
    }
}

/// A finding of any kind of size 1 with the fault. Errors: want of memory, as in all that follows.
pub fn wrong(alloc: Global, fault: Fault) -> Result<Finding, AllocError>
    ensures { IfOk result
        (λ f. IsSameFinding f (definition.finding_of OfAny 1 (fault_as fault ∷ []))) }
{
    let mut faults = Vec::new(alloc);
    faults.push(fault)?;
    Ok(Finding {
        kind: Kind::Any,
        size: 1,
        faults,
    })
}

/// What is found in a name of a set or a relation.
pub fn in_value(alloc: Global, falling: bool, value: &KnownName) -> Result<Finding, AllocError>
    ensures { IfOk result (λ f. (v : definition.KnownName) → IsSameKnown value.now v
        → IsSameFinding f (definition.in_name falling (Some (AsValue v)))) }
{
    let mut faults = Vec::new(alloc);
    add_if(&mut faults, value.recursive && falling, Fault::NotMonotone)?;
    Ok(Finding {
        kind: value.kind,
        size: value.size,
        faults,
    })
}

/// What is found in two operands with an operator between them.
pub fn in_infix(
    alloc: Global,
    op: Infix,
    first: &Finding,
    second: &Finding,
) -> Result<Finding, AllocError>
    ensures { IfOk result (λ f. (a b : definition.Finding) → IsSameFinding first.now a
        → IsSameFinding second.now b → IsSameFinding f (definition.in_infix op a b)) }
{
    let mut faults = Vec::new(alloc);
    add_all(&mut faults, &first.faults)?;
    add_if(
        &mut faults,
        !takes(op, first.kind, second.kind),
        Fault::Kind,
    )?;
    add_all(&mut faults, &second.faults)?;
    Ok(Finding {
        kind: kind_of_infix(op, first.kind, second.kind),
        size: size_of_two(first.size, second.size),
        faults,
    })
}

/// What is found in an operand with a postfix operator behind it.
pub fn in_postfix(alloc: Global, operand: &Finding) -> Result<Finding, AllocError>
    ensures { IfOk result (λ f. (a : definition.Finding) → IsSameFinding operand.now a
        → IsSameFinding f (definition.in_postfix a)) }
{
    let mut faults = Vec::new(alloc);
    add_all(&mut faults, &operand.faults)?;
    add_if(&mut faults, !is_relation(operand.kind), Fault::Kind)?;
    Ok(Finding {
        kind: kind_of_postfix(operand.kind),
        size: size_of_two(operand.size, 0),
        faults,
    })
}

/// What is found in an operand with `~` before it.
pub fn in_complement(alloc: Global, operand: &Finding) -> Result<Finding, AllocError>
    ensures { IfOk result (λ f. (a : definition.Finding) → IsSameFinding operand.now a
        → IsSameFinding f (definition.in_complement a)) }
{
    let mut faults = Vec::new(alloc);
    add_all(&mut faults, &operand.faults)?;
    Ok(Finding {
        kind: operand.kind,
        size: size_of_two(operand.size, 0),
        faults,
    })
}

/// What is found in an operand in `[` and `]`.
pub fn in_identity(alloc: Global, operand: &Finding) -> Result<Finding, AllocError>
    ensures { IfOk result (λ f. (a : definition.Finding) → IsSameFinding operand.now a
        → IsSameFinding f (definition.in_identity a)) }
{
    let mut faults = Vec::new(alloc);
    add_if(&mut faults, !is_set(operand.kind), Fault::Kind)?;
    add_all(&mut faults, &operand.faults)?;
    Ok(Finding {
        kind: kind_of_identity(operand.kind),
        size: size_of_two(operand.size, 0),
        faults,
    })
}
