//! Kinds of expressions, and what operators make of them.

ghost use Rattle.std.specs.Prelude.{◌≡◌, ◌&&◌, ◌||◌};
ghost use Rattle.meaning.specs.Faults as definition;
ghost use Rattle.plain_faults.specs.Found.{kind_as, made_alike};

use text_values::{CheckWord, Infix};

/// What kind an expression is of.
#[derive(Clone, Copy)]
pub enum Kind {
    /// A set.
    Set,
    /// A relation.
    Relation,
    /// Any of both: the expression holds a fault.
    Any,
}

/// Whether it fits where a set is wanted.
pub fn is_set(kind: Kind) -> bool
    ensures { result ≡ definition.is_set (kind_as kind) }
{
    match kind {
        Kind::Set => true,
        Kind::Relation => false,
        Kind::Any => true,
    }
}

/// Whether it fits where a relation is wanted.
pub fn is_relation(kind: Kind) -> bool
    ensures { result ≡ definition.is_relation (kind_as kind) }
{
    match kind {
        Kind::Set => false,
        Kind::Relation => true,
        Kind::Any => true,
    }
}

// Whether both fit where a set is wanted.
fn are_sets(first: Kind, second: Kind) -> bool
    ensures { result ≡ (definition.is_set (kind_as first) && definition.is_set (kind_as second)) }
{
    is_set(first) && is_set(second)
}

// Whether both fit where a relation is wanted.
fn are_relations(first: Kind, second: Kind) -> bool
    ensures { result
        ≡ (definition.is_relation (kind_as first) && definition.is_relation (kind_as second)) }
{
    is_relation(first) && is_relation(second)
}

/// Whether one of the two holds.
pub fn either(first: bool, second: bool) -> bool
    ensures { result ≡ (first || second) }
{
    first || second
}

/// Whether the operator takes operands of these kinds.
pub fn takes(op: Infix, first: Kind, second: Kind) -> bool
    ensures { result ≡ definition.takes op (kind_as first) (kind_as second) }
{
    match op {
        Infix::Union => either(are_sets(first, second), are_relations(first, second)),
        Infix::Sequence => are_relations(first, second),
        Infix::Difference => either(are_sets(first, second), are_relations(first, second)),
        Infix::Intersection => either(are_sets(first, second), are_relations(first, second)),
        Infix::Product => are_sets(first, second),
    }
}

// The kind of what the operator makes of a set or a relation, and of another operand.
fn made_of(op: Infix, kind: Kind) -> Kind
    ensures { kind_as result ≡ made_alike op (kind_as kind) }
{
    match op {
        Infix::Union => kind,
        Infix::Sequence => Kind::Relation,
        Infix::Difference => kind,
        Infix::Intersection => kind,
        Infix::Product => Kind::Relation,
    }
}

fn kind_made(op: Infix, first: Kind, second: Kind) -> Kind
    ensures { kind_as result ≡ definition.kind_made op (kind_as first) (kind_as second) }
{
    match first {
        Kind::Any => Kind::Any,
        Kind::Set => match second {
            Kind::Any => Kind::Any,
            Kind::Set => made_of(op, first),
            Kind::Relation => made_of(op, first),
        },
        Kind::Relation => match second {
            Kind::Any => Kind::Any,
            Kind::Set => made_of(op, first),
            Kind::Relation => made_of(op, first),
        },
    }
}

/// The kind of what the operator makes of operands.
pub fn kind_of_infix(op: Infix, first: Kind, second: Kind) -> Kind
    ensures { kind_as result ≡ definition.kind_of_infix op (kind_as first) (kind_as second) }
{
    if takes(op, first, second) {
        kind_made(op, first, second)
    } else {
        Kind::Any
    }
}

/// The kind of what a postfix operator makes of an operand.
pub fn kind_of_postfix(kind: Kind) -> Kind
    ensures { kind_as result ≡ definition.kind_of_postfix (kind_as kind) }
{
    match kind {
        Kind::Set => Kind::Any,
        Kind::Relation => Kind::Relation,
        Kind::Any => Kind::Any,
    }
}

/// The kind of the identity on an operand.
pub fn kind_of_identity(kind: Kind) -> Kind
    ensures { kind_as result ≡ definition.kind_of_identity (kind_as kind) }
{
    match kind {
        Kind::Set => Kind::Relation,
        Kind::Relation => Kind::Any,
        Kind::Any => Kind::Any,
    }
}

/// Whether the check takes an expression of this kind.
pub fn takes_body(word: CheckWord, kind: Kind) -> bool
    ensures { result ≡ definition.takes_body word (kind_as kind) }
{
    match word {
        CheckWord::Acyclic => is_relation(kind),
        CheckWord::Irreflexive => is_relation(kind),
        CheckWord::Empty => true,
    }
}

/// Whether right of the operator stands what must not grow.
pub fn is_falling_right(op: Infix, falling: bool) -> bool
    ensures { result ≡ definition.is_falling_right op falling }
{
    match op {
        Infix::Union => falling,
        Infix::Sequence => falling,
        Infix::Difference => true,
        Infix::Intersection => falling,
        Infix::Product => falling,
    }
}
