//! The kinds of expressions.

ghost use Rattle.std.specs.Prelude.{◌≡◌};
ghost use Rattle.binding_kinds.specs.Kinds.{joined_kind, takes, marked, narrowed, is_set_kind, is_relation, takes_body, is_turned};
ghost use Rattle.binding_kinds.specs.Combinations.{is_any};

use text_values::{CheckWord, Infix};

/// Whether an expression is a set of events or a relation (the herd7 manual, chapter on cat), or
/// fits either.
#[derive(Clone, Copy, Debug, PartialEq, Eq)]
pub enum Kind {
    /// A set of events.
    OfSet,
    /// A relation between events.
    OfRelation,
    /// What fits as either, since it holds a fault.
    OfAny,
}

impl Kind {
    /// Whether it may stand where a set is wanted.
    pub fn is_set(self) -> bool
        ensures { result ≡ is_set_kind self }
    {
        match self {
            Kind::OfSet => true,
            Kind::OfRelation => false,
            Kind::OfAny => true,
        }
    }

    /// Whether it may stand where a relation is wanted.
    pub fn is_relation(self) -> bool
        ensures { result ≡ is_relation self }
    {
        match self {
            Kind::OfSet => false,
            Kind::OfRelation => true,
            Kind::OfAny => true,
        }
    }

    /// Whether it fits every kind.
    pub(crate) fn is_any(self) -> bool
        ensures { result ≡ is_any self }
    {
        match self {
            Kind::OfSet => false,
            Kind::OfRelation => false,
            Kind::OfAny => true,
        }
    }

    /// The kind of a closure.
    pub(crate) fn marked(self) -> Kind
        ensures { result ≡ marked self }
    {
        match self {
            Kind::OfSet => Kind::OfAny,
            Kind::OfRelation => Kind::OfRelation,
            Kind::OfAny => Kind::OfAny,
        }
    }

    /// The kind of an identity.
    pub(crate) fn narrowed(self) -> Kind
        ensures { result ≡ narrowed self }
    {
        match self {
            Kind::OfSet => Kind::OfRelation,
            Kind::OfRelation => Kind::OfAny,
            Kind::OfAny => Kind::OfAny,
        }
    }
}

/// Whether the operator takes operands of these kinds.
pub fn takes(op: Infix, left: Kind, right: Kind) -> bool
    ensures { result ≡ takes op left right }
{
    match op {
        Infix::Union | Infix::Intersection | Infix::Difference => match left {
            Kind::OfSet => right.is_set(),
            Kind::OfRelation => right.is_relation(),
            Kind::OfAny => true,
        },
        Infix::Sequence => left.is_relation() && right.is_relation(),
        Infix::Product => left.is_set() && right.is_set(),
    }
}

/// The kind of what the operator makes.
pub(crate) fn joined(op: Infix, left: Kind, right: Kind) -> Kind
    ensures { result ≡ joined_kind op left right }
{
    if !takes(op, left, right) {
        return Kind::OfAny;
    }
    if left == Kind::OfAny || right == Kind::OfAny {
        return Kind::OfAny;
    }
    match op {
        Infix::Union | Infix::Intersection | Infix::Difference => left,
        Infix::Sequence | Infix::Product => Kind::OfRelation,
    }
}

/// Whether the check takes an expression of this kind.
pub fn takes_body(word: CheckWord, body: Kind) -> bool
    ensures { result ≡ takes_body word body }
{
    match word {
        CheckWord::Acyclic => body.is_relation(),
        CheckWord::Irreflexive => body.is_relation(),
        CheckWord::Empty => true,
    }
}

/// Whether what stands right of the operator must not grow.
pub fn is_turned(op: Infix, under: bool) -> bool
    ensures { result ≡ is_turned op under }
{
    match op {
        Infix::Difference => true,
        Infix::Union => under,
        Infix::Intersection => under,
        Infix::Sequence => under,
        Infix::Product => under,
    }
}
