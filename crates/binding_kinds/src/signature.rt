//! The kinds that an application makes of arguments of given kinds.

ghost use Rattle.std.specs.Prelude.{◌≡◌, ◌≤◌, ◌<◌, ◌*◌, ◌^◌, List, length, get_or};
ghost use Rattle.binding_kinds.specs.Combinations.{digit, kinds_number, has_any};

use crate::kinds::Kind;

/// What an application makes of arguments of some kinds.
#[derive(Clone, Copy)]
pub struct Signature {
    /// The kind of the application's value.
    pub kind: Kind,
    /// Whether an operator of the body does not take its operands.
    pub clashes: bool,
}

/// Three to the power of an index, up to the eighth.
pub fn weight(index: usize) -> usize
    ensures power { index ≤ 8 → result ≡ 3 ^ index }
    ensures low { 0 < result }
    ensures high { result ≤ 6561 }
{
    match index {
        0 => 1,
        1 => 3,
        2 => 9,
        3 => 27,
        4 => 81,
        5 => 243,
        6 => 729,
        7 => 2_187,
        _ => 6_561,
    }
}

/// The kind at that index of a combination of kinds.
pub fn kind_at(combination: usize, index: usize) -> Kind
    ensures { (kinds : List Kind) → (other : Kind) → combination ≡ kinds_number kinds
        → index < length kinds → length kinds ≤ 8 → result ≡ get_or kinds index other }
{
    let digit = combination / weight(index) % 3;
    if digit == 0 {
        Kind::OfSet
    } else if digit == 1 {
        Kind::OfRelation
    } else {
        Kind::OfAny
    }
}

/// What a kind at that index adds to a combination.
pub fn weighed(kind: Kind, index: usize) -> usize
    ensures small { result ≤ 13122 }
    ensures power { index ≤ 8 → result ≡ digit kind * 3 ^ index }
{
    match kind {
        Kind::OfSet => 0,
        Kind::OfRelation => weight(index),
        Kind::OfAny => 2 * weight(index),
    }
}

/// Whether one of the kinds of a combination fits every kind.
pub fn has_any(combination: usize, arity: usize) -> bool
    ensures { (kinds : List Kind) → combination ≡ kinds_number kinds → arity ≡ length kinds
        → length kinds ≤ 8 → result ≡ has_any kinds }
{
    let mut any = false;
    for index in 0..arity {
        if kind_at(combination, index).is_any() {
            any = true;
        }
    }
    any
}
