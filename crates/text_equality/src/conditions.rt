//! Conditions.

ghost use Rattle.std.specs.Prelude.{◌≡◌, ◌↔◌, IsTrue};
ghost use Rattle.text_values.specs.TestValue.{formula_of};

use crate::places::{is_same_place, is_same_value};
use text_values::{Condition, Proposition};

/// Whether two propositions are equal, wherever they lie in memory. It goes as deep as the first
/// one does.
pub(crate) fn is_same_proposition(first: &Proposition, second: &Proposition) -> bool
    ensures { IsTrue result ↔ (formula_of first.now ≡ formula_of second.now) }
{
    match (first, second) {
        (Proposition::Constant(a), Proposition::Constant(b)) => *a == *b,
        (Proposition::Holds(p, v), Proposition::Holds(q, w)) => {
            is_same_place(p, q) && is_same_value(v, w)
        }
        (Proposition::Not(a), Proposition::Not(b)) => is_same_proposition(a, b),
        (Proposition::Joined(op, a, b), Proposition::Joined(other, c, d)) => {
            *op == *other && is_same_proposition(a, c) && is_same_proposition(b, d)
        }
        _ => false,
    }
}

/// Whether two conditions are equal.
pub fn is_same_condition(first: &Condition, second: &Condition) -> bool
    ensures quantifier { IsTrue result → first.now.quantifier ≡ second.now.quantifier }
    ensures proposition { IsTrue result
        → formula_of first.now.proposition ≡ formula_of second.now.proposition }
    ensures exact { first.now.quantifier ≡ second.now.quantifier
        → formula_of first.now.proposition ≡ formula_of second.now.proposition → IsTrue result }
{
    first.quantifier == second.quantifier
        && is_same_proposition(&first.proposition, &second.proposition)
}
