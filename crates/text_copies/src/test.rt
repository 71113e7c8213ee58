//! Copies of conditions and of whole tests.

ghost use Rattle.std.specs.Prelude.{◌≡◌, IfOk};
ghost use Rattle.text_values.specs.TestValue.{formula_of, content_of};

use crate::places::{copied_entries, copied_place, copied_places, copied_value};
use crate::threads::copied_threads;
use std::alloc::{AllocError, Global};
use text_values::{Condition, Proposition, Test};

// A copy of a proposition. It goes as deep as the proposition does.
fn copied_proposition(alloc: Global, proposition: &Proposition) -> Result<Proposition, AllocError>
    ensures { IfOk result (λ p. formula_of p ≡ formula_of proposition.now) }
{
    match proposition {
        Proposition::Constant(holds) => Ok(Proposition::Constant(*holds)),
        Proposition::Holds(place, value) => Ok(Proposition::Holds(
            copied_place(alloc, place)?,
            copied_value(alloc, value)?,
        )),
        Proposition::Not(operand) => {
            let operand = copied_proposition(alloc, operand)?;
            Ok(Proposition::Not(Box::new(alloc, operand)?))
        }
        Proposition::Joined(op, left, right) => {
            let left = copied_proposition(alloc, left)?;
            let right = copied_proposition(alloc, right)?;
            let left = Box::new(alloc, left)?;
            Ok(Proposition::Joined(*op, left, Box::new(alloc, right)?))
        }
    }
}

/// A copy of a condition. Errors: out of memory.
pub fn copied_condition(alloc: Global, condition: &Condition) -> Result<Condition, AllocError>
    ensures quantifier { IfOk result (λ c. c.quantifier ≡ condition.now.quantifier) }
    ensures proposition { IfOk result (λ c. formula_of c.proposition
        ≡ formula_of condition.now.proposition) }
{
    Ok(Condition {
        quantifier: condition.quantifier,
        proposition: copied_proposition(alloc, &condition.proposition)?,
    })
}

/// A copy of a test. Errors: out of memory.
pub fn copied_test(alloc: Global, test: &Test) -> Result<Test, AllocError>
    ensures { IfOk result (λ t. content_of t ≡ content_of test.now) }
{
    Ok(Test {
        name: test.name.copied(alloc)?,
        init: copied_entries(alloc, &test.init)?,
        threads: copied_threads(alloc, &test.threads)?,
        observed: copied_places(alloc, &test.observed)?,
        condition: copied_condition(alloc, &test.condition)?,
    })
}
