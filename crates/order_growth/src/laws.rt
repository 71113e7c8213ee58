//! Laws of growths, and of items that are expressions. Read `specs/Laws` and `specs/Coded` first.

ghost use Rattle.candidate_spaces.specs.Space.{Candidate};
ghost use Rattle.order_growth.specs.Coded.{AreItemsExpressions};
ghost use Rattle.order_growth.specs.Laws.{PredefinedNamesGrow, RowsLieWithin, ColumnsGrow, RefusalsStay};

use binding_graph::{Body, CheckCode};
use candidates::Combination;
use text_values::ModelText;

/// A predefined name stays, or grows where it is made of reads-from or coherence.
pub fn predefined_names_grow()
    ensures { (one more : Candidate) → PredefinedNamesGrow one more }
{}

/// A row of stores alone lies within each candidate in whose order it stands.
pub fn rows_lie_within(one: &Combination, other: &Combination)
    ensures { RowsLieWithin one.now other.now }
{
    let _one = one;
    let _other = other;
}

/// The names of a group change as the growths of its bodies say.
pub fn columns_grow(recursive: bool, bodies: &[Body])
    ensures { ColumnsGrow recursive bodies.now }
{
    let _bodies = bodies;
}

/// What a check refuses in a candidate, it refuses in one that this lies within.
pub fn refusals_stay(check: &CheckCode)
    ensures { RefusalsStay check.now }
{
    let _check = check;
}

/// The bodies and checks of a model without fault are expressions.
pub fn items_are_expressions(model: &ModelText)
    ensures { AreItemsExpressions model.now }
{
    let _model = model;
}
