//! The outcomes of tests as rows of a table, and as pairs of cells.

ghost use Rattle.std.specs.Prelude.{◌≡◌, IfOk, map, slice_index_or};
ghost use Rattle.outcome_texts.specs.Cells as cells;
ghost use Rattle.outcome_texts.specs.Cells.{cell_of};
ghost use Rattle.outcome_texts.specs.Columns.{row_of};
ghost use Rattle.outcome_texts.specs.Differences.{pair_of};
ghost use Rattle.session_answers.specs.Rows.{row_said, pair_in};

use outcome_texts::{Shown, TestPair, TestRow};
use std::alloc::{AllocError, Global};
use text_values::Name;
use verdict::Outcome;

/// The outcomes of a test, in the order of the models.
#[derive(Drop)]
pub struct TestOutcomes {
    /// The test's name.
    pub name: Name,
    /// The outcomes.
    pub outcomes: Vec<Outcome>,
}

fn cells_of<'a>(alloc: Global, outcomes: &'a [Outcome]) -> Result<Vec<Shown<'a>>, AllocError>
    ensures { IfOk result (λ v. map cell_of v.items ≡ map cells.Settled outcomes.now) }
{
    let mut cells = Vec::with_capacity(alloc, outcomes.len())?;
    for outcome in outcomes {
        cells.push(Shown::Settled(outcome))?;
    }
    Ok(cells)
}

fn test_row<'a>(alloc: Global, row: &'a TestOutcomes) -> Result<TestRow<'a>, AllocError>
    ensures { IfOk result (λ r. row_of r ≡ row_said row.now) }
{
    Ok(TestRow {
        name: row.name.as_bytes(),
        cells: cells_of(alloc, &row.outcomes)?,
    })
}

/// The rows of a table that show these outcomes. Errors: out of memory.
pub fn test_rows<'a>(
    alloc: Global,
    rows: &'a [TestOutcomes],
) -> Result<Vec<TestRow<'a>>, AllocError>
    ensures { IfOk result (λ v. map row_of v.items ≡ map row_said rows.now) }
{
    let mut found = Vec::with_capacity(alloc, rows.len())?;
    for row in rows {
        found.push(test_row(alloc, row)?)?;
    }
    Ok(found)
}

fn cell_at<'a>(outcomes: &'a [Outcome], index: usize) -> Shown<'a>
    ensures { cell_of result ≡ slice_index_or (map cells.Settled outcomes.now) index cells.NoCell }
{
    match outcomes.get(index) {
        Some(outcome) => Shown::Settled(outcome),
        None => Shown::NoCell,
    }
}

fn test_pair<'a>(row: &'a TestOutcomes) -> TestPair<'a>
    ensures { pair_of result ≡ pair_in (row_said row.now) }
{
    TestPair {
        name: row.name.as_bytes(),
        first: cell_at(&row.outcomes, 0),
        second: cell_at(&row.outcomes, 1),
    }
}

/// The first two outcomes of each test, side by side. Errors: out of memory.
pub fn test_pairs<'a>(
    alloc: Global,
    rows: &'a [TestOutcomes],
) -> Result<Vec<TestPair<'a>>, AllocError>
    ensures { IfOk result (λ v. map pair_of v.items ≡ map pair_in (map row_said rows.now)) }
{
    let mut pairs = Vec::with_capacity(alloc, rows.len())?;
    for row in rows {
        pairs.push(test_pair(row))?;
    }
    Ok(pairs)
}
