//! Settled cells of a board as rows of a table, and as pairs of cells.

ghost use Rattle.std.specs.Prelude.{◌≡◌, IfOk, IfSome, IfNone, All, Some, map, slice_get, slice_index_or};
ghost use Rattle.text_values.specs.TestValue.{content_of};
ghost use Rattle.bench_texts.specs.Held.{texts_of};
ghost use Rattle.outcome_texts.specs.Cells.{cell_of, NoCell};
ghost use Rattle.outcome_texts.specs.Columns.{row_of};
ghost use Rattle.outcome_texts.specs.Differences.{pair_of};
ghost use Rattle.session_answers.specs.Cells.{IsPlainRow, IsPlainCell};
ghost use Rattle.session_answers.specs.Questions.{ArePlainRows};
ghost use Rattle.session_answers.specs.Rows.{pair_in};
ghost use Rattle.session_views.specs.Asked.{IsModelAt, asked_index, asked_model};
ghost use Rattle.session_views.specs.Shown.{ShowsTexts};
ghost use Rattle.session_views.specs.Waiting.{IsOpenAt, IsOpenAmong};

use crate::find::{AskedModel, asked_outcome};
use bench_texts::Texts;
use board::Board;
use outcome_texts::{Shown, TestPair, TestRow};
use std::alloc::{AllocError, Global};
use text_values::Test;

// The cell of a test, by its index, under a model, if it is settled.
fn asked_cell<'t>(
    texts: &Texts,
    board: &'t Board,
    index: usize,
    test: &Test,
    asked: &AskedModel<'_>,
) -> Option<Shown<'t>>
    requires shows { ShowsTexts (texts_of texts.now) board.now }
    requires test { slice_get (texts_of texts.now).tests index ≡ Some (content_of test.now) }
    requires model { IsModelAt texts.now asked.now }
    ensures settled { IfSome result (λ cell.
        IsPlainCell (content_of test.now) (asked_model asked.now) (cell_of cell)) }
    ensures waits { IfNone result (IsOpenAt board.now index asked.now.index) }
{
    match asked_outcome(texts, board, index, test, asked) {
        Some(outcome) => Some(Shown::Settled(outcome)),
        None => None,
    }
}

// The row of a test, by its index, under the models, if its cells are settled.
fn asked_row<'t>(
    alloc: Global,
    texts: &Texts,
    board: &'t Board,
    index: usize,
    test: &'t Test,
    models: &[AskedModel<'_>],
) -> Result<Option<TestRow<'t>>, AllocError>
    requires shows { ShowsTexts (texts_of texts.now) board.now }
    requires test { slice_get (texts_of texts.now).tests index ≡ Some (content_of test.now) }
    requires models { All (IsModelAt texts.now) models.now }
    ensures settled { IfOk result (λ r. IfSome r (λ row.
        IsPlainRow (map asked_model models.now) (content_of test.now) (row_of row))) }
    ensures waits { IfOk result (λ r.
        IfNone r (IsOpenAmong board.now (map asked_index models.now))) }
{
    let mut cells = Vec::with_capacity(alloc, models.len())?;
    for asked in models {
        match asked_cell(texts, board, index, test, asked) {
            Some(cell) => cells.push(cell)?,
            None => return Ok(None),
        }
    }
    Ok(Some(TestRow {
        name: test.name.as_bytes(),
        cells,
    }))
}

/// The rows of all tests under the models, if their cells are settled. Errors: out of memory.
pub(crate) fn asked_rows<'t>(
    alloc: Global,
    texts: &'t Texts,
    board: &'t Board,
    models: &[AskedModel<'_>],
) -> Result<Option<Vec<TestRow<'t>>>, AllocError>
    requires shows { ShowsTexts (texts_of texts.now) board.now }
    requires models { All (IsModelAt texts.now) models.now }
    ensures settled { IfOk result (λ r. IfSome r (λ rows. ArePlainRows (texts_of texts.now)
        (map asked_model models.now) (map row_of rows.items))) }
    ensures waits { IfOk result (λ r.
        IfNone r (IsOpenAmong board.now (map asked_index models.now))) }
{
    let tests = texts.tests();
    let mut rows = Vec::with_capacity(alloc, tests.len())?;
    for index in 0..tests.len() {
        match asked_row(alloc, texts, board, index, &tests[index], models)? {
            Some(row) => rows.push(row)?,
            None => return Ok(None),
        }
    }
    Ok(Some(rows))
}

fn cell_in<'t>(cells: &[Shown<'t>], index: usize) -> Shown<'t>
    ensures { cell_of result ≡ slice_index_or (map cell_of cells.now) index NoCell }
{
    match cells.get(index) {
        Some(cell) => *cell,
        None => Shown::NoCell,
    }
}

fn row_pair<'t>(row: &TestRow<'t>) -> TestPair<'t>
    ensures { pair_of result ≡ pair_in (row_of row.now) }
{
    TestPair {
        name: row.name,
        first: cell_in(&row.cells, 0),
        second: cell_in(&row.cells, 1),
    }
}

/// The first two cells of each row, side by side. Errors: out of memory.
pub(crate) fn row_pairs<'t>(
    alloc: Global,
    rows: &[TestRow<'t>],
) -> Result<Vec<TestPair<'t>>, AllocError>
    ensures { IfOk result (λ v. map pair_of v.items ≡ map pair_in (map row_of rows.now)) }
{
    let mut pairs = Vec::with_capacity(alloc, rows.len())?;
    for row in rows {
        pairs.push(row_pair(row))?;
    }
    Ok(pairs)
}
