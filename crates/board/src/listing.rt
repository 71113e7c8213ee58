//! A board as a list of cells, as rows of a table and as pairs of cells.

ghost use Rattle.std.specs.Prelude.{◌≡◌, ◌++◌, IfOk, OnOk, map};
ghost use Rattle.outcome_texts.specs.Cells.{cell_of};
ghost use Rattle.outcome_texts.specs.Columns.{row_of};
ghost use Rattle.outcome_texts.specs.Differences.{pair_of};
ghost use Rattle.board.specs.Listing.{listed_cell, row_cell, cell_under, row_listed, all_listed, row_under, pair_under};

use crate::changes::column_index;
use crate::column::Column;
use crate::row::Row;
use outcome_texts::{Shown, TestPair, TestRow};
use std::alloc::{AllocError, Global};
use text_values::Name;

/// A cell of a board.
#[derive(Clone, Copy)]
pub struct NamedCell<'b> {
    /// The name of its test.
    pub test: &'b [u8],
    /// The name of its model.
    pub model: &'b [u8],
    /// What is shown of it.
    pub shown: Shown<'b>,
}

// What the row of a test shows under the model of a name.
fn row_cell<'b>(columns: &[Column], row: &'b Row, model: &[u8]) -> Shown<'b>
    ensures { cell_of result ≡ row_cell columns.now row.now model.now }
{
    row.show(column_index(columns, model))
}

fn cell_under<'b>(columns: &[Column], row: &'b Row, column: &'b Column) -> NamedCell<'b>
    ensures { listed_cell result ≡ cell_under columns.now row.now column.now }
{
    NamedCell {
        test: row.name(),
        model: column.name(),
        shown: row_cell(columns, row, column.name()),
    }
}

// Appends the cells of a test, in the order of the models.
fn push_row<'b>(
    cells: &mut Vec<NamedCell<'b>>,
    row: &'b Row,
    columns: &'b [Column],
) -> Result<(), AllocError>
    ensures { OnOk result (map listed_cell cells.new.items
        ≡ map listed_cell cells.old.items ++ row_listed columns.now row.now) }
{
    for column in columns {
        cells.push(cell_under(columns, row, column))?;
    }
    Ok(())
}

/// All cells, test by test, in the order of the models. Errors: want of memory.
pub(crate) fn all_listed<'b>(
    alloc: Global,
    rows: &'b [Row],
    columns: &'b [Column],
) -> Result<Vec<NamedCell<'b>>, AllocError>
    ensures { IfOk result (λ v. map listed_cell v.items ≡ all_listed columns.now rows.now) }
{
    let mut cells = Vec::new(alloc);
    for row in rows {
        push_row(&mut cells, row, columns)?;
    }
    Ok(cells)
}

fn row_under<'b>(
    alloc: Global,
    columns: &[Column],
    row: &'b Row,
    models: &[Name],
) -> Result<TestRow<'b>, AllocError>
    ensures { IfOk result (λ r. row_of r ≡ row_under columns.now models.now row.now) }
{
    let mut cells = Vec::with_capacity(alloc, models.len())?;
    for model in models {
        cells.push(row_cell(columns, row, model.as_bytes()))?;
    }
    Ok(TestRow {
        name: row.name(),
        cells,
    })
}

/// The rows of a table of all tests under the models of these names. Errors: want of memory.
pub(crate) fn rows_under<'b>(
    alloc: Global,
    rows: &'b [Row],
    columns: &[Column],
    models: &[Name],
) -> Result<Vec<TestRow<'b>>, AllocError>
    ensures { IfOk result (λ v. map row_of v.items
        ≡ map (row_under columns.now models.now) rows.now) }
{
    let mut under = Vec::with_capacity(alloc, rows.len())?;
    for row in rows {
        under.push(row_under(alloc, columns, row, models)?)?;
    }
    Ok(under)
}

fn pair_under<'b>(columns: &[Column], row: &'b Row, first: &[u8], second: &[u8]) -> TestPair<'b>
    ensures { pair_of result ≡ pair_under columns.now first.now second.now row.now }
{
    TestPair {
        name: row.name(),
        first: row_cell(columns, row, first),
        second: row_cell(columns, row, second),
    }
}

/// The cells of all tests under the models of two names. Errors: want of memory.
pub(crate) fn pairs_under<'b>(
    alloc: Global,
    rows: &'b [Row],
    columns: &[Column],
    first: &[u8],
    second: &[u8],
) -> Result<Vec<TestPair<'b>>, AllocError>
    ensures { IfOk result (λ v. map pair_of v.items
        ≡ map (pair_under columns.now first.now second.now) rows.now) }
{
    let mut pairs = Vec::with_capacity(alloc, rows.len())?;
    for row in rows {
        pairs.push(pair_under(columns, row, first, second))?;
    }
    Ok(pairs)
}
