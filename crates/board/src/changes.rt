//! Finds and changes rows and columns.

ghost use Rattle.std.specs.Prelude.{◌≡◌, IfOk, MatchResult, option_map, map, remove, length, nat_lt, if◌then◌else◌, ◌++◌, ◌∷◌, [], ◌<◌, fold, vec_len};
ghost use Rattle.std.specs.Arc.{arc_value};
ghost use Rattle.board.specs.Contents.{row_index, column_index};
ghost use Rattle.board.specs.Operations.{put_cell, open_cell, open_row, wider_row, narrower_row, renamed_row};
ghost use Rattle.bench_texts.specs.BenchTexts.{changed_at};

use crate::column::Column;
use crate::operation::CellIndex;
use crate::row::Row;
use std::alloc::{AllocError, Global};
use std::mem::{drop, replace};
use std::sync::Arc;
use text_values::Name;
use verdict::Outcome;

/// The index of the first row of that name, or how many there are.
pub(crate) fn row_index(rows: &[Row], name: &[u8]) -> usize
    ensures { result ≡ row_index name.now rows.now }
{
    for index in 0..rows.len() {
        if rows[index].name() == name {
            return index;
        }
    }
    rows.len()
}

/// The index of the first column of that name, or how many there are.
pub(crate) fn column_index(columns: &[Column], name: &[u8]) -> usize
    ensures { result ≡ column_index name.now columns.now }
{
    for index in 0..columns.len() {
        if columns[index].name() == name {
            return index;
        }
    }
    columns.len()
}

/// Puts an outcome, or none, into a cell, where there is one.
pub(crate) fn put_cell(rows: &mut Vec<Row>, at: CellIndex, cell: Option<Arc<Outcome>>)
    ensures { rows.new.items
        ≡ put_cell at.test at.model (option_map arc_value cell) rows.old.items }
{
    if at.test < rows.len() {
        rows[at.test].put(at.model, cell);
    }
}

/// Opens these cells.
pub(crate) fn open_cells(rows: &mut Vec<Row>, cells: &[CellIndex])
    ensures { rows.new.items ≡ fold open_cell rows.old.items cells.now }
{
    for at in cells {
        put_cell(rows, *at, None);
    }
}

// Gives a row this name.
fn rename(rows: &mut Vec<Row>, at: usize, name: Arc<Name>)
    requires { at < vec_len rows.old }
    ensures { rows.new.items ≡ changed_at at (renamed_row (arc_value name)) rows.old.items }
{
    rows[at].rename(name);
}

/// Puts a column in the place of another.
pub(crate) fn put_column(columns: &mut Vec<Column>, at: usize, column: Column)
    requires { at < vec_len columns.old }
    ensures { columns.new.items ≡ changed_at at (λ _. column) columns.old.items }
{
    drop(replace(&mut columns[at], column));
}

/// Puts a test: gives the row of that index its name, or adds a row without outcomes. Errors: want
/// of memory, and then nothing changes.
pub(crate) fn put_test(
    alloc: Global,
    rows: &mut Vec<Row>,
    columns: &[Column],
    at: usize,
    name: &Arc<Name>,
) -> Result<(), AllocError>
    ensures { MatchResult result
        (λ _. rows.new.items ≡ (if nat_lt at (length rows.old.items) then changed_at at
        (renamed_row (arc_value name.now)) rows.old.items
        else rows.old.items ++ open_row (arc_value name.now) columns.now ∷ []))
        (λ _. rows.new.items ≡ rows.old.items) }
{
    let name = Arc::try_clone(name)?;
    if at < rows.len() {
        rename(rows, at, name);
        return Ok(());
    }
    let row = Row::open(alloc, name, columns)?;
    rows.push(row)?;
    Ok(())
}

/// Takes the row of that index out, where there is one.
pub(crate) fn drop_test(rows: &mut Vec<Row>, at: usize)
    ensures { rows.new.items ≡ remove rows.old.items at }
{
    if at < rows.len() {
        drop(rows.remove(at));
    }
}

/// Takes the column of that index out, where there is one.
pub(crate) fn drop_model(columns: &mut Vec<Column>, at: usize)
    ensures { columns.new.items ≡ remove columns.old.items at }
{
    if at < columns.len() {
        drop(columns.remove(at));
    }
}

/// Takes the cells of a model out of all rows.
pub(crate) fn drop_cells(rows: &mut [Row], at: usize)
    ensures { rows.new ≡ map (narrower_row at) rows.old }
{
    for row in rows.iter_mut() {
        row.narrow(at);
    }
}

/// These rows, each with one cell more, which is open. Errors: want of memory.
pub(crate) fn widened(alloc: Global, rows: &[Row]) -> Result<Vec<Row>, AllocError>
    ensures { IfOk result (λ v. v.items ≡ map wider_row rows.now) }
{
    let mut wider = Vec::with_capacity(alloc, rows.len())?;
    for row in rows {
        wider.push(row.widened(alloc)?)?;
    }
    Ok(wider)
}
