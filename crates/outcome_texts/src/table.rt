//! Tables of tests under models.

ghost use Rattle.std.specs.Prelude.{◌≡◌, ℕ, ◌<◌, ◌≤◌, ◌++◌, ◌∷◌, [], IfOk, OnOk, length, map, max, slice_index, replicate};
ghost use Rattle.std.specs.List.{flat_map};
ghost use Rattle.outcome_texts.specs.Cells.{cell_of, cell_field};
ghost use Rattle.outcome_texts.specs.Columns.{field_width, column_width, padded_field, line_from, row_of, head_fields, row_fields, table_of};

use crate::cell::{Shown, put_cell};
use std::alloc::{AllocError, Global};
use std::marker::Model;
use text_values::{Name, put_bytes};

/// The cells of a test, in the order of the models.
#[derive(Drop)]
pub struct TestRow<'a> {
    /// The test's name.
    pub name: &'a [u8],
    /// The cells.
    pub cells: Vec<Shown<'a>>,
}

/// A line of a table, which contracts see as the texts of its fields.
#[derive(Drop)]
struct Line {
    fields: Vec<Name>,
}

impl Model for Line {
    ghost use Rattle.std.specs.Prelude.{List, ℕ};

    ghost Value = { List (List ℕ) };

    ghost view = { λ l. l.fields.items };
}

// A name as a field.
fn push_name(fields: &mut Vec<Name>, alloc: Global, name: &[u8]) -> Result<(), AllocError>
    ensures { OnOk result (fields.new.items ≡ fields.old.items ++ name.now ∷ []) }
{
    fields.push(Name::new(alloc, name)?)?;
    Ok(())
}

// A cell as a field.
fn push_cell(fields: &mut Vec<Name>, alloc: Global, cell: Shown<'_>) -> Result<(), AllocError>
    ensures { OnOk result (fields.new.items
        ≡ fields.old.items ++ cell_field (cell_of cell.entry) ∷ []) }
{
    let mut text = Vec::new(alloc);
    put_cell(&mut text, cell)?;
    push_name(fields, alloc, &text)
}

fn head_line(alloc: Global, models: &[Name]) -> Result<Line, AllocError>
    ensures { IfOk result (λ l. l ≡ head_fields models.now) }
{
    let mut fields = Vec::with_capacity(alloc, models.len())?;
    push_name(&mut fields, alloc, b"Test")?;
    for model in models {
        push_name(&mut fields, alloc, model.as_bytes())?;
    }
    Ok(Line { fields })
}

fn row_line(alloc: Global, row: &TestRow<'_>) -> Result<Line, AllocError>
    ensures { IfOk result (λ l. l ≡ row_fields (row_of row.now)) }
{
    let mut fields = Vec::with_capacity(alloc, row.cells.len())?;
    push_name(&mut fields, alloc, row.name)?;
    for cell in &row.cells {
        push_cell(&mut fields, alloc, *cell)?;
    }
    Ok(Line { fields })
}

fn lines(alloc: Global, models: &[Name], rows: &[TestRow<'_>]) -> Result<Vec<Line>, AllocError>
    ensures { IfOk result (λ v. v.items
        ≡ head_fields models.now ∷ map row_fields (map row_of rows.now)) }
{
    let mut lines = Vec::with_capacity(alloc, rows.len())?;
    lines.push(head_line(alloc, models)?)?;
    for row in rows {
        lines.push(row_line(alloc, row)?)?;
    }
    Ok(lines)
}

// A width, 0 for a column behind the last.
fn width_at(widths: &[usize], column: usize) -> usize
    ensures { result ≡ slice_index widths.now column }
{
    match widths.get(column) {
        Some(width) => *width,
        None => 0,
    }
}

// Widens a column to a width.
fn widen_column(widths: &mut Vec<usize>, column: usize, width: usize) -> Result<(), AllocError>
    requires { column ≤ length widths.old.items }
    ensures here { OnOk result (slice_index widths.new.items column
        ≡ max (slice_index widths.old.items column) width) }
    ensures others { OnOk result ((k : ℕ) → (k ≡ column → ⊥)
        → slice_index widths.new.items k ≡ slice_index widths.old.items k) }
    ensures count { OnOk result (column < length widths.new.items) }
{
    if column < widths.len() {
        widths[column] = widths[column].max(width);
    } else {
        widths.push(width)?;
    }
    Ok(())
}

// Widens the columns to the fields of a line.
fn widen(widths: &mut Vec<usize>, line: &Line) -> Result<(), AllocError>
    ensures { OnOk result ((k : ℕ)
        → slice_index widths.new.items k
        ≡ max (slice_index widths.old.items k) (field_width line.now k)) }
{
    for (column, field) in line.fields.iter().enumerate() {
        widen_column(widths, column, field.as_bytes().len())?;
    }
    Ok(())
}

// The widths of the columns.
fn widths(alloc: Global, lines: &[Line]) -> Result<Vec<usize>, AllocError>
    ensures { IfOk result (λ v. (k : ℕ) → slice_index v.items k ≡ column_width lines.now k) }
{
    let mut widths = Vec::new(alloc);
    for line in lines {
        widen(&mut widths, line)?;
    }
    Ok(widths)
}

fn put_spaces(text: &mut Vec<u8>, count: usize) -> Result<(), AllocError>
    ensures { OnOk result (text.new.items ≡ text.old.items ++ replicate count 32) }
{
    for _space in 0..count {
        text.push(b' ')?;
    }
    Ok(())
}

fn put_field(
    text: &mut Vec<u8>,
    field: &[u8],
    width: usize,
    is_last: bool,
) -> Result<(), AllocError>
    ensures { OnOk result (text.new.items
        ≡ text.old.items ++ padded_field is_last width field.now) }
{
    put_bytes(text, field)?;
    if is_last {
        return Ok(());
    }
    put_spaces(text, width.saturating_sub(field.len()))?;
    put_bytes(text, b" | ")
}

fn put_line(text: &mut Vec<u8>, line: &Line, widths: &[usize]) -> Result<(), AllocError>
    ensures { OnOk result (text.new.items
        ≡ text.old.items ++ line_from (slice_index widths.now) 0 line.now) }
{
    let count = line.fields.len();
    for (column, field) in line.fields.iter().enumerate() {
        let is_last = column + 1 == count;
        put_field(text, field.as_bytes(), width_at(widths, column), is_last)?;
    }
    put_bytes(text, b"\n")
}

fn put_lines(text: &mut Vec<u8>, lines: &[Line], widths: &[usize]) -> Result<(), AllocError>
    ensures { OnOk result (text.new.items
        ≡ text.old.items ++ flat_map (line_from (slice_index widths.now) 0) lines.now) }
{
    for line in lines {
        put_line(text, line, widths)?;
    }
    Ok(())
}

/// The table of these rows under the models of these names: a line `Test` and the names of the
/// models, then a line a test, the fields parted by ` | ` and all but the last filled with spaces
/// to the widest of their column. Errors: want of memory.
pub fn table_text(
    alloc: Global,
    models: &[Name],
    rows: &[TestRow<'_>],
) -> Result<Vec<u8>, AllocError>
    ensures { IfOk result (λ v. v.items ≡ table_of models.now (map row_of rows.now)) }
{
    let lines = lines(alloc, models, rows)?;
    let widths = widths(alloc, &lines)?;
    let mut text = Vec::new(alloc);
    put_lines(&mut text, &lines, &widths)?;
    Ok(text)
}
