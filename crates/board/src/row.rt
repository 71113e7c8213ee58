//! The cells of a test.

ghost use Rattle.std.specs.Prelude.{◌≡◌, IfOk, option_map};
ghost use Rattle.std.specs.Arc.{arc_value};
ghost use Rattle.outcome_texts.specs.Cells.{cell_of};

use crate::column::Column;
use outcome_texts::Shown;
use std::alloc::{AllocError, Global};
use std::marker::Model;
use std::mem::{drop, replace};
use std::sync::Arc;
use text_values::Name;
use verdict::Outcome;

/// A test: its name, and its cells, one for each model.
#[derive(Drop)]
pub(crate) struct Row {
    name: Arc<Name>,
    cells: Vec<Option<Arc<Outcome>>>,
}

impl Model for Row {
    ghost use Rattle.std.specs.Prelude.{map, option_map};
    ghost use Rattle.std.specs.Arc.{arc_value};
    ghost use Rattle.board.specs.Contents.{RowContent};

    ghost Value = { RowContent };

    ghost view = { λ r.
        record { name = arc_value r.name; cells = map (option_map arc_value) r.cells.items } };
}

impl Row {
    ghost use Rattle.std.specs.Prelude.{slice_get};
    ghost use Rattle.board.specs.Contents.{shown_cell};
    ghost use Rattle.board.specs.Operations.{with_cell, renamed_row, open_row, wider_row, narrower_row};

    /// A test without outcomes under these models. Errors: want of memory.
    pub(crate) fn open(
        alloc: Global,
        name: Arc<Name>,
        columns: &[Column],
    ) -> Result<Row, AllocError>
        ensures { IfOk result (λ r. r ≡ open_row (arc_value name) columns.now) }
    {
        let mut cells = Vec::new(alloc);
        for column in columns {
            let _column = column;
            cells.push(None)?;
        }
        Ok(Row { name, cells })
    }

    /// The bytes of its name.
    pub(crate) fn name(&self) -> &[u8]
        ensures { result.now ≡ self.now.name }
    {
        self.name.as_bytes()
    }

    /// Gives it this name.
    pub(crate) fn rename(&mut self, name: Arc<Name>)
        ensures { self.new ≡ renamed_row (arc_value name) self.old }
    {
        drop(replace(&mut self.name, name));
    }

    /// What is shown of the cell at an index.
    pub(crate) fn show(&self, index: usize) -> Shown<'_>
        ensures { cell_of result ≡ shown_cell (slice_get self.now.cells index) }
    {
        match self.cells.get(index) {
            Some(Some(outcome)) => Shown::Settled(outcome),
            Some(None) => Shown::Open,
            None => Shown::NoCell,
        }
    }

    /// Puts an outcome, or none, into the cell at an index, where there is one.
    pub(crate) fn put(&mut self, index: usize, cell: Option<Arc<Outcome>>)
        ensures { self.new ≡ with_cell index (option_map arc_value cell) self.old }
    {
        if index < self.cells.len() {
            drop(replace(&mut self.cells[index], cell));
        }
    }

    /// Takes the cell at an index out, where there is one.
    pub(crate) fn narrow(&mut self, index: usize)
        ensures { self.new ≡ narrower_row index self.old }
    {
        if index < self.cells.len() {
            drop(self.cells.remove(index));
        }
    }

    /// This row with one cell more, which is open. Errors: want of memory.
    pub(crate) fn widened(&self, alloc: Global) -> Result<Row, AllocError>
        ensures { IfOk result (λ r. r ≡ wider_row self.now) }
    {
        let mut cells = Vec::with_capacity(alloc, self.cells.len().saturating_add(1))?;
        for cell in &self.cells {
            cells.push(shared(cell)?)?;
        }
        cells.push(None)?;
        Ok(Row {
            name: Arc::try_clone(&self.name)?,
            cells,
        })
    }
}

// The same cell, with the same outcome.
fn shared(cell: &Option<Arc<Outcome>>) -> Result<Option<Arc<Outcome>>, AllocError>
    ensures { IfOk result (λ c. option_map arc_value c ≡ option_map arc_value cell.now) }
{
    match cell {
        Some(outcome) => Ok(Some(Arc::try_clone(outcome)?)),
        None => Ok(None),
    }
}
