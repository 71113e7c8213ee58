//! The board, and what operations make of it.

ghost use Rattle.std.specs.Prelude.{◌≡◌, IfOk, MatchResult, map, option_map, length, slice_get};
ghost use Rattle.outcome_texts.specs.Cells.{cell_of};
ghost use Rattle.outcome_texts.specs.Columns.{row_of};
ghost use Rattle.outcome_texts.specs.Differences.{pair_of};

use crate::changes::{
    column_index, drop_cells, drop_model, drop_test, open_cells, put_cell, put_column, put_test,
    row_index, widened,
};
use crate::column::Column;
use crate::listing::{NamedCell, all_listed, pairs_under, rows_under};
use crate::operation::{BoardOp, CellIndex, NameChange};
use crate::row::Row;
use outcome_texts::{Shown, TestPair, TestRow};
use std::alloc::{AllocError, Global};
use std::marker::Model;
use std::mem::drop;
use std::sync::Arc;
use text_values::Name;

/// For each test and each model what is known of the cell, the printed items of the models, and how
/// many edits were made. Contracts see it as plain data.
pub struct Board {
    rows: Vec<Row>,
    columns: Vec<Column>,
    edits: u64,
}

impl Drop for Board {
    fn drop(self) {
        let Board {
            rows: _,
            columns: _,
            edits: _,
        } = self;
    }
}

impl Model for Board {
    ghost use Rattle.board.specs.Contents.{BoardContent};

    ghost Value = { BoardContent };

    ghost view = { λ b.
        record { rows = b.rows.items; columns = b.columns.items; edits = b.edits } };
}

impl Board {
    ghost use Rattle.board.specs.Contents.{cell_named, shown_cell, cell_at, shown_items};
    ghost use Rattle.board.specs.Listing.{listed_cell, cells_in_order, rows_under, pairs_under};
    ghost use Rattle.board.specs.Operations.{no_board, after_operation, with_name_change};

    /// A board that shows nothing.
    pub fn new(alloc: Global) -> Board
        ensures { result ≡ no_board }
    {
        Board {
            rows: Vec::new(alloc),
            columns: Vec::new(alloc),
            edits: 0,
        }
    }

    /// What is shown of the cell of a test and a model, by their names. It takes no memory.
    pub fn show(&self, test: &[u8], model: &[u8]) -> Shown<'_>
        ensures { cell_of result ≡ cell_named self.now test.now model.now }
    {
        self.show_at(CellIndex {
            test: row_index(&self.rows, test),
            model: column_index(&self.columns, model),
        })
    }

    /// What is shown of the cell at these indexes. It takes no memory.
    pub fn show_at(&self, at: CellIndex) -> Shown<'_>
        ensures { cell_of result ≡ shown_cell (cell_at self.now.rows at.test at.model) }
    {
        match self.rows.get(at.test) {
            Some(row) => row.show(at.model),
            None => Shown::NoCell,
        }
    }

    /// How many tests it has.
    pub fn test_count(&self) -> usize
        ensures { result ≡ length self.now.rows }
    {
        self.rows.len()
    }

    /// How many models it has.
    pub fn model_count(&self) -> usize
        ensures { result ≡ length self.now.columns }
    {
        self.columns.len()
    }

    /// The name of the test at an index.
    pub fn test_name(&self, index: usize) -> Option<&[u8]>
        ensures { option_map (λ n. n.now) result
            ≡ option_map (λ r. r.name) (slice_get self.now.rows index) }
    {
        match self.rows.get(index) {
            Some(row) => Some(row.name()),
            None => None,
        }
    }

    /// The name of the model at an index.
    pub fn model_name(&self, index: usize) -> Option<&[u8]>
        ensures { option_map (λ n. n.now) result
            ≡ option_map (λ c. c.name) (slice_get self.now.columns index) }
    {
        match self.columns.get(index) {
            Some(column) => Some(column.name()),
            None => None,
        }
    }

    /// How many edits were made, stopping at the greatest number of 64 bits.
    pub fn edit_count(&self) -> u64
        ensures { result ≡ self.now.edits }
    {
        self.edits
    }

    /// The items of the model of this name, as the bench prints them, or none without such a model.
    /// It takes no memory.
    pub fn items(&self, model: &[u8]) -> Option<&[u8]>
        ensures { option_map (λ b. b.now) result ≡ shown_items self.now model.now }
    {
        match self.columns.get(column_index(&self.columns, model)) {
            Some(column) => Some(column.items()),
            None => None,
        }
    }

    /// All cells, test by test, in the order of the models. Errors: want of memory.
    pub fn cells_in_order(&self, alloc: Global) -> Result<Vec<NamedCell<'_>>, AllocError>
        ensures { IfOk result (λ v. map listed_cell v.items ≡ cells_in_order self.now) }
    {
        all_listed(alloc, &self.rows, &self.columns)
    }

    /// All tests, each with its cells under the models of these names. Errors: want of memory.
    pub fn rows_under(&self, alloc: Global, models: &[Name]) -> Result<Vec<TestRow<'_>>, AllocError>
        ensures { IfOk result (λ v. map row_of v.items ≡ rows_under self.now models.now) }
    {
        rows_under(alloc, &self.rows, &self.columns, models)
    }

    /// All tests, each with its cells under the models of two names. Errors: want of memory.
    pub fn pairs_under(
        &self,
        alloc: Global,
        first: &[u8],
        second: &[u8],
    ) -> Result<Vec<TestPair<'_>>, AllocError>
        ensures { IfOk result (λ v. map pair_of v.items
            ≡ pairs_under self.now first.now second.now) }
    {
        pairs_under(alloc, &self.rows, &self.columns, first, second)
    }

    /// Makes one change. Errors: want of memory, and then the board is as it was.
    pub fn apply(&mut self, alloc: Global, operation: &BoardOp) -> Result<(), AllocError>
        ensures { MatchResult result (λ _. self.new ≡ after_operation self.old operation.now)
            (λ _. self.new ≡ self.old) }
    {
        match operation {
            BoardOp::Edit(edit) => {
                self.rename(alloc, &edit.change)?;
                open_cells(&mut self.rows, &edit.reached);
                self.edits = self.edits.saturating_add(1);
            }
            BoardOp::Settle { at, outcome } => {
                let outcome = Arc::try_clone(outcome)?;
                put_cell(&mut self.rows, *at, Some(outcome));
            }
        }
        Ok(())
    }

    // Changes the names as an edit does.
    fn rename(&mut self, alloc: Global, change: &NameChange) -> Result<(), AllocError>
        ensures { MatchResult result (λ _. self.new ≡ with_name_change change.now self.old)
            (λ _. self.new ≡ self.old) }
    {
        match change {
            NameChange::PutTest { at, name } => put_test(
                alloc,
                &mut self.rows,
                &self.columns,
                *at,
                name,
            ),
            NameChange::DropTest { at } => {
                drop_test(&mut self.rows, *at);
                Ok(())
            }
            NameChange::PutModel { at, name, items } => self.put_model(alloc, *at, name, items),
            NameChange::DropModel { at } => {
                drop_cells(&mut self.rows, *at);
                drop_model(&mut self.columns, *at);
                Ok(())
            }
        }
    }

    fn put_model(
        &mut self,
        alloc: Global,
        at: usize,
        name: &Arc<Name>,
        items: &Arc<Vec<u8>>,
    ) -> Result<(), AllocError>
        ensures { MatchResult result
            (λ _. self.new ≡ with_name_change (NameChange.PutModel at name.now items.now) self.old)
            (λ _. self.new ≡ self.old) }
    {
        let column = Column::new(Arc::try_clone(name)?, Arc::try_clone(items)?);
        if at < self.columns.len() {
            put_column(&mut self.columns, at, column);
            return Ok(());
        }
        let rows = widened(alloc, &self.rows)?;
        self.columns.push(column)?;
        self.rows = rows;
        Ok(())
    }
}
