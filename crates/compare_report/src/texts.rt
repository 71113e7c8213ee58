//! The texts of a board.

ghost use Rattle.std.specs.Prelude.{◌≡◌, IfOk};
ghost use Rattle.outcome_texts.specs.Cells.{cell_log, cell_counts};
ghost use Rattle.outcome_texts.specs.Columns.{table_of};
ghost use Rattle.outcome_texts.specs.Differences.{differences_printed};
ghost use Rattle.board.specs.Contents.{cell_named};
ghost use Rattle.board.specs.Listing.{rows_under, pairs_under};

use board::Board;
use outcome_texts::{
    counts_text as text_of_counts, difference_text as text_of_pairs, log_text as text_of_log,
    table_text as text_of_rows,
};
use std::alloc::{AllocError, Global};
use text_values::Name;

/// The log of a test under a model, by their names: that of the outcome, `Open`, or nothing without
/// a cell. Errors: want of memory.
pub fn log_text(
    alloc: Global,
    board: &Board,
    test: &[u8],
    model: &[u8],
) -> Result<Vec<u8>, AllocError>
    ensures { IfOk result (λ v. v.items
        ≡ cell_log test.now (cell_named board.now test.now model.now)) }
{
    text_of_log(alloc, test, board.show(test, model))
}

/// The states of a test under a model, by their names, with their counts: a line each, the refusal,
/// `Open`, or nothing without a cell. Errors: want of memory.
pub fn counts_text(
    alloc: Global,
    board: &Board,
    test: &[u8],
    model: &[u8],
) -> Result<Vec<u8>, AllocError>
    ensures { IfOk result (λ v. v.items ≡ cell_counts (cell_named board.now test.now model.now)) }
{
    text_of_counts(alloc, board.show(test, model))
}

/// The table of all tests under the models of these names: `open` where a cell is open, and `none`
/// under a model that is not there. Errors: want of memory.
pub fn table_text(alloc: Global, board: &Board, models: &[Name]) -> Result<Vec<u8>, AllocError>
    ensures { IfOk result (λ v. v.items
        ≡ table_of models.now (rows_under board.now models.now)) }
{
    let rows = board.rows_under(alloc, models)?;
    text_of_rows(alloc, models, &rows)
}

/// Where the tests differ under the models of two names: each test that is told apart with both
/// cells, the states whose counts differ, and how many tests are told apart. Errors: want of
/// memory.
pub fn difference_text(
    alloc: Global,
    board: &Board,
    first: &[u8],
    second: &[u8],
) -> Result<Vec<u8>, AllocError>
    ensures { IfOk result (λ v. v.items
        ≡ differences_printed (pairs_under board.now first.now second.now)) }
{
    let pairs = board.pairs_under(alloc, first, second)?;
    text_of_pairs(alloc, &pairs)
}
