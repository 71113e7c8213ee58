//! Tests and models as texts of a desk: their edits and outcomes are operations on boards.

ghost use Rattle.std.specs.Prelude.{◌<◌, length, IfSome, IfNone, IsTrue};
ghost use Rattle.bench_instance.specs.Cells.{HasCell, IsCellIndexOf, IsNamedAt, HasNoNames, IsRowRange};

use crate::copies::copied;
use crate::stamped_texts::{PreparedEdit, StampedTexts};
use bench_texts::EditFault;
use board::{Board, BoardEdit, BoardOp, CellIndex};
use desk::{BoardTexts, CellNames, CellRange};
use desk_history::Operations;
use memo_core::keys::Node;
use outcome_texts::Shown;
use std::alloc::{AllocError, Global};
use std::sync::Arc;
use verdict::Outcome;

impl Operations for StampedTexts {
    type Op = BoardOp;

    type Board = Board;

    ghost use Rattle.board.specs.Operations.{no_board, after_operation};
    ghost use Rattle.board.specs.Histories.{IsHistory, MayComeNext};
    ghost use Rattle.bench_instance.specs.Lemmas.Laws.{goes_on};

    ghost is_legal = { IsHistory };

    ghost may_follow = { MayComeNext };

    ghost none = { no_board };

    ghost after = { after_operation };

    fn blank(alloc: Global) -> Board {
        Board::new(alloc)
    }

    fn apply(alloc: Global, board: &mut Board, op: &BoardOp) -> Result<(), AllocError> {
        board.apply(alloc, op)
    }

    ghost legal_none = { (tt, tt) };

    ghost legal_more = { goes_on };
}

// The indexes of the test and of the model of the cell that the desk counts so.
fn cell_index(board: &Board, index: usize) -> CellIndex
    requires { 0 < length board.now.columns }
    ensures { IsCellIndexOf board.now index result }
{
    let models = board.model_count();
    CellIndex {
        test: index / models,
        model: index % models,
    }
}

// The names of the test and of the model at these indexes.
fn names_at(board: &Board, at: CellIndex) -> Option<CellNames<'_>>
    ensures named { IfSome result (λ c. IsNamedAt board.now at c.test.now c.model.now) }
    ensures none { IfNone result (HasNoNames board.now at) }
{
    Some(CellNames {
        test: board.test_name(at.test)?,
        model: board.model_name(at.model)?,
    })
}

// Whether there is a cell at these indexes.
fn is_there(board: &Board, at: CellIndex) -> bool
    ensures { IsTrue result → HasCell board.now at }
{
    match board.show_at(at) {
        Shown::NoCell => false,
        Shown::Open => true,
        Shown::Settled(_) => true,
    }
}

// The indexes of so many cells of a row, from that of one model on, among `count` cells.
fn row_range(count: usize, models: usize, row: usize, from: usize, wanted: usize) -> CellRange
    ensures { IsRowRange count models row from wanted result.first result.end }
{
    let first = match row.checked_mul(models) {
        Some(start) => start.saturating_add(from),
        None => count,
    };
    CellRange {
        first,
        end: first.saturating_add(wanted).min(count),
    }
}

impl BoardTexts for StampedTexts {
    ghost use Rattle.bench_instance.specs.Cells.{board_cells};
    ghost use Rattle.std.proofs.Common.{refl};
    ghost use Rattle.board.specs.Legal.{last_number};
    ghost use Rattle.board.specs.Histories.{IsEditAfter, IsSettle};
    ghost use Rattle.bench_instance.specs.Texts.{AreAfter, IsAnnounced, IsWantOfMemory, SettlesCell};
    ghost use Rattle.bench_instance.specs.Lemmas.Laws.{same_after, verdicts_same, edits_follow, edits_after, edits_named, edits_numbered};
    ghost use Rattle.bench_instance.specs.Lemmas.Laws.{settles_follow, settles_named, settles_after, settles_numbered, settles_show};
    ghost use Rattle.bench_instance.specs.Lemmas.Laws.{cells_are_known};

    ghost are_after = { AreAfter };

    ghost last_number = { last_number };

    ghost announces = { IsAnnounced };

    ghost is_edit = { IsEditAfter };

    ghost is_settle = { IsSettle };

    ghost settles = { SettlesCell };

    ghost is_want_of_memory = { IsWantOfMemory };

    ghost cells = { board_cells };

    fn start(alloc: Global) -> StampedTexts {
        StampedTexts::new(alloc)
    }

    fn announce(
        &self,
        alloc: Global,
        prepared: &PreparedEdit,
        number: u64,
    ) -> Result<BoardOp, AllocError> {
        Ok(BoardOp::Edit(BoardEdit::new(alloc, number, self.texts(), prepared.texts())?))
    }

    fn wants_memory(fault: &EditFault) -> bool {
        matches!(fault, EditFault::OutOfMemory(_))
    }

    fn cell_count(board: &Board) -> usize {
        match board.test_count().checked_mul(board.model_count()) {
            Some(count) => count,
            None => 0,
        }
    }

    fn open_cell(board: &Board, index: usize) -> Option<CellNames<'_>> {
        let at = cell_index(board, index);
        match board.show_at(at) {
            Shown::Settled(_) => None,
            Shown::Open => names_at(board, at),
            Shown::NoCell => names_at(board, at),
        }
    }

    fn open_verdict(&self, board: &Board, index: usize) -> Option<Node> {
        let at = cell_index(board, index);
        match board.show_at(at) {
            Shown::Settled(_) => None,
            Shown::Open => self.verdict_at(at.test, at.model),
            Shown::NoCell => self.verdict_at(at.test, at.model),
        }
    }

    fn cells_above(&self, board: &Board, node: Node) -> CellRange {
        let count = <StampedTexts as BoardTexts>::cell_count(board);
        let models = board.model_count();
        let row = self.test_row(node.test);
        match self.model_above(node) {
            Some(model) => row_range(count, models, row, model, 1),
            None => row_range(count, models, row, 0, models),
        }
    }

    fn cells_edited(&self, board: &Board) -> CellRange {
        let count = <StampedTexts as BoardTexts>::cell_count(board);
        let models = board.model_count();
        match self.touched_test() {
            Some(test) => row_range(count, models, self.test_row(test), 0, models),
            None => CellRange {
                first: 0,
                end: count,
            },
        }
    }

    fn settle(
        alloc: Global,
        board: &Board,
        index: usize,
        outcome: &Outcome,
    ) -> Result<BoardOp, AllocError> {
        let at = cell_index(board, index);
        if !is_there(board, at) {
            return Err(AllocError);
        }
        let outcome = Arc::new(alloc, copied(alloc, outcome)?)?;
        Ok(BoardOp::Settle { at, outcome })
    }

    ghost after_same = { same_after };

    ghost verdict_same = { verdicts_same };

    ghost number_none = { refl };

    ghost edit_follows = { edits_follow };

    ghost edit_after = { edits_after };

    ghost edit_named = { edits_named };

    ghost edit_number = { edits_numbered };

    ghost settle_follows = { settles_follow };

    ghost settle_named = { settles_named };

    ghost settle_after = { settles_after };

    ghost settle_number = { settles_numbered };

    ghost settle_shows = { settles_show };

    ghost cells_known = { cells_are_known };
}
