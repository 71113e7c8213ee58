//! Appends the cells that are settled on the bench and open on the board.

ghost use Rattle.std.specs.Prelude.{◌≡◌, ◌<◌, ◌≤◌, ℕ, List, length, IsTrue, IfOk, IfSome, IfNone, fold};
ghost use Rattle.memo_core.specs.Laws.{meaning};
ghost use Rattle.cells.specs.Cells.{cells as cells_of};
ghost use Rattle.desk_ledger.specs.Boards.{AreCellsKept, ArePosted, ArePostedFor, ArePostedOutside, AreSettled, HoldsFor};
ghost use Rattle.desk_ledger.specs.Edited.{IsEditOfPosted};
ghost use Rattle.desk_ledger.specs.Posts.{IsPosted, SettlesRight, Posts};

use crate::texts::{BoardTexts, CellRange};
use cells::bench::Bench;
use cells::shown::Shown;
use desk_history::{Naming, Press};
use memo_core::keys::Node;
use std::alloc::{AllocError, Global};
use value_store::StoreName;

// The operation that settles the cell at an index, if the bench shows its outcome and the board
// does not.
fn settle_of<K: StoreName, X: BoardTexts>(
    alloc: Global,
    bench: &Bench<K, X>,
    board: &X::Board,
    index: usize,
) -> Result<Option<X::Op>, AllocError>
    requires valid { X.is_valid bench.now.texts }
    requires after { (ops : List X.Op) × X.are_after bench.now.texts ops
        × (board.now ≡ fold X.after X.none ops) }
    requires at { index < length (X.cells board.now) }
    ensures made { IfOk result (λ r. IfSome r (λ op. SettlesRight X.settles
        (X.from_scratch bench.now.texts) board.now (X.cells board.now) index op)) }
    ensures none { IfOk result (λ r. IfNone r (IsPosted X.net
        (cells_of X.verdict_of X.outcome_in X.from_scratch X.reaches) bench.now
        (X.cells board.now) index)) }
{
    let Some(verdict) = bench.texts().open_verdict(board, index) else {
        return Ok(None);
    };
    match bench.shown_at(verdict) {
        Shown::Settled(outcome) => Ok(Some(X::settle(alloc, board, index, outcome)?)),
        Shown::Open => Ok(None),
        Shown::NoCell => Ok(None),
    }
}

// Appends the cell at an index, if it is settled on the bench and open on the board. False where it
// could not.
fn post<J: Naming, K: StoreName, X: BoardTexts>(
    alloc: Global,
    bench: &Bench<K, X>,
    press: &mut Press<J, X>,
    index: usize,
) -> bool
    requires valid { X.is_valid bench.now.texts }
    requires after { X.are_after bench.now.texts press.old.all }
    requires at { index < length (X.cells (fold X.after X.none press.old.all)) }
    ensures posts { Posts X.is_settle X.are_after X.last_number
        (λ ops. length (X.cells (fold X.after X.none ops))) bench.now.texts press.old press.new }
    ensures posted { IsTrue result
        → IsPosted X.net (cells_of X.verdict_of X.outcome_in X.from_scratch X.reaches) bench.now
        (X.cells (fold X.after X.none press.new.all)) index }
    ensures kept { (k : ℕ)
        → IsPosted X.net (cells_of X.verdict_of X.outcome_in X.from_scratch X.reaches) bench.now
        (X.cells (fold X.after X.none press.old.all)) k
        → IsPosted X.net (cells_of X.verdict_of X.outcome_in X.from_scratch X.reaches) bench.now
        (X.cells (fold X.after X.none press.new.all)) k }
    ensures stays { AreCellsKept (X.cells (fold X.after X.none press.old.all))
        (X.cells (fold X.after X.none press.new.all)) }
{
    let made = match press.board() {
        Some(board) => settle_of(alloc, bench, board, index),
        None => return false,
    };
    match made {
        Ok(Some(op)) => press.append(op).is_ok(),
        Ok(None) => true,
        Err(_) => false,
    }
}

// Appends such cells at a range of indexes, as far as it can. True where none is left there.
fn post_range<J: Naming, K: StoreName, X: BoardTexts>(
    alloc: Global,
    bench: &Bench<K, X>,
    press: &mut Press<J, X>,
    range: CellRange,
) -> bool
    requires valid { X.is_valid bench.now.texts }
    requires after { X.are_after bench.now.texts press.old.all }
    requires end { range.end ≤ length (X.cells (fold X.after X.none press.old.all)) }
    ensures posts { Posts X.is_settle X.are_after X.last_number
        (λ ops. length (X.cells (fold X.after X.none ops))) bench.now.texts press.old press.new }
    ensures posted { IsTrue result → (k : ℕ) → range.first ≤ k → k < range.end
        → IsPosted X.net (cells_of X.verdict_of X.outcome_in X.from_scratch X.reaches) bench.now
        (X.cells (fold X.after X.none press.new.all)) k }
    ensures stays { AreCellsKept (X.cells (fold X.after X.none press.old.all))
        (X.cells (fold X.after X.none press.new.all)) }
{
    for index in range.first..range.end {
        if !post(alloc, bench, press, index) {
            return false;
        }
    }
    true
}

// Where the cells stand whose verdicts stand on a node, or all cells where none is given. None
// where memory for the board was refused.
fn range_for<J: Naming, K: StoreName, X: BoardTexts>(
    bench: &Bench<K, X>,
    press: &Press<J, X>,
    above: Option<Node>,
) -> Option<CellRange>
    requires valid { X.is_valid bench.now.texts }
    requires after { X.are_after bench.now.texts press.now.all }
    ensures end { IfSome result (λ r. r.end
        ≤ length (X.cells (fold X.after X.none press.now.all))) }
    ensures holds { IfSome result (λ r. HoldsFor (X.net bench.now.texts)
        (X.verdict_of bench.now.texts) above (X.cells (fold X.after X.none press.now.all))
        r.first r.end) }
{
    let Some(board) = press.board() else {
        return None;
    };
    match above {
        Some(node) => Some(bench.texts().cells_above(board, node)),
        None => Some(CellRange {
            first: 0,
            end: X::cell_count(board),
        }),
    }
}

/// Appends such cells, those whose verdicts stand on a node or all where none is given, as far as
/// it can. True where none of them is left.
pub(crate) fn post_settled<J: Naming, K: StoreName, X: BoardTexts>(
    alloc: Global,
    bench: &Bench<K, X>,
    press: &mut Press<J, X>,
    above: Option<Node>,
) -> bool
    requires valid { X.is_valid bench.now.texts }
    requires after { X.are_after bench.now.texts press.old.all }
    ensures posts { Posts X.is_settle X.are_after X.last_number
        (λ ops. length (X.cells (fold X.after X.none ops))) bench.now.texts press.old press.new }
    ensures posted { IsTrue result
        → ArePostedFor X.net (cells_of X.verdict_of X.outcome_in X.from_scratch X.reaches) bench.now
        above (X.cells (fold X.after X.none press.new.all)) }
    ensures stays { AreCellsKept (X.cells (fold X.after X.none press.old.all))
        (X.cells (fold X.after X.none press.new.all)) }
{
    press.catch_up();
    let Some(range) = range_for(bench, press, above) else {
        return false;
    };
    post_range(alloc, bench, press, range)
}

// Where the cells stand that an edit may have settled, where all were posted before it. None where
// memory for the board was refused.
fn edited_range<J: Naming, K: StoreName, X: BoardTexts>(
    bench: &Bench<K, X>,
    press: &Press<J, X>,
) -> Option<CellRange>
    requires valid { X.is_valid bench.now.texts }
    requires after { X.are_after bench.now.texts press.now.all }
    requires edited { IsEditOfPosted
        (meaning X.net X.is_valid X.since X.makes X.keeps X.edited X.last)
        (cells_of X.verdict_of X.outcome_in X.from_scratch X.reaches) X.are_after X.prepares
        X.announces X.commits (λ ops. X.cells (fold X.after X.none ops)) press.now.all bench.now }
    ensures end { IfSome result (λ r. r.end
        ≤ length (X.cells (fold X.after X.none press.now.all))) }
    ensures posted { IfSome result (λ r. ArePostedOutside X.net
        (cells_of X.verdict_of X.outcome_in X.from_scratch X.reaches) bench.now r.first r.end
        (X.cells (fold X.after X.none press.now.all))) }
{
    let Some(board) = press.board() else {
        return None;
    };
    Some(bench.texts().cells_edited(board))
}

/// Appends the cells that an edit settled, where all were posted before it, as far as it can. True
/// where none of them is left.
pub fn post_edited<J: Naming, K: StoreName, X: BoardTexts>(
    alloc: Global,
    bench: &Bench<K, X>,
    press: &mut Press<J, X>,
) -> bool
    requires valid { X.is_valid bench.now.texts }
    requires after { X.are_after bench.now.texts press.old.all }
    requires edited { IsEditOfPosted
        (meaning X.net X.is_valid X.since X.makes X.keeps X.edited X.last)
        (cells_of X.verdict_of X.outcome_in X.from_scratch X.reaches) X.are_after X.prepares
        X.announces X.commits (λ ops. X.cells (fold X.after X.none ops)) press.old.all bench.now }
    ensures posts { Posts X.is_settle X.are_after X.last_number
        (λ ops. length (X.cells (fold X.after X.none ops))) bench.now.texts press.old press.new }
    ensures posted { IsTrue result
        → ArePosted X.net (cells_of X.verdict_of X.outcome_in X.from_scratch X.reaches) bench.now
        (X.cells (fold X.after X.none press.new.all)) }
{
    press.catch_up();
    let Some(range) = edited_range(bench, press) else {
        return false;
    };
    post_range(alloc, bench, press, range)
}

/// Whether each cell of the board after all operations is settled.
pub fn is_settled<J: Naming, X: BoardTexts>(press: &Press<J, X>) -> bool
    ensures { IsTrue result → AreSettled (X.cells (fold X.after X.none press.now.all)) }
{
    let Some(board) = press.board() else {
        return false;
    };
    for index in 0..X::cell_count(board) {
        if X::open_cell(board, index).is_some() {
            return false;
        }
    }
    true
}
