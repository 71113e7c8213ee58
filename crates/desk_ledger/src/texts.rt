//! What the desk asks of texts, beside what the bench asks: how edits and outcomes become
//! operations on boards.

ghost use Rattle.std.specs.Prelude.{◌≡◌, ◌<◌, ◌≤◌, ◌↔◌, ℕ, List, [], ◌∷◌, ◌++◌, Some, IfOk, IfSome, IfNone, IsSome, IsTrue, length, slice_get, fold};
ghost use Rattle.memo_core.specs.declared.keys.Node.{Node as NodeRecord};
ghost use Rattle.desk_ledger.specs.Boards.{BoardCell, HoldsAbove, HasVerdictAt, HasNoneToPost, LeavesCells, open_of, with_outcome};
ghost use Rattle.desk_ledger.specs.Edited.{IsEditOf};

use cells::texts::CellTexts;
use desk_history::Operations;
use memo_core::keys::Node;
use std::alloc::{AllocError, Global};

/// The names of a cell.
#[derive(Clone, Copy)]
pub struct CellNames<'a> {
    /// The name of its test.
    pub test: &'a [u8],
    /// The name of its model.
    pub model: &'a [u8],
}

/// Indexes of cells: from the first on, below the end.
#[derive(Clone, Copy)]
pub struct CellRange {
    /// The first index.
    pub first: usize,
    /// The index behind the last.
    pub end: usize,
}

/// Texts of tests and models whose edits and outcomes are operations on a board.
pub trait BoardTexts: CellTexts + Operations {
    /// Whether these are the texts after the edits among these operations.
    ghost are_after: { Self → List Self.Op → Type 0 };

    /// The number of the last edit among these operations.
    ghost last_number: { List Self.Op → ℕ };

    /// Whether an operation is that of a prepared edit on these texts, under its number.
    ghost announces: { Self → Self.Prepared → ℕ → Self.Op → Type 0 };

    /// Whether an operation is that of an edit, after these operations, under its number.
    ghost is_edit: { List Self.Op → Self.Op → Self.Edit → ℕ → Type 0 };

    /// Whether an operation settles a cell.
    ghost is_settle: { Self.Op → Type 0 };

    /// Whether an operation settles the cell at an index of a board with an outcome.
    ghost settles: { Self.Board → ℕ → Self.Outcome → Self.Op → Type 0 };

    /// Whether an edit was refused for want of memory.
    ghost is_want_of_memory: { Self.Fault → Type 0 };

    /// The cells of a board, in their order.
    ghost cells: { Self.Board → List (BoardCell Self.Outcome) };

    /// No tests and no models.
    fn start(alloc: Global) -> Self
        ensures new { (p q : ℕ) → (Self.net result).part p q ≡ 0 }
        ensures last { Self.last result ≡ 0 }
        ensures valid { Self.is_valid result }
        ensures after { are_after result [] };

    /// The operation of a prepared edit, under its number. Errors: want of memory.
    fn announce(
        &self,
        alloc: Global,
        prepared: &Self::Prepared,
        number: u64,
    ) -> Result<Self::Op, AllocError>
        requires { (before : Self) × (edit : Self.Edit)
            × Self.prepares before edit prepared.now self.now }
        ensures { IfOk result (λ op. announces self.now prepared.now number op) };

    /// Whether an edit was refused for want of memory.
    fn wants_memory(fault: &Self::Fault) -> bool
        ensures { IsTrue result ↔ is_want_of_memory fault.now };

    /// How many cells a board has.
    fn cell_count(board: &Self::Board) -> usize
        ensures { result ≡ length (cells board.now) };

    /// The names of the cell at an index, if it is open.
    fn open_cell(board: &Self::Board, index: usize) -> Option<CellNames<'_>>
        requires { index < length (cells board.now) }
        ensures open { IfSome result (λ c. slice_get (cells board.now) index
            ≡ Some (open_of c.test.now c.model.now)) }
        ensures settled { IfNone result ((c : BoardCell Self.Outcome)
            → slice_get (cells board.now) index ≡ Some c → IsSome c.outcome) };

    /// The verdict of the cell at an index of the board of these texts, if the cell is open there.
    fn open_verdict(&self, board: &Self::Board, index: usize) -> Option<Node>
        requires valid { Self.is_valid self.now }
        requires after { (ops : List Self.Op) × are_after self.now ops
            × (board.now ≡ fold Self.after Self.none ops) }
        requires at { index < length (cells board.now) }
        ensures open { IfSome result (HasVerdictAt (Self.verdict_of self.now) (cells board.now)
            index) }
        ensures none { IfNone result (HasNoneToPost (Self.verdict_of self.now) (cells board.now)
            index) };

    /// Where on the board of these texts the cells stand whose verdicts stand on a node.
    fn cells_above(&self, board: &Self::Board, node: Node) -> CellRange
        requires valid { Self.is_valid self.now }
        requires after { (ops : List Self.Op) × are_after self.now ops
            × (board.now ≡ fold Self.after Self.none ops) }
        ensures end { result.end ≤ length (cells board.now) }
        ensures holds { HoldsAbove (Self.net self.now) (Self.verdict_of self.now) node
            (cells board.now) result.first result.end };

    /// Where on the board of these texts the cells stand that the last edit may have settled, or
    /// opened on the board.
    fn cells_edited(&self, board: &Self::Board) -> CellRange
        requires valid { Self.is_valid self.now }
        requires after { (ops : List Self.Op) × are_after self.now ops
            × (board.now ≡ fold Self.after Self.none ops) }
        ensures end { result.end ≤ length (cells board.now) }
        ensures left { (t : Self) (e : Self.Edit) (number : ℕ) (ops all : List Self.Op)
            → IsEditOf Self.is_valid are_after Self.prepares announces Self.commits t e number ops
            all self.now
            → board.now ≡ fold Self.after Self.none all
            → LeavesCells (Self.net self.now) (Self.verdict_of t) (Self.verdict_of self.now)
            (Self.touched self.now) (cells (fold Self.after Self.none ops)) (cells board.now)
            result.first result.end };

    /// The operation that settles the cell at an index with an outcome. Errors: want of memory.
    fn settle(
        alloc: Global,
        board: &Self::Board,
        index: usize,
        outcome: &Self::Outcome,
    ) -> Result<Self::Op, AllocError>
        requires { index < length (cells board.now) }
        ensures { IfOk result (λ op. settles board.now index outcome.now op) };

    /// Texts are after the same operations as those that they came of without an edit.
    ghost after_same: { (t u : Self) (ops : List Self.Op) → Self.is_valid t
        → Self.last u ≡ Self.last t → Self.since t u → are_after t ops → are_after u ops };

    /// So cells have the verdicts that they had.
    ghost verdict_same: { (t u : Self) (test model : List ℕ) → Self.is_valid t
        → Self.last u ≡ Self.last t → Self.since t u
        → Self.verdict_of u test model ≡ Self.verdict_of t test model };

    /// No operation has a number above 0.
    ghost number_none: { last_number [] ≡ 0 };

    /// The operation of an edit may come next, if its number is later.
    ghost edit_follows: { (t u : Self) (e : Self.Edit) (p : Self.Prepared) (number : ℕ)
        (op : Self.Op) (ops : List Self.Op) → Self.is_valid t → are_after t ops
        → last_number ops < number → Self.prepares t e p u → announces u p number op
        → Self.may_follow ops op };

    /// After it the texts are those with the edit.
    ghost edit_after: { (t u w : Self) (e : Self.Edit) (p : Self.Prepared) (number : ℕ)
        (op : Self.Op) (ops : List Self.Op) → Self.is_valid t → are_after t ops
        → Self.prepares t e p u → announces u p number op → Self.commits u p number w
        → are_after w (ops ++ op ∷ []) };

    /// It is the operation of that edit, whose number is then the last.
    ghost edit_named: { (t u : Self) (e : Self.Edit) (p : Self.Prepared) (number : ℕ) (op : Self.Op)
        (ops : List Self.Op) → Self.is_valid t → are_after t ops → Self.prepares t e p u
        → announces u p number op → is_edit ops op e number };

    ghost edit_number: { (u : Self) (p : Self.Prepared) (number : ℕ) (op : Self.Op)
        (ops : List Self.Op) → announces u p number op
        → last_number (ops ++ op ∷ []) ≡ number };

    /// What settles a cell with what evaluating it from nothing gives may come next.
    ghost settle_follows: { (t : Self) (ops : List Self.Op) (index : ℕ) (c : BoardCell Self.Outcome)
        (o : Self.Outcome) (op : Self.Op) → Self.is_valid t → are_after t ops
        → slice_get (cells (fold Self.after Self.none ops)) index ≡ Some c
        → Self.from_scratch t c.test c.model o → settles (fold Self.after Self.none ops) index o op
        → Self.may_follow ops op };

    /// It changes no text and has no number.
    ghost settle_named: { (b : Self.Board) (index : ℕ) (o : Self.Outcome) (op : Self.Op)
        → settles b index o op → is_settle op };

    ghost settle_after: { (t : Self) (ops : List Self.Op) (op : Self.Op) → are_after t ops
        → is_settle op → are_after t (ops ++ op ∷ []) };

    ghost settle_number: { (ops : List Self.Op) (op : Self.Op) → is_settle op
        → last_number (ops ++ op ∷ []) ≡ last_number ops };

    /// It settles that cell alone.
    ghost settle_shows: { (b : Self.Board) (index : ℕ) (o : Self.Outcome) (op : Self.Op)
        → settles b index o op → cells (Self.after b op) ≡ with_outcome index o (cells b) };

    /// Each cell of the texts is a cell of the board.
    ghost cells_known: { (t : Self) (ops : List Self.Op) (test model : List ℕ) (n : NodeRecord)
        → Self.is_valid t → are_after t ops → Self.verdict_of t test model ≡ Some n
        → (index : ℕ) × (c : BoardCell Self.Outcome)
        × (slice_get (cells (fold Self.after Self.none ops)) index ≡ Some c) × (c.test ≡ test)
        × (c.model ≡ model) };
}
