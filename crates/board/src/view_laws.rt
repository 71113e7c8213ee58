//! Laws of what is shown after legal lists of operations.

ghost use Rattle.std.specs.Prelude.{◌≡◌, ◌≤◌, ℕ, List};
ghost use Rattle.board.specs.declared.operation.BoardOp.{BoardOp};
ghost use Rattle.board.specs.Operations.{board_after};
ghost use Rattle.board.specs.Legal.{TestsAndModels, IsLegal, last_number};
ghost use Rattle.board.specs.Results.{HasOneResultIn, ShowsRightCells};
ghost use Rattle.board.specs.Items.{ShowsRightItems};
ghost use Rattle.board.specs.Edits.{edits_in, edit_count, AreNumbersApart};

/// After each legal list of operations each cell, asked for by the names of its test and of its
/// model, is right for the texts after them: it is there just where both are, and an outcome is
/// what evaluating the one under the other from nothing gives.
pub fn cells_are_right()
    ensures { (ops : List BoardOp) → IsLegal ops → ShowsRightCells ops }
{}

/// After each legal list of operations the items of each model, asked for by its name, are those of
/// that model in the texts after them, with their numbers, one on each line; there are none just
/// where the texts lack the model.
pub fn items_are_right()
    ensures { (ops : List BoardOp) → IsLegal ops → ShowsRightItems ops }
{}

/// Texts have one result of a test under a model.
pub fn results_are_one()
    ensures { (h : TestsAndModels) (test model : List ℕ) → HasOneResultIn h test model }
{}

/// A board counts the edits among its operations. There are no more of them in a legal list than
/// the number of its last edit, and each stands in it once.
pub fn edits_are_counted()
    ensures counted { (ops : List BoardOp) → (board_after ops).edits ≡ edit_count ops }
    ensures numbered { (ops : List BoardOp) → IsLegal ops → edits_in ops ≤ last_number ops }
    ensures apart { (ops : List BoardOp) → IsLegal ops → AreNumbersApart ops }
{}
