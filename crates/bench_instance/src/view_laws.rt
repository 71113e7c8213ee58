//! Laws of the operations of the running bench.

ghost use Rattle.std.specs.Prelude.{List};
ghost use Rattle.board.specs.declared.operation.BoardOp.{BoardOp};
ghost use Rattle.board.specs.Legal.{IsLegal, texts_after};
ghost use Rattle.bench_instance.specs.declared.stamped_texts.StampedTexts.{StampedTexts};
ghost use Rattle.bench_instance.specs.StampedTexts.{AreSoundTexts};
ghost use Rattle.board.specs.Operations.{board_after};
ghost use Rattle.desk_ledger.specs.Boards.{AreSettled};
ghost use Rattle.bench_instance.specs.Cells.{board_cells};
ghost use Rattle.board.specs.Histories.{HasContents, IsHistory};
ghost use Rattle.bench_instance.specs.Texts.{AreAfter};
ghost use Rattle.bench_instance.specs.Contents.{IsApplied, AreWithinLimits, SayTheSameTexts};
ghost use Rattle.bench_instance.specs.Posted.{SettledIsShown, ShowsEachResult, PostedIsShown};

/// The texts after some operations are what the edits among them make, one after another.
pub fn edits_are_applied()
    ensures applied { (ops : List BoardOp) (op : BoardOp) → IsApplied ops op }
    ensures contents { (ops : List BoardOp) → HasContents ops }
{}

/// Two texts of a running bench after the same operations are the same, with the numbers of their
/// items: so an edit that is refused leaves them what they were.
pub fn texts_are_one()
    ensures { (t u : StampedTexts) (ops : List BoardOp) → AreAfter t ops → AreAfter u ops
        → SayTheSameTexts t u }
{}

/// The texts after each history of a running bench have no more tests and models than a bench
/// takes.
pub fn histories_are_within_limits()
    ensures { (ops : List BoardOp) → IsHistory ops → AreWithinLimits (texts_after ops) }
{}

/// Where every cell that a desk lists is settled, each test is shown with its result under each
/// model: after each history of a running bench, and after any legal operations whose board has
/// cells that a number of 64 bits counts.
pub fn settled_lists_are_shown()
    ensures histories { (ops : List BoardOp) → IsHistory ops
        → AreSettled (board_cells (board_after ops)) → ShowsEachResult ops }
    ensures lists { (ops : List BoardOp) → IsLegal ops → SettledIsShown ops }
{}

/// A cell that is settled on the bench, and listed by the desk as settled, is shown with the
/// outcome of the bench.
pub fn posted_cells_are_shown()
    ensures { (t : StampedTexts) (ops : List BoardOp) → AreSoundTexts t → AreAfter t ops
        → IsLegal ops
        → PostedIsShown t ops }
{}
