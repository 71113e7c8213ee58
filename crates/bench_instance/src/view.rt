//! What a viewer of the running bench takes, and asks of its view.

ghost use Rattle.std.specs.Prelude.{◌≡◌, ◌≤◌, IfOk, IfErr};
ghost use mathlib.Core.List.{IsPrefix};
ghost use Rattle.outcome_texts.specs.Cells.{cell_of};
ghost use Rattle.board.specs.Contents.{cell_named};
ghost use Rattle.board.specs.Operations.{board_after};
ghost use Rattle.board.specs.Legal.{IsLegal, texts_after, last_number};
ghost use Rattle.board.specs.Results.{IsRightCell, ShowsRightCells};
ghost use Rattle.board.specs.Edits.{edit_count};
ghost use Rattle.board.specs.Items.{ShowsRightItems};
ghost use Rattle.board.specs.Histories.{AreEditsMade};

use crate::stamped_texts::StampedTexts;
use board::view_laws::{cells_are_right, edits_are_counted, items_are_right};
use desk::{Naming, View, Viewer};
use outcome_texts::Shown;

/// The board that was published last: its operations begin with all that the viewer saw or was
/// told, each cell of it is right for the texts after them, it has the items of their models with
/// their numbers, each edit among them is one that the texts at its place make, and it counts their
/// edits, which are no more than the number of the last. It takes no memory and waits for nobody.
/// The viewer comes back where there is no view.
pub fn newest_view<J: Naming>(
    viewer: Viewer<J, StampedTexts>,
) -> Result<View<J, StampedTexts>, Viewer<J, StampedTexts>>
    ensures begins { IfOk result (λ view. IsPrefix viewer view) }
    ensures legal { IfOk result (λ view. IsLegal view) }
    ensures edits { IfOk result (λ view. AreEditsMade view) }
    ensures right { IfOk result (λ view. ShowsRightCells view) }
    ensures items { IfOk result (λ view. ShowsRightItems view) }
    ensures counted { IfOk result (λ view. (board_after view).edits ≡ edit_count view) }
    ensures numbered { IfOk result (λ view. (board_after view).edits ≤ last_number view) }
    ensures same { IfErr result (λ back. back ≡ viewer) }
{
    cells_are_right();
    items_are_right();
    edits_are_counted();
    viewer.read()
}

/// What a view shows of a test under a model, by their names. An outcome is what evaluating the one
/// under the other from nothing gives, for the texts after the operations of the view. It takes no
/// memory. The operations of each view are legal: `Viewer::read` and `newest_view` say so.
pub fn result_in<'v, J: Naming>(
    view: &'v View<J, StampedTexts>,
    test: &[u8],
    model: &[u8],
) -> Shown<'v>
    requires legal { IsLegal view.now }
    ensures shown { cell_of result ≡ cell_named (board_after view.now) test.now model.now }
    ensures right { IsRightCell (texts_after view.now) test.now model.now (cell_of result) }
{
    cells_are_right();
    view.board().show(test, model)
}

/// How many edits there are among the operations of a view: no more than the number of the last.
pub fn edit_count_in<J: Naming>(view: &View<J, StampedTexts>) -> u64
    requires legal { IsLegal view.now }
    ensures counted { result ≡ edit_count view.now }
    ensures numbered { result ≤ last_number view.now }
{
    edits_are_counted();
    view.board().edit_count()
}
