//! What a viewer of the running bench takes, and asks of its view.

ghost use Rattle.std.specs.Prelude.{◌≡◌, IfOk, IfErr};
ghost use mathlib.Core.List.{IsPrefix};
ghost use Rattle.outcome_texts.specs.Cells.{cell_of};
ghost use Rattle.board.specs.Histories.{contents_after, IsHistory};
ghost use Rattle.meaning_bench.specs.Says.{IsCellBy};
ghost use Rattle.meaning_bench.specs.Shown.{ShowsCellsBy};

use bench_instance::{StampedTexts, newest_view, result_in};
use desk::{Naming, View, Viewer};
use meaning_edits::histories_are_meant;
use outcome_texts::Shown;

/// The board that was published last, as `newest_view` gives it: its operations begin with all that
/// the viewer saw or was told, and each outcome that it shows is what the test says under the
/// model, by the texts after them. The viewer comes back where there is no view.
pub fn view_of<J: Naming>(
    viewer: Viewer<J, StampedTexts>,
) -> Result<View<J, StampedTexts>, Viewer<J, StampedTexts>>
    ensures begins { IfOk result (λ view. IsPrefix viewer view) }
    ensures history { IfOk result (λ view. IsHistory view) }
    ensures says { IfOk result (λ view. ShowsCellsBy view) }
    ensures same { IfErr result (λ back. back ≡ viewer) }
{
    histories_are_meant();
    newest_view(viewer)
}

/// What a view shows of a test under a model, by their names: an outcome is what the test says
/// under the model, by the texts after the operations of the view. It takes no memory.
pub fn cell_in<'v, J: Naming>(
    view: &'v View<J, StampedTexts>,
    test: &[u8],
    model: &[u8],
) -> Shown<'v>
    requires history { IsHistory view.now }
    ensures { IsCellBy (contents_after view.now) test.now model.now (cell_of result) }
{
    histories_are_meant();
    result_in(view, test, model)
}
