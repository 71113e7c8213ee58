//! Laws of the definitions.

ghost use Rattle.std.specs.Prelude.{◌≡◌, ℕ, [], List, All};
ghost use Rattle.text_values.specs.declared.test.Test.{Test};
ghost use Rattle.text_values.specs.declared.model.ModelText.{ModelText};
ghost use Rattle.outcome_states.specs.declared.answer.Evaluation.{Evaluation};
ghost use Rattle.outcome_states.specs.declared.answer.OutcomeResult.TheVariants as results;
ghost use Rattle.from_scratch.specs.FromScratch.{IsResultOf};
ghost use Rattle.draw_layout.specs.declared.layout.Layout.{Layout};
ghost use Rattle.draw_layout.specs.declared.picture.Picture.{Picture};
ghost use Rattle.draw_svg.specs.Svg.{svg_text};
ghost use Rattle.draw_scene.specs.declared.drawn.Format.TheVariants as formats;
ghost use Rattle.why_forbidden.specs.declared.drawing.DrawRequest.{DrawRequest};
ghost use Rattle.why_forbidden.specs.Drawings.{IsDrawn};
ghost use Rattle.report_details.specs.Reported.{ReportedModel, ReportedTest, Extras};
ghost use Rattle.report_page.specs.Page.{report_page};
ghost use Rattle.report_answers.specs.Scripts.{IsPlainMarkup};
ghost use Rattle.report_answers.specs.Whole.{HasPlainDrawings, IsWellFormed};

/// Whatever names and texts tests and models have, the elements of a page close in order, and the
/// only script among them is the page's own.
pub fn pages_are_well_formed()
    ensures { (models : List ReportedModel) (tests : List ReportedTest) (extras : Extras)
        → All HasPlainDrawings tests → IsWellFormed (report_page models tests extras) }
{}

/// The text of a picture closes its elements in order and opens no script.
pub fn pictures_are_plain()
    ensures { (p : Picture) (l : Layout) → IsPlainMarkup (svg_text [] p l) }
{}

/// What is drawn as a figure of a test that is evaluated under a model closes its elements in order
/// and opens no script.
pub fn figures_are_plain()
    ensures { (request : DrawRequest) (test : Test) (model : ModelText) (e : Evaluation)
        (text : List ℕ) → request.format ≡ formats.Figure
        → IsResultOf test model (results.Evaluated e) → IsDrawn request test model text
        → IsPlainMarkup text }
{}
