//! What `why` and `draw` write, by the definitions of `meaning`. Of `why`: how many executions of a
//! test a model keeps in which the condition holds, and of each other one the first check that it
//! does not meet, with what shows it. Of `draw`: which executions of a test are drawn under a
//! model, their events, the arrows between them, and why the model does not keep an execution. Read
//! in specs/: Told, Findings, ReasonAnswers; then Graphs, Drawings, DrawingAnswers.

ghost use Rattle.std.specs.Prelude.{IfOk, IfErr};
ghost use Rattle.command_answers.specs.Answer.{IsEvalRefusal};
ghost use Rattle.meaning_answers.specs.ReasonAnswers.{WhysAreSaid, WhysAgree, IsWhySaidOf, ReportsAreSaid};
ghost use Rattle.meaning_answers.specs.DrawingAnswers.{DrawingsAreSaid, IsPictureSaidOf, PicturesAreSaid};

use command_answers::{Asked, DrawRequest, EvalFault};
use std::alloc::Global;

/// What `why` says of a test under a model is so by the definitions.
pub fn whys_are_said()
    ensures said { WhysAreSaid }
    ensures reports { ReportsAreSaid }
{}

/// Where a test says something under a model, `why` finds as many witnesses.
pub fn whys_agree()
    ensures { WhysAgree }
{}

/// Does what `command_answers::why_report` does: the report is so by the definitions. Errors: those
/// of `eval`.
pub fn why_report(
    alloc: Global,
    asked: Asked,
    model: &[u8],
    test: &[u8],
) -> Result<Vec<u8>, EvalFault>
    // A report is what is said of the test and the model that the texts mean.
    ensures report { IfOk result (λ text. IsWhySaidOf asked model.now test.now text.items) }
    // A refusal is that of the first text that means nothing.
    ensures refusal { IfErr result (IsEvalRefusal model.now test.now) }
{
    whys_are_said();
    command_answers::why_report(alloc, asked, model, test)
}

/// What `draw` writes of a test under a model is so by the definitions.
pub fn drawings_are_said()
    ensures said { DrawingsAreSaid }
    ensures pictures { PicturesAreSaid }
{}

/// Does what `command_answers::draw_report` does: the report is so by the definitions. Errors:
/// those of `eval`.
pub fn draw_report(
    alloc: Global,
    model: &[u8],
    test: &[u8],
    request: DrawRequest,
) -> Result<Vec<u8>, EvalFault>
    // A report is what is drawn of the test and the model that the texts mean.
    ensures report { IfOk result (λ text. IsPictureSaidOf request model.now test.now text.items) }
    // A refusal is that of the first text that means nothing.
    ensures refusal { IfErr result (IsEvalRefusal model.now test.now) }
{
    drawings_are_said();
    command_answers::draw_report(alloc, model, test, request)
}
