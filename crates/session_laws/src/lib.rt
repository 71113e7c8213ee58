//! Laws of what is said: over the same texts a question of a session has one answer, and commands
//! have one output, also where some are refused (specs/Laws, after `Sessions` of
//! `session_answers/specs`). A model's text and a test's text have one answer, and files one table
//! and one difference (specs/Answers, after `Answer` and `Reports` of `command_answers/specs`).
#![tactic(auto)]

ghost use Rattle.std.specs.Prelude.{ℕ, List, [], Some};
ghost use Rattle.text_values.specs.TestValue.{Content};
ghost use Rattle.bench_texts.specs.BenchTexts.{PlainModel, BenchTexts};
ghost use Rattle.bench_texts.specs.Edits.{Edit};
ghost use Rattle.why_forbidden.specs.declared.drawing.DrawRequest.{DrawRequest};
ghost use Rattle.command_answers.specs.Answer.{IsEvalWritten, IsStreamed};
ghost use Rattle.command_answers.specs.Pictures.{IsPictureAnswer};
ghost use Rattle.command_answers.specs.Reports.{IsTableReport, IsDifferenceReport, IsModelTold, IsTestTold, IsToldOf};
ghost use Rattle.command_answers.specs.Told.{IsFaultTold};
ghost use Rattle.command_answers.specs.Whys.{IsWhyAnswer};
ghost use Rattle.why_forbidden.specs.declared.answer.Asked.{Asked};
ghost use Rattle.session_edits.specs.declared.request.Question.{Question};
ghost use Rattle.session_script.specs.declared.command.Command.{Command};
ghost use Rattle.session_laws.specs.Answers.{HasOneAnswer, HasOneEvaluation, HasOneRefusalLine, LeaveOne, LeavePrefixes, HasOneReport, HasOneTelling, HasOneTellingOfBoth};
ghost use Rattle.session_laws.specs.Laws.{AreFew, HasOneVerdict, HasOnePlainOutcome, HasOneReply, HasOneOutput, BeginsAlike};

/// A test has one outcome under a model, wherever the two lie in memory.
pub fn outcomes_are_one()
    ensures { (test : Content) (model : PlainModel) → HasOnePlainOutcome test model }
{}

/// An edit of texts is accepted, and makes one thing of them, or it is refused, for one reason.
pub fn edits_are_one()
    ensures { (texts : BenchTexts) (edit : Edit) → AreFew texts.tests → HasOneVerdict texts edit }
{}

/// Over the same texts a question has one answer: the bytes, and whether it is refused.
pub fn replies_are_one()
    ensures { (texts : BenchTexts) (question : Question) → HasOneReply texts question }
{}

/// Commands have one output, byte for byte, with the same refusals, and lead to the same texts.
pub fn outputs_are_one()
    ensures { (commands : List Command) → HasOneOutput commands }
{}

/// What is written of the first commands is a prefix of what is written of all.
pub fn outputs_begin_alike()
    ensures { (first others : List Command) → BeginsAlike first others }
{}

/// A model's text and a test's text have one answer: the log, or the line of the first text that is
/// refused. So `eval` gives one log or one fault of them, but for want of memory.
pub fn answers_are_one()
    ensures answer { (model test : List ℕ) → HasOneAnswer model test }
    ensures evaluation { (model test : List ℕ) → HasOneEvaluation model test }
{}

/// `why` and `draw` refuse two texts or accept them, whichever answer they give, and refuse them in
/// one way. What they say of texts that they accept is left to their own definitions.
pub fn refusals_are_one()
    ensures why { (asked : Asked) (model test : List ℕ)
        → HasOneRefusalLine (IsWhyAnswer asked model test) }
    ensures draw { (request : DrawRequest) (model test : List ℕ)
        → HasOneRefusalLine (IsPictureAnswer request model test) }
{}

/// What `write_answer` writes of two texts, and `eval_stream` of an input, behind the bytes that
/// stand there, is one where all of it is written. Where a write fails it is a prefix of that.
pub fn writings_are_one()
    ensures texts { (model test old : List ℕ) → LeaveOne (IsEvalWritten model test (Some old)) }
    ensures stream { (input old : List ℕ) → LeaveOne (IsStreamed (Some input) (Some old)) }
    ensures texts_prefix { (model test old : List ℕ)
        → LeavePrefixes (IsEvalWritten model test (Some old)) }
    ensures stream_prefix { (input old : List ℕ)
        → LeavePrefixes (IsStreamed (Some input) (Some old)) }
{}

/// The tables and the differences of the same files are one, and so are the lines of the files that
/// are refused.
pub fn reports_are_one()
    ensures table { HasOneReport IsTableReport }
    ensures difference { HasOneReport IsDifferenceReport }
{}

/// What is told of a file that is refused, of the first of two, and of the fault of a model that
/// reads is one.
pub fn tellings_are_one()
    ensures model { HasOneTelling IsModelTold }
    ensures test { HasOneTelling (λ file. IsTestTold file []) }
    ensures both { HasOneTellingOfBoth IsToldOf }
    ensures fault { HasOneTelling IsFaultTold }
{}
