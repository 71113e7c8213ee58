//! What the program prints, by the definitions of `meaning`: the log that `eval` writes is that of
//! what the test says under the model, and so are the outcomes in a session's answers. Read in
//! specs/: Answers, then Replies and Files.
//!
//! What `why` and `draw` write has Told, Findings and ReasonAnswers, then Graphs, Drawings and
//! DrawingAnswers. The law of tests that are read has Readings.
#![tactic(auto)]

mod readings;
mod whys;

ghost use Rattle.std.specs.Prelude.{◌≡◌, ◌<◌, ◌-◌, ◌^◌, Err, OnOk};
ghost use Rattle.std.specs.Io.KnownBytes.{IsAtEnd};
ghost use Rattle.command_answers.specs.Answer.{AreReadsCounted, AreWritesCounted};
ghost use Rattle.meaning_answers.specs.Answers.{IsStreamSaid};
ghost use Rattle.meaning_answers.specs.Files.{TablesAreSaid, DifferencesAreSaid};
ghost use Rattle.meaning_answers.specs.Replies.{OutputsAreSaid};

use command_answers::{AnswerListener, ByteSink, ByteSource, NoListener, SessionFault};
use meaning_outcomes::tests_of_words_are_meant;
use meaning_states::states_are_printed;
pub use readings::readings_are_meant;
pub use whys::{draw_report, drawings_are_said, why_report, whys_agree, whys_are_said};

/// Does what `command_answers::eval_stream_heard` does: the log that it writes is that of what the
/// test says under the model.
pub fn eval_stream_heard<R: AllocGlobal, S: ByteSource, W: ByteSink, L: AnswerListener>(
    rt: &R,
    source: &mut S,
    sink: &mut W,
    listener: &mut L,
) -> Result<bool, SessionFault>
    requires source { S.failed_calls source.old < 2 ^ 64 - 1 }
    requires sink { W.failed_calls sink.old < 2 ^ 64 - 1 }
    // The answer to the texts into which the input is cut is written, or a prefix, or nothing.
    ensures said { IsStreamSaid (S.remaining source.old) (W.contents sink.old)
        (W.contents sink.new) result }
    // Nothing is written unless all of the input was read.
    ensures end { OnOk result (IsAtEnd (S.remaining source.new)) }
    ensures write_end { result ≡ Err SessionFault.Write → IsAtEnd (S.remaining source.new) }
    ensures reads { AreReadsCounted (S.failed_calls source.old) (S.failed_calls source.new)
        (S.calls source.old) (S.calls source.new) (S.remaining source.old) result }
    ensures writes { AreWritesCounted (W.failed_calls sink.old) (W.failed_calls sink.new) result }
{
    tests_of_words_are_meant();
    states_are_printed();
    command_answers::eval_stream_heard(rt, source, sink, listener)
}

/// Does what `command_answers::eval_stream` does: the log that it writes is that of what the test
/// says under the model.
pub fn eval_stream<R: AllocGlobal, S: ByteSource, W: ByteSink>(
    rt: &R,
    source: &mut S,
    sink: &mut W,
) -> Result<bool, SessionFault>
    requires source { S.failed_calls source.old < 2 ^ 64 - 1 }
    requires sink { W.failed_calls sink.old < 2 ^ 64 - 1 }
    // The answer to the texts into which the input is cut is written, or a prefix, or nothing.
    ensures said { IsStreamSaid (S.remaining source.old) (W.contents sink.old)
        (W.contents sink.new) result }
    // Nothing is written unless all of the input was read.
    ensures end { OnOk result (IsAtEnd (S.remaining source.new)) }
    ensures write_end { result ≡ Err SessionFault.Write → IsAtEnd (S.remaining source.new) }
    ensures reads { AreReadsCounted (S.failed_calls source.old) (S.failed_calls source.new)
        (S.calls source.old) (S.calls source.new) (S.remaining source.old) result }
    ensures writes { AreWritesCounted (W.failed_calls sink.old) (W.failed_calls sink.new) result }
{
    eval_stream_heard(rt, source, sink, &mut NoListener)
}

/// In each output of a session the outcome of a cell, in a log, counts, a table or a difference, is
/// what the test says under the model.
pub fn outputs_are_said()
    ensures { OutputsAreSaid }
{
    tests_of_words_are_meant();
    states_are_printed();
}

/// The table and the difference of files are those of what their tests say under their models.
pub fn reports_are_said()
    ensures table { TablesAreSaid }
    ensures difference { DifferencesAreSaid }
{
    tests_of_words_are_meant();
    states_are_printed();
}
