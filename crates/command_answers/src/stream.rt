//! A model and a test from a source, and what is said of them to a sink.

ghost use Rattle.std.specs.Prelude.{◌≡◌, ◌≢◌, ◌-◌, ◌<◌, ◌^◌, true, Err, IfOk, IfSome, OnOk, take};
ghost use Rattle.std.specs.Io.KnownBytes.{IsAtEnd};
ghost use Rattle.command_answers.specs.Answer.{AreReadsCounted, AreWritesCounted, IsEvalAnswer, IsSaidOf, IsEvalWritten, IsStreamed};
ghost use Rattle.command_answers.specs.Made.{IsAnswerWritten, IsAnswerMade};
ghost use Rattle.command_answers.specs.declared.fault.EvalFault.TheVariants as eval_faults;
ghost use Rattle.command_answers.specs.Pictures.{IsPictureAnswer, IsPictureWritten};
ghost use Rattle.command_answers.specs.Whys.{IsWhyAnswer, IsWhyWritten};
ghost use Rattle.session_edits.specs.Answer.{refused_line};

use crate::cut::cut_at_dot;
use crate::fault::EvalFault;
use crate::listening::{AnswerListener, NoListener};
use crate::texts::{draw_report, eval, why_report};
use cat_syntax::CatFault;
use command_line::SessionFault;
use litmus_ppc::LitmusFault;
use session_edits::put_refusal;
use session_script::{ByteSink, ByteSource, ReadFault, read_prefix, write_whole};
use std::alloc::{AllocError, Global};
use why_forbidden::{Asked, DrawRequest};

// What is printed, and whether a text was refused.
#[derive(Drop)]
struct Answer {
    text: Vec<u8>,
    is_refused: bool,
}

fn refusal(alloc: Global, letter: u8, number: u8, offset: usize) -> Result<Answer, AllocError>
    ensures { IfOk result (λ a. (a.text.items ≡ refused_line letter number offset)
        × (a.is_refused ≡ true)) }
{
    let mut text = Vec::new(alloc);
    put_refusal(&mut text, letter, number, offset)?;
    Ok(Answer {
        text,
        is_refused: true,
    })
}

// What is printed of a refused model.
fn model_refusal(alloc: Global, fault: CatFault) -> Result<Answer, AllocError>
    ensures { IfOk result
        (λ a. IsSaidOf (Err (eval_faults.Model fault)) a.text.items a.is_refused) }
{
    match fault {
        CatFault::Refused { rule, offset } => refusal(alloc, b'C', rule.number(), offset),
        CatFault::OutOfMemory(e) => Err(e),
    }
}

// What is printed of a refused test.
fn test_refusal(alloc: Global, fault: LitmusFault) -> Result<Answer, AllocError>
    ensures { IfOk result
        (λ a. IsSaidOf (Err (eval_faults.Test fault)) a.text.items a.is_refused) }
{
    match fault {
        LitmusFault::Refused { rule, offset } => refusal(alloc, b'L', rule.number(), offset),
        LitmusFault::OutOfMemory(e) => Err(e),
    }
}

// What is printed of why there is no report.
fn refusal_of(alloc: Global, fault: EvalFault) -> Result<Answer, AllocError>
    ensures { IfOk result (λ a. IsSaidOf (Err fault) a.text.items a.is_refused) }
{
    match fault {
        EvalFault::Model(model) => model_refusal(alloc, model),
        EvalFault::Test(test) => test_refusal(alloc, test),
        EvalFault::Memory(e) => Err(e),
    }
}

// What is printed of a report, or of why there is none.
fn answer_of(alloc: Global, report: Result<Vec<u8>, EvalFault>) -> Result<Answer, AllocError>
    ensures { IfOk result (λ a. IsSaidOf report a.text.items a.is_refused) }
{
    match report {
        Ok(text) => Ok(Answer {
            text,
            is_refused: false,
        }),
        Err(fault) => refusal_of(alloc, fault),
    }
}

// Writes an answer, if it was made. Whether it is that of a refused text.
fn write_made<W: ByteSink>(
    made: Result<Answer, AllocError>,
    sink: &mut W,
) -> Result<bool, SessionFault>
    requires { W.failed_calls sink.old < 2 ^ 64 - 1 }
    ensures written { IsAnswerWritten (IsAnswerMade made) (W.contents sink.old)
        (W.contents sink.new) result }
    ensures calls { AreWritesCounted (W.failed_calls sink.old) (W.failed_calls sink.new) result }
    ensures fault { result ≢ Err SessionFault.Read }
{
    let answer = match made {
        Ok(answer) => answer,
        Err(_) => return Err(SessionFault::Memory),
    };
    match write_whole(sink, &answer.text) {
        Ok(()) => Ok(answer.is_refused),
        Err(_) => Err(SessionFault::Write),
    }
}

fn answer_to(alloc: Global, model: &[u8], test: &[u8]) -> Result<Answer, AllocError>
    ensures { IfOk result (λ a. IsEvalAnswer model.now test.now a.text.items a.is_refused) }
{
    answer_of(alloc, eval(alloc, model, test))
}

/// Writes the log of the test under the model, or a line `refused`, number and offset. Whether a
/// text was refused. After a fault, what was written is a prefix of that text. Errors: `Write`
/// where a call failed, or, before the first call, `Memory`.
pub fn write_answer<W: ByteSink>(
    alloc: Global,
    model: &[u8],
    test: &[u8],
    sink: &mut W,
) -> Result<bool, SessionFault>
    requires { W.failed_calls sink.old < 2 ^ 64 - 1 }
    // The answer is written, or a prefix of it where a write failed, and else nothing.
    ensures written { IsEvalWritten model.now test.now (W.contents sink.old) (W.contents sink.new)
        result }
    // `Write` comes after one failed call, and all else after none.
    ensures calls { AreWritesCounted (W.failed_calls sink.old) (W.failed_calls sink.new) result }
    // Nothing is read.
    ensures fault { result ≢ Err SessionFault.Read }
{
    write_made(answer_to(alloc, model, test), sink)
}

fn why_answer(alloc: Global, asked: Asked, model: &[u8], test: &[u8]) -> Result<Answer, AllocError>
    ensures { IfOk result (λ a. IsWhyAnswer asked model.now test.now a.text.items a.is_refused) }
{
    answer_of(alloc, why_report(alloc, asked, model, test))
}

/// Writes what `why_report` says of the texts, or a line `refused`, number and offset. Whether a
/// text was refused. Errors: those of `write_answer`.
pub fn write_why<W: ByteSink>(
    alloc: Global,
    asked: Asked,
    model: &[u8],
    test: &[u8],
    sink: &mut W,
) -> Result<bool, SessionFault>
    requires { W.failed_calls sink.old < 2 ^ 64 - 1 }
    // The answer is written, or a prefix of it where a write failed, and else nothing.
    ensures written { IsWhyWritten asked model.now test.now (W.contents sink.old)
        (W.contents sink.new) result }
    // `Write` comes after one failed call, and all else after none.
    ensures calls { AreWritesCounted (W.failed_calls sink.old) (W.failed_calls sink.new) result }
    // Nothing is read.
    ensures fault { result ≢ Err SessionFault.Read }
{
    write_made(why_answer(alloc, asked, model, test), sink)
}

fn draw_answer(
    alloc: Global,
    model: &[u8],
    test: &[u8],
    request: DrawRequest,
) -> Result<Answer, AllocError>
    ensures { IfOk result (λ a.
        IsPictureAnswer request model.now test.now a.text.items a.is_refused) }
{
    answer_of(alloc, draw_report(alloc, model, test, request))
}

/// Writes what `draw_report` says of the texts, or a line `refused`, number and offset. Whether a
/// text was refused. Errors: those of `write_answer`.
pub fn write_drawings<W: ByteSink>(
    alloc: Global,
    model: &[u8],
    test: &[u8],
    request: DrawRequest,
    sink: &mut W,
) -> Result<bool, SessionFault>
    requires { W.failed_calls sink.old < 2 ^ 64 - 1 }
    // The answer is written, or a prefix of it where a write failed, and else nothing.
    ensures written { IsPictureWritten request model.now test.now (W.contents sink.old)
        (W.contents sink.new) result }
    // `Write` comes after one failed call, and all else after none.
    ensures calls { AreWritesCounted (W.failed_calls sink.old) (W.failed_calls sink.new) result }
    // Nothing is read.
    ensures fault { result ≢ Err SessionFault.Read }
{
    write_made(draw_answer(alloc, model, test, request), sink)
}

// A text of so many bytes is too long, whatever stands behind them.
const MOST_OF_TEXT: usize = 65_537;

// A model that is not too long, the line behind it, and a test that is too long.
const MOST_OF_INPUT: usize = 131_075;

fn read_first<S: ByteSource>(
    alloc: Global,
    source: &mut S,
    most: usize,
) -> Result<Vec<u8>, SessionFault>
    requires { S.failed_calls source.old < 2 ^ 64 - 1 }
    ensures bytes { IfOk result (λ v.
        IfSome (S.remaining source.old) (λ all. v.items ≡ take most all)) }
    ensures end { OnOk result (IsAtEnd (S.remaining source.new)) }
    ensures calls { AreReadsCounted (S.failed_calls source.old) (S.failed_calls source.new)
        (S.calls source.old) (S.calls source.new) (S.remaining source.old) result }
    ensures fault { result ≢ Err SessionFault.Write }
    ensures own { result ≢ Err SessionFault.Shared }
{
    match read_prefix(alloc, source, most) {
        Ok(bytes) => Ok(bytes),
        Err(ReadFault::Memory) => Err(SessionFault::Memory),
        Err(ReadFault::Read) => Err(SessionFault::Read),
        Err(ReadFault::Endless) => Err(SessionFault::Read),
    }
}

/// The first 65,537 bytes of a source, which is read to its end. They decide what is said of the
/// whole text (`laws::prefixes_decide`). Errors: `Read` where a call failed or the bytes did not
/// end within 16,777,216 calls, or `Memory`.
pub fn read_text<S: ByteSource>(alloc: Global, source: &mut S) -> Result<Vec<u8>, SessionFault>
    requires { S.failed_calls source.old < 2 ^ 64 - 1 }
    ensures bytes { IfOk result (λ v.
        IfSome (S.remaining source.old) (λ all. v.items ≡ take 65537 all)) }
    ensures end { OnOk result (IsAtEnd (S.remaining source.new)) }
    // `Read` comes after one failed call or at the bound, and all else after none.
    ensures calls { AreReadsCounted (S.failed_calls source.old) (S.failed_calls source.new)
        (S.calls source.old) (S.calls source.new) (S.remaining source.old) result }
    // Nothing is written, and there is no desk.
    ensures fault { result ≢ Err SessionFault.Write }
    ensures own { result ≢ Err SessionFault.Shared }
{
    read_first(alloc, source, MOST_OF_TEXT)
}

// Tells a listener of texts that were answered.
fn tell<L: AnswerListener>(
    listener: &mut L,
    model: &[u8],
    test: &[u8],
    answered: &Result<bool, SessionFault>,
) {
    if let Ok(is_refused) = answered {
        listener.hear_texts(model, test, *is_refused);
    }
}

/// What `eval_stream` does, and a listener hears of the texts behind the answer.
pub fn eval_stream_heard<R: AllocGlobal, S: ByteSource, W: ByteSink, L: AnswerListener>(
    rt: &R,
    source: &mut S,
    sink: &mut W,
    listener: &mut L,
) -> Result<bool, SessionFault>
    requires source { S.failed_calls source.old < 2 ^ 64 - 1 }
    requires sink { W.failed_calls sink.old < 2 ^ 64 - 1 }
    // The answer to the texts into which the input is cut is written, or a prefix, or nothing.
    ensures written { IsStreamed (S.remaining source.old) (W.contents sink.old)
        (W.contents sink.new) result }
    // Nothing is written unless all of the input was read.
    ensures end { OnOk result (IsAtEnd (S.remaining source.new)) }
    ensures write_end { result ≡ Err SessionFault.Write → IsAtEnd (S.remaining source.new) }
    // `Read` comes after one failed read or at the bound, `Write` after one failed write, and all
    // else after none.
    ensures reads { AreReadsCounted (S.failed_calls source.old) (S.failed_calls source.new)
        (S.calls source.old) (S.calls source.new) (S.remaining source.old) result }
    ensures writes { AreWritesCounted (W.failed_calls sink.old) (W.failed_calls sink.new) result }
{
    let bytes = match read_first(rt.alloc(), source, MOST_OF_INPUT) {
        Ok(bytes) => bytes,
        Err(fault) => return Err(fault),
    };
    let (model, test) = cut_at_dot(&bytes);
    let answered = write_answer(rt.alloc(), model, test, sink);
    tell(listener, model, test, &answered);
    answered
}

/// Reads all input, which holds a model, a line that is exactly `.` and a test, and writes what
/// `write_answer` does. With no such line the test's text is empty. Bytes that cannot change the
/// answer are not kept. Errors: those of `read_text`, before the first write, and those of
/// `write_answer`.
pub fn eval_stream<R: AllocGlobal, S: ByteSource, W: ByteSink>(
    rt: &R,
    source: &mut S,
    sink: &mut W,
) -> Result<bool, SessionFault>
    requires source { S.failed_calls source.old < 2 ^ 64 - 1 }
    requires sink { W.failed_calls sink.old < 2 ^ 64 - 1 }
    // The answer to the texts into which the input is cut is written, or a prefix, or nothing.
    ensures written { IsStreamed (S.remaining source.old) (W.contents sink.old)
        (W.contents sink.new) result }
    // Nothing is written unless all of the input was read.
    ensures end { OnOk result (IsAtEnd (S.remaining source.new)) }
    ensures write_end { result ≡ Err SessionFault.Write → IsAtEnd (S.remaining source.new) }
    // `Read` comes after one failed read or at the bound, `Write` after one failed write, and all
    // else after none.
    ensures reads { AreReadsCounted (S.failed_calls source.old) (S.failed_calls source.new)
        (S.calls source.old) (S.calls source.new) (S.remaining source.old) result }
    ensures writes { AreWritesCounted (W.failed_calls sink.old) (W.failed_calls sink.new) result }
{
    eval_stream_heard(rt, source, sink, &mut NoListener)
}
