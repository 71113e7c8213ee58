//! The commands of a session, one after another.

ghost use Rattle.std.specs.Prelude.{◌≡◌, ◌≢◌, ◌+◌, ◌-◌, ◌<◌, ◌^◌, IfOk, IfErr, IfSome, OnOk, OnErr, Err};
ghost use Rattle.std.specs.Io.KnownBytes.{Appends};
ghost use Rattle.session_script.specs.Calls.{AreTurnsCalled};
ghost use Rattle.session_script.specs.Reading.{left_to, turns_of, work_of, IsNextCommand, IsPaid};
ghost use Rattle.bench_texts.specs.Held.{texts_of};
ghost use Rattle.bench_texts.specs.BenchTexts.{no_texts};
ghost use Rattle.command_answers.specs.Answer.{AreReadsCounted, AreWritesCounted};
ghost use Rattle.session_script.specs.Written.{WritesPrefix};
ghost use Rattle.session_views.specs.Knowing.{KnowsTexts};
ghost use Rattle.session_run.specs.Blamed.{changed_model, command_model, command_text, IsBlamed};
ghost use Rattle.session_run.specs.Sessions.{IsSession, IsReplied, IsReplyStopped, IsTurnFault};

use crate::blamed::blamed_word;
use crate::reply::reply;
use crate::state::Session;
use bench_instance::RunningDesk;
use bench_texts::Texts;
use command_answers::{
    AnswerListener, ByteSink, ByteSource, HeardCommand, ReadFault, SessionFault,
};
use desk::Naming;
use session_edits::Answer;
use session_script::{Command, Request, ScriptReader, ScriptText};
use std::alloc::{AllocError, Global};
use std::sync::Wait;
use value_store::StoreName;

fn read_command<S: ByteSource>(
    script: &mut ScriptReader,
    source: &mut S,
) -> Result<Option<Command>, SessionFault>
    requires { S.failed_calls source.old < 2 ^ 64 - 1 }
    ensures next { IfOk result (λ c. IsNextCommand (left_to script.old (S.remaining source.old))
        (left_to script.new (S.remaining source.new)) c) }
    ensures work { IfOk result (λ c. IfSome c (λ some. work_of script.new < work_of script.old)) }
    ensures paid { IfOk result (λ c. IsPaid (turns_of script.old) (turns_of script.new)
        (S.remaining source.old) (S.remaining source.new)) }
    ensures called { IfOk result (λ c. AreTurnsCalled (turns_of script.old) (turns_of script.new)
        (S.calls source.old) (S.calls source.new)) }
    ensures read { result ≡ Err SessionFault.Read
        → IsTurnFault (turns_of script.old) (S.failed_calls source.old) (S.failed_calls source.new)
        (S.calls source.old) (S.calls source.new) (S.remaining source.old) }
    ensures same { result ≢ Err SessionFault.Read
        → S.failed_calls source.new ≡ S.failed_calls source.old }
    ensures fault { result ≢ Err SessionFault.Write }
    ensures unshared { result ≢ Err SessionFault.Shared }
{
    match script.next(source) {
        Ok(command) => Ok(command),
        Err(ReadFault::Read) => Err(SessionFault::Read),
        Err(ReadFault::Endless) => Err(SessionFault::Read),
        Err(ReadFault::Memory) => Err(SessionFault::Memory),
    }
}

/// What is kept of a command for a listener: its line, what of it is at fault if it is refused for
/// that, its text, and the model that it puts or changes.
#[derive(Drop)]
struct Heard {
    line: u64,
    blamed: Vec<u8>,
    text: Vec<u8>,
    model: Option<ScriptText>,
}

// The model that a request puts or changes.
fn changed_model(alloc: Global, request: &Request) -> Result<Option<ScriptText>, AllocError>
    ensures { IfOk result (λ model. model ≡ changed_model request.now) }
{
    match request {
        Request::PutModel { model } => Ok(Some(model.copied(alloc)?)),
        Request::SetItem { model, .. } => Ok(Some(model.copied(alloc)?)),
        Request::InsertItem { model, .. } => Ok(Some(model.copied(alloc)?)),
        Request::RemoveItem { model, .. } => Ok(Some(model.copied(alloc)?)),
        Request::PutTest
        | Request::SetInit { .. }
        | Request::SetThread { .. }
        | Request::SetCondition { .. }
        | Request::SetLocations { .. }
        | Request::DropTest { .. }
        | Request::DropModel { .. }
        | Request::Items { .. }
        | Request::Show { .. }
        | Request::Counts { .. }
        | Request::Table { .. }
        | Request::Difference { .. } => Ok(None),
    }
}

// What a listener is to hear of a command.
fn heard_of(
    alloc: Global,
    texts: &Texts,
    script: &ScriptReader,
    command: &Command,
) -> Result<Heard, AllocError>
    ensures blamed { IfOk result (λ h. IsBlamed (texts_of texts.now) command.now h.blamed.items) }
    ensures text { IfOk result (λ h. h.text.items ≡ command_text command.now) }
    ensures model { IfOk result (λ h. h.model ≡ command_model command.now) }
{
    let line = script.command_line();
    match command {
        Command::Asked { request, text } => Ok(Heard {
            line,
            blamed: blamed_word(alloc, texts, request)?,
            text: Vec::from_slice(alloc, text.as_bytes())?,
            model: changed_model(alloc, request)?,
        }),
        Command::Refused(_) => Ok(Heard {
            line,
            blamed: Vec::from_slice(alloc, script.command_words())?,
            text: Vec::new(alloc),
            model: None,
        }),
    }
}

// Tells a listener of the model that a command put or changed.
fn tell_model<L: AnswerListener>(
    texts: &Texts,
    changed: &Option<ScriptText>,
    answer: &Answer,
    listener: &mut L,
) {
    if answer.is_refused() {
        return;
    }
    if let Some(name) = changed {
        if let Some(model) = texts.models().get(texts.model_index(name.as_bytes())) {
            listener.hear_model(model.name(), model.numbers(), &model.text().items);
        }
    }
}

// Writes an answer, of which a listener then hears.
fn write_answer<K: ByteSink, L: AnswerListener>(
    heard: &Heard,
    answer: &Answer,
    sink: &mut K,
    listener: &mut L,
) -> Result<(), SessionFault>
    requires { K.failed_calls sink.old < 2 ^ 64 - 1 }
    ensures ok { OnOk result (Appends (K.contents sink.old) (K.contents sink.new) answer.now.text) }
    ensures front { WritesPrefix (K.contents sink.old) (K.contents sink.new) answer.now.text }
    ensures err { OnErr result (K.failed_calls sink.new ≡ K.failed_calls sink.old + 1) }
    ensures same { OnOk result (K.failed_calls sink.new ≡ K.failed_calls sink.old) }
    ensures fault { OnErr result (result ≡ Err SessionFault.Write) }
{
    if answer.write_to(sink).is_err() {
        return Err(SessionFault::Write);
    }
    let command = HeardCommand {
        line: heard.line,
        blamed: &heard.blamed,
        text: &heard.text,
    };
    listener.hear(command, answer.text());
    Ok(())
}

// Answers a command, and writes the answer.
fn write_reply<J: Naming + StoreName, R: Wait + Drop, W: Wait, K: ByteSink, L: AnswerListener>(
    rt: &W,
    alloc: Global,
    desk: &RunningDesk<J, R>,
    session: &mut Session<J>,
    has_workers: bool,
    script: &ScriptReader,
    command: Command,
    sink: &mut K,
    listener: &mut L,
) -> Result<Answer, SessionFault>
    requires ready { KnowsTexts session.old.viewer session.old.made (texts_of session.old.texts) }
    requires sink { K.failed_calls sink.old < 2 ^ 64 - 1 }
    ensures written { IfOk result (IsReplied (texts_of session.old.texts)
        (texts_of session.new.texts) command (K.contents sink.old) (K.contents sink.new)) }
    ensures ready { OnOk result (KnowsTexts session.new.viewer session.new.made
        (texts_of session.new.texts)) }
    ensures stopped { IfErr result (IsReplyStopped (texts_of session.old.texts) command
        (K.contents sink.old) (K.contents sink.new)) }
    ensures calls { AreWritesCounted (K.failed_calls sink.old) (K.failed_calls sink.new) result }
    ensures fault { result ≢ Err SessionFault.Read }
{
    let heard = match heard_of(alloc, &session.texts, script, &command) {
        Ok(heard) => heard,
        Err(_) => return Err(SessionFault::Memory),
    };
    let answer = reply(rt, alloc, desk, session, has_workers, command, listener)?;
    write_answer(&heard, &answer, sink, listener)?;
    tell_model(&session.texts, &heard.model, &answer, listener);
    Ok(answer)
}

/// Answers the commands of a script one after another, each by one write as soon as its last line
/// feed is read.
pub(crate) fn answer_commands<
    J: Naming + StoreName,
    R: Wait + Drop,
    W: Wait,
    S: ByteSource,
    K: ByteSink,
    L: AnswerListener,
>(
    rt: &W,
    alloc: Global,
    desk: &RunningDesk<J, R>,
    session: Session<J>,
    has_workers: bool,
    source: &mut S,
    sink: &mut K,
    listener: &mut L,
) -> Result<bool, SessionFault>
    requires ready { KnowsTexts session.viewer session.made (texts_of session.texts) }
    requires texts { texts_of session.texts ≡ no_texts }
    requires source { S.failed_calls source.old < 2 ^ 64 - 1 }
    requires sink { K.failed_calls sink.old < 2 ^ 64 - 1 }
    ensures written { IsSession (S.remaining source.old) (K.contents sink.old) (K.contents sink.new)
        result }
    ensures reads { AreReadsCounted (S.failed_calls source.old) (S.failed_calls source.new)
        (S.calls source.old) (S.calls source.new) (S.remaining source.old) result }
    ensures writes { AreWritesCounted (K.failed_calls sink.old) (K.failed_calls sink.new) result }
{
    let mut script = ScriptReader::new(alloc);
    let mut session = session;
    let mut is_refused = false;
    'commands: loop {
        let read = read_command(&mut script, source)?;
        match read {
            None => return Ok(is_refused),
            Some(command) => {
                let answer = write_reply(
                    rt,
                    alloc,
                    desk,
                    &mut session,
                    has_workers,
                    &script,
                    command,
                    sink,
                    listener,
                )?;
                is_refused |= answer.is_refused();
            }
        }
    }
}
