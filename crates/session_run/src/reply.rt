//! What a command is answered.

ghost use Rattle.std.specs.Prelude.{◌≡◌, IfOk, IfErr, OnOk, Err};
ghost use Rattle.bench_texts.specs.Held.{texts_of};
ghost use Rattle.session_edits.specs.Requests.{asked_by};
ghost use Rattle.session_answers.specs.Sessions.{IsRequestAnswer, IsCommandAnswer};
ghost use Rattle.session_run.specs.Faults.{IsOwnFault};
ghost use Rattle.session_run.specs.Sessions.{AsksDesk, NeedsDesk};
ghost use Rattle.session_views.specs.Knowing.{KnowsTexts};

use crate::asking::ask;
use crate::editing::make_edit;
use crate::state::Session;
use bench_instance::RunningDesk;
use command_answers::{AnswerListener, SessionFault};
use desk::Naming;
use session_edits::{Answer, Asked, refused_by, request_meaning};
use session_script::Command;
use std::alloc::Global;
use std::sync::Wait;
use value_store::StoreName;

fn reply_asked<J: Naming + StoreName, R: Wait + Drop, W: Wait, L: AnswerListener>(
    rt: &W,
    alloc: Global,
    desk: &RunningDesk<J, R>,
    session: &mut Session<J>,
    has_workers: bool,
    asked: Asked,
    listener: &mut L,
) -> Result<Answer, SessionFault>
    requires ready { KnowsTexts session.old.viewer session.old.made (texts_of session.old.texts) }
    ensures answer { IfOk result
        (λ said. IsRequestAnswer (texts_of session.old.texts) (asked_by asked)
        said (texts_of session.new.texts)) }
    ensures ready { OnOk result (KnowsTexts session.new.viewer session.new.made
        (texts_of session.new.texts)) }
    ensures fault { IfErr result IsOwnFault }
    ensures shared { result ≡ Err SessionFault.Shared
        → AsksDesk (texts_of session.old.texts) (asked_by asked) }
{
    match asked {
        Asked::Edit(edit) => make_edit(rt, alloc, desk, session, edit),
        Asked::Question(question) => {
            let answer = ask(rt, alloc, desk, session, has_workers, &question, listener);
            listener.hear_end();
            answer
        }
    }
}

/// Answers a command over the session's texts, which an edit may change.
pub(crate) fn reply<J: Naming + StoreName, R: Wait + Drop, W: Wait, L: AnswerListener>(
    rt: &W,
    alloc: Global,
    desk: &RunningDesk<J, R>,
    session: &mut Session<J>,
    has_workers: bool,
    command: Command,
    listener: &mut L,
) -> Result<Answer, SessionFault>
    requires ready { KnowsTexts session.old.viewer session.old.made (texts_of session.old.texts) }
    ensures answer { IfOk result (λ said. IsCommandAnswer (texts_of session.old.texts) command said
        (texts_of session.new.texts)) }
    ensures ready { OnOk result (KnowsTexts session.new.viewer session.new.made
        (texts_of session.new.texts)) }
    ensures fault { IfErr result IsOwnFault }
    ensures shared { result ≡ Err SessionFault.Shared
        → NeedsDesk (texts_of session.old.texts) command }
{
    match command {
        Command::Refused(rule) => match refused_by(alloc, b'Q', rule.number()) {
            Ok(answer) => Ok(answer),
            Err(_) => Err(SessionFault::Memory),
        },
        Command::Asked { request, text } => {
            reply_asked(
                rt,
                alloc,
                desk,
                session,
                has_workers,
                request_meaning(request, text),
                listener,
            )
        }
    }
}
