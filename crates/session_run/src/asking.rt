//! Questions of a session.

ghost use Rattle.std.specs.Prelude.{◌≡◌, ◌≢◌, true, false, IfOk, IfErr, IfSome, OnOk, OnErr, Some, Err};
ghost use mathlib.Core.List.{IsPrefix};
ghost use Rattle.bench_texts.specs.Held.{texts_of};
ghost use Rattle.board.specs.Edits.{edit_count};
ghost use Rattle.board.specs.Legal.{IsLegal};
ghost use Rattle.board.specs.Operations.{board_after};
ghost use Rattle.desk.specs.Rows.{count_after, are_too_many};
ghost use Rattle.session_answers.specs.Questions.{IsReply};
ghost use Rattle.session_run.specs.Faults.{IsOwnFault};
ghost use Rattle.session_run.specs.Rows.{is_refused_turn, MayEndAfter};
ghost use Rattle.session_views.specs.Knowing.{KnowsTexts};
ghost use Rattle.session_views.specs.Progress.{progress_of};

use crate::fault::fault_of;
use crate::jobs::run_some;
use crate::state::Session;
use bench_instance::{RunningDesk, StampedTexts, edit_count_in, newest_view};
use bench_texts::Texts;
use command_answers::{Progress, ProgressListener, SessionFault};
use core::mem::replace_with;
use desk::{Naming, Refusals, Settling, View, Viewer};
use session_edits::{Answer, Question};
use session_views::laws::{later_is_known, own_texts_are_shown};
use session_views::{answer_from_board, board_progress};
use std::alloc::Global;
use std::sync::Wait;
use value_store::StoreName;

// Has the desk show what is settled.
#[tactic(auto, using(crate::proofs::Viewers::told_begins, crate::proofs::Viewers::seat_fault))]
fn settle_turn<J: Naming + StoreName, R: Wait + Drop, W: Wait>(
    rt: &W,
    desk: &RunningDesk<J, R>,
    session: &mut Session<J>,
) -> Result<Settling, SessionFault>
    requires ready { KnowsTexts session.old.viewer session.old.made (texts_of session.old.texts) }
    ensures texts { session.new.texts ≡ session.old.texts }
    ensures ready { OnOk result (KnowsTexts session.new.viewer session.new.made
        (texts_of session.new.texts)) }
    ensures fault { IfErr result IsOwnFault }
    // K1 and K2 are all that the desk answers.
    ensures unshared { result ≢ Err SessionFault.Shared }
{
    later_is_known();
    match desk.settle_turn(rt, &mut session.viewer) {
        Ok(settling) => Ok(settling),
        Err(fault) => Err(fault_of(&fault)),
    }
}

// The answer to a question from a view, if its cells are settled. It shows the session's texts
// unless it counts other edits.
fn answer_in<J: Naming>(
    alloc: Global,
    view: &View<J, StampedTexts>,
    texts: &Texts,
    made: u64,
    question: &Question,
) -> Result<Option<Answer>, SessionFault>
    requires legal { IsLegal view.now }
    requires ready { KnowsTexts view.now made (texts_of texts.now) }
    ensures reply { IfOk result (λ r. IfSome r (IsReply (texts_of texts.now) question.now)) }
    ensures own { IfOk result (λ r. IfSome r (λ answer. edit_count view.now ≡ made)) }
    ensures fault { IfErr result IsOwnFault }
    ensures shared { result ≡ Err SessionFault.Shared → edit_count view.now ≢ made }
{
    own_texts_are_shown();
    if edit_count_in(view) != made {
        return Err(SessionFault::Shared);
    }
    match answer_from_board(alloc, texts, view.board(), question) {
        Ok(answer) => Ok(answer),
        Err(_) => Err(SessionFault::Memory),
    }
}

// How far a table is, where a listener is to hear it now and there is no answer.
fn due_progress<J: Naming, L: ProgressListener>(
    answer: &Result<Option<Answer>, SessionFault>,
    view: &View<J, StampedTexts>,
    texts: &Texts,
    question: &Question,
    listener: &mut L,
) -> Option<Progress>
    requires legal { IsLegal view.now }
    ensures { IfSome result (λ p.
        progress_of (texts_of texts.now) (board_after view.now) question.now ≡ Some p) }
{
    match answer {
        Ok(None) if listener.is_due() => board_progress(texts, view.board(), question),
        _ => None,
    }
}

// Tells a listener how far a table is. This may wait for a terminal, so no view is held then.
fn tell_progress<L: ProgressListener>(progress: Option<Progress>, listener: &mut L) {
    if let Some(progress) = progress {
        listener.hear_progress(progress);
    }
}

// What is to be read of the board: the answer to a question about these texts, after so many edits.
// The listener hears how far a table is.
struct Looking<'q, L> {
    alloc: Global,
    texts: &'q Texts,
    made: u64,
    question: &'q Question,
    listener: &'q mut L,
}

// Looks at the board that was published last. The viewer comes back, and has seen the operations of
// that board. The listener hears behind the view, which would hold up publishing.
fn look_at<'q, J: Naming, L: ProgressListener>(
    viewer: Viewer<J, StampedTexts>,
    looking: Looking<'q, L>,
) -> (
    Viewer<J, StampedTexts>,
    Result<Option<Answer>, SessionFault>,
)
    requires { KnowsTexts viewer looking.made (texts_of looking.texts.now) }
    ensures begins { IsPrefix viewer result.0 }
    ensures reply { IfOk result.1 (λ r.
        IfSome r (IsReply (texts_of looking.entry.texts.now) looking.entry.question.now)) }
    ensures own { IfOk result.1 (λ r.
        IfSome r (λ answer. edit_count result.0 ≡ looking.entry.made)) }
    ensures fault { IfErr result.1 IsOwnFault }
    ensures shared { result.1 ≡ Err SessionFault.Shared
        → edit_count result.0 ≢ looking.entry.made }
{
    let Looking {
        alloc,
        texts,
        made,
        question,
        listener,
    } = looking;
    later_is_known();
    match newest_view(viewer) {
        Ok(view) => {
            let answer = answer_in(alloc, &view, texts, made, question);
            let progress = due_progress(&answer, &view, texts, question, listener);
            let viewer = view.leave();
            tell_progress(progress, listener);
            (viewer, answer)
        }
        Err(viewer) => (viewer, Err(SessionFault::Memory)),
    }
}

// The answer to a question from the board that was published last, if its cells are settled there.
fn look<J: Naming, L: ProgressListener>(
    alloc: Global,
    session: &mut Session<J>,
    question: &Question,
    listener: &mut L,
) -> Result<Option<Answer>, SessionFault>
    requires ready { KnowsTexts session.old.viewer session.old.made (texts_of session.old.texts) }
    ensures texts { session.new.texts ≡ session.old.texts }
    ensures ready { KnowsTexts session.new.viewer session.new.made (texts_of session.new.texts) }
    ensures reply { IfOk result (λ r.
        IfSome r (IsReply (texts_of session.old.texts) question.now)) }
    // An answer comes only from a view with as many edits as the session made.
    ensures own { IfOk result (λ r.
        IfSome r (λ answer. edit_count session.new.viewer ≡ session.new.made)) }
    ensures fault { IfErr result IsOwnFault }
    // `Shared` comes only from a view with more edits or fewer.
    ensures shared { result ≡ Err SessionFault.Shared
        → edit_count session.new.viewer ≢ session.new.made }
{
    later_is_known();
    let looking = Looking {
        alloc,
        texts: &session.texts,
        made: session.made,
        question,
        listener,
    };
    replace_with(&mut session.viewer, looking, look_at)
}

// Runs jobs where there are no workers, or else waits for a change of the board. Where there are no
// workers and no job is left, others at the desk have the jobs, and a change is waited for too.
fn work_or_wait<J: Naming + StoreName, R: Wait + Drop, W: Wait>(
    rt: &W,
    alloc: Global,
    desk: &RunningDesk<J, R>,
    has_workers: bool,
    changes: u64,
) -> Result<(), SessionFault>
    ensures fault { IfErr result IsOwnFault }
    ensures unshared { has_workers ≡ true → result ≢ Err SessionFault.Shared }
{
    if !has_workers {
        let has_run = run_some(rt, alloc, desk)?;
        if has_run {
            return Ok(());
        }
    }
    desk.wait_past(rt, changes);
    Ok(())
}

// Counts a turn that was refused. Errors: `Memory`, where that makes too many in a row.
fn note_refused(refusals: &mut Refusals) -> Result<(), SessionFault>
    ensures count { refusals.new.count ≡ count_after true refusals.old.count }
    ensures few { OnOk result (are_too_many refusals.new.count ≡ false) }
    ensures many { OnErr result (are_too_many refusals.new.count ≡ true) }
    ensures fault { OnErr result (result ≡ Err SessionFault.Memory) }
{
    if refusals.note(true) {
        return Err(SessionFault::Memory);
    }
    Ok(())
}

// Goes on where the board showed a cell open that a question asks for. A job or a wait ends a row
// of refusals. Where each cell was settled before that look, an edit of someone else has opened one
// since, and the next look counts that edit.
fn go_on<J: Naming + StoreName, R: Wait + Drop, W: Wait>(
    rt: &W,
    alloc: Global,
    desk: &RunningDesk<J, R>,
    has_workers: bool,
    settling: Settling,
    refusals: &mut Refusals,
) -> Result<(), SessionFault>
    ensures fault { IfErr result IsOwnFault }
    ensures unshared { has_workers ≡ true → result ≢ Err SessionFault.Shared }
    // It goes on just where fewer than 16 turns were refused in a row, and no job ends it.
    ensures row { OnOk result
        (refusals.new.count ≡ count_after (is_refused_turn settling) refusals.old.count) }
    ensures few { OnOk result (are_too_many refusals.new.count ≡ false) }
    ensures ends { OnErr result (MayEndAfter settling refusals.old.count) }
{
    match settling {
        Settling::Done => {
            let _many = refusals.note(false);
            Ok(())
        }
        Settling::Waits(changes) => {
            work_or_wait(rt, alloc, desk, has_workers, changes)?;
            let _many = refusals.note(false);
            Ok(())
        }
        Settling::Refused => note_refused(refusals),
    }
}

/// The answer to a question, once the cells are settled that it asks for. A listener hears how far
/// a table is.
pub(crate) fn ask<J: Naming + StoreName, R: Wait + Drop, W: Wait, L: ProgressListener>(
    rt: &W,
    alloc: Global,
    desk: &RunningDesk<J, R>,
    session: &mut Session<J>,
    has_workers: bool,
    question: &Question,
    listener: &mut L,
) -> Result<Answer, SessionFault>
    requires ready { KnowsTexts session.old.viewer session.old.made (texts_of session.old.texts) }
    ensures texts { session.new.texts ≡ session.old.texts }
    ensures ready { OnOk result (KnowsTexts session.new.viewer session.new.made
        (texts_of session.new.texts)) }
    ensures reply { IfOk result (IsReply (texts_of session.old.texts) question.now) }
    // An answer comes only from a view with as many edits as the session made.
    ensures own { IfOk result (λ answer. edit_count session.new.viewer ≡ session.new.made) }
    ensures fault { IfErr result IsOwnFault }
    // `Shared` comes only from a view with more edits or fewer; without workers also from a claim
    // for which no number is left.
    ensures shared { result ≡ Err SessionFault.Shared → has_workers ≡ true
        → edit_count session.new.viewer ≢ session.new.made }
{
    let mut refusals = Refusals::new();
    for _ in rt.forever() {
        let settling = settle_turn(rt, desk, session)?;
        if let Some(answer) = look(alloc, session, question, listener)? {
            return Ok(answer);
        }
        go_on(rt, alloc, desk, has_workers, settling, &mut refusals)?;
    }
    unreachable!()
}
