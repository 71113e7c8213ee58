//! Edits of a session.

ghost use Rattle.std.specs.Prelude.{◌≡◌, ◌≤◌, ℕ, false, IfOk, IfErr, OnOk, OnErr, Err};
ghost use Rattle.bench_texts.specs.BenchTexts.{BenchTexts};
ghost use Rattle.bench_texts.specs.Edits.{edit_of, Applies};
ghost use Rattle.bench_texts.specs.Held.{texts_of};
ghost use Rattle.session_edits.specs.Edits.{IsEditAnswer};
ghost use Rattle.session_views.specs.Knowing.{KnowsTexts, HasOwnEdit};
ghost use Rattle.session_run.specs.Faults.{IsOwnFault};
ghost use Rattle.session_run.specs.Untold.{IsUntold, IsDisputed};

use crate::fault::fault_of;
use crate::state::Session;
use bench_instance::{RunningDesk, StampedTexts};
use bench_texts::Edit;
use command_answers::SessionFault;
use desk::{Accepted, Naming, Viewer};
use memo_engine::graph::LAST;
use session_edits::{Answer, answer_edit};
use session_views::laws::own_edits_are_counted;
use std::alloc::Global;
use std::sync::Wait;
use value_store::StoreName;

// Gives an edit to the desk, which tells the viewer. A viewer that is not told knows what it knew.
fn tell_desk<J: Naming + StoreName, R: Wait + Drop, W: Wait>(
    rt: &W,
    desk: &RunningDesk<J, R>,
    viewer: &mut Viewer<J, StampedTexts>,
    edit: Edit,
) -> Result<(), SessionFault>
    ensures told { OnOk result
        ((number : ℕ) × (number ≤ LAST) × HasOwnEdit edit number viewer.old viewer.new) }
    ensures same { OnErr result (viewer.new ≡ viewer.old) }
    ensures untold { IfErr result (IsUntold edit viewer.old) }
    ensures fault { IfErr result IsOwnFault }
{
    match desk.edit(rt, viewer, edit) {
        Ok(Accepted::Now(_)) => Ok(()),
        Ok(Accepted::Later(_)) => Err(SessionFault::Memory),
        Err(fault) => Err(fault_of(&fault)),
    }
}

/// Makes an edit of the session's own texts, and an accepted one at the desk. The answer is that of
/// the own texts. The desk numbers its edits, so there are never more than are counted.
#[tactic(auto, using(crate::proofs::Viewers::disputed))]
pub(crate) fn make_edit<J: Naming + StoreName, R: Wait + Drop, W: Wait>(
    rt: &W,
    alloc: Global,
    desk: &RunningDesk<J, R>,
    session: &mut Session<J>,
    edit: Edit,
) -> Result<Answer, SessionFault>
    requires ready { KnowsTexts session.old.viewer session.old.made (texts_of session.old.texts) }
    ensures edited { IfOk result
        (λ said. IsEditAnswer (texts_of session.old.texts) (edit_of edit) said
        (texts_of session.new.texts)) }
    ensures ready { OnOk result (KnowsTexts session.new.viewer session.new.made
        (texts_of session.new.texts)) }
    ensures fault { IfErr result IsOwnFault }
    ensures shared { result ≡ Err SessionFault.Shared → IsDisputed edit session.old.viewer }
    ensures accepted { result ≡ Err SessionFault.Shared
        → (after : BenchTexts) × Applies (texts_of session.old.texts) false (edit_of edit) after }
{
    own_edits_are_counted(&session.texts);
    let answer = match answer_edit(alloc, &mut session.texts, &edit) {
        Ok(answer) => answer,
        Err(_) => return Err(SessionFault::Memory),
    };
    if answer.is_refused() {
        return Ok(answer);
    }
    tell_desk(rt, desk, &mut session.viewer, edit)?;
    session.made += 1;
    Ok(answer)
}
