//! The answer to an edit.

ghost use Rattle.std.specs.Prelude.{◌≡◌, IfOk, OnErr};
ghost use Rattle.bench_texts.specs.Edits.{edit_of};
ghost use Rattle.bench_texts.specs.Held.{texts_of};
ghost use Rattle.session_edits.specs.Edits.{IsEditAnswer};

use crate::answer::Answer;
use crate::refusal::refused_edit;
use bench_texts::{Edit, Texts};
use std::alloc::{AllocError, Global};

/// Makes an edit of the texts and says so, or says why it is refused. Errors: out of memory, and
/// then the texts are as before.
pub fn answer_edit(alloc: Global, texts: &mut Texts, edit: &Edit) -> Result<Answer, AllocError>
    ensures edited { IfOk result (λ said.
        IsEditAnswer (texts_of texts.old) (edit_of edit.now) said (texts_of texts.new)) }
    ensures kept { OnErr result (texts_of texts.new ≡ texts_of texts.old) }
{
    match texts.prepare_unless_spent(alloc, edit, false) {
        Ok(prepared) => {
            let answer = Answer::accepted(alloc)?;
            texts.commit(prepared);
            Ok(answer)
        }
        Err(fault) => refused_edit(alloc, fault),
    }
}
