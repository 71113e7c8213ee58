//! What each change puts in the place of what, made before the texts change.

ghost use Rattle.std.specs.Prelude.{◌≡◌, IfOk};
ghost use Rattle.bench_texts.specs.Held.{texts_of};
ghost use Rattle.bench_texts.specs.Changes.{changed_texts, IsChangeReady, IsPutFor};
ghost use Rattle.bench_texts.specs.Replacements.{texts_with, IsReplaceable};

use crate::change::Change;
use crate::replacement::Replacement;
use crate::texts::Texts;
use std::alloc::{AllocError, Global};

impl Texts {
    /// What a change puts in the place of what: a whole new test where it changes a part of one,
    /// and a whole new model where it changes an item of one. Errors: want of memory.
    pub(crate) fn replacement_of(
        &self,
        alloc: Global,
        change: Change,
    ) -> Result<Replacement, AllocError>
        requires { IsChangeReady self.now change }
        ensures texts { IfOk result (λ r. texts_with r (texts_of self.now)
            ≡ changed_texts change (texts_of self.now)) }
        ensures ready { IfOk result (IsReplaceable self.now) }
        ensures target { IfOk result (IsPutFor change) }
    {
        match change {
            Change::PutTest { at, test } => Ok(Replacement::PutTest { at, test }),
            Change::DropTest { at } => Ok(Replacement::DropTest { at }),
            Change::SetInit { at, init } => self.replace_init(alloc, at, init),
            Change::SetThread { at, thread, other } => self.replace_thread(
                alloc, at, thread, other,
            ),
            Change::SetCond { at, condition } => self.replace_condition(alloc, at, condition),
            Change::SetObserved { at, observed } => self.replace_observed(alloc, at, observed),
            Change::PutModel { at, model, next } => Ok(Replacement::PutModel { at, model, next }),
            Change::DropModel { at } => Ok(Replacement::DropModel { at }),
            Change::SetItem {
                at,
                index,
                number,
                item,
            } => self.replace_set(alloc, at, index, number, item),
            Change::InsertItem { at, index, item } => self.replace_insert(alloc, at, index, item),
            Change::RemoveItem { at, index } => self.replace_remove(alloc, at, index),
        }
    }
}
