//! Whole models with one item changed, made before the texts change.

ghost use Rattle.std.specs.Prelude.{◌≡◌, IfOk};
ghost use Rattle.bench_texts.specs.declared.change.Change.TheVariants as changes;
ghost use Rattle.bench_texts.specs.Held.{texts_of};
ghost use Rattle.bench_texts.specs.Changes.{changed_texts, IsChangeReady};
ghost use Rattle.bench_texts.specs.Replacements.{texts_with, IsReplaceable, IsModelPut};

use crate::replacement::Replacement;
use crate::texts::Texts;
use std::alloc::{AllocError, Global};
use text_values::Item;

impl Texts {
    pub(crate) fn replace_set(
        &self,
        alloc: Global,
        at: usize,
        index: usize,
        number: u64,
        item: Item,
    ) -> Result<Replacement, AllocError>
        requires { IsChangeReady self.now (changes.SetItem at index number item) }
        ensures texts { IfOk result (λ r. texts_with r (texts_of self.now)
            ≡ changed_texts (changes.SetItem at index number item) (texts_of self.now)) }
        ensures ready { IfOk result (IsReplaceable self.now) }
        ensures target { IfOk result (IsModelPut at) }
    {
        let model = self.models[at].with_set(alloc, index, number, item)?;
        let next = self.next;
        Ok(Replacement::PutModel { at, model, next })
    }

    pub(crate) fn replace_insert(
        &self,
        alloc: Global,
        at: usize,
        index: usize,
        item: Item,
    ) -> Result<Replacement, AllocError>
        requires { IsChangeReady self.now (changes.InsertItem at index item) }
        ensures texts { IfOk result (λ r. texts_with r (texts_of self.now)
            ≡ changed_texts (changes.InsertItem at index item) (texts_of self.now)) }
        ensures ready { IfOk result (IsReplaceable self.now) }
        ensures target { IfOk result (IsModelPut at) }
    {
        let model = self.models[at].with_inserted(alloc, index, self.next, item)?;
        let next = self.next + 1;
        Ok(Replacement::PutModel { at, model, next })
    }

    pub(crate) fn replace_remove(
        &self,
        alloc: Global,
        at: usize,
        index: usize,
    ) -> Result<Replacement, AllocError>
        requires { IsChangeReady self.now (changes.RemoveItem at index) }
        ensures texts { IfOk result (λ r. texts_with r (texts_of self.now)
            ≡ changed_texts (changes.RemoveItem at index) (texts_of self.now)) }
        ensures ready { IfOk result (IsReplaceable self.now) }
        ensures target { IfOk result (IsModelPut at) }
    {
        let model = self.models[at].with_removed(alloc, index)?;
        let next = self.next;
        Ok(Replacement::PutModel { at, model, next })
    }
}
