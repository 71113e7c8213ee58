//! What each edit of a model changes, or why it is refused.

ghost use Rattle.std.specs.Prelude.{◌≡◌, ℕ, List, ◌&&◌, nat_lt};
ghost use Rattle.std.specs.List.{list_all};
ghost use Rattle.bench_texts.specs.Answers.{model_fault_of};
ghost use Rattle.bench_texts.specs.Limits.{is_model_name};

use crate::change::Change;
use crate::count::{count_items, count_models};
use crate::fault::EditFault;
use crate::model::NamedModel;
use crate::texts::Texts;
use cat_syntax::{CatFault, read_model};
use std::alloc::{AllocError, Global};
use text_values::{Item, ModelText};

// A refusal of a reader, with want of memory apart.
pub(crate) fn model_fault(fault: CatFault) -> EditFault
    ensures { result ≡ model_fault_of fault }
{
    match fault {
        CatFault::Refused { rule, offset } => EditFault::Model(CatFault::Refused { rule, offset }),
        CatFault::OutOfMemory(error) => EditFault::OutOfMemory(error),
    }
}

// Whether all are printable ASCII bytes, and none of them is a space.
fn are_printable(bytes: &[u8]) -> bool
    ensures { result ≡ list_all (λ b. nat_lt 32 b && nat_lt b 127) bytes.now }
{
    for index in 0..bytes.len() {
        if bytes[index] <= 32 || bytes[index] >= 127 {
            return false;
        }
    }
    true
}

// Whether a model may have that name.
fn is_model_name(name: &[u8]) -> bool
    ensures { result ≡ is_model_name name.now }
{
    !name.is_empty() && name.len() <= 64 && are_printable(name)
}

impl Texts {
    ghost use Rattle.std.specs.Prelude.{◌<◌, ◌≤◌, ◌+◌, ◌-◌, ◌^◌, min, take, drop, length, IfOk, MatchResult, true, false, vec_len};
    ghost use Rattle.bench_texts.specs.declared.fault.EditFault.TheVariants.{NoModel};
    ghost use Rattle.bench_texts.specs.BenchTexts.{model_index, put_at, numbered_items, with_models};
    ghost use Rattle.text_values.specs.ModelValues.{clauses_of};
    ghost use Rattle.bench_texts.specs.Held.{texts_of, AreModelsRead};
    ghost use Rattle.bench_texts.specs.Limits.{models_outputs};
    ghost use Rattle.bench_texts.specs.Changes.{IsChangeReady, IsPutFor, changed_texts};
    ghost use Rattle.bench_texts.specs.Edits.{PutModel, DropModel, has_model, limit_fault};
    ghost use Rattle.bench_texts.specs.Answers.{Answers};
    ghost use Rattle.bench_texts.specs.declared.replacement.Replacement.{Replacement};
    ghost use Rattle.bench_texts.specs.Replacements.{IsModelPut};

    // The index of a model that is there.
    pub(crate) fn find_model(&self, name: &[u8]) -> Result<usize, EditFault>
        ensures { MatchResult result
            (λ i. (i ≡ model_index name.now (texts_of self.now).models)
            × (has_model (texts_of self.now) name.now ≡ true) × (i < vec_len self.now.models))
            (λ f. (f ≡ NoModel) × (has_model (texts_of self.now) name.now ≡ false)) }
    {
        let at = self.model_index(name);
        if at < self.models.len() {
            Ok(at)
        } else {
            Err(EditFault::NoModel)
        }
    }

    // The outputs of the models but the one of an index, or the greatest `usize` where these are
    // more.
    pub(crate) fn outputs_around(&self, at: usize) -> usize
        requires { at < vec_len self.now.models }
        ensures { result
            ≡ min
            (models_outputs (take at (texts_of self.now).models)
            + models_outputs (drop (at + 1) (texts_of self.now).models))
            (2 ^ 64 - 1) }
    {
        let models = self.models.as_slice();
        let (front, _) = models.split_at(at);
        let (_, back) = models.split_at(at + 1);
        count_models(front).saturating_add(count_models(back))
    }

    pub(crate) fn prepare_drop_model(&self, model: &[u8], spent: bool) -> Result<Change, EditFault>
        ensures answer { Answers (texts_of self.now) spent (DropModel model.now) result }
        ensures ready { IfOk result (IsChangeReady self.now) }
    {
        let at = self.find_model(model)?;
        let models = self.models.len() - 1;
        self.limited(
            Change::DropModel { at },
            self.tests.len(),
            models,
            self.outputs_around(at),
            spent,
        )
    }

    // The outputs of the models with one of these items at an index, or the greatest `usize` where
    // these are more.
    fn outputs_put(&self, at: usize, items: &[Item]) -> usize
        requires { at ≤ vec_len self.now.models }
        ensures { (name : List ℕ) (first : ℕ)
            → result
            ≡ min
            (models_outputs (put_at at
            (record {
              name = name;
              items = numbered_items first (clauses_of items.now);
            })
            (texts_of self.now).models))
            (2 ^ 64 - 1) }
    {
        let of_model = count_items(items).saturating_add(1);
        if at < self.models.len() {
            self.outputs_around(at).saturating_add(of_model)
        } else {
            self.outputs().saturating_add(of_model)
        }
    }

    // Why the texts with a model of these items at an index are refused.
    fn put_fault(&self, at: usize, items: &[Item], spent: bool) -> Option<EditFault>
        requires { at ≤ vec_len self.now.models }
        ensures { (name : List ℕ) (next : ℕ)
            → result
            ≡ limit_fault (texts_of self.now) spent (with_models
            (put_at at (record {
              name = name;
              items = numbered_items (texts_of self.now).next
                  (clauses_of items.now);
            })) next
            (texts_of self.now)) }
    {
        let models = self.models.len().max(at + 1);
        self.limit_fault(self.tests.len(), models, self.outputs_put(at, items), spent)
    }

    // A model of a name and a text at an index, with room for it.
    fn make_model(
        &mut self,
        alloc: Global,
        at: usize,
        name: &[u8],
        text: ModelText,
    ) -> Result<Change, AllocError>
        requires index { at ≤ vec_len self.old.models }
        requires next { self.old.next ≤ 2 ^ 63 }
        ensures change { IfOk result (λ c. changed_texts c (texts_of self.old)
            ≡ with_models
            (put_at at (record {
              name = name.now;
              items = numbered_items (texts_of self.old).next
                  (clauses_of text.items.items);
            }))
            ((texts_of self.old).next + length (clauses_of text.items.items))
            (texts_of self.old)) }
        ensures target { IfOk result (λ c. (r : Replacement) → IsPutFor c r → IsModelPut at r) }
        ensures ready { IfOk result (IsChangeReady self.new) }
        ensures kept { texts_of self.new ≡ texts_of self.old }
        ensures tests { self.new.tests.items ≡ self.old.tests.items }
        ensures models { self.new.models.items ≡ self.old.models.items }
        ensures read { AreModelsRead self.old → AreModelsRead self.new }
    {
        let next = self.next + text.items.len() as u64;
        let model = NamedModel::new(alloc, name, text, self.next)?;
        self.models.reserve(1)?;
        Ok(Change::PutModel { at, model, next })
    }

    pub(crate) fn prepare_put_model(
        &mut self,
        alloc: Global,
        model: &[u8],
        text: &[u8],
        spent: bool,
    ) -> Result<Change, EditFault>
        ensures answer { Answers (texts_of self.old) spent (PutModel model.now text.now) result }
        ensures ready { IfOk result (IsChangeReady self.new) }
        ensures kept { texts_of self.new ≡ texts_of self.old }
        ensures tests { self.new.tests.items ≡ self.old.tests.items }
        ensures models { self.new.models.items ≡ self.old.models.items }
        ensures read { AreModelsRead self.old → AreModelsRead self.new }
    {
        if !is_model_name(model) {
            return Err(EditFault::NoModel);
        }
        let read = match read_model(alloc, text) {
            Ok(read) => read,
            Err(fault) => return Err(model_fault(fault)),
        };
        let at = self.model_index(model);
        if let Some(fault) = self.put_fault(at, &read.items, spent) {
            return Err(fault);
        }
        match self.make_model(alloc, at, model, read) {
            Ok(change) => Ok(change),
            Err(error) => Err(EditFault::OutOfMemory(error)),
        }
    }
}
