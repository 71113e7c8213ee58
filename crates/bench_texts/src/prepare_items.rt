//! What each edit of an item changes, or why it is refused.

ghost use Rattle.std.specs.Prelude.{◌≡◌};

use crate::change::Change;
use crate::count::outputs_of;
use crate::fault::EditFault;
use crate::model::MAX_ITEMS;
use crate::prepare_models::model_fault;
use crate::texts::Texts;
use cat_syntax::{CatFault, CatRule, read_item};
use std::alloc::Global;

impl Texts {
    ghost use Rattle.std.specs.Prelude.{ℕ, ◌<◌, ◌≤◌, ◌+◌, ◌-◌, ◌^◌, ◌==◌, ◌||◌, min, take, drop, length, IfOk, MatchResult, true, false, vec_len};
    ghost use Rattle.std.specs.List.{HoldsAt};
    ghost use Rattle.bench_texts.specs.declared.fault.EditFault.TheVariants.{NoItem};
    ghost use Rattle.bench_texts.specs.BenchTexts.{model_index};
    ghost use Rattle.bench_texts.specs.Held.{texts_of};
    ghost use Rattle.bench_texts.specs.Limits.{models_outputs};
    ghost use Rattle.bench_texts.specs.Changes.{IsChangeReady};
    ghost use Rattle.bench_texts.specs.Edits.{SetItem, InsertItem, RemoveItem, has_item, index_in, index_before};
    ghost use Rattle.bench_texts.specs.Answers.{Answers};

    // The index of an item that is there, in the model of an index.
    fn find_item(&self, model: &[u8], at: usize, number: u64) -> Result<usize, EditFault>
        requires found { at ≡ model_index model.now (texts_of self.now).models }
        requires there { at < vec_len self.now.models }
        ensures { MatchResult result
            (λ i. (i ≡ index_in (texts_of self.now) model.now number)
            × (has_item (texts_of self.now) model.now number ≡ true)
            × HoldsAt (λ m. i < length m.items) (texts_of self.now).models at)
            (λ f. (f ≡ NoItem) × (has_item (texts_of self.now) model.now number ≡ false)) }
    {
        let model = &self.models[at];
        let index = model.item_index(number);
        if index < model.len() {
            Ok(index)
        } else {
            Err(EditFault::NoItem)
        }
    }

    // The index before which an item is inserted, in the model of an index.
    fn find_before(&self, model: &[u8], at: usize, before: u64) -> Result<usize, EditFault>
        requires found { at ≡ model_index model.now (texts_of self.now).models }
        requires there { at < vec_len self.now.models }
        ensures { MatchResult result
            (λ i. (i ≡ index_before (texts_of self.now) model.now before)
            × ((before == 0 || has_item (texts_of self.now) model.now before) ≡ true)
            × HoldsAt (λ m. i ≤ length m.items) (texts_of self.now).models at)
            (λ f. (f ≡ NoItem)
            × ((before == 0 || has_item (texts_of self.now) model.now before) ≡ false)) }
    {
        if before == 0 {
            Ok(self.models[at].len())
        } else {
            self.find_item(model, at, before)
        }
    }

    // The outputs of the models where the items of one have these, or the greatest `usize` where
    // these are more.
    fn outputs_with(&self, at: usize, of_items: usize) -> usize
        requires { at < vec_len self.now.models }
        ensures { (exact : ℕ) → of_items ≡ min exact (2 ^ 64 - 1)
            → result
            ≡ min
            (models_outputs (take at (texts_of self.now).models)
            + models_outputs (drop (at + 1) (texts_of self.now).models) + (exact + 1))
            (2 ^ 64 - 1) }
    {
        self.outputs_around(at)
            .saturating_add(of_items.saturating_add(1))
    }

    pub(crate) fn prepare_set_item(
        &self,
        alloc: Global,
        model: &[u8],
        number: u64,
        text: &[u8],
        spent: bool,
    ) -> Result<Change, EditFault>
        ensures answer { Answers (texts_of self.now) spent (SetItem model.now number text.now)
            result }
        ensures ready { IfOk result (IsChangeReady self.now) }
    {
        let at = self.find_model(model)?;
        let index = self.find_item(model, at, number)?;
        let item = match read_item(alloc, text) {
            Ok(item) => item,
            Err(fault) => return Err(model_fault(fault)),
        };
        let others = self.models[at].outputs_without(index);
        let of_items = others.saturating_add(outputs_of(&item));
        let of_models = self.outputs_with(at, of_items);
        self.limited(
            Change::SetItem {
                at,
                index,
                number,
                item,
            },
            self.tests.len(),
            self.models.len(),
            of_models,
            spent,
        )
    }

    pub(crate) fn prepare_insert_item(
        &self,
        alloc: Global,
        model: &[u8],
        before: u64,
        text: &[u8],
        spent: bool,
    ) -> Result<Change, EditFault>
        ensures answer { Answers (texts_of self.now) spent (InsertItem model.now before text.now)
            result }
        ensures ready { IfOk result (IsChangeReady self.now) }
    {
        let at = self.find_model(model)?;
        let index = self.find_before(model, at, before)?;
        let item = match read_item(alloc, text) {
            Ok(item) => item,
            Err(fault) => return Err(model_fault(fault)),
        };
        if self.models[at].len() >= MAX_ITEMS {
            drop(item);
            let rule = CatRule::TooMany;
            return Err(EditFault::Model(CatFault::Refused { rule, offset: 0 }));
        }
        let others = self.models[at].outputs();
        let of_items = others.saturating_add(outputs_of(&item));
        let of_models = self.outputs_with(at, of_items);
        self.limited(
            Change::InsertItem { at, index, item },
            self.tests.len(),
            self.models.len(),
            of_models,
            spent,
        )
    }

    pub(crate) fn prepare_remove_item(
        &self,
        model: &[u8],
        item: u64,
        spent: bool,
    ) -> Result<Change, EditFault>
        ensures answer { Answers (texts_of self.now) spent (RemoveItem model.now item) result }
        ensures ready { IfOk result (IsChangeReady self.now) }
    {
        let at = self.find_model(model)?;
        let index = self.find_item(model, at, item)?;
        let of_items = self.models[at].outputs_without(index);
        let of_models = self.outputs_with(at, of_items);
        self.limited(
            Change::RemoveItem { at, index },
            self.tests.len(),
            self.models.len(),
            of_models,
            spent,
        )
    }
}
